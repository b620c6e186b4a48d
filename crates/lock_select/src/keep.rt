//! How often a level keeps the lock.
ghost use Rattle.std.specs.Prelude.{◌≡◌, ◌≤◌, None, Some, IfOk, IfErr};
ghost use Rattle.lock_select.specs.Texts.{keep_limit, keep_of};

use byte_text::number_up_to;
use run_faults::SelectFault;

// The most turns in a row that a level keeps the lock for.
const KEEP_LIMIT: u64 = 65535;

/// The number that a keep writes. It is refused with `Keep` where it is not a decimal number of at most 65,535.
#[tactic(auto, unfolding(crate::specs::Texts::keep_of))]
pub fn read_keep(text: &[u8]) -> Result<u32, SelectFault>
    ensures keep { IfOk result (λ keep. keep_of text.now ≡ Some keep) }
    ensures few { IfOk result (λ keep. keep ≤ keep_limit) }
    ensures refused { IfErr result (λ fault. fault ≡ SelectFault.Keep) }
    ensures refused_where { IfErr result (λ _. keep_of text.now ≡ None) }
{
    match number_up_to(KEEP_LIMIT, text) {
        Some(keep) => Ok(keep as u32),
        None => Err(SelectFault::Keep),
    }
}
