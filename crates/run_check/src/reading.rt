//! Who held the lock by the line of a turn, and what it saw.

ghost use Rattle.std.specs.Prelude.{◌≡◌, option_map};
ghost use Rattle.byte_text.specs.Views.{text_at, texts};
ghost use Rattle.run_check.specs.Readings.{at_space, behind_spaces, hold_view, number_at, told_hold};

use byte_text::{Class, cut, number32};

/// A hold of the lock: who held it, and at which levels others were waiting.
#[derive(Clone, Copy, Debug, PartialEq, Eq)]
pub(crate) struct Hold {
    pub caller: u32,
    pub tests: u32,
}

/// The hold that the line of a turn tells at the front of a text. Of the line's other parts nothing is said.
#[tactic(auto, unfolding(crate::specs::Readings::told_hold))]
pub(crate) fn read_hold(text: &[u8]) -> Option<Hold>
    ensures { option_map hold_view result ≡ told_hold text.now }
{
    let caller = number_at(text, 3)?;
    let tests = number_at(text, 9)?;
    Some(Hold { caller, tests })
}

// The number that stands behind so many spaces of a text, up to the next one.
#[tactic(auto, unfolding(crate::specs::Readings::number_at))]
fn number_at(text: &[u8], spaces: u32) -> Option<u32>
    ensures { result ≡ number_at spaces text.now }
{
    let part = behind_spaces(text, spaces)?;
    let (digits, _) = at_space(part)?;
    number32(digits)
}

// What stands behind so many spaces of a text.
fn behind_spaces(text: &[u8], spaces: u32) -> Option<&[u8]>
    ensures { text_at result ≡ behind_spaces spaces text.now }
{
    let mut rest = text;
    for _ in 0..spaces {
        let (_, behind) = at_space(rest)?;
        rest = behind;
    }
    Some(rest)
}

// What stands before the first space of a text, and what stands behind it.
fn at_space(text: &[u8]) -> Option<(&[u8], &[u8])>
    ensures { texts result ≡ at_space text.now }
{
    cut(text, Class::Byte(b' '))
}
