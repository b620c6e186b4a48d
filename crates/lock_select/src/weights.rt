//! The weights of the depths.
ghost use Rattle.std.specs.Prelude.{◌≡◌, ◌≤◌, ◌<◌, ℕ, List, None, Some, IfOk, IfErr, All, IfSome};
ghost use Rattle.out_of_memory.specs.Memory.{UnlessMemory};
ghost use Rattle.byte_text.specs.Views.{text_at};
ghost use Rattle.lock_select.specs.Texts.{AreWeights, Weighs, default_weights, listed_weights, weight_limit, weight_of};

use byte_text::{Class, first_piece, number_in};
use run_faults::SelectFault;
use std::alloc::{AllocError, Global};
use topo_tree::AsTree;

// The greatest weight.
const WEIGHT_LIMIT: u64 = 1000000;

/// The weights of the depths, Machine first: those that are given as a comma list of numbers from 1 to 1,000,000, or else for each depth
/// twice that of the depth below, with 1 for the PUs. They are refused with `Weights` where the list is no such list, or has not as many
/// numbers as there are depths.
pub fn read_weights<T: AsTree>(
    alloc: Global,
    topology: &T,
    text: Option<&[u8]>,
) -> Result<Vec<u64>, SelectFault>
    ensures weights { IfOk result (λ weights. AreWeights (T.described topology.now) (text_at text.entry) weights.items) }
    ensures usable { IfOk result (λ weights. Weighs (T.described topology.now) weights.items) }
    ensures refused { IfErr result (λ fault. UnlessMemory SelectFault.OutOfMemory fault ((fault ≡ SelectFault.Weights)
        × ((weights : List ℕ) → AreWeights (T.described topology.now) (text_at text.entry) weights → ⊥))) }
{
    let depths = topology.as_tree().depths();
    let Some(text) = text else {
        return Ok(default_weights(alloc, depths)?);
    };
    let weights = read_list(alloc, text)?;
    if weights.len() == depths as usize {
        Ok(weights)
    } else {
        Err(SelectFault::Weights)
    }
}

// The numbers of a comma list.
fn read_list(alloc: Global, text: &[u8]) -> Result<Vec<u64>, SelectFault>
    ensures listed { IfOk result (λ weights. listed_weights text.now ≡ Some weights.items) }
    ensures few { IfOk result (λ weights. All (λ weight. weight ≤ weight_limit) weights.items) }
    ensures refused { IfErr result (λ fault. UnlessMemory SelectFault.OutOfMemory fault
        ((fault ≡ SelectFault.Weights) × (listed_weights text.now ≡ None))) }
{
    let mut weights = Vec::new(alloc);
    let mut rest = Some(text);
    while let Some(text) = rest {
        let (piece, behind) = first_piece(text, Class::Byte(b','));
        let Some(weight) = read_weight(piece) else {
            return Err(SelectFault::Weights);
        };
        weights.push(weight)?;
        rest = behind;
    }
    Ok(weights)
}

// One weight.
#[tactic(auto, unfolding(crate::specs::Texts::weight_of))]
fn read_weight(text: &[u8]) -> Option<u64>
    ensures weight { result ≡ weight_of text.now }
    ensures few { IfSome result (λ weight. weight ≤ weight_limit) }
{
    number_in(1, WEIGHT_LIMIT, text)
}

// The weights where none are given.
#[tactic(auto, unfolding(crate::specs::Texts::default_weights))]
fn default_weights(alloc: Global, depths: u32) -> Result<Vec<u64>, AllocError>
    requires { depths ≤ 17 }
    ensures { IfOk result (λ weights. weights.items ≡ default_weights depths) }
{
    let mut weights = Vec::with_capacity(alloc, depths as usize)?;
    for depth in 0..depths {
        weights.push(1 << (depths - 1 - depth))?;
    }
    Ok(weights)
}
