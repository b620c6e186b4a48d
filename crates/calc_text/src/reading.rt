//! The words of a calculation, read on a topology.
ghost use Rattle.std.specs.Prelude.{◌≡◌, ◌≤◌, ◌^◌, Ok, map, length, IfOk, IfErr, IfSome};
ghost use Rattle.std.specs.List.{AllByRecursion};
ghost use Rattle.topo_tree.specs.Objects.{IsLayer};
ghost use Rattle.calc_query.specs.Readings.{FailsWith};
ghost use Rattle.calc_query.specs.Selection.{HaveLayers};
ghost use Rattle.calc_text.specs.Reading.{terms_from, layers_named, names_in};

use byte_text::first_part;
use calc_query::{CalcFault, Term, read_term};
use out_of_memory::OutOfMemory;
use sequence::Sequence;
use std::alloc::Global;
use topo_tree::{Layer, Tree};

/// Reads words as terms, which are numbered from 0. A fault is that of the first bad word.
pub fn read_terms(alloc: Global, tree: &Tree, words: &[&[u8]]) -> Result<Vec<Term>, CalcFault>
    requires { length words.now ≤ 2 ^ 32 }
    ensures terms { IfOk result (λ terms. terms_from tree.now 0 (map (λ word. word.now) words.now) ≡ Ok terms.items) }
    ensures refused { IfErr result (λ fault. FailsWith fault (terms_from tree.now 0 (map (λ word. word.now) words.now))) }
    ensures layers { IfOk result (λ terms. HaveLayers tree.now terms.items) }
{
    let mut terms = Vec::new(alloc);
    for (number, word) in words.iter().enumerate() {
        match read_term(alloc, tree, word, number as u32) {
            Ok(term) => terms.push(term)?,
            Err(fault) => return Err(fault),
        }
    }
    Ok(terms)
}

/// Reads names of layers, between each two of which a dot stands. `None`: some of them names no layer.
pub fn read_layers(
    alloc: Global,
    tree: &Tree,
    names: &[u8],
) -> Result<Option<Sequence<Layer>>, OutOfMemory>
    ensures layers { IfOk result (λ found. found ≡ layers_named tree.now (names_in names.now)) }
    ensures fit { IfOk result (λ found. IfSome found (AllByRecursion (IsLayer tree.now))) }
{
    let mut layers = Vec::new(alloc);
    let mut rest = Some(names);
    while let Some(pieces) = rest {
        let (name, behind) = first_part(pieces, b'.');
        match tree.layer_named(name) {
            Some(layer) => layers.push(layer)?,
            None => return Ok(None),
        }
        rest = behind;
    }
    Ok(Some(Sequence::from_vec(layers)))
}
