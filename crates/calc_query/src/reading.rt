//! Terms and locations, read.
ghost use Rattle.std.specs.Prelude.{◌≡◌, ◌-◌, ◌≤◌, ◌==◌, length, IfOk};
ghost use Rattle.std.specs.List.{slice_split, AllByRecursion};
ghost use Rattle.synth_text.specs.declared.description.Description.{Description};
ghost use Rattle.topo_tree.specs.Objects.{IsLayer};
ghost use Rattle.calc_query.specs.Readings.{part_of, parts_from, numbers_location, is_whole, location_of, op_of, op_len, term_of, Answers};
ghost use Rattle.cpu_set.specs.Readings.{hex_fault};
ghost use Rattle.calc_query.specs.Selection.{HasLayers};

use crate::fault::CalcFault;
use crate::indexes::read_pick;
use crate::query::{Location, Op, Part, Term};
use byte_text::{Class, first_part, first_piece};
use cpu_set::CpuSet;
use std::alloc::Global;
use synth_text::Sequence;
use topo_tree::{AsTree, Tree};

/// Reads a word as an operator, if it has one, and a location. A fault carries the word's number.
pub fn read_term<T: AsTree>(
    alloc: Global,
    topology: &T,
    word: &[u8],
    number: u32,
) -> Result<Term, CalcFault>
    ensures term { Answers result (term_of (T.described topology.now) number word.now) }
    ensures layers { IfOk result (λ term. HasLayers (T.described topology.now) term.location) }
{
    let op = read_op(word);
    let (_, text) = word.split_at(op.len());
    let location = read_behind(alloc, topology.as_tree(), text, number, word.len())?;
    Ok(Term { op, location })
}

/// Reads a word as a location, without an operator. A fault carries the word's number.
pub fn read_location<T: AsTree>(
    alloc: Global,
    topology: &T,
    word: &[u8],
    number: u32,
) -> Result<Location, CalcFault>
    ensures location { Answers result (location_of (T.described topology.now) number 0 word.now) }
    ensures layers { IfOk result (HasLayers (T.described topology.now)) }
{
    read_behind(alloc, topology.as_tree(), word, number, word.len())
}

// The operation that a word begins with.
fn read_op(word: &[u8]) -> Op
    ensures { result ≡ op_of word.now }
{
    match word {
        [b'~', ..] => Op::Remove,
        [b'x', ..] => Op::Meet,
        [b'^', ..] => Op::Differ,
        _ => Op::Join,
    }
}

impl Op {
    // How many bytes it has in a word.
    fn len(self) -> usize
        ensures { result ≡ op_len self }
    {
        match self {
            Op::Join => 0,
            Op::Remove | Op::Meet | Op::Differ => 1,
        }
    }
}

// Reads a location that ends a word of a length.
fn read_behind(
    alloc: Global,
    tree: &Tree,
    text: &[u8],
    word: u32,
    end: usize,
) -> Result<Location, CalcFault>
    requires { length text.now ≤ end }
    ensures location { Answers result (location_of tree.now word (end - length text.now) text.now) }
    ensures layers { IfOk result (HasLayers tree.now) }
{
    if is_whole(text) {
        return Ok(Location::All);
    }
    let at = end - text.len();
    if text.is_empty() {
        return Err(CalcFault::Location { word, at });
    }
    if text[0].is_ascii_digit() {
        return read_numbers(text, word, at);
    }
    let parts = read_parts(alloc, tree, text, word, end)?;
    Ok(Location::Parts(parts))
}

// Whether a text names the whole machine.
fn is_whole(text: &[u8]) -> bool
    ensures { result ≡ is_whole text.now }
{
    text == b"all".as_slice() || text == b"root".as_slice()
}

// Reads a set in hexadecimal.
fn read_numbers(text: &[u8], word: u32, at: usize) -> Result<Location, CalcFault>
    ensures location { Answers result (numbers_location word at text.now (hex_fault text.now)) }
    ensures layers { (described : Description) → IfOk result (HasLayers described) }
{
    match CpuSet::read_hex(text) {
        Ok(numbers) => Ok(Location::Numbers(numbers)),
        Err(_) => Err(CalcFault::Location { word, at }),
    }
}

// Reads parts with a dot between each two, which end a word of a length.
fn read_parts(
    alloc: Global,
    tree: &Tree,
    text: &[u8],
    word: u32,
    end: usize,
) -> Result<Sequence<Part>, CalcFault>
    requires { length text.now ≤ end }
    ensures parts { Answers result (parts_from tree.now word (end - length text.now) (slice_split (λ byte. byte == 46) text.now)) }
    ensures layers { IfOk result (AllByRecursion (λ part. IsLayer tree.now part.layer)) }
{
    let mut parts = Vec::new(alloc);
    let mut rest = Some(text);
    while let Some(pieces) = rest {
        let (piece, behind) = first_part(pieces, b'.');
        let part = read_part(tree, piece, word, end - pieces.len())?;
        parts.push(part)?;
        rest = behind;
    }
    Ok(Sequence::from_vec(parts))
}

// Reads one part that begins at an offset.
#[tactic(auto, unfolding(crate::specs::Readings::part_of))]
fn read_part(tree: &Tree, piece: &[u8], word: u32, at: usize) -> Result<Part, CalcFault>
    ensures part { result ≡ part_of tree.now word at piece.now }
    ensures layer { IfOk result (λ part. IsLayer tree.now part.layer) }
{
    let (name, index) = first_piece(piece, Class::Byte(b':'));
    let Some(layer) = tree.layer_named(name) else {
        return Err(CalcFault::NoSuchType { word });
    };
    let location = CalcFault::Location { word, at };
    let Some(index) = index else {
        return Err(location);
    };
    match read_pick(index) {
        Some(pick) => Ok(Part { layer, pick }),
        None => Err(location),
    }
}
