//! The sections of the input: each is a head on a line of its own, as many bytes as it tells, and a line end.
ghost use Rattle.std.specs.Prelude.{◌≡◌, ◌≤◌, ◌<◌, ◌++◌, ◌∷◌, [], List, ℕ, MatchOption, IfOk, IfErr, length, map, vec_len, sum_by};
ghost use Rattle.std.specs.List.{enumerate_from};
ghost use Rattle.out_of_memory.specs.Memory.{UnlessMemory};
ghost use Rattle.run_faults.specs.declared.fault.SectionFault.TheVariants as faults;
ghost use Rattle.run_texts.specs.Callers.{caller_limit};
ghost use Rattle.run_texts.specs.Views.{section_view};
ghost use Rattle.placed_runner.specs.Sections.{
  BeginsWith,
  ReadsTo,
  FrontBreaks,
  IsRefused,
  AreSections,
  Sections,
  placed,
};
ghost use Rattle.placed_runner.specs.Views.{written_view};

use crate::heads::read_head;
use crate::place::{Place, masks, pu_on, read_place};
use byte_text::cut_at;
use out_of_memory::OutOfMemory;
use run_faults::SectionFault;
use run_texts::Section;
use std::alloc::Global;
use topo_tree::{AsTree, Tree};

// How many callers a run may have.
const CALLER_LIMIT: usize = 256;

// A section as it is written, once its place is read.
#[derive(Clone, Copy, Debug)]
pub(crate) struct Written<'a> {
    pub place: Place,
    pub bytes: &'a [u8],
}

/// Reads an input as sections, with the PUs of their callers in the topology. It is refused for the first rule that is
/// broken, section by section: at most 256 sections, a head, a place, as many bytes as the head tells and a line end.
pub fn read_sections<'a, T: AsTree>(
    alloc: Global,
    topology: &T,
    input: &'a [u8],
) -> Result<Vec<Section<'a>>, SectionFault>
    ensures sections { IfOk result (λ sections. Sections (T.described topology.now) input.now (map section_view sections.items)) }
    ensures refused { IfErr result (λ fault. UnlessMemory faults.OutOfMemory fault (IsRefused (T.described topology.now) input.now fault)) }

    // What callers need of their number and their bytes.
    ensures few { IfOk result (λ sections. vec_len sections ≤ caller_limit) }
    ensures small { IfOk result (λ sections. sum_by (λ section. length section.bytes.now) sections.items ≤ length input.now) }
{
    let tree = topology.as_tree();
    let written = read_written(alloc, tree, input)?;
    match place_all(alloc, tree, &written) {
        Ok(sections) => Ok(sections),
        Err(OutOfMemory) => Err(SectionFault::OutOfMemory),
    }
}

// The sections of an input as they are written.
fn read_written<'a>(
    alloc: Global,
    tree: &Tree,
    input: &'a [u8],
) -> Result<Vec<Written<'a>>, SectionFault>
    ensures sections { IfOk result (λ sections. ReadsTo tree.now input.now (map written_view sections.items) []) }
    ensures few { IfOk result (λ sections. vec_len sections ≤ caller_limit) }
    ensures refused { IfErr result (λ fault. UnlessMemory faults.OutOfMemory fault (IsRefused tree.now input.now fault)) }
{
    let mut sections = Vec::new(alloc);
    let mut rest = input;
    while !rest.is_empty() {
        if sections.len() >= CALLER_LIMIT {
            return Err(SectionFault::TooManyCallers);
        }
        let at = input.len() - rest.len();
        let (section, behind) = read_front(alloc, tree, rest, at)?;
        sections.push(section)?;
        rest = behind;
    }
    Ok(sections)
}

// The section with which a text begins that stands at an offset of the input, and what stands behind it.
fn read_front<'a>(
    alloc: Global,
    tree: &Tree,
    text: &'a [u8],
    at: usize,
) -> Result<(Written<'a>, &'a [u8]), SectionFault>
    ensures begins { IfOk result (λ found. BeginsWith tree.now text.now (written_view found.0) found.1.now) }
    ensures refused { IfErr result (λ fault. UnlessMemory faults.OutOfMemory fault (FrontBreaks tree.now at text.now fault)) }
{
    let Some((line, behind)) = cut_at(text, b'\n') else {
        return Err(SectionFault::BadHead { at });
    };
    let Some(head) = read_head(line) else {
        return Err(SectionFault::BadHead { at });
    };
    let place = match read_place(alloc, tree, head.place, at) {
        Ok(place) => place,
        Err(fault) => return Err(fault),
    };
    let Some((bytes, behind)) = split_bytes(behind, head.size) else {
        return Err(SectionFault::Short { at });
    };
    Ok((Written { place, bytes }, behind))
}

// So many bytes of a text, and what stands behind the line end behind them.
fn split_bytes(text: &[u8], size: u64) -> Option<(&[u8], &[u8])>
    ensures { MatchOption result
        ((bytes : List ℕ) (behind : List ℕ) → text.now ≡ bytes ++ 10 ∷ behind → length bytes ≡ size → ⊥)
        (λ parts. (text.now ≡ parts.0.now ++ 10 ∷ parts.1.now) × (length parts.0.now ≡ size)) }
{
    let (bytes, end) = text.split_at_checked(size as usize)?;
    match end {
        [b'\n', behind @ ..] => Some((bytes, behind)),
        _ => None,
    }
}

/// The sections with their callers' PUs.
pub(crate) fn place_all<'a>(
    alloc: Global,
    tree: &Tree,
    written: &[Written<'a>],
) -> Result<Vec<Section<'a>>, OutOfMemory>
    requires { length written.now ≤ caller_limit }
    ensures placed { IfOk result (λ sections.
        map section_view sections.items ≡ placed tree.now (map written_view written.now)) }
{
    let mut sections = Vec::with_capacity(alloc, written.len())?;
    if written.is_empty() {
        return Ok(sections);
    }
    let masks = masks(alloc, tree, written.len() as u32)?;
    for (caller, section) in written.iter().enumerate() {
        sections.push(Section {
            pu: pu_on(tree, &masks, caller, section.place),
            bytes: section.bytes,
        })?;
    }
    Ok(sections)
}
