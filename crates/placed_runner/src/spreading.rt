//! Sections that are made, and not read: their callers are spread over the topology.
ghost use Rattle.std.specs.Prelude.{◌≡◌, ◌≤◌, length, map, IfOk};
ghost use Rattle.run_texts.specs.Callers.{caller_limit};
ghost use Rattle.placed_runner.specs.Sections.{anywhere, placed};
ghost use Rattle.run_texts.specs.Views.{section_view};
ghost use Rattle.placed_runner.specs.Views.{written_view};

use crate::place::Place;
use crate::sections::{Written, place_all};
use out_of_memory::OutOfMemory;
use run_texts::Section;
use std::alloc::{AllocError, Global};
use topo_tree::AsTree;

/// Sections of these bytes, whose callers may each stand on any PU, with the PUs over which they are spread: where the
/// callers stand whose sections are read with the place `*`.
pub fn spread<'a, T: AsTree>(
    alloc: Global,
    topology: &T,
    sections: &'a [Vec<u8>],
) -> Result<Vec<Section<'a>>, OutOfMemory>
    requires { length sections.now ≤ caller_limit }
    ensures placed { IfOk result (λ placed_sections. map section_view placed_sections.items
        ≡ placed (T.described topology.now) (map (λ bytes. anywhere bytes.items) sections.now)) }
    ensures bytes { IfOk result (λ placed_sections.
        map (λ section. section.bytes.now) placed_sections.items ≡ map (λ bytes. bytes.items) sections.now) }
{
    let written = on_any(alloc, sections)?;
    place_all(alloc, topology.as_tree(), &written)
}

// Sections of these bytes, whose callers may each stand on any PU.
fn on_any<'a>(alloc: Global, sections: &'a [Vec<u8>]) -> Result<Vec<Written<'a>>, AllocError>
    ensures { IfOk result (λ written. map written_view written.items ≡ map (λ bytes. anywhere bytes.items) sections.now) }
{
    let mut written = Vec::with_capacity(alloc, sections.len())?;
    for bytes in sections {
        written.push(Written {
            place: Place::Anywhere,
            bytes,
        })?;
    }
    Ok(written)
}
