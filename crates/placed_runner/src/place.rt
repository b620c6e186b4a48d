//! Where callers stand.
ghost use Rattle.std.specs.Prelude.{◌≡◌, ◌<◌, ◌≤◌, [], ◌∷◌, Some, None, IfOk, IfErr, length};
ghost use Rattle.calc_query.specs.declared.query.Op.TheVariants as ops;
ghost use Rattle.calc_query.specs.declared.query.Numbering.TheVariants as numberings;
ghost use Rattle.calc_query.specs.Selection.{selected, HasLayers};
ghost use Rattle.distrib_rules.specs.Faults.{mask_limit};
ghost use Rattle.out_of_memory.specs.Memory.{UnlessMemory};
ghost use Rattle.run_faults.specs.declared.fault.SectionFault.TheVariants as faults;
ghost use Rattle.placed_runner.specs.Places.{lone_pu, place_of, masks_of, first_pu, mask_pu, pu_on};

use calc_query::{CalcFault, Location, Numbering, Op, Term, read_location, select};
use cpu_set::CpuSet;
use distrib_rules::distrib;
use out_of_memory::OutOfMemory;
use run_faults::SectionFault;
use std::alloc::Global;
use topo_tree::Tree;

/// Where a caller stands.
#[derive(Clone, Copy, Debug, PartialEq, Eq)]
pub enum Place {
    /// On any PU: the callers are spread over the topology.
    Anywhere,
    /// On the PU with this logical number.
    On(u32),
}

/// The place that a word names: any for `*`, and else the one PU of a location. `at` is where the head of the word begins.
#[tactic(auto, unfolding(crate::specs::Places::place_of))]
pub(crate) fn read_place(
    alloc: Global,
    tree: &Tree,
    word: &[u8],
    at: usize,
) -> Result<Place, SectionFault>
    ensures found { IfOk result (λ place. place_of tree.now word.now ≡ Some place) }
    ensures refused { IfErr result (λ fault.
        UnlessMemory faults.OutOfMemory fault ((fault ≡ faults.BadPlace at) × (place_of tree.now word.now ≡ None))) }
{
    if word == b"*".as_slice() {
        return Ok(Place::Anywhere);
    }
    let location = match read_location(alloc, tree, word, 0) {
        Ok(location) => location,
        Err(CalcFault::OutOfMemory) => return Err(SectionFault::OutOfMemory),
        Err(CalcFault::Location { .. } | CalcFault::NoSuchType { .. }) => {
            return Err(SectionFault::BadPlace { at });
        }
    };
    match located_pu(tree, location) {
        Some(pu) => Ok(Place::On(pu)),
        None => Err(SectionFault::BadPlace { at }),
    }
}

// The PU of a location that is just one.
fn located_pu(tree: &Tree, location: Location) -> Option<u32>
    requires { HasLayers tree.now location }
    ensures { result ≡ lone_pu tree.now
        (selected tree.now numberings.Logical (record { op = ops.Join; location = location } ∷ [])) }
{
    let terms = [Term {
        op: Op::Join,
        location,
    }];
    lone_pu(tree, &select(tree, &terms, Numbering::Logical))
}

// The PU of a set that is just the number of one.
#[tactic(auto, unfolding(crate::specs::Places::lone_pu))]
fn lone_pu(tree: &Tree, set: &CpuSet) -> Option<u32>
    ensures { result ≡ lone_pu tree.now set.now }
{
    if set.weight() == 1 {
        tree.leaf_of(set.first()?)
    } else {
        None
    }
}

/// The masks over which so many callers are spread that may stand on any PU.
pub(crate) fn masks(alloc: Global, tree: &Tree, callers: u32) -> Result<Vec<CpuSet>, OutOfMemory>
    requires some { 0 < callers }
    requires few { callers ≤ mask_limit }
    ensures masks { IfOk result (λ masks. masks.items ≡ masks_of tree.now callers) }
    ensures count { IfOk result (λ masks. length masks.items ≡ callers) }
{
    let pus = tree.depths() - 1;
    distrib(alloc, tree, callers, 0, pus, false).map_err(|_| OutOfMemory)
}

/// The PU of the caller with this number.
pub(crate) fn pu_on(tree: &Tree, masks: &[CpuSet], caller: usize, place: Place) -> u32
    requires { masks.now ≡ masks_of tree.now (length masks.now) }
    ensures { result ≡ pu_on tree.now (length masks.now) caller place }
{
    match place {
        Place::Anywhere => mask_pu(tree, masks, caller).unwrap_or(0),
        Place::On(pu) => pu,
    }
}

// The PU of the mask with this number.
fn mask_pu(tree: &Tree, masks: &[CpuSet], caller: usize) -> Option<u32>
    ensures { result ≡ mask_pu tree.now masks.now caller }
{
    first_pu(tree, masks.get(caller)?)
}

// The PU of a mask's first number.
fn first_pu(tree: &Tree, mask: &CpuSet) -> Option<u32>
    ensures { result ≡ first_pu tree.now mask.now }
{
    tree.leaf_of(mask.first()?)
}
