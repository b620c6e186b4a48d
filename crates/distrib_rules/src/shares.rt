//! The shares of a list of objects of one depth.
ghost use Rattle.std.specs.Prelude.{◌≡◌, ◌+◌, ◌-◌, ◌<◌, ◌≤◌, ◌*◌, if◌then◌else◌};
ghost use Rattle.synth_text.specs.Limits.{pu_limit};
ghost use Rattle.distrib_rules.specs.Shares.{rounded_up};
ghost use Rattle.distrib_rules.specs.Faults.{mask_limit};

use topo_tree::Row;

/// The index of the object at a place of a row, counted from the first, or backwards from the last.
pub fn index_at(row: Row, place: u32, backwards: bool) -> u32
    requires place { place < row.count }
    requires few { row.first + row.count ≤ pu_limit }
    ensures index { result ≡ (if backwards then row.first + (row.count - 1 - place) else row.first + place) }
    ensures within { result < row.first + row.count }
{
    if backwards {
        row.first + (row.count - 1 - place)
    } else {
        row.first + place
    }
}

/// The share of n masks that the object at a place of a row gets: all have as many PUs, so their weights are one each.
pub fn share_at(row: Row, n: u32, place: u32) -> u32
    requires place { place < row.count }
    requires few { row.count ≤ pu_limit }
    requires masks { n ≤ mask_limit }
    ensures share { result ≡ rounded_up ((place + 1) * n) row.count - rounded_up (place * n) row.count }
    ensures masks { result ≤ n }
{
    rounded_up((place + 1) * n, row.count) - rounded_up(place * n, row.count)
}

// A quotient, rounded up.
fn rounded_up(part: u32, whole: u32) -> u32
    requires some { 0 < whole }
    requires few { whole ≤ pu_limit }
    requires part { part ≤ pu_limit * mask_limit }
    ensures { result ≡ rounded_up part whole }
{
    (part + whole - 1) / whole
}
