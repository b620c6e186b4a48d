//! The objects of a layer inside an object.
ghost use Rattle.std.specs.Prelude.{◌≡◌, ◌+◌, ◌≤◌};
ghost use Rattle.std.specs.List.{range_with_len};
ghost use Rattle.synth_text.specs.Limits.{pu_limit};
ghost use Rattle.topo_tree.specs.Objects.{count_of, IsLayer, IsObject};
ghost use Rattle.topo_tree.specs.Coverage.{set_of};
ghost use Rattle.topo_tree.specs.Building.{IsBuilt};
ghost use Rattle.calc_query.specs.Candidates.{candidates};

use topo_tree::{Layer, Object, Row, Tree};

/// The objects of a layer whose sets lie inside that of an object.
pub fn row_inside(tree: &Tree, outer: Object, layer: Layer) -> Row
    requires outer { IsObject tree.now outer }
    requires layer { IsLayer tree.now layer }
    ensures run { candidates tree.now layer (set_of tree.now outer.layer outer.index) ≡ range_with_len result.first result.count }
    ensures within { result.first + result.count ≤ count_of tree.now layer }
    ensures few { result.first + result.count ≤ pu_limit }
    ensures built { IsBuilt tree.now }
{
    let pus = tree.count(Layer::Depth(tree.depths() - 1));
    let count = tree.count(layer);
    if count == 0 {
        return Row { first: 0, count: 0 };
    }
    let width = pus / count;
    let outer_width = pus / tree.count(outer.layer);
    let start = outer.index * outer_width;
    let first = (start + width - 1) / width;
    let end = (start + outer_width) / width;
    Row {
        first,
        count: end.saturating_sub(first),
    }
}
