//! Laws of the objects of a topology. Each function does nothing: its contract is the law.
ghost use Rattle.topo_tree.specs.Laws.{
  ChildrenHaveTheirParent,
  NumbersNameTheirPus,
  ObjectsHaveTheirShare,
  ObjectsOfADepthAreDisjoint,
  InsideIsByPositions,
  ChildrenMakeUpTheirParent,
  ObjectsOverPusCoverThem,
  CommonObjectsNestUpwards,
};

/// Each child of an object is an object of the next depth, and has that object as its parent.
pub fn children_have_their_parent()
    ensures { ChildrenHaveTheirParent }
{}

/// No two PUs have one physical number: each is the one with its number.
pub fn numbers_name_their_pus()
    ensures { NumbersNameTheirPus }
{}

/// Each object of a depth has as many PUs as each other, and at least one.
pub fn objects_have_their_share()
    ensures { ObjectsHaveTheirShare }
{}

/// No two objects of a depth have a PU in common.
pub fn objects_of_a_depth_are_disjoint()
    ensures { ObjectsOfADepthAreDisjoint }
{}

/// The set of an object is inside that of another exactly where the positions of its PUs are.
pub fn inside_is_by_positions()
    ensures { InsideIsByPositions }
{}

/// The sets of an object's children make up its own.
pub fn children_make_up_their_parent()
    ensures { ChildrenMakeUpTheirParent }
{}

/// The object of a depth over a PU is the one that covers it.
pub fn objects_over_pus_cover_them()
    ensures { ObjectsOverPusCoverThem }
{}

/// Two PUs that have an object in common have one in common at each depth above it.
pub fn common_objects_nest_upwards()
    ensures { CommonObjectsNestUpwards }
{}
