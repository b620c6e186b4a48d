//! Laws of plans and of their shapes. Each function does nothing: its contract is the law.
ghost use Rattle.lock_plan.specs.Laws.{OnePlan, NotBoth, PlanOrRefusal, PlansAreFor, ShapesAreTrees, OneLevel};

/// Texts have exactly one plan for a topology, or are refused for exactly one rule.
pub fn one_answer()
    ensures plan { OnePlan }
    ensures either { NotBoth }
    ensures one { PlanOrRefusal }
{}

/// The plan of texts for a topology has what each plan for that topology has.
pub fn plans_are_for_their_topology()
    ensures { PlansAreFor }
{}

/// The shape of a plan is a tree of levels, as many as the plan has, with a caller for each PU.
pub fn shapes_are_trees()
    ensures { ShapesAreTrees }
{}

/// All callers of a plan of one level stand under its one node, and it has no keeps.
pub fn one_level_is_one_node()
    ensures { OneLevel }
{}
