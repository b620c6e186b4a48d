//! What the rule of each of the four locks says of its words and passes, as laws. Each is a function that changes nothing, whose contract
//! is the law.
//!
//! That each lock keeps the points of a basic lock is a law of the lock itself, `lock_tables::Ruled::is_basic`.
#![tactic(auto)]

ghost use Rattle.lock_laws.specs.Distances.{RuleHasDistances};
ghost use Rattle.lock_laws.specs.Grants.{RuleHasGrants};
ghost use Rattle.lock_laws.specs.Links.{RuleHasLinks};
ghost use Rattle.lock_laws.specs.Nodes.{RuleHasNodes};

use lock_rules::Cargo;

/// Of a Ticket lock: the distances of the passes in the queue are 0, 1 and so on, each once.
pub fn rule_has_distances<V: Cargo>()
    ensures { RuleHasDistances V.fit V.tag V.parked }
{}

/// Of an MCS lock: `tail` is 0 exactly where the queue is empty. `next` of a pass in the queue is 0 or names the pass that has it before it
/// and has stored its link. A pass that stored its words for the swap to come has `next` 0 and `locked` 1. A holder whose exchange of
/// `tail` found another pass has one behind it.
pub fn rule_has_links<V: Cargo>()
    ensures { RuleHasLinks V.fit V.tag V.parked }
{}

/// Of a CLH lock: of the nodes 0 to n one is free, and each other one has exactly one seat. The free node is `tail` where the queue is
/// empty, and else the one that the head watches. It is granted, and the own node of a pass that is queued, holds or has stored its flag is
/// pending.
pub fn rule_has_nodes<V: Cargo>()
    ensures { RuleHasNodes V.fit V.tag V.parked }
{}

/// Of a Hemlock: a pass that is leaving isn't in the queue: either its grant is 1 and exactly the head names it, or its grant is 0 and no
/// pass names it. Every other pass has the grant 0, and `tail` is 0 exactly where the queue is empty. A holder whose exchange of `tail`
/// found another has a pass behind it.
pub fn rule_has_grants<V: Cargo>()
    ensures { RuleHasGrants V.fit V.tag V.parked }
{}
