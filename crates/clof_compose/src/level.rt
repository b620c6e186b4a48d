//! A level of a composition.
ghost use Rattle.std.specs.Prelude.{◌≡◌, length, map};
ghost use Rattle.clof_compose.specs.Inside.{high_lock, level_keep, level_list, level_nodes, level_number, level_room};
ghost use Rattle.clof_compose.specs.Inside.{node_locks, parents_of};
ghost use Rattle.clof_compose.specs.LevelTokens.{level_rest};
ghost use Rattle.clof_compose.specs.Names.{level_name};
ghost use Rattle.clof_compose.specs.NameLaws.{level_named};
ghost use Rattle.clof_compose.specs.Nodes.{IsLevel, IsOfLevel};
ghost use Rattle.clof_compose.specs.Passes.{AreAll};
ghost use Rattle.clof_compose.specs.Roots.{root_tag, IsFit};

use crate::climb::keep_high;
use crate::closing::{close_nodes, take_passes};
use crate::composed::Composed;
use crate::level_tokens::{LevelHeld, LevelLeave, LevelPass, LevelQueue};
use crate::node::{Node, lock_of};
use crate::own::Own;
use crate::passing::go_up;
use crate::release::{let_go, put_back};
use crate::root::Root;
use crate::stage::{LeaveStage, QueueStage};
use keep_local::Share;
use lock_rules::{Basic, Held as Holds, Payload, Step};

/// A basic lock for each node of a level, over a high lock of which each node has one context.
#[derive(Drop)]
pub struct Level<B, H, L, HL> {
    pub(crate) high: H,
    pub(crate) nodes: Vec<Node<B, L>>,
    // The node above each context.
    pub(crate) parents: Vec<u32>,
    // An empty list with room for the passes of the high lock.
    pub(crate) list: Vec<HL>,
    pub(crate) level: u32,
    pub(crate) keep: u32,
}

impl<
    P: Payload,
    H: Composed<P>,
    B: Basic<Own<P, H::Pass, H::Held>, Held = Holds<Own<P, H::Pass, H::Held>>> + Drop,
> Composed<P> for Level<B, H, B::Pass, H::Pass> {
    type Pass = LevelPass<B::Pass>;

    type Queue = LevelQueue<P, B::Queue, H::Pass, H::Held, H::Queue>;

    type Held = LevelHeld<P, H::Pass, H::Held>;

    type Leave = LevelLeave<P, B::Leave, H::Pass, H::Held, H::Leave>;

    ghost name = { λ l. level_name (level_number l) (map B.name (node_locks l)) (H.name (high_lock l)) };

    ghost level = { λ l. level_number l };

    ghost tag = { λ l. H.tag (high_lock l) };

    ghost count = { λ l. length (parents_of l) };

    ghost sound = { λ l. IsLevel B.name B.tag B.count B.Pass.place (H.has (high_lock l)) (H.sound (high_lock l)) (H.level (high_lock l))
        (H.count (high_lock l)) (H.tag (high_lock l)) (level_number l) (level_keep l) (parents_of l) (level_nodes l) (level_list l)
        (level_room l) };

    ghost has = { λ l. IsOfLevel B.name B.tag (level_number l) (parents_of l) (node_locks l) };

    ghost named = { λ l c sound own. level_named (H.name (high_lock l)) c sound own };

    #[inline(always)]
    fn begin(
        &self,
        pass: LevelPass<B::Pass>,
        share: &mut Share,
    ) -> Step<LevelQueue<P, B::Queue, H::Pass, H::Held, H::Queue>, LevelHeld<P, H::Pass, H::Held>> {
        let id = pass.id;
        match lock_of(&self.nodes, id.node).begin(pass.low) {
            Step::Not(low) => Step::Not(LevelQueue {
                stage: QueueStage::Low(low),
                id,
            }),
            Step::Got(low) => go_up(&self.high, low, id, share),
        }
    }

    #[inline(always)]
    fn poll(
        &self,
        queue: LevelQueue<P, B::Queue, H::Pass, H::Held, H::Queue>,
        share: &mut Share,
    ) -> Step<LevelQueue<P, B::Queue, H::Pass, H::Held, H::Queue>, LevelHeld<P, H::Pass, H::Held>> {
        let LevelQueue { stage, id } = queue;
        match stage {
            QueueStage::Low(low) => match lock_of(&self.nodes, id.node).poll(low) {
                Step::Not(low) => Step::Not(LevelQueue {
                    stage: QueueStage::Low(low),
                    id,
                }),
                Step::Got(low) => go_up(&self.high, low, id, share),
            },
            QueueStage::High(mut low, queue) => match self.high.poll(queue, share) {
                Step::Not(queue) => Step::Not(LevelQueue {
                    stage: QueueStage::High(low, queue),
                    id,
                }),
                Step::Got(held) => {
                    keep_high(&mut low.value, held);
                    Step::Got(LevelHeld { low, id, filler: 0 })
                }
            },
        }
    }

    #[inline(always)]
    fn begin_release(
        &self,
        held: LevelHeld<P, H::Pass, H::Held>,
    ) -> Step<LevelLeave<P, B::Leave, H::Pass, H::Held, H::Leave>, LevelPass<B::Pass>> {
        let LevelHeld { mut low, id, .. } = held;
        let lock = lock_of(&self.nodes, id.node);
        low.value.said = lock.waiter(&mut low);
        match let_go(&self.high, low, id.level, self.keep) {
            Step::Not((low, leave)) => Step::Not(LevelLeave {
                stage: LeaveStage::High(low, leave),
                id,
            }),
            Step::Got((low, report)) => match lock.begin_release(low) {
                Step::Not(low) => Step::Not(LevelLeave {
                    stage: LeaveStage::Low(low, report),
                    id,
                }),
                Step::Got(low) => Step::Got(LevelPass { low, id, report }),
            },
        }
    }

    fn poll_release(
        &self,
        leave: LevelLeave<P, B::Leave, H::Pass, H::Held, H::Leave>,
    ) -> Step<LevelLeave<P, B::Leave, H::Pass, H::Held, H::Leave>, LevelPass<B::Pass>> {
        let LevelLeave { stage, id } = leave;
        let lock = lock_of(&self.nodes, id.node);
        let (left, report) = match stage {
            LeaveStage::Low(low, report) => (lock.poll_release(low), report),
            LeaveStage::High(mut low, leave) => match self.high.poll_release(leave) {
                Step::Not(leave) => {
                    return Step::Not(LevelLeave {
                        stage: LeaveStage::High(low, leave),
                        id,
                    });
                }
                Step::Got(pass) => {
                    let report = put_back(&mut low.value, pass);
                    (lock.begin_release(low), report)
                }
            },
        };
        match left {
            Step::Not(low) => Step::Not(LevelLeave {
                stage: LeaveStage::Low(low, report),
                id,
            }),
            Step::Got(low) => Step::Got(LevelPass { low, id, report }),
        }
    }

    fn close(self, passes: Vec<LevelPass<B::Pass>>) -> Root<P>
        requires sound { IsLevel B.name B.tag B.count B.Pass.place (H.has (high_lock self)) (H.sound (high_lock self))
            (H.level (high_lock self)) (H.count (high_lock self)) (H.tag (high_lock self)) (level_number self) (level_keep self)
            (parents_of self) (level_nodes self) (level_list self) (level_room self) }
        requires all { AreAll (λ p. (level_rest B.Pass.place B.Pass.entries p).context)
            (IsOfLevel B.name B.tag (level_number self) (parents_of self) (node_locks self)) (level_number self) (H.tag (high_lock self))
            (length (parents_of self)) passes.items }
        ensures fit { IsFit P.calls result }
        ensures tagged { root_tag P.tag result ≡ H.tag (high_lock self) }
    {
        let Level {
            high,
            nodes,
            parents,
            list,
            ..
        } = self;
        let nodes = take_passes::<Own<P, H::Pass, H::Held>, B>(nodes, passes, &parents);
        let passes = close_nodes::<P, H, B>(&high, nodes, list);
        high.close(passes)
    }
}
