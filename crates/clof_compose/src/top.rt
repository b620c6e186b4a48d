//! The top lock of a composition.
ghost use Rattle.std.specs.Prelude.{◌≡◌, ◌<◌, ◌≤◌, [], map, false, IfOk, IfErr, vec_capacity, length};
ghost use Rattle.keep_local.specs.Shapes.{top_of, callers_of};
ghost use Rattle.clof_compose.specs.Courses.{course_of};
ghost use Rattle.clof_compose.specs.Inside.{top_list, top_lock, top_number, top_room};
ghost use Rattle.clof_compose.specs.Names.{top_name};
ghost use Rattle.clof_compose.specs.NameLaws.{top_named};
ghost use Rattle.clof_compose.specs.Passes.{AreAll};
ghost use Rattle.clof_compose.specs.Roots.{root_tag, IsFit};
ghost use Rattle.clof_compose.specs.TopTokens.{top_rest};
ghost use Rattle.clof_compose.specs.Tops.{IsTop, IsOfTop};

use crate::composed::Composed;
use crate::root::Root;
use crate::top_tokens::{TopHeld, TopLeave, TopPass, TopQueue};
use crate::turns::{close_turn, open_turn};
use keep_local::Share;
use lock_rules::{Basic, Held, Payload, Step};

/// A basic lock at the top, whose value is the root.
#[derive(Drop)]
pub struct Top<B, L> {
    pub(crate) low: B,
    pub(crate) level: u32,
    pub(crate) list: Vec<L>,
}

impl<P: Payload, B: Basic<Root<P>, Held = Held<Root<P>>>> Composed<P> for Top<B, B::Pass> {
    type Pass = TopPass<B::Pass>;

    type Queue = TopQueue<B::Queue>;

    type Held = TopHeld<P>;

    type Leave = TopLeave<B::Leave>;

    ghost name = { λ t. top_name (top_number t) (B.name (top_lock t)) };

    ghost level = { λ t. top_number t };

    ghost tag = { λ t. B.tag (top_lock t) };

    ghost count = { λ t. B.count (top_lock t) };

    ghost sound = { λ t. IsTop (top_number t) (B.count (top_lock t)) (B.tag (top_lock t)) (top_list t) (top_room t) };

    ghost has = { λ t. IsOfTop (top_number t) (B.name (top_lock t)) (B.tag (top_lock t)) };

    ghost named = { λ t c _ own. top_named (top_number t) (B.name (top_lock t)) (B.tag (top_lock t)) c own };

    #[inline(always)]
    fn begin(
        &self,
        pass: TopPass<B::Pass>,
        share: &mut Share,
    ) -> Step<TopQueue<B::Queue>, TopHeld<P>> {
        let level = self.level;
        match self.low.begin(pass.low) {
            Step::Not(low) => Step::Not(TopQueue { low, level }),
            Step::Got(mut low) => {
                open_turn(&mut low.value, share, level);
                Step::Got(TopHeld {
                    low,
                    level,
                    filler: 0,
                })
            }
        }
    }

    #[inline(always)]
    fn poll(
        &self,
        queue: TopQueue<B::Queue>,
        share: &mut Share,
    ) -> Step<TopQueue<B::Queue>, TopHeld<P>> {
        let level = self.level;
        match self.low.poll(queue.low) {
            Step::Not(low) => Step::Not(TopQueue { low, level }),
            Step::Got(mut low) => {
                open_turn(&mut low.value, share, level);
                Step::Got(TopHeld {
                    low,
                    level,
                    filler: 0,
                })
            }
        }
    }

    #[inline(always)]
    fn begin_release(&self, held: TopHeld<P>) -> Step<TopLeave<B::Leave>, TopPass<B::Pass>> {
        let level = self.level;
        let mut low = held.low;
        let report = close_turn(&mut low.value, level);
        match self.low.begin_release(low) {
            Step::Not(low) => Step::Not(TopLeave { low, level, report }),
            Step::Got(low) => Step::Got(TopPass { low, level, report }),
        }
    }

    fn poll_release(
        &self,
        leave: TopLeave<B::Leave>,
    ) -> Step<TopLeave<B::Leave>, TopPass<B::Pass>> {
        let TopLeave { low, level, report } = leave;
        match self.low.poll_release(low) {
            Step::Not(low) => Step::Not(TopLeave { low, level, report }),
            Step::Got(low) => Step::Got(TopPass { low, level, report }),
        }
    }

    fn close(self, passes: Vec<TopPass<B::Pass>>) -> Root<P>
        requires sound { IsTop (top_number self) (B.count (top_lock self)) (B.tag (top_lock self)) (top_list self) (top_room self) }
        requires all { AreAll (λ p. (top_rest B.Pass.place B.Pass.entries p).context)
            (IsOfTop (top_number self) (B.name (top_lock self)) (B.tag (top_lock self))) (top_number self) (B.tag (top_lock self))
            (B.count (top_lock self)) passes.items }
        ensures fit { IsFit P.calls result }
        ensures tagged { root_tag P.tag result ≡ B.tag (top_lock self) }
    {
        let Top { low, list, .. } = self;
        low.close(basic_passes(passes, list))
    }
}

// The passes of the basic lock, in a list that has room for them.
fn basic_passes<L: Drop>(mut passes: Vec<TopPass<L>>, mut list: Vec<L>) -> Vec<L>
    requires empty { list.items ≡ [] }
    requires room { length passes.items ≤ vec_capacity list }
    ensures { result.items ≡ map (λ p. p.low) passes.items }
{
    while let Some(pass) = passes.pop() {
        let TopPass { low, .. } = pass;
        list.push_reserved(low);
    }
    list.reverse();
    list
}
