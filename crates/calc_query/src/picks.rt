//! Which numbers an index picks.
ghost use Rattle.std.specs.Prelude.{◌≡◌, ◌<◌, ◌≤◌, ◌⊎◌, ◌^◌, ℕ, false};
ghost use Rattle.synth_text.specs.Limits.{pu_limit};
ghost use Rattle.calc_query.specs.Picks.{is_picked, is_wrapped, IsReach};

use crate::query::{Numbering, Pick};

impl Pick {
    /// Whether the number of one of so many candidates is picked.
    #[tactic(auto, unfolding(crate::specs::Picks::is_picked))]
    pub(crate) fn picks(self, numbering: Numbering, candidates: u32, number: u32) -> bool
        requires few { candidates ≤ pu_limit }
        requires within { numbering ≡ Numbering.Logical → number < candidates }
        ensures { result ≡ is_picked numbering self candidates number }
    {
        match self {
            Pick::One(wanted) => number == wanted,
            Pick::Span { first, last } => first <= number && number <= last,
            Pick::From(first) => first <= number,
            Pick::Wrap { first, count } => wraps_to(numbering, first, count, candidates, number),
            Pick::Every => true,
            Pick::Odd => number % 2 == 1,
            Pick::Even => number % 2 == 0,
        }
    }

    /// The places among so many candidates, from the first to behind the last, outside which none is picked.
    pub(crate) fn reach(self, numbering: Numbering, candidates: u32) -> (u32, u32)
        requires few { candidates ≤ pu_limit }
        ensures outside { numbering ≡ Numbering.Logical → IsReach self candidates result.0 result.1 }
        ensures whole { numbering ≡ Numbering.Physical → result ≡ (0, candidates) }
        ensures ends { result.0 ≤ result.1 }
        ensures within { result.1 ≤ candidates }
    {
        match numbering {
            Numbering::Logical => {
                let (first, last) = self.ends();
                let from = first.min(candidates);
                let to = (last.min(candidates) + 1).min(candidates);
                (from, to.max(from))
            }
            Numbering::Physical => (0, candidates),
        }
    }

    // The first and the last logical number that may be picked, whatever the candidates are.
    #[tactic(auto, unfolding(crate::specs::Picks::is_picked))]
    fn ends(self) -> (u32, u32)
        ensures { (candidates number : ℕ) → number < 2 ^ 32 → (number < result.0) ⊎ (result.1 < number)
            → is_picked Numbering.Logical self candidates number ≡ false }
    {
        match self {
            Pick::One(wanted) => (wanted, wanted),
            Pick::Span { first, last } => (first, last),
            Pick::From(first) => (first, u32::MAX),
            Pick::Wrap { .. } | Pick::Every | Pick::Odd | Pick::Even => (0, u32::MAX),
        }
    }
}

// Whether one of so many numbers from a first one on is this; logical ones go round.
fn wraps_to(numbering: Numbering, first: u32, count: u32, candidates: u32, number: u32) -> bool
    requires few { candidates ≤ pu_limit }
    requires within { numbering ≡ Numbering.Logical → number < candidates }
    ensures { result ≡ is_wrapped numbering first count candidates number }
{
    match numbering {
        Numbering::Logical => {
            first < candidates && (number + candidates - first) % candidates < count
        }
        Numbering::Physical => first <= number && number - first < count,
    }
}
