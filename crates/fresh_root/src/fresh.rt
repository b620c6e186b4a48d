//! A payload beside its counted history.
ghost use Rattle.std.specs.Prelude.{◌≡◌, ◌+◌, ◌^◌, ◌<◌, [], ◌∷◌, ◌++◌, length, All, IfOk, IfErr, IsSome, None, Some};
ghost use Rattle.fresh_root.specs.Prefixes.{IsPrefixOf, StandsAt};
ghost use Rattle.fresh_root.specs.States.{AreAll};

use crate::history::History;
use crate::seen::Seen;
use lock_rules::{Payload, Refused};
use std::alloc::Global;
use std::marker::{Brand, Model};
use std::snapshot::Snapshot;

/// The place of a call in the history of a `Fresh`.
#[derive(Clone, Copy, Drop)]
pub struct Mark {
    pub turn: u32,
}

/// A payload, and the word that counts its calls. It is a payload too, whose calls are those of the payload that it keeps.
///
/// Contracts see its name, how many tokens it gave, the callers of all calls (`list`), the `payload` while it is in, and its `tag`.
#[derive(Drop)]
pub struct Fresh<P: Payload> {
    payload: Option<P>,
    // The payload as it was at the start, for its tag.
    first: Snapshot<P>,
    history: History,
}

impl<P: Payload> Model for Fresh<P> {
    ghost use Rattle.fresh_root.specs.Freshes.{fresh_code, fresh_state, IsKept};
    ghost use Rattle.fresh_root.specs.States.{FreshState};

    ghost Value = { FreshState P };

    ghost coded = { fresh_code P.code };

    ghost view = { λ f. fresh_state P.tag f.payload f.first.value f.history };

    ghost invariant = { λ f. IsKept P.calls P.tag f.payload f.first.value f.history };
}

/// Its calls are the callers of the history, and behind them a number that is no caller's while the payload is out. Its tag says which
/// `Fresh` it is and how many tokens it gave, and has the tag of its payload.
impl<P: Payload> Payload for Fresh<P> {
    ghost use Rattle.fresh_root.specs.States.{fresh_calls, fresh_tag};

    ghost calls = { fresh_calls };

    ghost tag = { fresh_tag };
}

impl<P: Payload> Fresh<P> {
    /// Keeps a payload that has no calls yet, and gives the tokens of this many callers, in order. It is refused for want of memory alone,
    /// and then the payload comes back.
    pub fn make(alloc: Global, payload: P, tokens: u32) -> Result<(Fresh<P>, Vec<Seen>), Refused<P>>
        requires uncalled { P.calls payload ≡ [] }
        requires some { 0 < tokens }
        ensures payload { IfOk result (λ m. m.0.payload ≡ Some payload) }
        ensures tag { IfOk result (λ m. m.0.tag ≡ P.tag payload) }
        ensures empty { IfOk result (λ m. m.0.list ≡ []) }
        ensures tokens { IfOk result (λ m. m.0.tokens ≡ tokens) }
        ensures seens { IfOk result (λ m. AreAll m.0.name tokens m.1.items) }
        ensures blank { IfOk result (λ m. All (λ s. s.list ≡ []) m.1.items) }
        ensures refused { IfErr result (λ r. r.value ≡ payload) }
    {
        let Ok((history, seens)) = History::make(alloc, tokens) else {
            return Err(Refused { value: payload });
        };
        let first = Snapshot::of(&payload);
        let fresh = Fresh {
            payload: Some(payload),
            first,
            history,
        };
        Ok((fresh, seens))
    }

    /// Lends the payload out, and shows the token all its calls. What the token saw before is a beginning of them.
    pub fn look(&mut self, seen: &mut Seen) -> P
        requires home { IsSome self.old.payload }
        requires own { seen.old.fresh ≡ self.old.name }
        ensures payload { self.old.payload ≡ Some result }
        ensures tagged { P.tag result ≡ self.old.tag }
        ensures calls { P.calls result ≡ self.old.list }
        ensures prefix { IsPrefixOf seen.old.list (P.calls result) }
        ensures seen { seen.new ≡ record seen.old { list = P.calls result } }
        ensures out { self.new ≡ record self.old { payload = None } }
    {
        self.history.show(seen);
        let Some(payload) = self.payload.take() else {
            unreachable!()
        };
        payload
    }

    /// Takes the payload in, with one more call, which is of the token's caller. The answer is the last place in the calls.
    pub fn record(&mut self, seen: &mut Seen, payload: P) -> Mark
        requires out { self.old.payload ≡ None }
        requires own { seen.old.fresh ≡ self.old.name }
        requires last { seen.old.list ≡ self.old.list }
        requires called { P.calls payload ≡ seen.old.list ++ seen.old.caller ∷ [] }
        requires few { length (P.calls payload) < 2 ^ 32 }
        requires tagged { P.tag payload ≡ self.old.tag }
        ensures home { self.new ≡ record self.old { list = P.calls payload; payload = Some payload } }
        ensures seen { seen.new ≡ record seen.old { list = P.calls payload } }
        ensures turn { result.turn + 1 ≡ length (P.calls payload) }
        ensures marked { StandsAt seen.old.caller result.turn (P.calls payload) }
    {
        self.history.append::<Brand>(seen.caller());
        self.history.show(seen);
        self.payload = Some(payload);
        Mark {
            turn: seen.length() - 1,
        }
    }

    /// Takes all tokens back, in order. What each last saw is a beginning of the calls of the payload, which is the answer.
    pub fn close(self, tokens: Vec<Seen>) -> P
        requires home { IsSome self.payload }
        requires all { AreAll self.name self.tokens tokens.items }
        ensures payload { self.payload ≡ Some result }
        ensures tagged { P.tag result ≡ self.tag }
        ensures calls { P.calls result ≡ self.list }
        ensures prefixes { All (λ s. IsPrefixOf s.list (P.calls result)) tokens.items }
    {
        let Fresh {
            payload,
            first: _,
            history,
        } = self;
        take_all_back(history, tokens);
        let Some(payload) = payload else {
            unreachable!()
        };
        payload
    }
}

// Takes tokens back, whose lists are beginnings of the history.
fn take_all_back(mut history: History, tokens: Vec<Seen>)
    requires own { All (λ s. s.fresh ≡ history.name) tokens.items }
    ensures prefixes { All (λ s. IsPrefixOf s.list history.list) tokens.items }
{
    for seen in tokens {
        history.take_back(seen);
    }
}
