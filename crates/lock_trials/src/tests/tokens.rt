//! Tokens that look and record, and what they are shown.
ghost use Rattle.std.specs.Prelude.{◌≡◌, ◌≤◌, ◌∷◌, ◌++◌, [], length, IsSome, IfSome};
ghost use Rattle.lock_rules.specs.Tag.{leaf};
ghost use Rattle.fresh_root.specs.States.{AreAll, IsOf};

use fresh_root::{Fresh, Seen, freshes_may_be_sent};
use lock_rules::Payload;
use std::alloc::Global;

// A payload whose calls note their callers. Its tag is its number.
#[derive(Drop)]
struct Notes {
    callers: Vec<u32>,
    number: u32,
}

impl Payload for Notes {
    ghost use Rattle.lock_rules.specs.Tag.{leaf};

    ghost calls = { λ n. n.callers.items };

    ghost tag = { λ n. leaf n.number };
}

// Notes a call. There is room for a thousand.
fn note(notes: &mut Notes, caller: u32) -> Option<()>
    ensures noted { IfSome result (λ _. notes.new.callers.items ≡ notes.old.callers.items ++ caller ∷ []) }
    ensures few { IfSome result (λ _. length notes.new.callers.items ≤ 1000) }
    ensures number { notes.new.number ≡ notes.old.number }
{
    if notes.callers.len() >= 1000 {
        return None;
    }
    match notes.callers.push(caller) {
        Ok(()) => Some(()),
        Err(_) => None,
    }
}

// A hold of the token's caller: it looks, calls, and records. The answers are how many calls the token had seen, and the place of the call.
fn hold(fresh: &mut Fresh<Notes>, seen: &mut Seen) -> Option<(u32, u32)>
    requires home { IsSome fresh.old.payload }
    requires own { seen.old.fresh ≡ fresh.old.name }
    ensures home { IfSome result (λ _. IsSome fresh.new.payload) }
    ensures same { (fresh.new.name ≡ fresh.old.name) × (fresh.new.tokens ≡ fresh.old.tokens) }
    ensures token { IsOf seen.old.fresh seen.old.caller seen.new }
{
    let before = seen.length();
    let mut notes = fresh.look(seen);
    note(&mut notes, seen.caller())?;
    let mark = fresh.record(seen, notes);
    Some((before, mark.turn))
}

// A hold of this caller.
fn hold_by(fresh: &mut Fresh<Notes>, tokens: &mut Vec<Seen>, caller: usize) -> Option<(u32, u32)>
    requires home { IsSome fresh.old.payload }
    requires tokens { AreAll fresh.old.name fresh.old.tokens tokens.old.items }
    ensures home { IfSome result (λ _. IsSome fresh.new.payload) }
    ensures tokens { IfSome result (λ _. AreAll fresh.new.name fresh.new.tokens tokens.new.items) }
{
    if caller >= tokens.len() {
        return None;
    }
    let seen = &mut tokens[caller];
    hold(fresh, seen)
}

// Callers who hold in this order, how many calls each must have seen before, and how many tokens there are.
#[derive(Clone, Copy)]
struct Case {
    tokens: u32,
    holds: &'static [(usize, u32)],
}

// Whether each caller finds as many calls as it must have seen, and its call stands behind all others. The answer is the notes.
fn is_played(alloc: Global, case: &Case, number: u32) -> Option<Notes> {
    let notes = Notes {
        callers: Vec::new(alloc),
        number,
    };
    if case.tokens == 0 {
        return None;
    }
    let Ok((mut fresh, mut tokens)) = Fresh::make(alloc, notes, case.tokens) else {
        return None;
    };
    let mut turns: u32 = 0;
    for (caller, before) in case.holds.iter().copied() {
        let found = hold_by(&mut fresh, &mut tokens, caller)?;
        if found != (before, turns) {
            return None;
        }
        turns = turns.wrapping_add(1);
    }
    Some(fresh.close(tokens))
}

#[test]
fn tokens_are_shown_the_calls_behind_those_that_they_saw(rt: HostRuntime) {
    let cases = [
        Case {
            tokens: 1,
            holds: &[],
        },
        // one caller sees all that it called
        Case {
            tokens: 1,
            holds: &[(0, 0), (0, 1), (0, 2)],
        },
        // two callers, of whom one is away for a while
        Case {
            tokens: 2,
            holds: &[(0, 0), (0, 1), (1, 0), (0, 2), (1, 3), (1, 5)],
        },
        // a token that never looks
        Case {
            tokens: 3,
            holds: &[(2, 0), (0, 0), (2, 1), (0, 2)],
        },
    ];
    for case in cases {
        let Some(notes) = is_played(rt.alloc(), &case, 7) else {
            panic!(rt; "a token saw other calls, or there was no memory")
        };
        assert_eq!(rt; notes.number, 7);
        assert_eq!(rt; notes.callers.len(), case.holds.len());
        for (noted, (caller, _)) in notes.callers.iter().zip(case.holds) {
            assert!(rt; *noted as usize == *caller);
        }
    }
}

#[test]
fn a_token_knows_its_caller_before_any_call(rt: HostRuntime) {
    let notes = Notes {
        callers: Vec::new(rt.alloc()),
        number: 0,
    };
    let Ok((fresh, tokens)) = Fresh::make(rt.alloc(), notes, 3) else {
        panic!(rt; "there was no memory")
    };
    let mut caller = 0;
    for seen in &tokens {
        assert!(rt; seen.caller() == caller && seen.length() == 0);
        caller += 1;
    }
    assert_eq!(rt; fresh.close(tokens).callers.len(), 0);
}

// A payload beside two histories.
fn kept_twice(alloc: Global, notes: Notes) -> Option<Notes>
    requires { notes.callers.items ≡ [] }
    ensures { IfSome result (λ kept. kept ≡ notes) }
{
    let Ok((inner, lower)) = Fresh::make(alloc, notes, 1) else {
        return None;
    };
    let Ok((outer, upper)) = Fresh::make(alloc, inner, 2) else {
        return None;
    };
    Some(outer.close(upper).close(lower))
}

#[test]
fn a_fresh_is_a_payload(rt: HostRuntime) {
    let notes = Notes {
        callers: Vec::new(rt.alloc()),
        number: 5,
    };
    let Some(notes) = kept_twice(rt.alloc(), notes) else {
        panic!(rt; "there was no memory")
    };
    assert!(rt; notes.number == 5 && notes.callers.is_empty());
}

fn sent<T: Send>(value: T) -> T
    ensures { result ≡ value }
{
    value
}

#[test]
fn a_fresh_and_its_tokens_may_go_to_other_threads(rt: HostRuntime) {
    let notes = Notes {
        callers: Vec::new(rt.alloc()),
        number: 2,
    };
    let Ok((fresh, tokens)) = Fresh::make(rt.alloc(), notes, 1) else {
        panic!(rt; "there was no memory")
    };
    freshes_may_be_sent::<Notes>();
    let fresh = sent(fresh);
    let tokens = sent(tokens);
    assert_eq!(rt; fresh.close(tokens).number, 2);
}
