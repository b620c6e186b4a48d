//! Examples from outside the definitions: the sums were made by a plain script.
ghost use Rattle.std.specs.Prelude.{◌≡◌, ◌<◌, ◌^◌, ℕ, ◌==◌, Some, count_by, length, map, slice_get, sum_by, IfOk, OnOk};
ghost use Rattle.mc_text.specs.Reading.{commands_of};
ghost use Rattle.kv_history.specs.Log.{NoneVoid, calls};
ghost use Rattle.drill_text.specs.Drill.{drill_text, HaveGivenAll};

use drill_text::{CALLERS, sections, summary};
use kv_history::{Journal, Store};
use mc_text::Commands;
use out_of_memory::OutOfMemory;
use std::alloc::Global;
use std::process::Abort;
use std::test::Fail;

// A drill and what its keys hold at the end.
type Drill = (u32, &'static [(&'static [u8], &'static [u8])]);

const DRILLS: &[Drill] = &[
    (
        7,
        &[
            (b"k0", b"1257500"),
            (b"k1", b"1240000"),
            (b"k2", b"1242500"),
            (b"k3", b"1245000"),
            (b"k4", b"1247500"),
            (b"k5", b"1250000"),
            (b"k6", b"1252500"),
            (b"k7", b"1255000"),
        ],
    ),
    (
        0,
        &[
            (b"k0", b"1240000"),
            (b"k1", b"1242500"),
            (b"k2", b"1245000"),
            (b"k3", b"1247500"),
            (b"k4", b"1250000"),
            (b"k5", b"1252500"),
            (b"k6", b"1255000"),
            (b"k7", b"1257500"),
        ],
    ),
    (
        4_294_967_292,
        &[
            (b"k0", b"1250000"),
            (b"k1", b"1252500"),
            (b"k2", b"1255000"),
            (b"k3", b"1257500"),
            (b"k4", b"1240000"),
            (b"k5", b"1242500"),
            (b"k6", b"1245000"),
            (b"k7", b"1247500"),
        ],
    ),
];

// Answers all commands of a section, and counts them.
fn replay(store: &mut Store, replies: &mut Vec<u8>, section: &[u8]) -> Result<u32, OutOfMemory> {
    let mut count: u32 = 0;
    let mut commands = Commands::new(section);
    while let Some(command) = commands.next() {
        store.answer(&command, replies)?;
        count = count.saturating_add(1);
    }
    Ok(count)
}

// Answers all commands of some sections, one section after the other, and counts them.
fn replay_all(
    store: &mut Store,
    replies: &mut Vec<u8>,
    sections: &[Vec<u8>],
) -> Result<u32, OutOfMemory> {
    let mut count: u32 = 0;
    for section in sections {
        count = count.saturating_add(replay(store, replies, section)?);
    }
    Ok(count)
}

// Whether a store has these values under these keys.
fn has_values(store: &Store, values: &[(&[u8], &[u8])]) -> bool {
    for (name, value) in values {
        if store.block(name) != Some(*value) {
            return false;
        }
    }
    true
}

fn expect_sums(rt: &impl Abort, alloc: Global, made: &[Vec<u8>], values: &[(&[u8], &[u8])]) {
    assert!(rt; made.len() == CALLERS as usize);
    let mut store = Store::new(alloc);
    let mut replies = Vec::new(alloc);
    let count = replay_all(&mut store, &mut replies, made).expect(rt, "memory");
    assert!(rt; count == 20_512 && has_values(&store, values));
}

#[test]
fn the_commands_add_up(rt: HostRuntime) {
    let alloc = rt.alloc();
    for (drill, values) in DRILLS {
        expect_sums(
            &rt,
            alloc,
            &sections(alloc, *drill).expect(&rt, "memory"),
            values,
        );
    }
}

// Has a caller give all commands of its section.
fn give_all<'a>(
    journal: &mut Journal<'a>,
    caller: u32,
    section: &'a [u8],
) -> Result<(), OutOfMemory>
    requires section { slice_get journal.old.sections caller ≡ Some section.now }
    requires fresh { count_by (λ other. other == caller) (calls journal.old) ≡ 0 }
    requires whole { NoneVoid journal.old.entries }
    ensures sections { OnOk result (journal.new.sections ≡ journal.old.sections) }
    ensures given { OnOk result (count_by (λ other. other == caller) (calls journal.new) ≡ length (commands_of section.now)) }
    ensures others { OnOk result ((w : ℕ) → (w ≡ caller → ⊥)
        → count_by (λ other. other == w) (calls journal.new) ≡ count_by (λ other. other == w) (calls journal.old)) }
    ensures whole { OnOk result (NoneVoid journal.new.entries) }
{
    let mut commands = Commands::new(section);
    while let Some(command) = commands.next() {
        journal.apply(caller, command)?;
    }
    Ok(())
}

// A journal of these sections whose callers have given all their commands, one caller after the other.
fn worked_off<'a>(alloc: Global, sections: &[&'a [u8]]) -> Result<Journal<'a>, OutOfMemory>
    requires few { length sections.now ≡ 64 }
    requires small { sum_by (λ section. length section.now) sections.now < 2 ^ 32 }
    ensures sections { IfOk result (λ journal. journal.sections ≡ map (λ section. section.now) sections.now) }
    ensures given { IfOk result (λ journal. HaveGivenAll journal) }
    ensures whole { IfOk result (λ journal. NoneVoid journal.entries) }
{
    let mut journal = Journal::reserve(alloc, sections)?;
    for caller in 0..sections.len() {
        give_all(&mut journal, caller as u32, sections[caller])?;
    }
    Ok(journal)
}

// Texts, lent.
fn lend(alloc: Global, texts: &[Vec<u8>]) -> Result<Vec<&[u8]>, OutOfMemory>
    ensures { IfOk result (λ lent. map (λ one. one.now) lent.items ≡ map (λ text. text.items) texts.now) }
{
    let mut lent = Vec::with_capacity(alloc, texts.len())?;
    for text in texts {
        lent.push(text.as_slice())?;
    }
    Ok(lent)
}

// The text of a drill whose callers gave their commands one after the other.
fn drilled(alloc: Global, drill: u32) -> Result<Vec<u8>, OutOfMemory>
    ensures { IfOk result (λ text. text.items ≡ drill_text drill) }
{
    let made = sections(alloc, drill)?;
    let lent = lend(alloc, &made)?;
    let journal = worked_off(alloc, &lent)?;
    summary(alloc, drill, &journal)
}

#[test]
fn tells_the_sums(rt: HostRuntime) -> Result<(), Fail> {
    let text = drilled(rt.alloc(), 7)?;
    let wanted = b"drill 7 callers 64 commands 20512
k0 1257500
k1 1240000
k2 1242500
k3 1245000
k4 1247500
k5 1250000
k6 1252500
k7 1255000
";
    assert!(rt; text.as_slice() == wanted.as_slice());
    Ok(())
}
