//! Descriptions from outside the definitions: what each text describes, or why it describes nothing.
use std::alloc::Global;
use std::process::Abort;
use std::test::Fail;
use synth_text::{
    Description, Indexes, Kind, Level, Memory, Name, Sequence, SynthFault, read, read_name, write,
};

mod items;
mod orders;
mod texts;
mod wholes;

// The canonical text of what a text describes.
fn canonical(alloc: Global, text: &[u8]) -> Result<Vec<u8>, SynthFault> {
    let description = read(alloc, text)?;
    match write(alloc, &description) {
        Ok(text) => Ok(text),
        Err(_) => Err(SynthFault::OutOfMemory),
    }
}

// Each row is a text, ` => ` and the canonical text of what it describes, or a text that is canonical itself.
fn expect_texts(rt: &impl Abort, alloc: Global, rows: &[&str]) -> Result<(), Fail> {
    for row in rows {
        let (text, wanted) = row.split_once(" => ").unwrap_or((row, row));
        let found = canonical(alloc, text.as_bytes())?;
        assert_eq!(rt; found.as_slice(), wanted.as_bytes(), "at {row}");
    }
    Ok(())
}

// Each row names a fault, and then has the texts that it refuses, with bars between them. `^` stands before the item
// that it tells.
fn expect_refusals(rt: &impl Abort, alloc: Global, rows: &[&str]) -> Result<(), Fail> {
    for row in rows {
        expect_row(rt, alloc, row)?;
    }
    Ok(())
}

fn expect_row(rt: &impl Abort, alloc: Global, row: &str) -> Result<(), Fail> {
    let (name, texts) = row.split_once(' ').ok_or("a row has a name")?;
    for text in texts.split('|') {
        expect_refusal(rt, alloc, name, text)?;
    }
    Ok(())
}

fn expect_refusal(rt: &impl Abort, alloc: Global, name: &str, text: &str) -> Result<(), Fail> {
    let (before, told) = text.split_once('^').unwrap_or(("", text));
    let whole = format!(in alloc; "{before}{told}")?;
    let fault = fault_named(name, before.len()).ok_or("the name is a fault's")?;
    assert_eq!(rt;
        read(alloc, whole.as_bytes()).err(),
        Some(fault),
        "at {text}"
    );
    Ok(())
}

fn fault_named(name: &str, at: usize) -> Option<SynthFault> {
    match name {
        "Empty" => Some(SynthFault::Empty),
        "BadType" => Some(SynthFault::BadType { at }),
        "BadArity" => Some(SynthFault::BadArity { at }),
        "BadAttr" => Some(SynthFault::BadAttr { at }),
        "BadIndexes" => Some(SynthFault::BadIndexes { at }),
        "LastNotPu" => Some(SynthFault::LastNotPu { at }),
        "RepeatedType" => Some(SynthFault::RepeatedType { at }),
        "TooManyLevels" => Some(SynthFault::TooManyLevels),
        "TooManyObjects" => Some(SynthFault::TooManyObjects),
        _ => None,
    }
}

#[test]
fn memory_stands_behind_its_carrier(rt: HostRuntime) -> Result<(), Fail> {
    let description = read(rt.alloc(), b"Package:2 numa:3(memory=1MB) PU:1")?;
    let memory = description.memory.as_ref().ok_or("memory is attached")?;
    assert_eq!(rt; memory.above, 2);
    assert_eq!(rt; memory.size, Some(1_000_000));
    let levels = description.levels.into_vec();
    assert_eq!(rt; levels.len(), 3);
    assert_eq!(rt; levels[1].kind, Kind::Group);
    assert_eq!(rt; Sequence::from_vec(levels).as_slice().len(), 3);
    Ok(())
}

#[test]
fn words_name_kinds(rt: HostRuntime) {
    assert_eq!(rt; read_name(b"Machine"), Some(Name::Kind(Kind::Machine)));
    assert_eq!(rt; read_name(b"GROUP"), Some(Name::Kind(Kind::Group)));
    assert_eq!(rt; read_name(b"group01"), Some(Name::Group(1)));
    assert_eq!(rt; read_name(b"group99999999999"), Some(Name::Group(u32::MAX)));
    assert_eq!(rt; read_name(b"group-1"), None);
    assert_eq!(rt; read_name(b"l1Cache"), Some(Name::Kind(Kind::L1d)));
    assert_eq!(rt; read_name(b"l5cachecache"), None);
    assert_eq!(rt; read_name(b""), None);
    assert_eq!(rt; Kind::L1i.short_name(), b"L1i".as_slice());
    assert_eq!(rt; Kind::L1i.long_name(), b"L1iCache".as_slice());
}

// Each fault has its words.
#[test]
fn tells_each_fault(rt: HostRuntime) -> Result<(), Fail> {
    let rows = [
        (SynthFault::Empty, "no level"),
        (SynthFault::BadType { at: 1 }, "unknown type at 1"),
        (SynthFault::BadArity { at: 20 }, "bad arity at 20"),
        (SynthFault::BadAttr { at: 3 }, "bad attribute at 3"),
        (SynthFault::BadIndexes { at: 0 }, "bad indexes at 0"),
        (
            SynthFault::LastNotPu { at: 5 },
            "the last level is not PU, at 5",
        ),
        (SynthFault::RepeatedType { at: 64 }, "repeated type at 64"),
        (SynthFault::TooManyLevels, "too many levels"),
        (SynthFault::TooManyObjects, "too many objects"),
        (SynthFault::OutOfMemory, "out of memory"),
    ];
    for (fault, wanted) in rows {
        let told = format!(in rt.alloc(); "{fault}")?;
        assert_eq!(rt; told.as_str(), wanted);
    }
    Ok(())
}

// Memory behind the last level, which no text describes, stands behind all levels.
#[test]
fn writes_memory_behind_the_last_level(rt: HostRuntime) -> Result<(), Fail> {
    for above in [1, 2] {
        let mut description = read(rt.alloc(), b"PU:2")?;
        description.memory = Some(Memory {
            above,
            size: None,
            indexes: Indexes::Ordered,
        });
        let text = write(rt.alloc(), &description)?;
        assert_eq!(rt; text.as_slice(), b"PU:2 [NUMANode]".as_slice());
    }
    Ok(())
}
