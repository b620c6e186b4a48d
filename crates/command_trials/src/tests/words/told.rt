//! What words ask for, as a text: the name of the command, and behind it what the command is given.
use command_words::{
    Asked, CalcQuestion, Calculation, Checking, Depths, Distribution, Running, Selection,
};
use std::alloc::Global;
use std::test::Fail;

// What is asked for. A value stands in brackets behind its name, and a choice is a name alone.
pub(super) fn told(alloc: Global, asked: &Asked<'_>) -> Result<Vec<u8>, Fail> {
    let mut text = command(asked).to_vec(alloc)?;
    match asked {
        Asked::Run(run) => add_run(alloc, &mut text, run)?,
        Asked::Set { list, text: set } => add_flagged(&mut text, "list", *list, set)?,
        Asked::Topo { export, text: tree } => add_flagged(&mut text, "export", *export, tree)?,
        Asked::Calc(calculation) => add_calculation(&mut text, calculation)?,
        Asked::Distrib(distribution) => add_distribution(alloc, &mut text, distribution)?,
        Asked::Select(selection) => add_selection(&mut text, selection)?,
        Asked::Drill(number) => add_number(alloc, &mut text, "number", *number)?,
        Asked::Check(check) => add_check(&mut text, check)?,
    }
    Ok(text)
}

// The name of the command.
fn command(asked: &Asked<'_>) -> &'static [u8] {
    match asked {
        Asked::Run(_) => b"run",
        Asked::Set { .. } => b"set",
        Asked::Topo { .. } => b"topo",
        Asked::Calc(_) => b"calc",
        Asked::Distrib(_) => b"distrib",
        Asked::Select(_) => b"select",
        Asked::Drill(_) => b"drill",
        Asked::Check(_) => b"check",
    }
}

fn add_flagged(text: &mut Vec<u8>, flag: &str, chosen: bool, value: &[u8]) -> Result<(), Fail> {
    add_choice(text, flag, chosen)?;
    add(text, "text", value)
}

fn add_run(alloc: Global, text: &mut Vec<u8>, asked: &Running<'_>) -> Result<(), Fail> {
    add(text, "levels", asked.levels)?;
    add_given(text, "locks", asked.locks)?;
    add(text, "keep", asked.keep)?;
    add_choice(text, "walk", asked.walk)?;
    add_choice(text, "receipts", asked.receipts)?;
    if let Some(sharing) = &asked.sharing {
        add_number(alloc, text, "threads", sharing.threads)?;
        add_number(alloc, text, "quantum", sharing.quantum)?;
    }
    add(text, "description", asked.description)
}

fn add_calculation(text: &mut Vec<u8>, asked: &Calculation<'_>) -> Result<(), Fail> {
    add_question(text, asked.question)?;
    add_choice(text, "physical", asked.physical)?;
    add_choice(text, "single", asked.single)?;
    add_choice(text, "taskset", asked.taskset)?;
    add_given(text, "separator", asked.separator)?;
    add(text, "description", asked.description)?;
    for location in &asked.locations {
        add(text, "location", location)?;
    }
    Ok(())
}

fn add_question(text: &mut Vec<u8>, question: CalcQuestion<'_>) -> Result<(), Fail> {
    match question {
        CalcQuestion::Set => Ok(()),
        CalcQuestion::Intersect(name) => add(text, "intersect", name),
        CalcQuestion::NumberOf(name) => add(text, "number of", name),
        CalcQuestion::Hierarchical(names) => add(text, "hierarchical", names),
        CalcQuestion::Largest => add_choice(text, "largest", true),
    }
}

fn add_distribution(
    alloc: Global,
    text: &mut Vec<u8>,
    asked: &Distribution<'_>,
) -> Result<(), Fail> {
    add_number(alloc, text, "masks", asked.masks)?;
    match asked.depths {
        Depths::Between { from, to } => {
            add_given(text, "from", from)?;
            add_given(text, "to", to)?;
        }
        Depths::At(name) => add(text, "at", name)?,
    }
    add_choice(text, "single", asked.single)?;
    add_choice(text, "reverse", asked.reverse)?;
    add_choice(text, "taskset", asked.taskset)?;
    add(text, "description", asked.description)
}

fn add_selection(text: &mut Vec<u8>, asked: &Selection<'_>) -> Result<(), Fail> {
    add_given(text, "weights", asked.weights)?;
    add(text, "keep", asked.keep)?;
    add(text, "description", asked.description)
}

fn add_check(text: &mut Vec<u8>, asked: &Checking<'_>) -> Result<(), Fail> {
    add(text, "levels", asked.levels)?;
    add(text, "keep", asked.keep)?;
    add(text, "description", asked.description)
}

// Adds a name, and behind it a value in brackets.
fn add(text: &mut Vec<u8>, name: &str, value: &[u8]) -> Result<(), Fail> {
    text.push(b' ')?;
    text.extend_from_slice(name.as_bytes())?;
    text.push(b'[')?;
    text.extend_from_slice(value)?;
    text.push(b']')?;
    Ok(())
}

// Adds a value that may not be given.
fn add_given(text: &mut Vec<u8>, name: &str, value: Option<&[u8]>) -> Result<(), Fail> {
    match value {
        Some(value) => add(text, name, value),
        None => Ok(()),
    }
}

// Adds the name of a choice that is made.
fn add_choice(text: &mut Vec<u8>, name: &str, chosen: bool) -> Result<(), Fail> {
    if chosen {
        text.push(b' ')?;
        text.extend_from_slice(name.as_bytes())?;
    }
    Ok(())
}

// Adds a number in brackets behind its name.
fn add_number(alloc: Global, text: &mut Vec<u8>, name: &str, number: u32) -> Result<(), Fail> {
    add(text, name, format!(in alloc; "{number}")?.as_bytes())
}
