//! The files of cases: their beginnings, their groups, and each case of these.
use crate::beginnings::Beginnings;
use crate::case::Case;
use crate::filling::{filled, meant, written_out};
use crate::found::{found_of, sends_of};
use gateway_play::difference;
use row_texts::push_form;
use std::alloc::{AllocError, Global};
use std::test::Fail;

/// Whether what is found of a case is what is wanted, or the first line that differs.
fn verdict(alloc: Global, found: &str, wanted: &str) -> Result<String, AllocError> {
    let mut verdict = String::new(alloc);
    match difference(found, wanted) {
        None => verdict.push_str("as expected")?,
        Some((other, line)) => push_form(&mut verdict, "% in place of %", &[other, line])?,
    }
    Ok(verdict)
}

/// Prints the line of a case.
fn print_case<R: AllocGlobal + Print>(
    rt: &R,
    name: &str,
    found: &str,
    wanted: &str,
) -> Result<(), Fail> {
    let verdict = verdict(rt.alloc(), found, wanted)?;
    println!(rt; "{name}: {verdict}")?;
    Ok(())
}

/// Prints the line of a case of which only what was linked and sent is compared.
fn print_sends<R: AllocGlobal + Print>(
    rt: &R,
    name: &str,
    found: &str,
    wanted: &str,
) -> Result<(), Fail> {
    let found = sends_of(rt.alloc(), found)?;
    let wanted = sends_of(rt.alloc(), wanted)?;
    print_case(rt, name, &found, &wanted)
}

/// Plays a case and prints its line.
fn play_case<R: AllocGlobal + Print>(rt: &R, name: &str, case: &Case) -> Result<(), Fail> {
    let found = found_of(rt.alloc(), case)?;
    if case.only_sends {
        return print_sends(rt, name, &found, &case.wanted);
    }
    print_case(rt, name, &found, &case.wanted)
}

/// Appends the lines of a text, with its blocks and its beginnings written out.
fn push_text(
    alloc: Global,
    lines: &mut String,
    beginnings: &Beginnings,
    text: &str,
) -> Result<(), Fail> {
    let text = written_out(alloc, text)?;
    beginnings.push_lines(lines, &text)
}

/// The case of these lines, each after a line's end.
fn case_of(alloc: Global, beginnings: &Beginnings, text: &str) -> Result<Case, Fail> {
    let mut lines = String::new(alloc);
    push_text(alloc, &mut lines, beginnings, text)?;
    Case::of(alloc, &lines)
}

/// Plays a case: its name, and its lines, each after a line's end.
fn play<R: AllocGlobal + Print>(
    rt: &R,
    beginnings: &Beginnings,
    name: &str,
    text: &str,
) -> Result<(), Fail> {
    let case = case_of(rt.alloc(), beginnings, text)?;
    play_case(rt, name, &case)
}

/// A text in which the values of a table take the places of their marks, as they are meant.
fn filled_as_meant(alloc: Global, text: &str, values: &str) -> Result<String, AllocError> {
    let values = meant(alloc, values)?;
    filled(alloc, text, &values)
}

/// Plays a case with the values of a line of its table, where it has one.
fn play_with<R: AllocGlobal + Print>(
    rt: &R,
    beginnings: &Beginnings,
    name: &str,
    text: &str,
    values: &str,
) -> Result<(), Fail> {
    let name = filled(rt.alloc(), name, values)?;
    let text = filled_as_meant(rt.alloc(), text, values)?;
    play(rt, beginnings, &name, &text)
}

/// Plays a case once for each line of its table, or once where it has none.
fn play_lines<R: AllocGlobal + Print>(
    rt: &R,
    beginnings: &Beginnings,
    name: &str,
    text: &str,
) -> Result<(), Fail> {
    let mut is_table = false;
    for line in text.split('\n') {
        if let Some(values) = line.strip_prefix("for ") {
            is_table = true;
            play_with(rt, beginnings, name, text, values)?;
        }
    }
    if !is_table {
        play(rt, beginnings, name, text)?;
    }
    Ok(())
}

/// Plays a case, once for each line of its table where it has one: the name of its group and the lines of that, and its own name with its lines.
fn play_table<R: AllocGlobal + Print>(
    rt: &R,
    beginnings: &Beginnings,
    group: (&str, &str),
    case: &str,
) -> Result<(), Fail> {
    let (title, common) = group;
    let (words, lines) = case.split_once('\n').ok_or("a case without lines")?;
    let name = format!(in rt.alloc(); "{title}: {words}")?;
    let text = format!(in rt.alloc(); "\n{common}\n{lines}")?;
    play_lines(rt, beginnings, &name, &text)
}

/// Plays the cases of a group: the line of its name, its lines, and the cases.
fn play_group<R: AllocGlobal + Print>(
    rt: &R,
    beginnings: &Beginnings,
    group: &str,
) -> Result<(), Fail> {
    let mut cases = group.split("\n= ");
    let heading = cases.next().unwrap_or("");
    let heading = heading.split_once('\n').unwrap_or((heading, ""));
    for case in cases {
        play_table(rt, beginnings, heading, case)?;
    }
    Ok(())
}

/// Plays the cases of a file, and adds its beginnings.
pub(crate) fn play_file<R: AllocGlobal + Print>(
    rt: &R,
    beginnings: &mut Beginnings,
    text: &str,
) -> Result<(), Fail> {
    let mut groups = text.split("\n== ");
    let head = groups.next().unwrap_or("");
    for beginning in head.split("\n+ ").skip(1) {
        beginnings.add(rt.alloc(), beginning)?;
    }
    for group in groups {
        play_group(rt, beginnings, group)?;
    }
    Ok(())
}
