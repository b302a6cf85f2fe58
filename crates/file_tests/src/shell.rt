//! Commands of a shell, and this test program started anew by one.
use net_play::path;
use std::process::Command;
use std::test::Fail;
use std::{env, fs};

/// Whether this process was started by a test of another, and runs for that one alone.
pub(crate) fn is_child(rt: &HostRuntime) -> bool {
    env::var(rt, "FILE_TESTS_CHILD").is_ok()
}

/// Gives a shell its command.
fn add_command(shell: &mut Command, command: &str) -> Result<(), Fail> {
    let _ = shell.arg("-c")?.arg(command)?;
    Ok(())
}

/// Runs a command to its end.
fn run(rt: &HostRuntime, command: &mut Command) -> Result<(), Fail> {
    let _ = command.output(rt)?;
    Ok(())
}

/// Runs a command of a shell to its end.
pub(crate) fn run_in_shell(rt: &HostRuntime, command: &str) -> Result<(), Fail> {
    let mut shell = Command::new(rt.alloc(), "/bin/sh")?;
    add_command(&mut shell, command)?;
    run(rt, &mut shell)
}

/// Appends the words by which this program was started, each in quotes.
fn push_own_words(rt: &HostRuntime, command: &mut String) -> Result<(), Fail> {
    for word in env::args(rt)? {
        write!(command, " '{word}'")?;
    }
    Ok(())
}

/// Words of a shell before and after this test program, and what the child then reports.
pub(crate) type Row = (&'static str, &'static str, &'static str);

/// The command that starts this test program anew with the words of a row before and after it, and gives it this file.
fn command_of(rt: &HostRuntime, child: &str, row: &Row, file: &str) -> Result<String, Fail> {
    let (before, after, _) = row;
    let mut command = format!(in rt.alloc();
        "{before} FILE_TESTS_CHILD='{child}' FILE_TESTS_FILE='{file}' exec"
    )?;
    push_own_words(rt, &mut command)?;
    command.push_str(after)?;
    Ok(command)
}

/// Starts this test program anew, and gives it this file.
fn run_child(rt: &HostRuntime, child: &str, row: &Row, file: &str) -> Result<(), Fail> {
    let command = command_of(rt, child, row, file)?;
    run_in_shell(rt, command.as_str())
}

/// A file has this text; it is removed.
fn check_report(rt: &HostRuntime, file: &str, reported: &str) -> Result<(), Fail> {
    let text = fs::read_to_string(rt, file)?;
    fs::remove_file(rt, file)?;
    check!(text.as_str() == reported, "what the child reports");
    Ok(())
}

/// Sees what a child reports for a row.
fn see_child(rt: &HostRuntime, child: &str, row: &Row) -> Result<(), Fail> {
    let (_, _, reported) = row;
    let file = path(rt, child)?;
    run_child(rt, child, row, file.as_str())?;
    check_report(rt, file.as_str(), reported)
}

/// Sees what a child reports for each row, where this process is none.
pub(crate) fn see_children(rt: &HostRuntime, child: &str, rows: &[Row]) -> Result<(), Fail> {
    if is_child(rt) {
        return Ok(());
    }
    for row in rows {
        see_child(rt, child, row)?;
    }
    Ok(())
}

/// Reports this to a file.
pub(crate) fn report(rt: &HostRuntime, file: &str, found: &str) -> Result<(), Fail> {
    fs::write(rt, file, found)?;
    Ok(())
}

/// The file to which this process reports, where it was started for this.
pub(crate) fn child_file(rt: &HostRuntime, child: &str) -> Option<String> {
    match env::var(rt, "FILE_TESTS_CHILD") {
        Ok(name) if name.as_str() == child => env::var(rt, "FILE_TESTS_FILE").ok(),
        _ => None,
    }
}
