//! What the words ask for.
ghost use Rattle.std.specs.Prelude.{◌≡◌, ◌≢◌, IfOk, None, codes, false, map};
ghost use Rattle.clap.specs.Matches.{found_of};
ghost use Rattle.clap.specs.Simple.{app_of, with_rule};
ghost use Rattle.clap.specs.Values.{kind_of};
ghost use Rattle.clap.specs.Walk.{rows_of, rule_of};
ghost use Rattle.gw_run.specs.Words.{bare_command, gateway_command, mode_in, mode_of, mode_rule, number_in, number_rule, order_in, order_of, payments_within};

use clap::error::ErrorKind;
use clap::{Arg, ArgMatches, Command, Error, value_parser};
use gw_base::Text;
use gw_bytes::MOST_DRILL_PAYMENTS;
use std::alloc::{AllocError, Global};

/// What the gateway is to do.
#[derive(Clone, Copy, PartialEq, Eq)]
pub enum Mode {
    /// Serve tills and terminals, over the site that is handed in.
    Serve,
    /// Play a script and write its log.
    Replay,
    /// Play the drill that this number gives, with so many payments, and write what it counts.
    Drill { from: u64, payments: u32 },
}

/// What the words ask for.
#[derive(Clone, Copy, PartialEq, Eq)]
pub struct Order {
    pub mode: Mode,
    /// So many polls may be made.
    pub polls: u64,
}

/// An option with a number, and the number that counts where it isn't given.
fn number_option<'a>(alloc: Global, name: &'a str, default: &'a str) -> Arg<'a>
    ensures rule { rule_of result ≡ number_rule name.entry.now default.entry.now }
    ensures local { result.global ≡ false }
{
    Arg::new(alloc, name)
        .long(name)
        .value_parser(value_parser!(u64))
        .default_value(default)
}

/// The one word that has to be there.
fn mode_word<'a>(alloc: Global) -> Arg<'a>
    ensures rule { rule_of result ≡ mode_rule }
    ensures local { result.global ≡ false }
{
    Arg::new(alloc, "mode").required(true)
}

/// The command, which takes no words yet.
fn bare_command<'a>(alloc: Global) -> Command<'a>
    ensures { app_of result ≡ bare_command (codes "gateway") }
{
    Command::new(alloc, "gateway")
        .no_binary_name(true)
        .disable_help_flag(true)
        .disable_version_flag(true)
}

/// The command with one option more.
fn with_option<'a>(
    alloc: Global,
    command: Command<'a>,
    name: &'a str,
    default: &'a str,
) -> Result<Command<'a>, AllocError>
    ensures { IfOk result (λ more. app_of more ≡ with_rule (app_of command.entry) (number_rule name.entry.now default.entry.now)) }
{
    command.arg(number_option(alloc, name, default))
}

/// The command with the options of a drill.
fn with_drill_options<'a>(alloc: Global, command: Command<'a>) -> Result<Command<'a>, AllocError>
    ensures { IfOk result (λ more. app_of more
        ≡ with_rule (with_rule (app_of command.entry) (number_rule (codes "from") (codes "1"))) (number_rule (codes "payments") (codes "100"))) }
{
    let command = with_option(alloc, command, "from", "1")?;
    with_option(alloc, command, "payments", "100")
}

/// The command that the words are for.
fn gateway_command<'a>(alloc: Global) -> Result<Command<'a>, AllocError>
    ensures { IfOk result (λ command. app_of command ≡ gateway_command) }
{
    let command = bare_command(alloc).arg(mode_word(alloc))?;
    let command = with_option(alloc, command, "turns", "18446744073709551615")?;
    with_drill_options(alloc, command)
}

/// The mode with this name, for a drill with these numbers.
fn mode_of(name: &str, from: u64, payments: u32) -> Option<Mode>
    ensures { result ≡ mode_of from payments name.now }
{
    if name == "serve" {
        Some(Mode::Serve)
    } else if name == "replay" {
        Some(Mode::Replay)
    } else if name == "drill" {
        Some(Mode::Drill { from, payments })
    } else {
        None
    }
}

/// The mode that is named, for a drill with these numbers.
fn mode_in(matches: &ArgMatches, from: u64, payments: u32) -> Option<Mode>
    ensures { result ≡ mode_in from payments (rows_of (found_of matches.now)) }
{
    match matches.get_str("mode") {
        Some(name) => mode_of(name, from, payments),
        None => None,
    }
}

/// The number that an option has.
fn number_in(matches: &ArgMatches, name: &str) -> Option<u64>
    ensures { result ≡ number_in name.now (rows_of (found_of matches.now)) }
{
    matches.get_one::<u64>(name)
}

/// So many payments, where no more are than may be.
fn payments_within(payments: u64) -> Option<u32>
    ensures { result ≡ payments_within payments }
{
    if payments > u64::from(MOST_DRILL_PAYMENTS) {
        None
    } else {
        Some(payments as u32)
    }
}

/// What is asked for by what the command was given.
fn order_in(matches: &ArgMatches) -> Option<Order>
    ensures { result ≡ order_in (rows_of (found_of matches.now)) }
{
    let polls = number_in(matches, "turns")?;
    let from = number_in(matches, "from")?;
    let payments = payments_within(number_in(matches, "payments")?)?;
    let mode = mode_in(matches, from, payments)?;
    Some(Order { mode, polls })
}

/// The words as slices.
fn slices<'a>(alloc: Global, words: &'a [Text]) -> Result<Vec<&'a str>, AllocError>
    ensures { IfOk result (λ list. map (λ word. word.now) list.items ≡ words.entry.now) }
{
    let mut list = Vec::new(alloc);
    for word in words {
        list.push(word.as_str())?;
    }
    Ok(list)
}

/// What refused words ask for: nothing; an error where memory was refused.
fn refused(error: &Error) -> Result<Option<Order>, AllocError>
    ensures { IfOk result (λ order. (order ≡ None) × (kind_of error.now ≢ ErrorKind.OutOfMemory)) }
{
    if error.kind() == ErrorKind::OutOfMemory {
        Err(AllocError)
    } else {
        Ok(None)
    }
}

/// What the words ask for, as slices.
fn order_of_slices<'a>(alloc: Global, words: &'a [&'a str]) -> Result<Option<Order>, AllocError>
    ensures { IfOk result (λ order. order ≡ order_of (map (λ word. word.now) words.entry.now)) }
{
    let command = gateway_command(alloc)?;
    match command.try_get_matches_from(words) {
        Ok(matches) => Ok(order_in(&matches)),
        Err(error) => refused(&error),
    }
}

/// What the words ask for; nothing where they are refused.
pub(crate) fn order_of(alloc: Global, words: &[Text]) -> Result<Option<Order>, AllocError>
    ensures { IfOk result (λ order. order ≡ order_of words.now) }
{
    let list = slices(alloc, words)?;
    order_of_slices(alloc, &list)
}
