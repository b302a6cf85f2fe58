//! The setup lines.
ghost use Rattle.std.specs.Prelude.{◌≡◌, ◌==◌, option_map, option_and_then, not, is_some, true, false, Some, IfOk, OnOk, ℕ};
ghost use Rattle.gw_script.specs.Decode.{split_at_space};
ghost use Rattle.gw_script.specs.site.Decode.{lacks_poi, terminal, terminal_codes, terminal_currency, terminal_password, terminal_words, with_setting};
ghost use Rattle.gw_script.specs.site.ScriptLine.{Terminal};
ghost use Rattle.sim_script.specs.Read.{IsTakenIn};
ghost use Rattle.sim_script.specs.Values.{given_value, setting_value};

use crate::line::{Given, SetupLine};
use crate::word::{byte_number, currency_word, first_word, name_word, password_word};
use gw_base::{Currency, Ident, Pt, Text};
use gw_bytes::MOST_TERMINALS;
use std::alloc::{AllocError, Global};

/// How long a terminal of a script may take to acknowledge or refuse a command, in seconds.
const ANSWER: u32 = 5;

/// How long a begun command of a terminal of a script may take to send its next message, in seconds.
const COMMAND: u32 = 180;

/// A terminal with its defaults.
fn terminal(
    alloc: Global,
    poi: Ident<40>,
    currency: Currency,
    password: [u8; 3],
    config: u8,
    none: u8,
) -> Pt
    ensures { result ≡ terminal poi currency password config none }
{
    Pt {
        poi,
        address: Text::new(String::new(alloc)),
        password,
        currency,
        config,
        none,
        answer: ANSWER,
        command: COMMAND,
    }
}

/// The terminal whose last two words are these.
fn terminal_codes(
    alloc: Global,
    poi: Ident<40>,
    currency: Currency,
    password: [u8; 3],
    text: &str,
) -> Option<SetupLine>
    ensures { option_map setting_value result ≡ terminal_codes poi currency password text.now }
{
    let (word, rest) = first_word(text)?;
    let config = byte_number(word)?;
    let none = byte_number(rest)?;
    let pt = terminal(alloc, poi, currency, password, config, none);
    Some(SetupLine::Terminal(pt))
}

/// The terminal whose last three words are these.
fn terminal_password(
    alloc: Global,
    poi: Ident<40>,
    currency: Currency,
    text: &str,
) -> Result<Option<SetupLine>, AllocError>
    ensures { IfOk result (λ line. option_map setting_value line ≡ terminal_password poi currency text.now) }
{
    let Some((word, rest)) = first_word(text) else {
        return Ok(None);
    };
    match password_word(alloc, word)? {
        Some(password) => Ok(terminal_codes(alloc, poi, currency, password, rest)),
        None => Ok(None),
    }
}

/// The terminal whose last four words are these.
fn terminal_currency(
    alloc: Global,
    poi: Ident<40>,
    text: &str,
) -> Result<Option<SetupLine>, AllocError>
    ensures { IfOk result (λ line. option_map setting_value line ≡ terminal_currency poi text.now) }
{
    let Some((word, rest)) = first_word(text) else {
        return Ok(None);
    };
    match currency_word(word) {
        Some(currency) => terminal_password(alloc, poi, currency, rest),
        None => Ok(None),
    }
}

/// The terminal that `terminal` and these words give.
pub(crate) fn terminal_words(alloc: Global, text: &str) -> Result<Option<SetupLine>, AllocError>
    ensures { IfOk result (λ line. option_map setting_value line ≡ terminal_words text.now) }
{
    let Some((word, rest)) = first_word(text) else {
        return Ok(None);
    };
    match name_word(word) {
        Some(poi) => terminal_currency(alloc, poi, rest),
        None => Ok(None),
    }
}

/// Gives what a line gives that may come once. False where it was given.
fn set_once<T: Drop>(given: &mut Option<T>, value: T) -> bool
    ensures set { result ≡ not (is_some given.old) }
    ensures new { result ≡ true → given.new ≡ Some value }
{
    if given.is_some() {
        return false;
    }
    *given = Some(value);
    true
}

/// Whether no terminal has this POIID.
fn lacks_poi(terminals: &[Pt], poi: &Ident<40>) -> bool
    ensures { result ≡ lacks_poi terminals.now poi.now }
{
    terminals.iter().all(|other| other.poi != *poi)
}

/// Adds a terminal. False where there are 32, or one has its POIID.
fn add_terminal(given: &mut Given, pt: Pt) -> Result<bool, AllocError>
    ensures { IfOk result (λ added. IsTakenIn added (with_setting (given_value given.old) (Terminal pt)) (given_value given.new)) }
{
    if given.terminals.len() >= MOST_TERMINALS || !lacks_poi(&given.terminals, &pt.poi) {
        return Ok(false);
    }
    given.terminals.push(pt)?;
    Ok(true)
}

/// Adds what a setup line gives. False where it may not come there.
pub(crate) fn add_setting(given: &mut Given, line: SetupLine) -> Result<bool, AllocError>
    ensures { IfOk result (λ added. IsTakenIn added (with_setting (given_value given.old) (setting_value line)) (given_value given.new)) }
{
    match line {
        SetupLine::Name(name) => Ok(set_once(&mut given.name, name)),
        SetupLine::Queue(n) => Ok(set_once(&mut given.queue, n)),
        SetupLine::Wait(n) => Ok(set_once(&mut given.wait, n)),
        SetupLine::Slots(n) => Ok(set_once(&mut given.slots, n)),
        SetupLine::Terminal(pt) => add_terminal(given, pt),
    }
}
