//! The terminal of these tests.
use gw_base::{Currency, Ident, Pt, Text};
use pt_core::{Answer, Plays, Terminal};
use std::alloc::{AllocError, Global};
use std::test::Fail;

/// Its setup.
fn setup(alloc: Global) -> Option<Pt> {
    let poi = Ident::of(b"T1")?;
    Some(Pt {
        poi,
        address: Text::new(String::new(alloc)),
        password: [0x12, 0x34, 0x56],
        currency: Currency::Eur,
        config: 0xBA,
        none: 0x83,
        answer: 5,
        command: 180,
    })
}

/// A terminal with this setup, which does this at its first payments.
fn terminal_with(alloc: Global, pt: &Pt, plays: Plays) -> Result<Terminal, Fail> {
    if !pt.is_within_limits() {
        return Err(Fail::from("the setup isn't within the limits"));
    }
    Ok(Terminal::new(alloc, pt, plays)?)
}

/// A terminal that does this at its first payments.
pub(crate) fn terminal_of(alloc: Global, plays: Plays) -> Result<Terminal, Fail> {
    match setup(alloc) {
        Some(pt) => terminal_with(alloc, &pt, plays),
        None => Err(Fail::from("no POIID")),
    }
}

/// What a terminal sends for these bytes. Nothing is said of it, so that those that call it have no facts to carry along.
pub(crate) fn heard(
    alloc: Global,
    terminal: &mut Terminal,
    bytes: &[u8],
) -> Result<Answer, AllocError> {
    terminal.on_bytes(alloc, bytes)
}
