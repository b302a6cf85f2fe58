//! What a played terminal sends for a stream of commands, and what its book holds then.
use crate::fixture::{heard, terminal_of};
use pt_core::{BookEntry, Play, Plays, Terminal};
use std::alloc::{AllocError, Global};
use std::process::Abort;
use std::test::Fail;

/// What it gets, what it sends then, and whether the connection is cut then. Without bytes that it gets it is a new link.
type Row = (&'static [u8], &'static [u8], bool);

const PAY: &[u8] = b"\x06\x01\x0a\x04\x00\x00\x00\x00\x10\x99\x49\x09\x78";

const ROWS: [Row; 24] = [
    (
        b"\x06\x20\x03\x12\x34\x56",
        b"\x80\x00\x00\x06\x1e\x01\x83",
        false,
    ),
    (
        b"\x06\x00\x06\x12\x34\x56\xba\x09\x78",
        b"\x80\x00\x00\x06\x0f\x00",
        false,
    ),
    // Approved, in two chunks.
    (b"\x06\x01\x0a\x04\x00\x00\x00\x00\x10\x99", b"", false),
    (
        b"\x49\x09\x78",
        b"\x80\x00\x00\x04\x0f\x10\x27\x00\x04\x00\x00\x00\x00\x10\x99\x0b\x00\x00\x01\x87\x00\x01\x06\x0f\x00",
        false,
    ),
    // Declined.
    (PAY, b"\x80\x00\x00\x06\x1e\x01\x6c", false),
    (
        b"\x06\x20\x03\x00\x00\x00",
        b"\x80\x00\x00\x04\x0f\x10\x27\x00\x04\x00\x00\x00\x00\x10\x99\x0b\x00\x00\x01\x87\x00\x01\x06\x0f\x00",
        false,
    ),
    (
        b"\x06\x30\x06\x12\x34\x56\x87\x00\x01",
        b"\x80\x00\x00\x04\x0f\x10\x27\x00\x04\x00\x00\x00\x00\x10\x99\x0b\x00\x00\x02\x87\x00\x02\x06\x0f\x00",
        false,
    ),
    // No payment has these receipt numbers: the one is that of a reversal.
    (
        b"\x06\x30\x06\x12\x34\x56\x87\x00\x02",
        b"\x80\x00\x00\x06\x1e\x01\xb4",
        false,
    ),
    (
        b"\x06\x30\x06\x12\x34\x56\x87\x99\x99",
        b"\x80\x00\x00\x06\x1e\x01\xb4",
        false,
    ),
    (
        b"\x06\x50\x03\x12\x34\x56",
        b"\x80\x00\x00\x06\x0f\x00",
        false,
    ),
    (
        b"\x06\xe0\x06\xf0\x05\xf1\xf0\xf1\x41",
        b"\x80\x00\x00",
        false,
    ),
    (b"\x80\x00\x00\x84\x83\x00\x06\xb0\x00", b"", false),
    // A command that is not known, and an authorisation whose data are none.
    (
        b"\x06\x99\x00\x06\x01\x00",
        b"\x84\x83\x00\x84\x83\x00",
        false,
    ),
    // Approved, and cut after the acknowledgement; what follows on the link is not heard.
    (
        b"\x06\x01\x0a\x04\x00\x00\x00\x00\x05\x00\x49\x09\x78\x06\x99\x00",
        b"\x80\x00\x00",
        true,
    ),
    (PAY, b"", false),
    (b"", b"", false),
    (
        b"\x06\x20\x03\x12\x34\x56",
        b"\x80\x00\x00\x04\x0f\x10\x27\x00\x04\x00\x00\x00\x00\x05\x00\x0b\x00\x00\x03\x87\x00\x03\x06\x0f\x00",
        false,
    ),
    // Dropped.
    (PAY, b"", true),
    (b"", b"", false),
    // Further payments are approved. The rest of an old link is dropped.
    (b"\x06\x01\x0a", b"", false),
    (b"", b"", false),
    (
        PAY,
        b"\x80\x00\x00\x04\x0f\x10\x27\x00\x04\x00\x00\x00\x00\x10\x99\x0b\x00\x00\x04\x87\x00\x04\x06\x0f\x00",
        false,
    ),
    // A bad rest.
    (b"\x06\x99\x00\x06\x01\xff\xe1\x2e", b"\x84\x83\x00", true),
    (b"\x06\x99\x00", b"", false),
];

/// The book after them: three payments, and a reversal of the first.
const BOOK: [BookEntry; 4] = [
    BookEntry {
        number: 1,
        receipt: 1,
        amount: 1_099,
        reversal: false,
        approved: true,
    },
    BookEntry {
        number: 2,
        receipt: 2,
        amount: 1_099,
        reversal: true,
        approved: true,
    },
    BookEntry {
        number: 3,
        receipt: 3,
        amount: 500,
        reversal: false,
        approved: true,
    },
    BookEntry {
        number: 4,
        receipt: 4,
        amount: 1_099,
        reversal: false,
        approved: true,
    },
];

/// The terminal sends for a row what it says. Without bytes it gets a new link.
fn check_row(
    rt: &impl Abort,
    alloc: Global,
    terminal: &mut Terminal,
    number: usize,
    row: &Row,
) -> Result<(), Fail> {
    let (sent, bytes, cut) = row;
    if sent.is_empty() {
        terminal.on_link();
    }
    let got = heard(alloc, terminal, sent)?;
    assert!(rt;
        got.bytes.as_slice() == *bytes,
        "row {number}: {:?}",
        got.bytes
    );
    assert_eq!(rt; got.cut, *cut, "row {number}");
    Ok(())
}

fn check_rows(rt: &impl Abort, alloc: Global, terminal: &mut Terminal) -> Result<(), Fail> {
    for (number, row) in ROWS.iter().enumerate() {
        check_row(rt, alloc, terminal, number, row)?;
    }
    Ok(())
}

fn plays(alloc: Global) -> Result<Plays, AllocError> {
    let plays = vec![in alloc;
        Play::Approve,
        Play::Decline(0x6C),
        Play::CutAfterBook,
        Play::DropAtOnce,
    ]?;
    Ok(Plays::new(plays))
}

#[test]
fn a_stream_of_commands(rt: HostRuntime) -> Result<(), Fail> {
    let mut terminal = terminal_of(rt.alloc(), plays(rt.alloc())?)?;
    check_rows(&rt, rt.alloc(), &mut terminal)?;
    assert!(rt; terminal.book().as_slice() == BOOK.as_slice());
    Ok(())
}
