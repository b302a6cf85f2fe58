//! Prints samples of all commands and terminal messages that zvt_msg writes, one on a line: the bytes of the APDU in
//! hexadecimal, its name, and what it carries. Codes are in hexadecimal.
#![tactic(auto)]

ghost use Rattle.std.specs.Prelude.{◌^◌, ◌<◌, ◌≤◌, length};
ghost use Rattle.zvt_msg.specs.CommandGrammar.{HasCommandDigits};
ghost use Rattle.zvt_msg.specs.Message.{value_of};
ghost use Rattle.zvt_msg.specs.MessageCanonical.{HasPtMessageForm, canonical_pt_message};

use arrayvec::ArrayVec;
use gw_bytes::{GREATEST_AMOUNT, GREATEST_RECEIPT, GREATEST_TRACE};
use std::fmt::Display;
use std::io;
use zvt_apdu::Apdu;
use zvt_bmp::Fields;
use zvt_msg::{Command, Line, Lines, PtMessage, read_pt, write_command, write_pt};

/// The password of every sample.
const PASSWORD: [u8; 3] = [0x12, 0x34, 0x56];

/// The data of a block: an object of a receipt, and two lines.
const BLOCK: &[u8] = b"\x06\x15\x1f\x07\x01\x01\x25\x0f\x07\x05Hallo\x07\x06M\x81ller";

/// The longest line of a display. Eight of them take the long form of the length.
const LONGEST: &[u8] = b"0123456789012345678901234567890123456789";

fn print_apdu(rt: &impl Print, bytes: &[u8], what: impl Display + Drop) -> io::Result<()> {
    for byte in bytes {
        print!(rt; "{byte:02x}")?;
    }
    println!(rt; " {what}")
}

fn print_command(rt: &impl Print, command: &Command, what: impl Display + Drop) -> io::Result<()>
    requires { HasCommandDigits command.now }
{
    let mut out = ArrayVec::new();
    write_command(command, &mut out);
    print_apdu(rt, out.as_slice(), what)
}

fn print_message(
    rt: &impl Print,
    message: &PtMessage<'_>,
    what: impl Display + Drop,
) -> io::Result<()>
    requires form { HasPtMessageForm (value_of message.now) }
    requires fits { length (canonical_pt_message (value_of message.now)) ≤ 512 }
{
    let mut out = ArrayVec::new();
    write_pt(message, &mut out);
    print_apdu(rt, out.as_slice(), what)
}

fn print_register(rt: &impl Print, config: u8, currency: u16) -> io::Result<()>
    requires { currency < 100 ^ 2 }
{
    let command = Command::Register {
        password: PASSWORD,
        config,
        currency,
    };
    print_command(
        rt,
        &command,
        format_args!("register password=123456 config={config:02x} currency={currency}"),
    )
}

fn print_authorise(rt: &impl Print, amount: u64, currency: u16) -> io::Result<()>
    requires amount { amount < 100 ^ 6 }
    requires currency { currency < 100 ^ 2 }
{
    print_command(
        rt,
        &Command::Authorise { amount, currency },
        format_args!("authorise amount={amount} currency={currency}"),
    )
}

fn print_others(rt: &impl Print) -> io::Result<()> {
    let password = PASSWORD;
    print_command(
        rt,
        &Command::Enquire { password },
        "enquire password=123456",
    )?;
    let receipt = 17;
    print_command(
        rt,
        &Command::Reverse { password, receipt },
        "reverse password=123456 receipt=17",
    )?;
    print_command(
        rt,
        &Command::EndOfDay { password },
        "end_of_day password=123456",
    )?;
    print_command(rt, &Command::Stop, "stop")
}

/// A display of so many lines of this text.
fn print_show(rt: &impl Print, text: &[u8], count: usize) -> io::Result<()> {
    let mut lines = Lines::new();
    for _ in 0..count.min(8) {
        let _room = lines.try_push(Line::try_from(text).unwrap_or_default());
    }
    print_command(
        rt,
        &Command::Show { lines },
        format_args!("show lines={count}"),
    )
}

fn print_status(
    rt: &impl Print,
    result_code: u8,
    amount: u64,
    trace: u32,
    receipt: u16,
) -> io::Result<()>
    requires amount { amount < 100 ^ 6 }
    requires trace { trace < 100 ^ 3 }
    requires receipt { receipt < 100 ^ 2 }
{
    let fields = Fields {
        result: Some(result_code),
        amount: Some(amount),
        trace: Some(trace),
        receipt: Some(receipt),
        currency: Some([0x09, 0x78]),
        tail: 0,
    };
    print_message(
        rt,
        &PtMessage::Status(fields),
        format_args!(
            "status result={result_code:02x} amount={amount} trace={trace} receipt={receipt} currency=978"
        ),
    )
}

fn print_block(rt: &impl Print) -> io::Result<()> {
    let apdu = Apdu {
        class: 0x06,
        instr: 0xD3,
        body: BLOCK,
    };
    if let Ok(PtMessage::Block(objects)) = read_pt(&apdu)
        && objects.len() <= 400
    {
        print_message(
            rt,
            &PtMessage::Block(objects),
            "block line=Hallo line=M\u{fc}ller",
        )?;
    }
    Ok(())
}

fn print_messages(rt: &impl Print) -> io::Result<()> {
    print_message(rt, &PtMessage::Ack, "ack")?;
    print_message(rt, &PtMessage::Nack(0x83), "nack code=83")?;
    print_message(rt, &PtMessage::Intermediate(0x0A), "intermediate code=0a")?;
    print_message(rt, &PtMessage::Line(b"Hallo"), "line text=Hallo")?;
    print_block(rt)?;
    print_status(rt, 0x00, 1_099, 123, 17)?;
    print_status(rt, 0x6C, GREATEST_AMOUNT, GREATEST_TRACE, GREATEST_RECEIPT)?;
    print_message(rt, &PtMessage::Completion, "completion")?;
    print_message(rt, &PtMessage::Abort(Some(0x6C)), "abort code=6c")?;
    print_message(rt, &PtMessage::Abort(None), "abort")
}

fn main(rt: HostRuntime) -> io::Result<()> {
    print_register(&rt, 0xBA, 978)?;
    print_authorise(&rt, 1_099, 978)?;
    print_authorise(&rt, GREATEST_AMOUNT, 826)?;
    print_others(&rt)?;
    print_show(&rt, b"Hallo", 1)?;
    print_show(&rt, b"Hallo", 8)?;
    print_show(&rt, LONGEST, 8)?;
    print_messages(&rt)
}
