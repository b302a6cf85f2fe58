//! Reading a command.

ghost use Rattle.std.specs.Prelude.{◌≡◌, ◌↔◌, ◌^◌, ◌<◌, ◌≤◌, length, take, drop, Some, IsNone, IfSome};
ghost use Rattle.zvt_apdu.specs.Grammar.{value_of};
ghost use Rattle.zvt_msg.specs.declared.command.Command.{Command};
ghost use Rattle.zvt_msg.specs.CommandGrammar.{SpellsCommand};
ghost use Rattle.zvt_msg.specs.CommandDecode.{decode_password, decode_bcd_number, decode_register, decode_authorise, decode_reverse, enquire_with, end_of_day_with, decode_stop, decode_show, decode_command_by, decode_command};

use crate::command::Command;
use crate::display_reading::read_lines;
use gw_base::bcd_read;
use zvt_apdu::Apdu;

/// The command that an APDU to a terminal spells.
pub fn read_command(apdu: &Apdu<'_>) -> Option<Command>
    ensures some { (command : Command) → (result ≡ Some command) ↔ SpellsCommand (value_of apdu.now) command }
    ensures none { IsNone result ↔ ((command : Command) → ¬ SpellsCommand (value_of apdu.now) command) }

    // The result, by the function that computes it.
    ensures computes { result ≡ decode_command (value_of apdu.now) }
{
    recognise(apdu)
}

/// What [`read_command`] returns, by the function that computes it. It is apart from it for the prover alone: the relation
/// follows from this.
#[tactic(auto, unfolding(crate::specs::CommandDecode::decode_command))]
fn recognise(apdu: &Apdu<'_>) -> Option<Command>
    ensures { result ≡ decode_command (value_of apdu.now) }
{
    if apdu.class != 0x06 {
        return None;
    }
    match apdu.instr {
        0x00 => read_register(apdu.body),
        0x01 => read_authorise(apdu.body),
        0x20 => read_enquire(apdu.body),
        0x30 => read_reverse(apdu.body),
        0x50 => read_end_of_day(apdu.body),
        0xB0 => read_stop(apdu.body),
        0xE0 => read_show(apdu.body),
        _ => None,
    }
}

fn read_register(apdu_data: &[u8]) -> Option<Command>
    ensures { result ≡ decode_register apdu_data.now }
{
    if apdu_data.len() < 3 {
        return None;
    }
    let (password, rest) = apdu_data.split_at(3);
    let [config, currency @ ..] = rest else {
        return None;
    };
    Some(Command::Register {
        password: read_password(password)?,
        config: *config,
        currency: read_number(2, currency)? as u16,
    })
}

fn read_authorise(apdu_data: &[u8]) -> Option<Command>
    ensures { result ≡ decode_authorise apdu_data.now }
{
    let [0x04, rest @ ..] = apdu_data else {
        return None;
    };
    if rest.len() < 6 {
        return None;
    }
    let (amount, rest) = rest.split_at(6);
    let [0x49, currency @ ..] = rest else {
        return None;
    };
    Some(Command::Authorise {
        amount: read_number(6, amount)?,
        currency: read_number(2, currency)? as u16,
    })
}

fn read_enquire(apdu_data: &[u8]) -> Option<Command>
    ensures { result ≡ enquire_with (decode_password apdu_data.now) }
{
    Some(Command::Enquire {
        password: read_password(apdu_data)?,
    })
}

fn read_reverse(apdu_data: &[u8]) -> Option<Command>
    ensures { result ≡ decode_reverse apdu_data.now }
{
    if apdu_data.len() < 3 {
        return None;
    }
    let (password, rest) = apdu_data.split_at(3);
    let [0x87, receipt @ ..] = rest else {
        return None;
    };
    Some(Command::Reverse {
        password: read_password(password)?,
        receipt: read_number(2, receipt)? as u16,
    })
}

fn read_end_of_day(apdu_data: &[u8]) -> Option<Command>
    ensures { result ≡ end_of_day_with (decode_password apdu_data.now) }
{
    Some(Command::EndOfDay {
        password: read_password(apdu_data)?,
    })
}

fn read_stop(apdu_data: &[u8]) -> Option<Command>
    ensures { result ≡ decode_stop apdu_data.now }
{
    match apdu_data {
        [] => Some(Command::Stop),
        _ => None,
    }
}

fn read_show(apdu_data: &[u8]) -> Option<Command>
    ensures { result ≡ decode_show apdu_data.now }
{
    match apdu_data {
        [0xF0, 0x05, text @ ..] => Some(Command::Show {
            lines: read_lines(text)?,
        }),
        _ => None,
    }
}

/// Six digits in three bytes.
fn read_password(bytes: &[u8]) -> Option<[u8; 3]>
    ensures { result ≡ decode_password bytes.now }
{
    let [first, second, third] = bytes else {
        return None;
    };
    read_number(3, bytes)?;
    Some([*first, *second, *third])
}

/// The number whose digits fill so many bytes.
fn read_number(count: usize, bytes: &[u8]) -> Option<u64>
    requires { count ≤ 6 }
    ensures number { result ≡ decode_bcd_number count bytes.now }
    ensures bound { IfSome result (λ number. number < 100 ^ count) }
{
    if bytes.len() != count {
        return None;
    }
    bcd_read(bytes).ok()
}
