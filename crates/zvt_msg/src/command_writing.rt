//! The writing of a command.

ghost use Rattle.std.specs.Prelude.{◌≡◌, ◌+◌, ◌*◌, ◌^◌, ◌<◌, ◌≤◌, [], ◌∷◌, ◌++◌, length};
ghost use Rattle.arrayvec.specs.ArrayVec.{array_vec_len};
ghost use Rattle.gw_base.specs.Bcd.{bcd_of};
ghost use Rattle.zvt_msg.specs.CommandGrammar.{HasCommandDigits};
ghost use Rattle.zvt_msg.specs.CommandCanonical.{canonical_llvar, canonical_display_lines, instruction_of, command_data, canonical_command};

use crate::command::{Command, Line, Lines};
use arrayvec::ArrayVec;
use gw_base::bcd_write;
use zvt_apdu::write_apdu;

/// Writes the one APDU that spells a command.
pub fn write_command(command: &Command, out: &mut ArrayVec<u8, 512>)
    requires empty { out.old.items ≡ [] }
    requires digits { HasCommandDigits command.now }
    ensures { out.new.items ≡ canonical_command command.now }
{
    // The length of the data comes before them, so they are written apart first: at most 346 bytes.
    let mut apdu_data = ArrayVec::new();
    write_data(command, &mut apdu_data);
    write_apdu(0x06, instr(command), apdu_data.as_slice(), out);
}

fn instr(command: &Command) -> u8
    ensures { result ≡ instruction_of command.now }
{
    match command {
        Command::Register { .. } => 0x00,
        Command::Authorise { .. } => 0x01,
        Command::Enquire { .. } => 0x20,
        Command::Reverse { .. } => 0x30,
        Command::EndOfDay { .. } => 0x50,
        Command::Stop => 0xB0,
        Command::Show { .. } => 0xE0,
    }
}

fn write_data(command: &Command, apdu_data: &mut ArrayVec<u8, 512>)
    requires empty { apdu_data.old.items ≡ [] }
    requires digits { HasCommandDigits command.now }
    ensures apdu_data { apdu_data.new.items ≡ command_data command.now }
    ensures bound { array_vec_len apdu_data.new ≤ 346 }
{
    match command {
        Command::Register {
            password,
            config,
            currency,
        } => {
            write_bytes(password, apdu_data);
            apdu_data.push(*config);
            write_number(2, u64::from(*currency), apdu_data);
        }
        Command::Authorise { amount, currency } => {
            write_tagged(0x04, 6, *amount, apdu_data);
            write_tagged(0x49, 2, u64::from(*currency), apdu_data);
        }
        Command::Enquire { password } => write_bytes(password, apdu_data),
        Command::Reverse { password, receipt } => {
            write_bytes(password, apdu_data);
            write_tagged(0x87, 2, u64::from(*receipt), apdu_data);
        }
        Command::EndOfDay { password } => write_bytes(password, apdu_data),
        Command::Stop => {}
        Command::Show { lines } => {
            apdu_data.push(0xF0);
            apdu_data.push(0x05);
            write_lines(lines, apdu_data);
        }
    }
}

fn write_bytes(bytes: &[u8], out: &mut ArrayVec<u8, 512>)
    requires { array_vec_len out.old + length bytes.now ≤ 512 }
    ensures { out.new.items ≡ out.old.items ++ bytes.now }
{
    out.try_extend_from_slice(bytes).unwrap();
}

/// Appends the number of a field, and its value's decimal digits in so many bytes.
fn write_tagged(number: u8, count: usize, value: u64, out: &mut ArrayVec<u8, 512>)
    requires count { count ≤ 6 }
    requires digits { value < 100 ^ count }
    requires fits { array_vec_len out.old + 1 + count ≤ 512 }
    ensures field { out.new.items ≡ out.old.items ++ number ∷ bcd_of count value }
    ensures len { array_vec_len out.new ≡ array_vec_len out.old + 1 + count }
{
    out.push(number);
    write_number(count, value, out);
}

/// Appends the decimal digits of a number, in so many bytes.
fn write_number(count: usize, value: u64, out: &mut ArrayVec<u8, 512>)
    requires count { count ≤ 6 }
    requires digits { value < 100 ^ count }
    requires fits { array_vec_len out.old + count ≤ 512 }
    ensures digits { out.new.items ≡ out.old.items ++ bcd_of count value }
    ensures len { array_vec_len out.new ≡ array_vec_len out.old + count }
{
    let mut digits = [0; 6];
    let digits = &mut digits[..count];
    bcd_write(value, digits);
    write_bytes(digits, out);
}

fn write_lines(lines: &Lines, out: &mut ArrayVec<u8, 512>)
    requires { array_vec_len out.old ≤ 2 }
    ensures lines { out.new.items ≡ out.old.items ++ canonical_display_lines 0xF1 lines.now.items }
    ensures bound { array_vec_len out.new ≤ 346 }
{
    let mut number = 0xF1;
    for line in lines.as_slice() {
        write_line(number, line, out);
        number += 1;
    }
}

fn write_line(number: u8, line: &Line, out: &mut ArrayVec<u8, 512>)
    requires { array_vec_len out.old ≤ 400 }
    ensures line { out.new.items ≡ out.old.items ++ number ∷ (canonical_llvar (array_vec_len line.now) ++ line.now.items) }
    ensures len { array_vec_len out.new ≤ array_vec_len out.old + 43 }
{
    let length = line.len() as u8;
    out.push(number);
    out.push(0xF0 + length / 10);
    out.push(0xF0 + length % 10);
    write_bytes(line.as_slice(), out);
}
