//! An APDU, and its writing.

ghost use Rattle.std.specs.Prelude.{◌≡◌, ◌+◌, ◌≤◌, ◌++◌, length};
ghost use Rattle.arrayvec.specs.ArrayVec.{array_vec_len};
ghost use Rattle.zvt_apdu.specs.Grammar.{canonical_apdu, canonical_apdu_length};

use arrayvec::ArrayVec;

/// One application protocol data unit: class, instruction and data. The data borrows from what was read.
#[derive(Clone, Copy, Debug, PartialEq, Eq)]
pub struct Apdu<'a> {
    pub class: u8,
    pub instr: u8,
    pub body: &'a [u8],
}

/// Appends an APDU: class, instruction, the length in its one written form, and the data.
///
/// A length below 255 is one byte; every other is `FF` and two bytes, low byte first.
pub fn write_apdu(class: u8, instr: u8, body: &[u8], out: &mut ArrayVec<u8, 512>)
    requires { array_vec_len out.old + length (canonical_apdu class instr body.now) ≤ 512 }
    ensures { out.new.items ≡ out.old.items ++ canonical_apdu class instr body.now }
{
    out.push(class);
    out.push(instr);
    // The buffer bounds the data, so that their length fits.
    write_length(body.len() as u16, out);
    out.try_extend_from_slice(body).unwrap();
}

fn write_length(n: u16, out: &mut ArrayVec<u8, 512>)
    requires { array_vec_len out.old + length (canonical_apdu_length n) ≤ 512 }
    ensures { out.new.items ≡ out.old.items ++ canonical_apdu_length n }
{
    if n < 0xFF {
        out.push(n as u8);
    } else {
        let [low, high] = n.to_le_bytes();
        out.push(0xFF);
        out.push(low);
        out.push(high);
    }
}
