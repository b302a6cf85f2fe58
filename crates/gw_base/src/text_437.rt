//! The texts of a terminal: printable ASCII, and seven letters of code page 437.
ghost use Rattle.std.specs.Prelude.{◌≡◌, ◌≢◌, ℕ, ◌^◌, ◌<◌};
ghost use Rattle.gw_base.specs.Text437.{byte_of, char_of, unknown};

/// The character of a byte in a terminal's text; `?` for a byte outside the table.
pub fn char_of_437(byte: u8) -> char
    ensures { result ≡ char_of byte }
{
    match byte {
        0x20..=0x7E => char::from(byte),
        0x84 => 'ä',
        0x94 => 'ö',
        0x81 => 'ü',
        0x8E => 'Ä',
        0x99 => 'Ö',
        0x9A => 'Ü',
        0xE1 => 'ß',
        _ => '?',
    }
}

/// The byte of a character in a terminal's text; `3F`, the question mark, for a character outside the table.
pub fn byte_of_437(c: char) -> u8
    ensures { result ≡ byte_of c }
{
    match c {
        ' '..='~' => c as u8,
        'ä' => 0x84,
        'ö' => 0x94,
        'ü' => 0x81,
        'Ä' => 0x8E,
        'Ö' => 0x99,
        'Ü' => 0x9A,
        'ß' => 0xE1,
        _ => 0x3F,
    }
}

/// A byte of the table is the byte of its character, and a character of the table is the character of its
/// byte.
pub fn law_text_437()
    ensures bytes { (byte : ℕ) → char_of byte ≢ unknown → byte_of (char_of byte) ≡ byte }
    ensures characters { (scalar : ℕ) → byte_of scalar ≢ unknown → char_of (byte_of scalar) ≡ scalar }
{}
