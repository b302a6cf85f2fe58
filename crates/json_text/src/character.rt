//! One character of a string, byte by byte.
ghost use Rattle.std.specs.Prelude.{◌≡◌, ◌≢◌, ◌<◌, ◌≤◌};
ghost use Rattle.std.specs.Char.{InScalarRange};
ghost use Rattle.json_text.specs.Character.{hex_value, short_escape, IsHigh};
ghost use Rattle.json_text.specs.Scan.{inside, escaped, owes};
ghost use Rattle.json_text.specs.inner.CharacterLeft.{LeftOfCharacter, IsSound, IsCharacterStep, Starts, scan_within, FirstBounds, SecondBounds};

/// What has been read of a character's spelling.
#[derive(Clone, Copy)]
pub(crate) enum CharacterState {
    /// So many bytes of UTF-8 are owed, the next of them from `low` to `high`.
    Utf8 {
        owed: u8,
        low: u8,
        high: u8,
        bits: u32,
    },
    /// A backslash.
    Escape,
    /// `\u`, of whose four digits so many are owed.
    First {
        owed: u8,
        bits: u32,
    },
    /// A high surrogate.
    Between {
        high: u32,
    },
    /// A high surrogate and a backslash.
    SecondEscape {
        high: u32,
    },
    /// A high surrogate and `\u`, of whose four digits so many are owed.
    Second {
        high: u32,
        owed: u8,
        bits: u32,
    },
}

/// What a byte does.
#[derive(Clone, Copy)]
pub(crate) enum CharacterStep {
    /// It completes the character.
    Whole(char),
    Next(CharacterState),
    /// No character goes on so.
    Wrong,
}

impl CharacterStep {
    fn whole(code: u32) -> CharacterStep
        requires { InScalarRange code }
        ensures { result ≡ CharacterStep.Whole code }
    {
        CharacterStep::Whole(char::from_u32(code).unwrap())
    }

    fn utf8(owed: u8, low: u8, high: u8, bits: u8) -> CharacterStep
        ensures { result ≡ CharacterStep.Next (CharacterState.Utf8 owed low high bits) }
    {
        CharacterStep::Next(CharacterState::Utf8 {
            owed,
            low,
            high,
            bits: u32::from(bits),
        })
    }
}

/// The first byte of a character, which is no quotation mark.
pub(crate) fn first(byte: u8) -> CharacterStep
    requires { byte ≢ 34 }
    ensures { IsCharacterStep Starts inside byte result }
{
    // The bounds of a second byte leave the shortest form alone (after E0 and F0), no surrogate (after ED) and nothing
    // above 10FFFF (after F4); C0 and C1 would begin a longer form of ASCII, F5 and above a character that isn't there.
    match byte {
        b'\\' => CharacterStep::Next(CharacterState::Escape),
        0x20..=0x7F => CharacterStep::Whole(char::from(byte)),
        0xC2..=0xDF => CharacterStep::utf8(1, 0x80, 0xBF, byte - 0xC0),
        0xE0 => CharacterStep::utf8(2, 0xA0, 0xBF, 0),
        0xED => CharacterStep::utf8(2, 0x80, 0x9F, 0xD),
        0xE1..=0xEF => CharacterStep::utf8(2, 0x80, 0xBF, byte - 0xE0),
        0xF0 => CharacterStep::utf8(3, 0x90, 0xBF, 0),
        0xF4 => CharacterStep::utf8(3, 0x80, 0x8F, 4),
        0xF1..=0xF3 => CharacterStep::utf8(3, 0x80, 0xBF, byte - 0xF0),
        _ => CharacterStep::Wrong,
    }
}

impl CharacterState {
    /// The next byte of a character.
    #[inline(always)]
    pub(crate) fn next(self, byte: u8) -> CharacterStep
        requires { IsSound self }
        ensures { IsCharacterStep (LeftOfCharacter self) (scan_within self) byte result }
    {
        match self {
            CharacterState::Utf8 {
                owed,
                low,
                high,
                bits,
            } => in_utf8(owed, low, high, bits, byte),
            CharacterState::Escape => in_escape(byte),
            CharacterState::First { owed, bits } => in_first(owed, bits, byte),
            CharacterState::Between { high } => in_between(high, byte),
            CharacterState::SecondEscape { high } => in_second_escape(high, byte),
            CharacterState::Second { high, owed, bits } => in_second(high, owed, bits, byte),
        }
    }
}

fn in_utf8(owed: u8, low: u8, high: u8, bits: u32, byte: u8) -> CharacterStep
    requires { IsSound (CharacterState.Utf8 owed low high bits) }
    ensures { IsCharacterStep (LeftOfCharacter (CharacterState.Utf8 owed low high bits)) (owes owed) byte result }
{
    if byte < low || byte > high {
        return CharacterStep::Wrong;
    }
    let bits = bits * 64 + u32::from(byte - 0x80);
    if owed == 1 {
        CharacterStep::whole(bits)
    } else {
        CharacterStep::Next(CharacterState::Utf8 {
            owed: owed - 1,
            low: 0x80,
            high: 0xBF,
            bits,
        })
    }
}

fn in_escape(byte: u8) -> CharacterStep
    ensures { IsCharacterStep (LeftOfCharacter CharacterState.Escape) escaped byte result }
{
    match short(byte) {
        Some(c) => CharacterStep::Whole(c),
        None => {
            if byte == b'u' {
                CharacterStep::Next(CharacterState::First { owed: 4, bits: 0 })
            } else {
                CharacterStep::Wrong
            }
        }
    }
}

/// The character that a letter after a backslash means.
fn short(letter: u8) -> Option<char>
    ensures { result ≡ short_escape letter }
{
    match letter {
        b'"' | b'\\' | b'/' => Some(char::from(letter)),
        b'b' => Some('\x08'),
        b'f' => Some('\x0C'),
        b'n' => Some('\n'),
        b'r' => Some('\r'),
        b't' => Some('\t'),
        _ => None,
    }
}

fn in_first(owed: u8, bits: u32, byte: u8) -> CharacterStep
    requires { FirstBounds owed bits }
    ensures { IsCharacterStep (LeftOfCharacter (CharacterState.First owed bits)) inside byte result }
{
    let Some(value) = hex(byte) else {
        return CharacterStep::Wrong;
    };
    let bits = bits * 16 + value;
    match owed {
        1 if (0xD800..0xDC00).contains(&bits) => CharacterStep::Next(CharacterState::Between {
            high: bits,
        }),
        1 => CharacterStep::whole(bits),
        // A low surrogate without a high one before it is refused at its second digit, the first that shows it.
        3 if (0xDC..0xE0).contains(&bits) => CharacterStep::Wrong,
        _ => CharacterStep::Next(CharacterState::First {
            owed: owed - 1,
            bits,
        }),
    }
}

fn in_between(high: u32, byte: u8) -> CharacterStep
    requires { IsHigh high }
    ensures { IsCharacterStep (LeftOfCharacter (CharacterState.Between high)) inside byte result }
{
    if byte == b'\\' {
        CharacterStep::Next(CharacterState::SecondEscape { high })
    } else {
        CharacterStep::Wrong
    }
}

fn in_second_escape(high: u32, byte: u8) -> CharacterStep
    requires { IsHigh high }
    ensures { IsCharacterStep (LeftOfCharacter (CharacterState.SecondEscape high)) escaped byte result }
{
    if byte == b'u' {
        CharacterStep::Next(CharacterState::Second {
            high,
            owed: 4,
            bits: 0,
        })
    } else {
        CharacterStep::Wrong
    }
}

fn in_second(high: u32, owed: u8, bits: u32, byte: u8) -> CharacterStep
    requires high { IsHigh high }
    requires bounds { SecondBounds owed bits }
    ensures { IsCharacterStep (LeftOfCharacter (CharacterState.Second high owed bits)) inside byte result }
{
    let Some(value) = hex(byte) else {
        return CharacterStep::Wrong;
    };
    let bits = bits * 16 + value;
    match owed {
        1 => CharacterStep::whole(0x10000 + ((high - 0xD800) * 0x400 + (bits - 0xDC00))),
        3 if bits < 0xDC => CharacterStep::Wrong,
        4 if bits != 0xD => CharacterStep::Wrong,
        _ => CharacterStep::Next(CharacterState::Second {
            high,
            owed: owed - 1,
            bits,
        }),
    }
}

/// The value of a hexadecimal digit, in either case.
fn hex(digit: u8) -> Option<u32>
    ensures { result ≡ hex_value digit }
{
    match digit {
        b'0'..=b'9' => Some(u32::from(digit) - 48),
        b'a'..=b'f' => Some(u32::from(digit) - 87),
        b'A'..=b'F' => Some(u32::from(digit) - 55),
        _ => None,
    }
}
