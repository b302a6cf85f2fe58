//! The text of a number, byte by byte.
ghost use Rattle.std.specs.Prelude.{◌≡◌, [], MatchOption, MatchBool};
ghost use Rattle.std.specs.Bool.{OnTrue};
ghost use Rattle.json_text.specs.Number.{IsNumberText};
ghost use Rattle.json_text.specs.inner.NumberLeft.{LeftOfNumber, LeavesNumber, EndsNumber, TakesDigits};

/// What has been read of a number.
#[derive(Clone, Copy)]
pub(crate) enum NumberState {
    Minus,
    /// The digit 0, after which no digit may come.
    Zero,
    Digits,
    Point,
    Fraction,
    /// The letter of the exponent.
    Letter,
    /// The exponent's sign.
    Sign,
    Exponent,
}

impl NumberState {
    /// The first byte of a number.
    pub(crate) fn first(byte: u8) -> Option<NumberState>
        ensures { MatchOption result (EndsNumber IsNumberText byte) (LeavesNumber IsNumberText byte) }
    {
        match byte {
            b'-' => Some(NumberState::Minus),
            b'0' => Some(NumberState::Zero),
            b'1'..=b'9' => Some(NumberState::Digits),
            _ => None,
        }
    }

    /// The next byte, `None` where no number goes on with it.
    #[inline(always)]
    pub(crate) fn next(self, byte: u8) -> Option<NumberState>
        ensures { MatchOption result (EndsNumber (LeftOfNumber self) byte) (LeavesNumber (LeftOfNumber self) byte) }
    {
        match self {
            NumberState::Minus => after_minus(byte),
            NumberState::Zero => after_zero(byte),
            NumberState::Digits => after_digits(byte),
            NumberState::Point => after_point(byte),
            NumberState::Fraction => after_fraction(byte),
            NumberState::Letter => after_letter(byte),
            NumberState::Sign => after_sign(byte),
            NumberState::Exponent => after_exponent(byte),
        }
    }

    /// Whether a digit that comes next leaves the state as it is.
    pub(crate) fn takes_digits(self) -> bool
        ensures { OnTrue result (TakesDigits self) }
    {
        match self {
            NumberState::Digits | NumberState::Fraction | NumberState::Exponent => true,
            NumberState::Minus
            | NumberState::Zero
            | NumberState::Point
            | NumberState::Letter
            | NumberState::Sign => false,
        }
    }

    /// Whether what has been read is a number.
    pub(crate) fn is_whole(self) -> bool
        ensures { MatchBool result (LeftOfNumber self []) (LeftOfNumber self [] → ⊥) }
    {
        match self {
            NumberState::Zero
            | NumberState::Digits
            | NumberState::Fraction
            | NumberState::Exponent => true,
            NumberState::Minus | NumberState::Point | NumberState::Letter | NumberState::Sign =>
                false,
        }
    }
}

fn after_minus(byte: u8) -> Option<NumberState>
    ensures { MatchOption result (EndsNumber (LeftOfNumber NumberState.Minus) byte) (LeavesNumber (LeftOfNumber NumberState.Minus) byte) }
{
    match byte {
        b'0' => Some(NumberState::Zero),
        b'1'..=b'9' => Some(NumberState::Digits),
        _ => None,
    }
}

fn after_zero(byte: u8) -> Option<NumberState>
    ensures { MatchOption result (EndsNumber (LeftOfNumber NumberState.Zero) byte) (LeavesNumber (LeftOfNumber NumberState.Zero) byte) }
{
    match byte {
        b'.' => Some(NumberState::Point),
        b'e' | b'E' => Some(NumberState::Letter),
        _ => None,
    }
}

fn after_digits(byte: u8) -> Option<NumberState>
    ensures { MatchOption result (EndsNumber (LeftOfNumber NumberState.Digits) byte) (LeavesNumber (LeftOfNumber NumberState.Digits) byte) }
{
    match byte {
        b'0'..=b'9' => Some(NumberState::Digits),
        b'.' => Some(NumberState::Point),
        b'e' | b'E' => Some(NumberState::Letter),
        _ => None,
    }
}

fn after_point(byte: u8) -> Option<NumberState>
    ensures { MatchOption result (EndsNumber (LeftOfNumber NumberState.Point) byte) (LeavesNumber (LeftOfNumber NumberState.Point) byte) }
{
    match byte {
        b'0'..=b'9' => Some(NumberState::Fraction),
        _ => None,
    }
}

fn after_fraction(byte: u8) -> Option<NumberState>
    ensures { MatchOption result (EndsNumber (LeftOfNumber NumberState.Fraction) byte) (LeavesNumber (LeftOfNumber NumberState.Fraction) byte) }
{
    match byte {
        b'0'..=b'9' => Some(NumberState::Fraction),
        b'e' | b'E' => Some(NumberState::Letter),
        _ => None,
    }
}

fn after_letter(byte: u8) -> Option<NumberState>
    ensures { MatchOption result (EndsNumber (LeftOfNumber NumberState.Letter) byte) (LeavesNumber (LeftOfNumber NumberState.Letter) byte) }
{
    match byte {
        b'+' | b'-' => Some(NumberState::Sign),
        b'0'..=b'9' => Some(NumberState::Exponent),
        _ => None,
    }
}

fn after_sign(byte: u8) -> Option<NumberState>
    ensures { MatchOption result (EndsNumber (LeftOfNumber NumberState.Sign) byte) (LeavesNumber (LeftOfNumber NumberState.Sign) byte) }
{
    match byte {
        b'0'..=b'9' => Some(NumberState::Exponent),
        _ => None,
    }
}

fn after_exponent(byte: u8) -> Option<NumberState>
    ensures { MatchOption result (EndsNumber (LeftOfNumber NumberState.Exponent) byte) (LeavesNumber (LeftOfNumber NumberState.Exponent) byte) }
{
    match byte {
        b'0'..=b'9' => Some(NumberState::Exponent),
        _ => None,
    }
}
