//! What the words ask for.
use hex::FromHex;
use pt_core::Play;
use std::alloc::{AllocError, Global};

/// What a terminal does at one payment.
#[derive(Clone, Copy, Debug, PartialEq, Eq)]
pub(crate) struct NamedPlay {
    pub(crate) play: Play,
    /// Whether the connection stays open where the terminal hears no more on it.
    pub(crate) is_silent: bool,
}

/// What the words ask for.
#[derive(Drop)]
pub(crate) enum Order<'a> {
    /// To listen at this address, and to play these.
    Play(&'a str, Vec<NamedPlay>),
    /// To try the gateway at this path.
    Pair(&'a str),
}

/// A play that cuts the connection where it ends the link.
pub(crate) fn plain(play: Play) -> NamedPlay {
    NamedPlay {
        play,
        is_silent: false,
    }
}

/// The result code that two hexadecimal digits are.
fn code_of(digits: &str) -> Option<u8> {
    let [code] = <[u8; 1] as FromHex>::from_hex(digits).ok()?;
    Some(code)
}

/// A decline with a result code, as `decline:6C`.
fn decline_of(word: &str) -> Option<NamedPlay> {
    let code = code_of(word.strip_prefix("decline:")?)?;
    Some(plain(Play::Decline(code)))
}

/// The play that a word names.
fn play_of(word: &str) -> Option<NamedPlay> {
    match word {
        "approve" => Some(plain(Play::Approve)),
        "cut" => Some(plain(Play::CutAfterBook)),
        "drop" => Some(plain(Play::DropAtOnce)),
        "silent" => Some(NamedPlay {
            play: Play::DropAtOnce,
            is_silent: true,
        }),
        _ => decline_of(word),
    }
}

/// The plays that these words name; nothing where one of them names none.
fn plays_of(alloc: Global, words: &[String]) -> Result<Option<Vec<NamedPlay>>, AllocError> {
    let mut plays = Vec::new(alloc);
    for word in words {
        match play_of(word.as_str()) {
            Some(play) => plays.push(play)?,
            None => return Ok(None),
        }
    }
    Ok(Some(plays))
}

/// What the words ask for; nothing where they are refused.
pub(crate) fn order_of<'a>(
    alloc: Global,
    words: &'a [String],
) -> Result<Option<Order<'a>>, AllocError> {
    let [mode, target, plays @ ..] = words else {
        return Ok(None);
    };
    match (mode.as_str(), plays.is_empty()) {
        ("serve", true) => Ok(Some(Order::Play(target.as_str(), Vec::new(alloc)))),
        ("pair", true) => Ok(Some(Order::Pair(target.as_str()))),
        ("play", false) => Ok(plays_of(alloc, plays)?.map(|plays| Order::Play(
            target.as_str(),
            plays,
        ))),
        _ => Ok(None),
    }
}
