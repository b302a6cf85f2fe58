//! The texts that a reply puts together.
ghost use Rattle.std.specs.Prelude.{◌≡◌, ◌≤◌, ◌<◌, ◌++◌, length};
ghost use Rattle.sale_reply.specs.Texts.{intermediate_text, detail_text};

use crate::reply::Detail;
use arrayvec::ArrayVec;
use gw_base::Ident;
use gw_bytes::upper_hex_digit;
use itoa::Buffer;
use json_text::JsonFault;

/// The text of a cashier's display for an intermediate status of the terminal.
#[tactic(auto, unfolding(crate::specs::Texts::intermediate_text))]
pub(crate) fn status(code: u8) -> [u8; 13]
    ensures { result ≡ intermediate_text code }
{
    let (high, low) = (upper_hex_digit(code / 16), upper_hex_digit(code % 16));
    [
        b'Z', b'V', b'T', b' ', b's', b't', b'a', b't', b'u', b's', b' ', high, low,
    ]
}

/// The `EventDetails` of a rejected message.
#[tactic(auto, unfolding(crate::specs::Texts::detail_text))]
pub(crate) fn details(detail: &Detail) -> ArrayVec<u8, 128>
    ensures { result.items ≡ detail_text detail.now }
{
    match detail {
        Detail::Json(fault) => json_details(fault),
        Detail::Header(path) => path_details(b"header ", path),
        Detail::Body(path) => path_details(b"body ", path),
        Detail::Abort => {
            let mut text = ArrayVec::new();
            text.try_extend_from_slice(b"abort").unwrap();
            text
        }
    }
}

#[tactic(auto, unfolding(crate::specs::Texts::detail_text))]
fn json_details(fault: &JsonFault) -> ArrayVec<u8, 128>
    ensures { result.items ≡ detail_text (Detail.Json fault.now) }
{
    let mut text = ArrayVec::new();
    text.try_extend_from_slice(b"json ").unwrap();
    text.try_extend_from_slice(fault.kind.as_str().as_bytes())
        .unwrap();
    text.try_extend_from_slice(b" ").unwrap();
    text.try_extend_from_slice(Buffer::new().format(fault.at).as_bytes())
        .unwrap();
    text
}

fn path_details(prefix: &[u8], path: &Ident<100>) -> ArrayVec<u8, 128>
    requires { length prefix.now ≤ 8 }
    ensures { result.items ≡ prefix.now ++ path.now }
{
    // A prefix and a path: 107 bytes at most.
    let mut text = ArrayVec::new();
    text.try_extend_from_slice(prefix).unwrap();
    text.try_extend_from_slice(path.as_bytes()).unwrap();
    text
}

/// The name of a message's body: the category, and what the message is.
pub(crate) fn body_name(category: &Ident<40>, suffix: &[u8]) -> ArrayVec<u8, 52>
    requires { length suffix.now ≤ 12 }
    ensures { result.items ≡ category.now ++ suffix.now }
{
    let mut name = ArrayVec::new();
    name.try_extend_from_slice(category.as_bytes()).unwrap();
    name.try_extend_from_slice(suffix).unwrap();
    name
}
