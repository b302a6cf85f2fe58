//! Device requests: what a terminal shows or prints on its way is shown or printed at the till of what it serves.
ghost use Rattle.std.specs.Prelude.{◌≡◌, ◌≤◌, [], ℕ, IfSome, Some, codes, decimal};
ghost use Rattle.zvt_msg.specs.Message.{value_of};
ghost use Rattle.zvt_msg.specs.PrintedLines.{printed_lines};
ghost use Rattle.gw_owes.specs.DeviceRequests.{device_header, device_request_in, device_request_of, greatest_device_number, key_of_service, key_served, next_device_number};
ghost use Rattle.gw_owes.specs.Reply.{DisplayRequest, PrintRequest};
ghost use Rattle.gw_owes.specs.Row.{Known};
ghost use Rattle.gw_core.specs.DeviceActs.{IsDeviceAct, IsDeviceActFor};
ghost use Rattle.gw_core.specs.IsRow.{HasFewLines, IsWantedAt, lines_printed};

use crate::act::{Act, Printed};
use crate::kept_replies::{law_header, own_key};
use crate::till::lies_within;
use gw_base::{Ident, Key};
use gw_ledger::Ledger;
use gw_owes::{Service, Standing};
use itoa::Buffer;
use sale_msg::{Class, Header, Kind};
use sale_reply::SaleReply;
use zvt_msg::{PtMessage, law_decode_block_lines};
use zvt_talk::Heard;

/// The greatest number of a device request, of ten digits.
const GREATEST_NUMBER: u64 = 9_999_999_999;

/// The number of the next device request.
pub(crate) fn next_device_number(number: u64) -> u64
    requires { number ≤ greatest_device_number }
    ensures next { result ≡ next_device_number number }
    ensures within { result ≤ greatest_device_number }
{
    if number == GREATEST_NUMBER {
        0
    } else {
        number + 1
    }
}

/// The key of the entry in this slot.
fn key_of_entry(ledger: &Ledger, slot: u32) -> Option<Key>
    ensures { result ≡ key_of_service ledger.now.records (Service.Transaction slot) }
{
    match ledger.entry(slot) {
        None => None,
        Some(entry) => Some(Key {
            sale: entry.intent.sale,
            poi: entry.intent.poi,
            service: entry.intent.service,
        }),
    }
}

/// The key of what is served; a display shows its till nothing.
fn key_of_service(ledger: &Ledger, service: &Service) -> Option<Key>
    ensures { result ≡ key_of_service ledger.now.records service.now }
{
    match service {
        Service::Transaction { slot } => key_of_entry(ledger, *slot),
        Service::EndOfDay { header, .. } => own_key(header),
        Service::Display { .. } => None,
    }
}

/// The key of what a terminal of this standing serves.
fn key_served(ledger: &Ledger, standing: &Standing) -> Option<Key>
    ensures { result ≡ key_served ledger.now.records standing.now }
{
    match standing {
        Standing::Serving { service, .. } => key_of_service(ledger, service),
        Standing::Unlinked { .. }
        | Standing::Registering
        | Standing::Enquiring
        | Standing::Ready { .. }
        | Standing::Aside { .. } => None,
    }
}

/// The `DeviceID` of a device request of this number.
fn device_id(number: u64) -> Ident<10>
    requires { number ≤ greatest_device_number }
    ensures { result ≡ decimal number }
{
    Ident::known(Buffer::new().format(number).as_bytes())
}

/// The header of a device request of this category and number, for what has this key.
fn device_header(category: Ident<40>, key: &Key, number: u64) -> Header
    requires { number ≤ greatest_device_number }
    ensures { result ≡ device_header category key.now number }
{
    Header {
        class: Class::Device,
        category,
        kind: Kind::Request,
        service: Some(key.service),
        device: Some(device_id(number)),
        sale: key.sale,
        poi: key.poi,
    }
}

/// Nothing is printed.
fn nothing() -> Printed<'static>
    ensures { lines_printed result ≡ [] }
{
    law_decode_block_lines();
    Printed::Block(&[])
}

/// What the message prints; one that is neither a line nor a block prints nothing.
fn printed_by<'a>(message: &PtMessage<'a>) -> Printed<'a>
    ensures { lines_printed result ≡ printed_lines (value_of message.now) }
{
    match *message {
        PtMessage::Line(text) => Printed::Line(text),
        PtMessage::Block(objects) => Printed::Block(objects),
        PtMessage::Ack
        | PtMessage::Nack(_)
        | PtMessage::Intermediate(_)
        | PtMessage::Status(_)
        | PtMessage::Completion
        | PtMessage::Abort(_)
        | PtMessage::Other => nothing(),
    }
}

/// The device request that shows an intermediate status at the till.
fn shows(till: u64, key: &Key, number: u64, intermediate_status: u8) -> Act<'static>
    requires { number ≤ greatest_device_number }
    ensures request { IsDeviceActFor till (Some (DisplayRequest (device_header (codes "Display") key.now number) intermediate_status)) (Some result) }
    ensures wanted { (pt : ℕ) → IsWantedAt pt result }
{
    let reply = SaleReply::DisplayRequest {
        header: device_header(Ident::known(b"Display"), key, number),
        code: intermediate_status,
    };
    lies_within(&reply);
    Act::SendTill(till, reply)
}

/// The device request that prints what the message has at the till.
fn prints<'a>(till: u64, key: &Key, number: u64, message: &PtMessage<'a>) -> Act<'a>
    requires number { number ≤ greatest_device_number }
    requires printed { HasFewLines (value_of message.now) }
    ensures request { IsDeviceActFor till (Some (PrintRequest (device_header (codes "Print") key.now number) (printed_lines (value_of message.now)))) (Some result) }
    ensures wanted { (pt : ℕ) → IsWantedAt pt result }
{
    let header = device_header(Ident::known(b"Print"), key, number);
    law_header(&header);
    Act::Print(till, header, printed_by(message))
}

/// The device request that a message becomes by what it means, for what has this key.
fn device_request_of<'a>(
    till: u64,
    key: &Key,
    number: u64,
    heard: Heard,
    message: &PtMessage<'a>,
) -> Option<Act<'a>>
    requires number { number ≤ greatest_device_number }
    requires printed { HasFewLines (value_of message.now) }
    ensures request { IsDeviceActFor till (device_request_of heard (value_of message.now) number key.now) result }
    ensures wanted { (pt : ℕ) → IfSome result (IsWantedAt pt) }
{
    match heard {
        Heard::Note(intermediate_status) => Some(shows(till, key, number, intermediate_status)),
        Heard::Line | Heard::Block => Some(prints(till, key, number, message)),
        Heard::Begun { .. } => None,
        Heard::Seen
        | Heard::Approved(_)
        | Heard::Done
        | Heard::Told { .. }
        | Heard::Declined { .. }
        | Heard::Unclear
        | Heard::Stray => None,
    }
}

/// The device request that a message of a terminal becomes, where the till of what it serves is there.
pub(crate) fn device_request<'a>(
    asker: Option<u64>,
    standing: &Standing,
    ledger: &Ledger,
    number: u64,
    heard: Heard,
    message: &PtMessage<'a>,
) -> Option<Act<'a>>
    requires number { number ≤ greatest_device_number }
    requires printed { HasFewLines (value_of message.now) }
    ensures request { (known : Known) → known.kept ≡ ledger.now.records → known.core.device_requests ≡ number
        → IsDeviceAct asker (device_request_in known standing.now heard (value_of message.now)) result }
    ensures wanted { (pt : ℕ) → IfSome result (IsWantedAt pt) }
{
    match asker {
        None => None,
        Some(till) => match key_served(ledger, standing) {
            None => None,
            Some(key) => device_request_of(till, &key, number, heard, message),
        },
    }
}
