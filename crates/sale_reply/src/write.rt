//! The messages, written.
ghost use Rattle.std.specs.Prelude.{◌≡◌, ◌≤◌, codes, length};
ghost use Rattle.json_text.specs.Canonical.{canonical};
ghost use Rattle.sale_frame.specs.Grammar.{frame};
ghost use Rattle.sale_reply.specs.inner.Appends.{Appends};
ghost use Rattle.sale_reply.specs.inner.CanonicalMembers.{message_prefix};
ghost use Rattle.sale_reply.specs.Limits.{IsWithinLimits};
ghost use Rattle.sale_reply.specs.Reply.{header_tree, event_header, status_body, result_body, event_tree, tree_of};

use crate::body::{
    write_diagnosis, write_event, write_plain, write_print, write_result_body, write_success,
};
use crate::buffer::Out;
use crate::device::{write_display, write_display_request, write_print_request};
use crate::limits::law_size;
use crate::reply::{Detail, SaleReply, Told};
use crate::text::body_name;
use gw_base::Ident;
use sale_values::{Class, Header, Kind, header_parts};

/// Puts the message into the buffer, in its frame, and drops what was there. It takes no memory.
///
/// JSON text (RFC 8259) of nexo Sale to POI 3.0 without white space. A message within the limits of this profile has
/// at most 65,536 bytes, and a transaction in it a trace number of six digits and a receipt number of four.
pub fn write_reply(reply: &SaleReply<'_>, out: &mut Out)
    requires { IsWithinLimits reply.now }
    ensures { out.new ≡ frame (canonical (tree_of reply.now)) }
{
    law_size();
    out.begin();
    write_message(reply, out);
    out.end();
}

fn write_message(reply: &SaleReply<'_>, out: &mut Out)
    ensures { Appends out.old out.new (canonical (tree_of reply.now)) }
{
    match reply {
        SaleReply::Reject {
            sale,
            poi,
            moment,
            detail,
        } => write_reject(sale, poi, *moment, detail, out),
        SaleReply::DisplayRequest { header, code } => {
            open_request(header, out);
            write_display_request(*code, out);
            out.raw(b"}}");
        }
        SaleReply::PrintRequest { header, lines } => {
            open_request(header, out);
            write_print_request(lines, out);
            out.raw(b"}}");
        }
        SaleReply::Plain { header, verdict } => {
            open_response(header, out);
            write_plain(verdict, out);
            out.raw(b"}}");
        }
        SaleReply::Told { header, told } => {
            open_response(header, out);
            write_result_body(told, out);
            out.raw(b"}}");
        }
        SaleReply::Status {
            header,
            repeated,
            told,
        } => {
            open_response(header, out);
            write_status(repeated, told, out);
            out.raw(b"}}");
        }
        SaleReply::Diagnosis { header, status } => {
            open_response(header, out);
            write_diagnosis(*status, out);
            out.raw(b"}}");
        }
        SaleReply::Display { header, outputs } => {
            open_response(header, out);
            write_display(outputs.as_slice(), out);
            out.raw(b"}}");
        }
        SaleReply::Print {
            header,
            qualifier,
            verdict,
        } => {
            open_response(header, out);
            write_print(qualifier, verdict, out);
            out.raw(b"}}");
        }
    }
}

/// A reply up to its body.
fn open_response(header: &Header, out: &mut Out)
    ensures { Appends out.old out.new (message_prefix (codes "SaleToPOIResponse") header.now (codes "Response")) }
{
    open_message(b"SaleToPOIResponse", header, b"Response", out);
}

/// A device request up to its body.
fn open_request(header: &Header, out: &mut Out)
    ensures { Appends out.old out.new (message_prefix (codes "SaleToPOIRequest") header.now (codes "Request")) }
{
    open_message(b"SaleToPOIRequest", header, b"Request", out);
}

/// A message up to its body.
fn open_message(envelope: &[u8], header: &Header, suffix: &[u8], out: &mut Out)
    requires { length suffix.now ≤ 12 }
    ensures { Appends out.old out.new (message_prefix envelope.now header.now suffix.now) }
{
    out.raw(b"{");
    out.first_name(envelope);
    out.raw(b"{");
    out.first_name(b"MessageHeader");
    write_header(header, out);
    out.next_name(body_name(&header.category, suffix).as_slice());
}

/// A message header.
#[tactic(auto, unfolding(crate::specs::Reply::header_tree))]
fn write_header(header: &Header, out: &mut Out)
    ensures { Appends out.old out.new (canonical (header_tree header.now)) }
{
    out.parts(&header_parts(header));
}

/// The body that repeats the reply to a finished request.
fn write_status(repeated: &Header, told: &Told, out: &mut Out)
    ensures { Appends out.old out.new (canonical (status_body repeated.now (result_body told.now))) }
{
    out.raw(b"{");
    out.first_name(b"Response");
    write_success(out);
    out.next_name(b"RepeatedMessageResponse");
    out.raw(b"{");
    out.first_name(b"MessageHeader");
    write_header(repeated, out);
    out.next_name(b"RepeatedResponseMessageBody");
    out.raw(b"{");
    out.first_name(body_name(&repeated.category, b"Response").as_slice());
    write_result_body(told, out);
    out.raw(b"}}}");
}

/// The event that a message was rejected.
fn write_reject(sale: &Ident<40>, poi: &Ident<40>, moment: i64, detail: &Detail, out: &mut Out)
    ensures { Appends out.old out.new (canonical (event_tree sale.now poi.now moment detail.now)) }
{
    open_message(
        b"SaleToPOIRequest",
        &event_header(sale, poi),
        b"Notification",
        out,
    );
    write_event(moment, detail, out);
    out.raw(b"}}");
}

/// The header of an event.
fn event_header(sale: &Ident<40>, poi: &Ident<40>) -> Header
    ensures { result ≡ event_header sale.now poi.now }
{
    Header {
        class: Class::Event,
        category: Ident::known(b"Event"),
        kind: Kind::Notification,
        service: None,
        device: None,
        sale: *sale,
        poi: *poi,
    }
}
