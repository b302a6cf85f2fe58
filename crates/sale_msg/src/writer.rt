//! Requests, written.
ghost use Rattle.std.specs.Prelude.{◌≡◌, [], ◌∷◌, ◌++◌, Some, codes, OnOk, OnErr};
ghost use Rattle.gw_bytes.specs.Bytes.{IsPrefix};
ghost use Rattle.json_text.specs.Canonical.{canonical, canonical_first, canonical_more_members, canonical_string};
ghost use Rattle.json_text.specs.Tree.{boolean, string, object, no_members};
ghost use Rattle.sale_msg.specs.inner.OptionalParts.{comma_before, texts_part};
ghost use Rattle.sale_values.specs.CanonicalHeader.{header_members};
ghost use Rattle.sale_values.specs.MemberShapes.{object_member, only};
ghost use Rattle.sale_values.specs.Money.{money_text};
ghost use Rattle.sale_values.specs.PartBytes.{part_text, parts_text};
ghost use Rattle.sale_values.specs.declared.request.SaleRequest.TheVariants as requests;
ghost use Rattle.sale_msg.specs.Canonical.{body_members, body_name, output_elements, display_output_tree, payment_data, payment_members, referring_members, request_tree, reversal_members, reversed_amount, text_elements};

use crate::paths;
use gw_base::{Ident, Text};
use json_text::write_text;
use sale_values::{
    Header, Output, Outputs, Part, PaymentAsk, Period, Reference, ReversalAsk, SaleRequest, Texts,
    header_parts, ident_bytes, money,
};
use std::alloc::{AllocError, Global};

/// Appends the one written spelling of a request: no white space, the members of the tables in their order, none for
/// what is absent.
///
/// `ProtocolVersion` is written as `3.0`, `ReversalReason` as `MerchantCancel`, `OutputFormat` as `Text`, and
/// `ResponseRequiredFlag` always. An amount has two digits after the point. A request that
/// [`read_message`](crate::read_message) gave of a text's tree is written as JSON text (RFC 8259) that is read as this
/// request again ([`law_written_again`](crate::law_written_again)). This asks for nothing: one that was put together
/// otherwise is written by these rules too, though its bytes may be no text.
///
/// It writes straight into `out`, which grows by its own allocator: `_alloc` only marks that the call takes memory.
pub fn write_request(
    _alloc: Global,
    header: &Header,
    request: &SaleRequest,
    out: &mut Vec<u8>,
) -> Result<(), AllocError>
    ensures ok { OnOk result (out.new.items ≡ out.old.items ++ canonical (request_tree header.now request.now)) }
    ensures err { OnErr result (out.new.items ≡ out.old.items) }
{
    let before = out.len();
    match write_message(header, request, out) {
        Ok(()) => Ok(()),
        Err(error) => {
            // Memory was refused halfway: the part of the message that there was room for is taken away again.
            out.truncate(before);
            Err(error)
        }
    }
}

/// Appends a request. Where memory is refused, the part of it that there was room for stays, here and in what this calls.
fn write_message(
    header: &Header,
    request: &SaleRequest,
    out: &mut Vec<u8>,
) -> Result<(), AllocError>
    ensures ok { OnOk result (out.new.items ≡ out.old.items ++ canonical (request_tree header.now request.now)) }
    ensures grows { IsPrefix out.old.items out.new.items }
{
    write_header(header, out)?;
    write_named_body(request, out)
}

/// A message up to the end of its header.
fn write_header(header: &Header, out: &mut Vec<u8>) -> Result<(), AllocError>
    ensures ok { OnOk result (out.new.items ≡ out.old.items ++ (codes "{\"SaleToPOIRequest\":{\"MessageHeader\":" ++ canonical (object (header_members header.now)))) }
    ensures grows { IsPrefix out.old.items out.new.items }
{
    out.extend_from_slice(b"{\"SaleToPOIRequest\":{\"MessageHeader\":")?;
    write_parts(&header_parts(header), out)
}

/// A message from the end of its header on.
fn write_named_body(request: &SaleRequest, out: &mut Vec<u8>) -> Result<(), AllocError>
    ensures ok { OnOk result (out.new.items ≡ out.old.items ++ (canonical_more_members (object_member (body_name request.now) (body_members request.now) no_members) ++ codes "}")) }
    ensures grows { IsPrefix out.old.items out.new.items }
{
    write_parts(&name_parts(request), out)?;
    write_body(request, out)?;
    out.extend_from_slice(b"}}")
}

/// The parts of the name of a request's body, after another member.
fn name_parts(request: &SaleRequest) -> [Part<'_>; 3]
    ensures { parts_text result ≡ 44 ∷ (canonical_string (body_name request.now) ++ 58 ∷ []) }
{
    [
        Part::Raw(b","),
        Part::Text(name_of_body(request).as_bytes()),
        Part::Raw(b":"),
    ]
}

/// The name of a request's body.
fn name_of_body(request: &SaleRequest) -> &'static str
    ensures { result.now ≡ body_name request.now }
{
    match request {
        SaleRequest::Login => paths::LOGIN,
        SaleRequest::Logout => paths::LOGOUT,
        SaleRequest::Payment(_) => paths::PAYMENT,
        SaleRequest::Reversal(_) => paths::REVERSAL,
        SaleRequest::Abort(_) => paths::ABORT,
        SaleRequest::Status(_) => paths::STATUS,
        SaleRequest::Reconciliation(_) => paths::RECONCILIATION,
        SaleRequest::Display(_) => paths::DISPLAY,
        SaleRequest::Print(_) => paths::PRINT,
        SaleRequest::Diagnosis => paths::DIAGNOSIS,
    }
}

/// The parts of a message, one after the other.
fn write_parts(parts: &[Part<'_>], out: &mut Vec<u8>) -> Result<(), AllocError>
    ensures ok { OnOk result (out.new.items ≡ out.old.items ++ parts_text parts.now) }
    ensures grows { IsPrefix out.old.items out.new.items }
{
    for part in parts {
        write_part(*part, out)?;
    }
    Ok(())
}

fn write_part(part: Part<'_>, out: &mut Vec<u8>) -> Result<(), AllocError>
    ensures ok { OnOk result (out.new.items ≡ out.old.items ++ part_text part.entry) }
    ensures grows { IsPrefix out.old.items out.new.items }
{
    match part {
        Part::Raw(bytes) => out.extend_from_slice(bytes),
        Part::Text(text) => write_text(text, out),
        Part::Optional(prefix, Some(text)) => write_named(prefix, text, out),
        Part::Optional(_, None) => Ok(()),
    }
}

/// A text, after the bytes that come before it.
fn write_named(prefix: &[u8], text: &[u8], out: &mut Vec<u8>) -> Result<(), AllocError>
    ensures ok { OnOk result (out.new.items ≡ out.old.items ++ (prefix.now ++ canonical_string text.now)) }
    ensures grows { IsPrefix out.old.items out.new.items }
{
    out.extend_from_slice(prefix)?;
    write_text(text, out)
}

fn write_body(request: &SaleRequest, out: &mut Vec<u8>) -> Result<(), AllocError>
    ensures ok { OnOk result (out.new.items ≡ out.old.items ++ canonical (object (body_members request.now))) }
    ensures grows { IsPrefix out.old.items out.new.items }
{
    match request {
        SaleRequest::Payment(ask) => write_payment(ask, out),
        SaleRequest::Reversal(ask) => write_reversal(ask, out),
        SaleRequest::Abort(reference) | SaleRequest::Status(Some(reference)) => {
            write_parts(&referring_parts(reference), out)
        }
        SaleRequest::Reconciliation(period) => write_parts(&period_parts(*period), out),
        SaleRequest::Display(outputs) => write_display(outputs, out),
        SaleRequest::Print(qualifier) => write_parts(&print_parts(qualifier), out),
        SaleRequest::Login
        | SaleRequest::Logout
        | SaleRequest::Diagnosis
        | SaleRequest::Status(None) => out.extend_from_slice(b"{}"),
    }
}

fn write_payment(ask: &PaymentAsk, out: &mut Vec<u8>) -> Result<(), AllocError>
    ensures ok { OnOk result (out.new.items ≡ out.old.items ++ canonical (object (payment_members ask.now))) }
    ensures grows { IsPrefix out.old.items out.new.items }
{
    let amount = money(ask.amount);
    write_parts(&payment_parts(ask, amount.as_slice()), out)?;
    write_payment_data(&ask.kind, out)
}

/// The parts of a Payment up to its type, with the text of its amount.
fn payment_parts<'a>(ask: &'a PaymentAsk, amount: &'a [u8]) -> [Part<'a>; 9]
    requires { amount.now ≡ money_text ask.now.amount }
    ensures { parts_text result ++ canonical_more_members (payment_data ask.now.kind) ≡ canonical (object (payment_members ask.now)) }
{
    [
        Part::Raw(b"{\"SaleData\":{\"SaleTransactionID\":{\"TransactionID\":"),
        Part::Text(ask.transaction.as_bytes()),
        Part::Raw(b",\"TimeStamp\":"),
        Part::Text(ask.stamp.as_bytes()),
        Part::Raw(b"}},\"PaymentTransaction\":{\"AmountsReq\":{\"Currency\":"),
        Part::Text(&ask.currency),
        Part::Raw(b",\"RequestedAmount\":"),
        Part::Raw(amount),
        Part::Raw(b"}}"),
    ]
}

/// The end of a Payment: its type, where it has one, and the closing brace.
fn write_payment_data(payment_type: &Option<Text>, out: &mut Vec<u8>) -> Result<(), AllocError>
    ensures ok { OnOk result (out.new.items ≡ out.old.items ++ canonical_more_members (payment_data payment_type.now)) }
    ensures grows { IsPrefix out.old.items out.new.items }
{
    match payment_type {
        None => out.extend_from_slice(b"}"),
        Some(payment_type) => write_parts(&payment_type_parts(payment_type), out),
    }
}

fn payment_type_parts(payment_type: &Text) -> [Part<'_>; 3]
    ensures { parts_text result ≡ canonical_more_members (payment_data (Some payment_type.now)) }
{
    [
        Part::Raw(b",\"PaymentData\":{\"PaymentType\":"),
        Part::Text(payment_type.as_str().as_bytes()),
        Part::Raw(b"}}"),
    ]
}

fn write_reversal(ask: &ReversalAsk, out: &mut Vec<u8>) -> Result<(), AllocError>
    ensures ok { OnOk result (out.new.items ≡ out.old.items ++ canonical (object (reversal_members ask.now))) }
    ensures grows { IsPrefix out.old.items out.new.items }
{
    write_parts(&reversal_parts(ask), out)?;
    write_reversed_amount(ask.amount, out)
}

/// The parts of a Reversal up to its amount.
fn reversal_parts(ask: &ReversalAsk) -> [Part<'_>; 3]
    ensures { parts_text result ++ canonical_more_members (reversed_amount ask.now.amount) ≡ canonical (object (reversal_members ask.now)) }
{
    [
        Part::Raw(b"{\"OriginalPOITransaction\":{\"POITransactionID\":{\"TransactionID\":"),
        Part::Text(ask.transaction.as_bytes()),
        Part::Raw(b"}},\"ReversalReason\":\"MerchantCancel\""),
    ]
}

/// The end of a Reversal: its amount, where it has one, and the closing brace.
fn write_reversed_amount(units: Option<u64>, out: &mut Vec<u8>) -> Result<(), AllocError>
    ensures ok { OnOk result (out.new.items ≡ out.old.items ++ canonical_more_members (reversed_amount units)) }
    ensures grows { IsPrefix out.old.items out.new.items }
{
    match units {
        None => out.extend_from_slice(b"}"),
        Some(units) => write_parts(
            &[
                Part::Raw(b",\"ReversedAmount\":"),
                Part::Raw(money(units).as_slice()),
                Part::Raw(b"}"),
            ],
            out,
        ),
    }
}

/// The parts of an object whose only member is the reference.
fn referring_parts(reference: &Reference) -> [Part<'_>; 5]
    ensures { parts_text result ≡ canonical (object (referring_members reference.now)) }
{
    [
        Part::Raw(b"{\"MessageReference\":{\"ServiceID\":"),
        Part::Text(reference.service.as_bytes()),
        Part::Optional(b",\"SaleID\":", ident_bytes(&reference.sale)),
        Part::Optional(b",\"POIID\":", ident_bytes(&reference.poi)),
        Part::Raw(b"}}"),
    ]
}

fn period_parts(period: Period) -> [Part<'static>; 3]
    ensures { parts_text result ≡ canonical (object (body_members (requests.Reconciliation period))) }
{
    [
        Part::Raw(b"{\"ReconciliationType\":"),
        Part::Text(period.name().as_bytes()),
        Part::Raw(b"}"),
    ]
}

fn print_parts(qualifier: &Ident<40>) -> [Part<'_>; 3]
    ensures { parts_text result ≡ canonical (object (body_members (requests.Print qualifier.now))) }
{
    [
        Part::Raw(b"{\"PrintOutput\":{\"DocumentQualifier\":"),
        Part::Text(qualifier.as_bytes()),
        Part::Raw(b"}}"),
    ]
}

fn write_display(outputs: &Outputs, out: &mut Vec<u8>) -> Result<(), AllocError>
    ensures ok { OnOk result (out.new.items ≡ out.old.items ++ canonical (object (body_members (requests.Display outputs.now)))) }
    ensures grows { IsPrefix out.old.items out.new.items }
{
    out.extend_from_slice(b"{\"DisplayOutput\":[")?;
    write_outputs(outputs.as_slice(), out)?;
    out.extend_from_slice(b"}")
}

/// Outputs after the opening bracket, with the closing one.
fn write_outputs(outputs: &[Output], out: &mut Vec<u8>) -> Result<(), AllocError>
    ensures ok { OnOk result (out.new.items ≡ out.old.items ++ canonical_first (output_elements outputs.now)) }
    ensures grows { IsPrefix out.old.items out.new.items }
{
    for (i, output) in outputs.iter().enumerate() {
        out.extend_from_slice(comma_before(i))?;
        write_output(output, out)?;
    }
    out.extend_from_slice(b"]")
}

/// The comma before an element that isn't the first.
fn comma_before(i: usize) -> &'static [u8]
    ensures { result.now ≡ comma_before i }
{
    if i > 0 { b"," } else { b"" }
}

fn write_output(output: &Output, out: &mut Vec<u8>) -> Result<(), AllocError>
    ensures ok { OnOk result (out.new.items ≡ out.old.items ++ canonical (display_output_tree output.now)) }
    ensures grows { IsPrefix out.old.items out.new.items }
{
    write_parts(&output_parts(output), out)?;
    write_optional_texts(&output.texts, out)?;
    out.extend_from_slice(b"}}")
}

/// The parts of an output up to its texts.
fn output_parts(output: &Output) -> [Part<'_>; 7]
    ensures { parts_text result ++ (texts_part (codes ",\"OutputText\":") output.now.texts ++ codes "}}") ≡ canonical (display_output_tree output.now) }
{
    [
        Part::Raw(b"{\"Device\":"),
        Part::Text(output.device.as_bytes()),
        Part::Raw(b",\"InfoQualify\":"),
        Part::Text(output.qualify.as_bytes()),
        Part::Raw(b",\"ResponseRequiredFlag\":"),
        Part::Raw(word_of(output.required)),
        Part::Raw(b",\"OutputContent\":{\"OutputFormat\":\"Text\""),
    ]
}

/// The literal of true or false.
fn word_of(flag: bool) -> &'static [u8]
    ensures { result.now ≡ canonical (boolean flag) }
{
    if flag { b"true" } else { b"false" }
}

/// The texts of an output, where it has some.
fn write_optional_texts(texts: &Option<Texts>, out: &mut Vec<u8>) -> Result<(), AllocError>
    ensures ok { OnOk result (out.new.items ≡ out.old.items ++ texts_part (codes ",\"OutputText\":") texts.now) }
    ensures grows { IsPrefix out.old.items out.new.items }
{
    match texts {
        None => Ok(()),
        Some(texts) => {
            out.extend_from_slice(b",\"OutputText\":[")?;
            write_texts(texts.as_slice(), out)
        }
    }
}

/// Texts after the opening bracket, with the closing one.
fn write_texts(texts: &[Text], out: &mut Vec<u8>) -> Result<(), AllocError>
    ensures ok { OnOk result (out.new.items ≡ out.old.items ++ canonical_first (text_elements texts.now)) }
    ensures grows { IsPrefix out.old.items out.new.items }
{
    for (i, text) in texts.iter().enumerate() {
        write_parts(&text_parts(i, text), out)?;
    }
    out.extend_from_slice(b"]")
}

/// The parts of a text's object, and of the comma before it.
fn text_parts(i: usize, text: &Text) -> [Part<'_>; 4]
    ensures { parts_text result ≡ comma_before i ++ canonical (only (codes "Text") (string text.now)) }
{
    [
        Part::Raw(comma_before(i)),
        Part::Raw(b"{\"Text\":"),
        Part::Text(text.as_str().as_bytes()),
        Part::Raw(b"}"),
    ]
}
