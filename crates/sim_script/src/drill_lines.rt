//! The lines of one payment of the drill, and the messages in them.
ghost use Rattle.std.specs.Prelude.{◌≡◌, ◌≤◌, ◌∷◌, [], ◌++◌, ◌+◌, ◌*◌, ◌-◌, pos, length, IfOk, OnOk, option_map};
ghost use Rattle.std.specs.Fmt.{decimal};
ghost use Rattle.json_text.specs.Canonical.{canonical};
ghost use Rattle.sale_frame.specs.Grammar.{frame};
ghost use Rattle.sale_msg.specs.Canonical.{request_tree};
ghost use Rattle.gw_script.specs.site.Drill.{drill_header, drill_payment_frame, drill_payment_request, drill_status_frame, drill_status_request, payment_begins, payment_ends, payment_lines, payment_waits, power_set, power_unset};
ghost use Rattle.sim_script.specs.Drawn.{IsDrawn, payment_value, power_value};
ghost use Rattle.gw_script.specs.site.ScriptLine.{At, Poll};
ghost use Rattle.sim_script.specs.Values.{lines_value, script_event_value, script_line_value};

use crate::drill::{DrawnPayment, DrawnPower, drill_poi};
use crate::line::{Chunk, ScriptEvent, ScriptLine};
use gw_base::{Bytes, Ident};
use itoa::Buffer;
use sale_frame::frame_length;
use sale_msg::{Class, Header, Kind, PaymentAsk, Reference, SaleRequest, write_request};
use std::alloc::{AllocError, Global};

/// The ServiceID of the requests for the payment of this number.
fn service_number(number: u32) -> Ident<10>
    ensures { result ≡ decimal number }
{
    Ident::known(Buffer::new().format(number).as_bytes())
}

/// The TransactionID of the payment of this number.
fn transaction_number(number: u32) -> Ident<80>
    ensures { result ≡ decimal number }
{
    Ident::known(Buffer::new().format(number).as_bytes())
}

/// The header of a request of this category for a payment.
fn header_for(category: Ident<40>, payment: &DrawnPayment) -> Header
    ensures { result ≡ drill_header category (payment_value payment.now) }
{
    Header {
        class: Class::Service,
        category,
        kind: Kind::Request,
        service: Some(service_number(payment.number)),
        device: None,
        sale: Ident::known(b"S1"),
        poi: drill_poi(payment.pt),
    }
}

/// The chunk of a request's frame.
fn framed(alloc: Global, header: &Header, request: &SaleRequest) -> Result<Chunk, AllocError>
    requires most { length (canonical (request_tree header.now request.now)) ≤ 4092 }
    requires some { 1 ≤ length (canonical (request_tree header.now request.now)) }
    ensures { IfOk result (λ chunk. chunk.bytes ≡ frame (canonical (request_tree header.now request.now))) }
{
    let mut payload = Vec::new(alloc);
    write_request(alloc, header, request, &mut payload)?;
    let mut bytes = Bytes::copied(alloc, &frame_length(payload.len()))?;
    bytes.extend(&payload)?;
    Chunk::new(alloc, bytes)
}

/// The request by which a payment is asked.
fn payment_request(payment: &DrawnPayment) -> SaleRequest
    ensures { result ≡ drill_payment_request (payment_value payment.now) }
{
    SaleRequest::Payment(PaymentAsk {
        transaction: transaction_number(payment.number),
        stamp: Ident::known(b"T"),
        currency: *b"EUR",
        amount: payment.amount,
        kind: None,
    })
}

/// The frame in which a payment is asked.
fn payment_frame(alloc: Global, payment: &DrawnPayment) -> Result<Chunk, AllocError>
    requires { IsDrawn payment.now }
    ensures { IfOk result (λ chunk. chunk.bytes ≡ drill_payment_frame (payment_value payment.now)) }
{
    let header = header_for(Ident::known(b"Payment"), payment);
    framed(alloc, &header, &payment_request(payment))
}

/// The request by which the status of a payment is asked.
fn status_request(payment: &DrawnPayment) -> SaleRequest
    ensures { result ≡ drill_status_request (payment_value payment.now) }
{
    SaleRequest::Status(Some(Reference {
        service: service_number(payment.number),
        sale: None,
        poi: None,
    }))
}

/// The frame in which its status is asked.
fn status_frame(alloc: Global, payment: &DrawnPayment) -> Result<Chunk, AllocError>
    requires { IsDrawn payment.now }
    ensures { IfOk result (λ chunk. chunk.bytes ≡ drill_status_frame (payment_value payment.now)) }
{
    let header = header_for(Ident::known(b"TransactionStatus"), payment);
    framed(alloc, &header, &status_request(payment))
}

/// Appends a line.
fn push_line(lines: &mut Vec<ScriptLine>, line: ScriptLine) -> Result<(), AllocError>
    ensures { OnOk result (lines_value lines.new.items ≡ lines_value lines.old.items ++ script_line_value line ∷ []) }
{
    lines.push(line)?;
    Ok(())
}

/// Appends the line that sets the moment.
fn push_moment(lines: &mut Vec<ScriptLine>, moment: u64) -> Result<(), AllocError>
    requires { moment ≤ 1000000 }
    ensures { OnOk result (lines_value lines.new.items ≡ lines_value lines.old.items ++ At (pos moment) ∷ []) }
{
    push_line(lines, ScriptLine::At(moment as i64))
}

/// Appends a poll that brings this.
fn push_event(lines: &mut Vec<ScriptLine>, event: ScriptEvent) -> Result<(), AllocError>
    ensures { OnOk result (lines_value lines.new.items ≡ lines_value lines.old.items ++ Poll (script_event_value event) ∷ []) }
{
    push_line(lines, ScriptLine::Poll(event))
}

/// Appends when the power is to fail, where it is.
fn push_power(lines: &mut Vec<ScriptLine>, power: Option<DrawnPower>) -> Result<(), AllocError>
    ensures { OnOk result (lines_value lines.new.items ≡ lines_value lines.old.items ++ power_set (option_map power_value power)) }
{
    match power {
        Some(power) => push_line(lines, ScriptLine::Power(power.calls, power.kind)),
        None => Ok(()),
    }
}

/// Appends that what is unused of it is forgotten, where it was to fail.
fn push_forgotten(lines: &mut Vec<ScriptLine>, power: Option<DrawnPower>) -> Result<(), AllocError>
    ensures { OnOk result (lines_value lines.new.items ≡ lines_value lines.old.items ++ power_unset (option_map power_value power)) }
{
    match power {
        Some(_) => push_line(lines, ScriptLine::ForgetPower),
        None => Ok(()),
    }
}

/// The till that asks the payment.
fn paying_till(payment: &DrawnPayment) -> u64
    requires { IsDrawn payment.now }
    ensures { result ≡ 2 * payment.now.number - 1 }
{
    2 * u64::from(payment.number) - 1
}

/// The till that asks its status.
fn asking_till(payment: &DrawnPayment) -> u64
    requires { IsDrawn payment.now }
    ensures { result ≡ 2 * payment.now.number }
{
    2 * u64::from(payment.number)
}

/// Appends that a till opens, before it asks the payment.
fn push_begins(lines: &mut Vec<ScriptLine>, payment: &DrawnPayment) -> Result<(), AllocError>
    requires { IsDrawn payment.now }
    ensures { OnOk result (lines_value lines.new.items ≡ lines_value lines.old.items ++ payment_begins (payment_value payment.now)) }
{
    push_moment(lines, 20 * u64::from(payment.number))?;
    push_event(lines, ScriptEvent::Open(paying_till(payment)))?;
    push_event(lines, ScriptEvent::Tick)?;
    push_power(lines, payment.power)
}

/// Appends that time passes after the payment was asked.
fn push_ticks(lines: &mut Vec<ScriptLine>, payment: &DrawnPayment) -> Result<(), AllocError>
    requires { IsDrawn payment.now }
    ensures { OnOk result (lines_value lines.new.items ≡ lines_value lines.old.items ++ payment_waits (payment_value payment.now)) }
{
    push_moment(lines, 20 * u64::from(payment.number) + 6)?;
    push_event(lines, ScriptEvent::Tick)?;
    push_moment(lines, 20 * u64::from(payment.number) + 12)?;
    push_event(lines, ScriptEvent::Tick)?;
    push_forgotten(lines, payment.power)
}

/// Appends that another till asks the payment's status, and that both close.
fn push_ends(
    alloc: Global,
    lines: &mut Vec<ScriptLine>,
    payment: &DrawnPayment,
) -> Result<(), AllocError>
    requires { IsDrawn payment.now }
    ensures { OnOk result (lines_value lines.new.items ≡ lines_value lines.old.items ++ payment_ends (payment_value payment.now)) }
{
    let status = status_frame(alloc, payment)?;
    push_event(lines, ScriptEvent::Open(asking_till(payment)))?;
    push_event(lines, ScriptEvent::FromTill(asking_till(payment), status))?;
    push_event(lines, ScriptEvent::Close(asking_till(payment)))?;
    push_event(lines, ScriptEvent::Close(paying_till(payment)))
}

/// Appends the lines of a payment.
pub(crate) fn push_payment(
    alloc: Global,
    lines: &mut Vec<ScriptLine>,
    payment: &DrawnPayment,
) -> Result<(), AllocError>
    requires { IsDrawn payment.now }
    ensures { OnOk result (lines_value lines.new.items ≡ lines_value lines.old.items ++ payment_lines (payment_value payment.now)) }
{
    let asked = payment_frame(alloc, payment)?;
    push_begins(lines, payment)?;
    push_event(lines, ScriptEvent::FromTill(paying_till(payment), asked))?;
    push_ticks(lines, payment)?;
    push_ends(alloc, lines, payment)
}
