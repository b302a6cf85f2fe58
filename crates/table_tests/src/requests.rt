//! Messages of tills, read and written.
use crate::frames::push_in_two_chunks;
use case_files::{done, push_bytes};
use gw_base::{Ident, Key};
use json_text::read;
use sale_msg::{
    Header, Incoming, Kind, MessageError, Output, PaymentAsk, Period, Reference, SaleRequest,
    read_message, write_request,
};
use sale_values::{Class, ReversalAsk};
use std::alloc::{AllocError, Global};
use std::str;
use xlate::show_of;
use zvt_msg::Command;

/// A request of class Service, with ServiceID 1, SaleID S1 and POIID T1.
fn request(alloc: Global, category: &str, body: &str) -> Result<String, AllocError> {
    format!(in alloc;
        "{{\"SaleToPOIRequest\":{{\"MessageHeader\":{{\"ProtocolVersion\":\"3.0\",\"MessageClass\":\"Service\",\"MessageCategory\":\"{category}\",\"MessageType\":\"Request\",\"ServiceID\":\"1\",\"SaleID\":\"S1\",\"POIID\":\"T1\"}},\"{category}Request\":{body}}}}}"
    )
}

/// A message with this header under this envelope.
fn headed(alloc: Global, envelope: &str, header: &str) -> Result<String, AllocError> {
    format!(in alloc; "{{\"{envelope}\":{{\"MessageHeader\":{header},\"DiagnosisRequest\":{{}}}}}}")
}

/// The request of a payment of this amount.
fn payment(alloc: Global, amount: &str) -> Result<String, AllocError> {
    let body = format!(in alloc;
        "{{\"SaleData\":{{\"OperatorID\":\"5\",\"SaleTransactionID\":{{\"TransactionID\":\"27908\",\"TimeStamp\":\"2025-03-07T10:11:04+00:00\"}}}},\"PaymentTransaction\":{{\"AmountsReq\":{{\"Currency\":\"EUR\",\"RequestedAmount\":{amount}}},\"TransactionConditions\":{{\"LoyaltyHandling\":\"Forbidden\"}}}},\"PaymentData\":{{\"PaymentType\":\"Normal\"}}}}"
    )?;
    request(alloc, "Payment", body.as_str())
}

/// The text that the words stand for.
fn text_of(alloc: Global, word: &str, words: &str) -> Result<String, AllocError> {
    let (first, rest) = words.split_once(' ').unwrap_or((words, ""));
    match word {
        "display_lines" => request(alloc, "Display", words),
        "request" | "rewrite_request" => request(alloc, first, rest),
        "headed" => headed(alloc, first, rest),
        "payment" | "payment_in_two_chunks" => payment(alloc, words),
        _ => String::from_str(alloc, words),
    }
}

/// Appends a name, or `-`.
fn push_name<const N: usize>(out: &mut String, name: &Option<Ident<N>>) -> Result<(), AllocError> {
    match name {
        Some(name) => write!(out, " {name}"),
        None => out.push_str(" -"),
    }
}

fn push_header(out: &mut String, header: &Header) -> Result<(), AllocError> {
    let class = header.class.name();
    let message_type = header.kind.name();
    let Header {
        category,
        sale,
        poi,
        ..
    } = header;
    write!(out, "{class} {category} {message_type} {sale} {poi}")?;
    push_name(out, &header.service)?;
    push_name(out, &header.device)
}

/// Appends a reference, and the key that it has under the header.
fn push_reference(
    out: &mut String,
    header: &Header,
    reference: &Reference,
) -> Result<(), AllocError> {
    write!(out, " {}", reference.service)?;
    push_name(out, &reference.sale)?;
    push_name(out, &reference.poi)?;
    let Key { sale, poi, service } = reference.key(header);
    write!(out, ", key {sale} {poi} {service}")
}

fn push_payment(out: &mut String, ask: &PaymentAsk) -> anyhow::Result<()> {
    let currency = str::from_utf8(ask.currency.as_slice())?;
    let payment_type = match &ask.kind {
        Some(text) => text.as_str(),
        None => "-",
    };
    write!(
        out,
        " {} {} {currency} {} {payment_type}",
        ask.transaction, ask.stamp, ask.amount
    )?;
    Ok(())
}

fn push_reversal(out: &mut String, ask: &ReversalAsk) -> Result<(), AllocError> {
    match ask.amount {
        Some(amount) => write!(out, " {} {amount}", ask.transaction),
        None => write!(out, " {} -", ask.transaction),
    }
}

fn push_output(out: &mut String, output: &Output) -> Result<(), AllocError> {
    let Output {
        device,
        qualify,
        required,
        ..
    } = output;
    write!(out, " | {device} {qualify} {required}")?;
    match &output.texts {
        Some(texts) => {
            for text in texts.inner().as_slice() {
                write!(out, " '{}'", text.as_str())?;
            }
            Ok(())
        }
        None => out.push_str(" -"),
    }
}

fn push_outputs(out: &mut String, outputs: &[Output]) -> Result<(), AllocError> {
    for output in outputs {
        push_output(out, output)?;
    }
    Ok(())
}

/// Appends what a request has besides its header.
fn push_request(out: &mut String, header: &Header, request: &SaleRequest) -> anyhow::Result<()> {
    match request {
        SaleRequest::Payment(ask) => push_payment(out, ask),
        SaleRequest::Reversal(ask) => done(push_reversal(out, ask)),
        SaleRequest::Abort(reference) | SaleRequest::Status(Some(reference)) => {
            done(push_reference(out, header, reference))
        }
        SaleRequest::Reconciliation(period) => done(write!(out, " {}", period.name())),
        SaleRequest::Display(outputs) => done(push_outputs(out, outputs.inner().as_slice())),
        SaleRequest::Print(qualifier) => done(write!(out, " {qualifier}")),
        _ => Ok(()),
    }
}

/// Appends what a message is.
fn push_incoming(out: &mut String, incoming: &Incoming) -> anyhow::Result<()> {
    match incoming {
        Incoming::Silent => done(out.push_str("silent")),
        Incoming::Request(header, request) => {
            push_header(out, header)?;
            out.push_str(":")?;
            push_request(out, header, request)
        }
    }
}

/// What a text is read as.
fn message(alloc: Global, text: &str) -> anyhow::Result<Result<Incoming, MessageError>> {
    let tree = read(alloc, text.as_bytes())?;
    Ok(read_message(alloc, &tree))
}

/// Appends what a message is, or the fault.
fn push_read_as(out: &mut String, message: &Result<Incoming, MessageError>) -> anyhow::Result<()> {
    match message {
        Ok(incoming) => push_incoming(out, incoming),
        Err(MessageError::Fault(fault)) => done(write!(out, "{fault}")),
        Err(MessageError::Memory) => done(out.push_str("no memory")),
    }
}

/// Appends what a text is read as, or the fault.
fn push_message(alloc: Global, out: &mut String, text: &str) -> anyhow::Result<()> {
    let message = message(alloc, text)?;
    out.push_str("> ")?;
    push_read_as(out, &message)?;
    done(out.push_str("\n"))
}

fn push_line(out: &mut String, line: &[u8]) -> Result<(), AllocError> {
    out.push_str(" ")?;
    push_bytes(out, line)
}

/// Appends the lines of a command that shows them.
fn push_lines(out: &mut String, command: &Command) -> anyhow::Result<()> {
    let Command::Show { lines } = command else {
        anyhow::bail!("no lines");
    };
    out.push_str("> show")?;
    for line in lines.as_slice() {
        push_line(out, line.as_slice())?;
    }
    done(out.push_str("\n"))
}

/// Appends what a terminal shows of a Display, or `> none`.
fn push_shown(alloc: Global, out: &mut String, text: &str) -> anyhow::Result<()> {
    let Ok(Incoming::Request(_, SaleRequest::Display(outputs))) = &message(alloc, text)? else {
        anyhow::bail!("no Display");
    };
    match show_of(outputs) {
        Some(command) => push_lines(out, &command),
        None => done(out.push_str("> none\n")),
    }
}

/// What is written of a message; nothing where it is no request.
fn written_of(
    alloc: Global,
    message: &Result<Incoming, MessageError>,
) -> Result<Vec<u8>, AllocError> {
    let mut written = Vec::new(alloc);
    if let Ok(Incoming::Request(header, request)) = message {
        write_request(alloc, header, request, &mut written)?;
    }
    Ok(written)
}

/// What is written of the request that a text is.
fn written(alloc: Global, text: &str) -> anyhow::Result<Vec<u8>> {
    let message = message(alloc, text)?;
    Ok(written_of(alloc, &message)?)
}

/// Appends whether what is written of the request that a text is is the text.
fn push_again(alloc: Global, out: &mut String, text: &str) -> anyhow::Result<()> {
    let again = written(alloc, text)?;
    if again.as_slice() == text.as_bytes() {
        return done(out.push_str("> the same\n"));
    }
    let again = str::from_utf8(again.as_slice())?;
    done(write!(out, "> {again}\n"))
}

/// Appends the result of a question on a message of a till.
pub fn push_on_message(
    alloc: Global,
    out: &mut String,
    word: &str,
    words: &str,
) -> anyhow::Result<()> {
    let text = text_of(alloc, word, words)?;
    match word {
        "display_lines" => push_shown(alloc, out, text.as_str()),
        "rewrite_request" => push_again(alloc, out, text.as_str()),
        "payment_in_two_chunks" => push_in_two_chunks(alloc, out, text.as_str()),
        _ => push_message(alloc, out, text.as_str()),
    }
}

/// Appends the class, the type of a message or of a reconciliation of this name.
pub fn push_named(out: &mut String, word: &str, name: &str) -> Result<(), AllocError> {
    let found = match word {
        "class" => Class::from_name(name.as_bytes()).map(Class::name),
        "message_type" => Kind::from_name(name.as_bytes()).map(Kind::name),
        _ => Period::from_name(name.as_bytes()).map(Period::name),
    };
    write!(out, "> {}\n", found.unwrap_or("none"))
}
