//! Messages to tills, written from their words. Those that have a header have ServiceID 1, SaleID S1 and POIID T1.
use crate::result_bodies::result_body_of;
use anyhow::{Context, ensure};
use case_files::done;
use gw_base::{Condition, Ident};
use json_text::{FaultKind, JsonFault};
use sale_reply::{
    Detail, GlobalStatus, Out, OutputResults, SaleReply, Shown, Verdict, is_within_limits,
    write_reply,
};
use sale_values::{Class, Header, Kind};
use std::alloc::{AllocError, Global};
use std::str;

/// The header of a message of this class, category and type, with this DeviceID.
fn header(class: Class, category: &str, message_type: Kind, device: &str) -> Option<Header> {
    Some(Header {
        class,
        category: Ident::of(category.as_bytes())?,
        kind: message_type,
        service: Ident::of(b"1"),
        device: Ident::of(device.as_bytes()),
        sale: Ident::of(b"S1")?,
        poi: Ident::of(b"T1")?,
    })
}

/// The header of a response of class Service.
fn response(category: &str) -> Option<Header> {
    header(Class::Service, category, Kind::Response, "")
}

/// The header of a response of class Device.
fn device_response(category: &str, device: &str) -> Option<Header> {
    header(Class::Device, category, Kind::Response, device)
}

/// A success.
const SUCCESS: Verdict = Verdict {
    condition: None,
    path: None,
};

/// The failure with this condition.
fn failure(condition: &str) -> Option<Verdict> {
    Some(Verdict {
        condition: Some(Condition::from_name(condition.as_bytes())?),
        path: None,
    })
}

/// The failure with this condition for the member at this path.
fn failure_at(condition: &str, path: &str) -> Option<Verdict> {
    Some(Verdict {
        condition: Some(Condition::from_name(condition.as_bytes())?),
        path: Some(Ident::of(path.as_bytes())?),
    })
}

/// A success where there is no condition, else the failure with it.
fn verdict_of(words: &[&str]) -> Option<Verdict> {
    match words {
        [] => Some(SUCCESS),
        [condition] => failure(condition),
        [condition, path] => failure_at(condition, path),
        _ => None,
    }
}

/// Two outputs, of which the second was not shown: its device is not there.
fn two_outputs(alloc: Global) -> Result<OutputResults, AllocError> {
    let mut outputs = Vec::new(alloc);
    outputs.push(Shown {
        device: Ident::known(b"CustomerDisplay"),
        qualify: Ident::known(b"Display"),
        verdict: SUCCESS,
    })?;
    outputs.push(Shown {
        device: Ident::known(b"CashierDisplay"),
        qualify: Ident::known(b"Display"),
        verdict: Verdict {
            condition: Some(Condition::UnavailableDevice),
            path: None,
        },
    })?;
    Ok(OutputResults::new(outputs))
}

fn fault_kind_of(name: &str) -> Option<FaultKind> {
    match name {
        "NotJson" => Some(FaultKind::NotJson),
        "TooDeep" => Some(FaultKind::TooDeep),
        "Repeated" => Some(FaultKind::Repeated),
        "BadUtf8" => Some(FaultKind::BadUtf8),
        _ => None,
    }
}

/// A fault of JSON of this kind and at this place.
fn json_fault(fault_kind: &str, at: &str) -> Option<Detail> {
    Some(Detail::Json(JsonFault {
        at: at.parse().ok()?,
        kind: fault_kind_of(fault_kind)?,
    }))
}

/// Why a message was rejected, in the words that the event has.
fn detail_of(words: &[&str]) -> Option<Detail> {
    match words {
        ["json", fault_kind, at] => json_fault(fault_kind, at),
        ["header", path] => Some(Detail::Header(Ident::of(path.as_bytes())?)),
        ["body", path] => Some(Detail::Body(Ident::of(path.as_bytes())?)),
        ["abort"] => Some(Detail::Abort),
        _ => None,
    }
}

/// The event that a message was rejected.
fn reject_of(words: &[&str]) -> Option<SaleReply<'static>> {
    let [sale, poi, moment, detail @ ..] = words else {
        return None;
    };
    Some(SaleReply::Reject {
        sale: Ident::of(sale.as_bytes())?,
        poi: Ident::of(poi.as_bytes())?,
        moment: moment.parse().ok()?,
        detail: detail_of(detail)?,
    })
}

/// The reply of this category with a result body that was sent before.
fn result_reply(words: &[&str]) -> Option<SaleReply<'static>> {
    let [category, word, body @ ..] = words else {
        return None;
    };
    Some(SaleReply::Told {
        header: response(category)?,
        told: result_body_of(word, body)?,
    })
}

/// The reply that repeats the result body of a payment with this ServiceID.
fn status_reply(words: &[&str]) -> Option<SaleReply<'static>> {
    let [service, word, body @ ..] = words else {
        return None;
    };
    Some(SaleReply::Status {
        header: response("TransactionStatus")?,
        repeated: Header {
            service: Ident::of(service.as_bytes()),
            ..response("Payment")?
        },
        told: result_body_of(word, body)?,
    })
}

/// The reply of this category with a verdict alone.
fn plain_reply(words: &[&str]) -> Option<SaleReply<'static>> {
    let [category, verdict @ ..] = words else {
        return None;
    };
    Some(SaleReply::Plain {
        header: response(category)?,
        verdict: verdict_of(verdict)?,
    })
}

/// The reply to a Print: its qualifier, and its verdict.
fn print_reply(words: &[&str]) -> Option<SaleReply<'static>> {
    let [qualifier, verdict @ ..] = words else {
        return None;
    };
    Some(SaleReply::Print {
        header: device_response("Print", "")?,
        qualifier: Ident::of(qualifier.as_bytes())?,
        verdict: verdict_of(verdict)?,
    })
}

/// The reply to a Display with this DeviceID, of two outputs of which the second failed.
fn display_reply(alloc: Global, words: &[&str]) -> Option<SaleReply<'static>> {
    let [device] = words else {
        return None;
    };
    let header = device_response("Display", device)?;
    match two_outputs(alloc) {
        Ok(outputs) => Some(SaleReply::Display { header, outputs }),
        Err(_) => None,
    }
}

/// The request that shows an intermediate status.
fn display_request(words: &[&str]) -> Option<SaleReply<'static>> {
    let [device, code] = words else {
        return None;
    };
    Some(SaleReply::DisplayRequest {
        header: header(Class::Device, "Display", Kind::Request, device)?,
        code: u8::from_str_radix(code, 16).ok()?,
    })
}

/// The reply to a Diagnosis of a terminal that is ready.
fn diagnosis() -> Option<SaleReply<'static>> {
    let header = response("Diagnosis")?;
    Some(SaleReply::Diagnosis {
        header,
        status: GlobalStatus::Ready,
    })
}

/// The message of these words.
fn reply_of(alloc: Global, words: &[&str]) -> Option<SaleReply<'static>> {
    let [word, rest @ ..] = words else {
        return None;
    };
    match *word {
        "plain" => plain_reply(rest),
        "result" => result_reply(rest),
        "status" => status_reply(rest),
        "diagnosis" => diagnosis(),
        "display" => display_reply(alloc, rest),
        "print" => print_reply(rest),
        "display_request" => display_request(rest),
        "reject" => reject_of(rest),
        _ => None,
    }
}

/// Appends the text of a frame, whose length precedes it.
fn push_frame(out: &mut String, frame: &[u8]) -> anyhow::Result<()> {
    let (size, text) = frame.split_at_checked(4).context("no frame")?;
    let length = (text.len() as u64).to_be_bytes();
    ensure!(Some(size) == length.get(4..), "another length");
    let text = str::from_utf8(text)?;
    done(write!(out, "> {text}\n"))
}

/// Appends the frame of a message: its length and its text, or that it isn't within the limits.
pub fn push_written(alloc: Global, out: &mut String, reply: &SaleReply<'_>) -> anyhow::Result<()> {
    if !is_within_limits(reply) {
        return done(out.push_str("> beyond the limits\n"));
    }
    let mut written = Out::new(alloc)?;
    write_reply(reply, &mut written);
    push_frame(out, written.as_bytes())
}

/// The lines of bytes, which each `0a` divides.
fn lines_of(alloc: Global, bytes: &[u8]) -> Result<Vec<&[u8]>, AllocError> {
    let mut lines = Vec::new(alloc);
    for line in bytes.split(|byte| *byte == b'\n') {
        lines.push(line)?;
    }
    Ok(lines)
}

/// Appends the frame of the request that prints these lines.
fn push_printed(alloc: Global, out: &mut String, lines: &[&[u8]]) -> anyhow::Result<()> {
    let header = header(Class::Device, "Print", Kind::Request, "0").context("no header")?;
    push_written(alloc, out, &SaleReply::PrintRequest { header, lines })
}

/// Appends the frame of the request that prints lines: they are bytes, of which each `0a` divides two lines.
pub fn push_print_request(alloc: Global, out: &mut String, bytes: &[u8]) -> anyhow::Result<()> {
    let lines = lines_of(alloc, bytes)?;
    push_printed(alloc, out, lines.as_slice())
}

fn all_of(alloc: Global, words: &str) -> Result<Vec<&str>, AllocError> {
    let mut all = Vec::new(alloc);
    for word in words.split_whitespace() {
        all.push(word)?;
    }
    Ok(all)
}

/// Appends the frame of the message of some words.
pub fn push_reply(alloc: Global, out: &mut String, words: &str) -> anyhow::Result<()> {
    let words = all_of(alloc, words)?;
    match reply_of(alloc, words.as_slice()) {
        Some(reply) => push_written(alloc, out, &reply),
        None => anyhow::bail!("no message"),
    }
}
