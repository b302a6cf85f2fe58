//! Lines of displays and device requests: what a till shows at a terminal, and what it is to show and print itself.
//!
//! They are those of till S1 at terminal T1. A ServiceID is one digit.
use crate::tables::{halves, push_form};
use std::alloc::AllocError;

/// A Display: its ServiceID and its text.
const DISPLAY: &str =
    "{\"SaleToPOIRequest\":{\"MessageHeader\":{\"ProtocolVersion\":\"3.0\",\"MessageClass\":\"Device\",\"MessageCategory\":\"Display\",\
    \"MessageType\":\"Request\",\"ServiceID\":\"%\",\"SaleID\":\"S1\",\"POIID\":\"T1\"},\"DisplayRequest\":{\"DisplayOutput\":\
    [{\"Device\":\"CustomerDisplay\",\"InfoQualify\":\"Display\",\"OutputContent\":{\"OutputFormat\":\"Text\",\"OutputText\":\
    [{\"Text\":\"%\"}]}}]}}}\n";

/// The line of its reply up to the response: the till and its ServiceID.
const DISPLAYED: &str =
    "till % out '{\"SaleToPOIResponse\":{\"MessageHeader\":{\"ProtocolVersion\":\"3.0\",\"MessageClass\":\"Device\",\
    \"MessageCategory\":\"Display\",\"MessageType\":\"Response\",\"ServiceID\":\"%\",\"SaleID\":\"S1\",\"POIID\":\"T1\"},\
    \"DisplayResponse\":{\"OutputResult\":[{\"Device\":\"CustomerDisplay\",\"InfoQualify\":\"Display\",\"Response\":";

/// The rest of it where it succeeds, and where it fails for this reason.
const SUCCESS: &str = "{\"Result\":\"Success\"}}]}}}\n";

const FAILURE: &str = "{\"Result\":\"Failure\",\"ErrorCondition\":\"%\"}}]}}}\n";

/// The line of a device request: the till, the category, the ServiceID, the number, the category again, and the body.
const DEVICE_REQUEST: &str =
    "till % out '{\"SaleToPOIRequest\":{\"MessageHeader\":{\"ProtocolVersion\":\"3.0\",\"MessageClass\":\"Device\",\
    \"MessageCategory\":\"%\",\"MessageType\":\"Request\",\"ServiceID\":\"%\",\"DeviceID\":\"%\",\"SaleID\":\"S1\",\
    \"POIID\":\"T1\"},\"%Request\":{";

/// The body of one that shows an intermediate status: its code.
const SHOWN: &str =
    "\"DisplayOutput\":[{\"ResponseRequiredFlag\":false,\"Device\":\"CashierDisplay\",\"InfoQualify\":\"Status\",\
    \"OutputContent\":{\"OutputFormat\":\"Text\",\"OutputText\":[{\"Text\":\"ZVT status %\"}]}}]}}}\n";

/// The body of one that prints lines: its texts.
const PRINTED: &str =
    "\"PrintOutput\":{\"DocumentQualifier\":\"Document\",\"ResponseMode\":\"NotRequired\",\
    \"OutputContent\":{\"OutputFormat\":\"Text\",\"OutputText\":%}}}}}\n";

/// Appends a Display, without the line's till.
pub(crate) fn push_display(text: &mut String, words: &str) -> Result<(), AllocError> {
    let (service, texts) = halves(words);
    push_form(text, DISPLAY, &[service, texts])
}

/// Appends its reply.
fn push_result(log: &mut String, reply: &str) -> Result<(), AllocError> {
    let (till, rest) = halves(reply);
    let (service, word) = halves(rest);
    push_form(log, DISPLAYED, &[till, service])?;
    match word {
        "Success" => log.push_str(SUCCESS),
        _ => push_form(log, FAILURE, &[word]),
    }
}

/// Appends a device request of this category, with a body of this form.
fn push_device_request(
    log: &mut String,
    category: &str,
    form: &str,
    request: &str,
) -> Result<(), AllocError> {
    let (till, rest) = halves(request);
    let (service, words) = halves(rest);
    let (number, content) = halves(words);
    push_form(
        log,
        DEVICE_REQUEST,
        &[till, category, service, number, category],
    )?;
    push_form(log, form, &[content])
}

/// Appends a line of the log as its word says, and as it is where it has none of these words.
pub(crate) fn push_displayed(log: &mut String, line: &str) -> Result<(), AllocError> {
    let (word, rest) = halves(line);
    match word {
        "displayed" => push_result(log, rest),
        "shows" => push_device_request(log, "Display", SHOWN, rest),
        "prints" => push_device_request(log, "Print", PRINTED, rest),
        _ => push_form(log, "%\n", &[line]),
    }
}
