//! Refusals, in the shape of each category's reply.
ghost use Rattle.std.specs.Prelude.{◌≡◌, ◌≤◌, [], ◌∷◌, length, pos, map, IfOk};
ghost use Rattle.gw_base.specs.Moment.{moment_of};
ghost use Rattle.gw_owes.specs.Reply.{Display as DisplayValue, Print as PrintValue, Reject};
ghost use Rattle.gw_core.specs.ReplyOf.{IsSameReply, AreSameReplies};
ghost use Rattle.gw_owes.specs.Replies.{has_device_class, header_of_reply, failure, success, format_failure, failure_reply, is_response_required, output_refused, display_refusal, display_reply, refused_results, reply_to_malformed, reject_event, malformed_output};

use gw_base::{Condition, Ident, to_moment};
use sale_reply::{Detail, OutputResults, SaleReply, Shown, Verdict};
use sale_values::{Class, Header, Kind, Output};
use std::alloc::{AllocError, Global};

/// Whether a category's replies have class `Device` and the request's `DeviceID`.
fn is_device(category: &[u8]) -> bool
    ensures { result ≡ has_device_class category.now }
{
    category == b"Display".as_slice() || category == b"Print".as_slice()
}

/// The header of the reply to a request.
pub(crate) fn reply_header(header: &Header) -> Header
    ensures { result ≡ header_of_reply header.now }
{
    let device = is_device(header.category.as_bytes());
    Header {
        class: if device {
            Class::Device
        } else {
            Class::Service
        },
        category: header.category,
        kind: Kind::Response,
        service: header.service,
        device: if device { header.device } else { None },
        sale: header.sale,
        poi: header.poi,
    }
}

/// Refused for this reason.
pub(crate) fn refusal(condition: Condition) -> Verdict
    ensures { result ≡ failure condition }
{
    Verdict {
        condition: Some(condition),
        path: None,
    }
}

/// A Success.
pub(crate) fn success() -> Verdict
    ensures { result ≡ success }
{
    Verdict {
        condition: None,
        path: None,
    }
}

/// Refused for the form of the member at this path.
fn malformed(path: Ident<100>) -> Verdict
    ensures { result ≡ format_failure path }
{
    Verdict {
        condition: Some(Condition::MessageFormat),
        path: Some(path),
    }
}

/// A refusal in a response object alone.
pub(crate) fn refused(header: &Header, condition: Condition) -> SaleReply<'static>
    ensures { IsSameReply result (failure_reply header.now condition) }
{
    SaleReply::Plain {
        header: reply_header(header),
        verdict: refusal(condition),
    }
}

/// The event that rejects a message.
pub(crate) fn reject(
    sale: &Ident<40>,
    poi: &Ident<40>,
    now: i64,
    detail: Detail,
) -> SaleReply<'static>
    ensures { IsSameReply result (Reject sale.now poi.now (pos (moment_of now)) detail) }
{
    SaleReply::Reject {
        sale: *sale,
        poi: *poi,
        moment: to_moment(now),
        detail,
    }
}

/// The event that rejects a message without a readable header, under the gateway's name.
pub(crate) fn reject_without_header(
    name: &Ident<40>,
    now: i64,
    detail: Detail,
) -> SaleReply<'static>
    ensures { IsSameReply result (reject_event name.now (moment_of now) detail) }
{
    reject(&Ident::known(b"0"), name, now, detail)
}

/// Whether some output asks for a response.
fn asks_response(outputs: &[Output]) -> bool
    ensures { result ≡ is_response_required outputs.now }
{
    outputs.iter().any(|output| output.required)
}

/// The result of an output for which there is this verdict.
fn output_result(output: &Output, verdict: Verdict) -> Shown
    ensures { result ≡ record { device = output.now.device; qualify = output.now.qualify; verdict = verdict } }
{
    Shown {
        device: output.device,
        qualify: output.qualify,
        verdict,
    }
}

/// The result of each output of a Display that is refused.
fn refused_outputs(
    alloc: Global,
    condition: Condition,
    outputs: &[Output],
) -> Result<Vec<Shown>, AllocError>
    ensures { IfOk result (λ shown. shown.items ≡ map (output_refused condition) outputs.now) }
{
    let mut shown = Vec::new(alloc);
    for output in outputs {
        shown.push(output_result(output, refusal(condition)))?;
    }
    Ok(shown)
}

/// The results of a Display in which no output is shown, for this reason; `None` where no output asks for a response.
pub(crate) fn refused_results(
    alloc: Global,
    condition: Condition,
    outputs: &[Output],
) -> Result<Option<OutputResults>, AllocError>
    requires { length outputs.now ≤ 16 }
    ensures { IfOk result (λ results. results ≡ refused_results condition outputs.now) }
{
    if !asks_response(outputs) {
        return Ok(None);
    }
    let results = refused_outputs(alloc, condition, outputs)?;
    Ok(Some(OutputResults::new(results)))
}

/// The reply to a Display with these results, where there are any.
pub(crate) fn display_reply(
    header: &Header,
    results: Option<OutputResults>,
) -> Option<SaleReply<'static>>
    ensures { AreSameReplies result (display_reply header.now results) }
{
    match results {
        None => None,
        Some(outputs) => Some(SaleReply::Display {
            header: reply_header(header),
            outputs,
        }),
    }
}

/// The reply to a Display that is refused, where an output asks for a response.
pub(crate) fn refused_display(
    alloc: Global,
    condition: Condition,
    header: &Header,
    outputs: &[Output],
) -> Result<Option<SaleReply<'static>>, AllocError>
    requires { length outputs.now ≤ 16 }
    ensures { IfOk result (λ given. AreSameReplies given (display_refusal condition header.now outputs.now)) }
{
    let results = refused_results(alloc, condition, outputs)?;
    Ok(display_reply(header, results))
}

/// The reply to a Print.
pub(crate) fn printed(
    header: &Header,
    qualifier: &Ident<40>,
    verdict: Verdict,
) -> SaleReply<'static>
    ensures { IsSameReply result (PrintValue (header_of_reply header.now) qualifier.now verdict) }
{
    SaleReply::Print {
        header: reply_header(header),
        qualifier: *qualifier,
        verdict,
    }
}

/// The reply to a Display with a member that is absent or of another form: one output for all.
fn malformed_display(
    alloc: Global,
    header: &Header,
    path: Ident<100>,
) -> Result<SaleReply<'static>, AllocError>
    ensures { IfOk result (λ given. IsSameReply given (DisplayValue (header_of_reply header.now) (malformed_output path ∷ []))) }
{
    // The outputs may be what is malformed, so none of their names can be repeated.
    let mut outputs = Vec::new(alloc);
    outputs.push(Shown {
        device: Ident::known(b"CustomerDisplay"),
        qualify: Ident::known(b"Display"),
        verdict: malformed(path),
    })?;
    Ok(SaleReply::Display {
        header: reply_header(header),
        outputs: OutputResults::new(outputs),
    })
}

/// The reply to a body in which the member at this path is absent or of another form.
pub(crate) fn malformed_body(
    alloc: Global,
    now: i64,
    header: &Header,
    path: Ident<100>,
) -> Result<SaleReply<'static>, AllocError>
    ensures { IfOk result (λ given. IsSameReply given (reply_to_malformed (moment_of now) header.now path)) }
{
    let category = header.category.as_bytes();
    // nexo has no response to an Abort.
    if category == b"Abort".as_slice() {
        return Ok(reject(&header.sale, &header.poi, now, Detail::Body(path)));
    }
    if category == b"Display".as_slice() {
        return malformed_display(alloc, header, path);
    }
    if category == b"Print".as_slice() {
        return Ok(printed(header, &Ident::known(b"Document"), malformed(path)));
    }
    Ok(SaleReply::Plain {
        header: reply_header(header),
        verdict: malformed(path),
    })
}
