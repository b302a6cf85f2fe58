//! The limits of the parts of a message, and that a message within them fits and is a text.
ghost use Rattle.std.specs.Prelude.{◌^◌, ◌<◌, ◌≤◌, ◌↔◌, ◌⊎◌, All, IfSome, IsTrue, length, sum_by};
ghost use Rattle.gw_base.specs.Ident.{IsIdent};
ghost use Rattle.json_text.specs.Canonical.{canonical};
ghost use Rattle.json_text.specs.Grammar.{Spells};
ghost use Rattle.sale_reply.specs.declared.reply.SaleReply.{SaleReply};
ghost use Rattle.sale_reply.specs.Limits.{HasMark, HasUnlimitedParts, IsDetailWithinLimits, IsHeaderWithinLimits, IsMarkWithinLimits, IsShownWithinLimits, IsToldWithinLimits, IsTotalWithinLimits, IsWithinLimits};
ghost use Rattle.sale_reply.specs.Reply.{tree_of};

use crate::reply::{Detail, PoiMark, SaleReply, Shown, Told};
use gw_base::{Ident, law_stamp};
use gw_bytes::{GREATEST_RECEIPT, GREATEST_TRACE, LONGEST_APDU_DATA, MOST_PRINTED_LINES};
use json_text::spellable_trees_have_texts;
use sale_values::Header;

/// The most bytes that the lines of a print request have together. This is no limit of its own: they are the lines of one
/// APDU of a terminal, which has no more data than this.
const MOST_LINE_BYTES: usize = LONGEST_APDU_DATA as usize;

/// Whether the message's parts lie within the limits of this profile. Only a print request can have too much, and only
/// the numbers of a transaction too many digits, since the types of all other parts see to it.
pub fn is_within_limits(reply: &SaleReply<'_>) -> bool
    ensures within { IsTrue result ↔ IsWithinLimits reply.now }
    ensures others { HasUnlimitedParts reply.now ⊎ IsTrue result }
{
    match reply {
        SaleReply::PrintRequest { header, lines } => {
            law_header(header);
            are_within_limits(lines)
        }
        SaleReply::Plain { header, verdict } => {
            law_header(header);
            law_optional(&verdict.path);
            true
        }
        SaleReply::Told { header, told } => {
            law_header(header);
            is_result_body_within_limits(told)
        }
        SaleReply::Status {
            header,
            repeated,
            told,
        } => {
            law_header(header);
            law_header(repeated);
            is_result_body_within_limits(told)
        }
        SaleReply::Display { header, outputs } => {
            law_header(header);
            law_outputs(outputs.as_slice());
            true
        }
        SaleReply::Print {
            header,
            qualifier,
            verdict,
        } => {
            law_header(header);
            law_ident(qualifier);
            law_optional(&verdict.path);
            true
        }
        SaleReply::Diagnosis { header, .. } => {
            law_header(header);
            true
        }
        SaleReply::DisplayRequest { header, code } => {
            law_header(header);
            law_u8(*code);
            true
        }
        SaleReply::Reject {
            sale,
            poi,
            detail,
            ..
        } => {
            law_ident(sale);
            law_ident(poi);
            law_detail(detail);
            true
        }
    }
}

/// Whether the lines are few enough and short enough.
fn are_within_limits(lines: &[&[u8]]) -> bool
    ensures { IsTrue result ↔ (length lines.now ≤ 400) × (sum_by (λ line. length line.now) lines.now ≤ 12000) }
{
    if lines.len() > MOST_PRINTED_LINES {
        return false;
    }
    let mut room = MOST_LINE_BYTES;
    for line in lines {
        if line.len() > room {
            return false;
        }
        room -= line.len();
    }
    true
}

/// Whether the numbers of a transaction have no more than their digits.
fn is_mark_within_limits(mark: &PoiMark) -> bool
    ensures { IsTrue result ↔ IsMarkWithinLimits mark.now }
{
    law_u32(mark.slot);
    mark.number <= GREATEST_TRACE && mark.receipt <= GREATEST_RECEIPT
}

/// Whether the parts of a result body lie within the limits.
fn is_result_body_within_limits(told: &Told) -> bool
    ensures within { IsTrue result ↔ IsToldWithinLimits told.now }
    ensures others { HasMark told.now ⊎ IsTrue result }
{
    match told {
        Told::PaymentApproved {
            transaction,
            stamp,
            mark,
            paid,
            ..
        } => {
            law_ident(transaction);
            law_ident(stamp);
            law_u64(paid.minor);
            is_mark_within_limits(mark)
        }
        Told::PaymentDeclined {
            transaction,
            stamp,
            mark,
            ..
        } => {
            law_ident(transaction);
            law_ident(stamp);
            is_mark_within_limits(mark)
        }
        Told::ReversalApproved { mark, reversed } => {
            law_u64(reversed.minor);
            is_mark_within_limits(mark)
        }
        Told::ReversalDeclined { mark, .. } => is_mark_within_limits(mark),
        Told::Reconciled {
            debit,
            reversed,
            ..
        } => {
            law_total(debit);
            law_total(reversed);
            true
        }
    }
}

// For the prover alone: what follows holds by the types of the arguments, and these functions do nothing. A contract
// learns what a type says of a value by a call that the value is handed to, so each part of a message is handed to one.

fn law_u8(value: u8)
    ensures { value < 2 ^ 8 }
{
    let _value = value;
}

fn law_u32(value: u32)
    ensures { value < 2 ^ 32 }
{
    let _value = value;
}

fn law_u64(value: u64)
    ensures { value < 2 ^ 64 }
{
    let _value = value;
}

fn law_total(total: &(u32, u64))
    ensures { IsTotalWithinLimits total.now }
{
    law_u32(total.0);
    law_u64(total.1);
}

fn law_ident<const N: usize>(ident: &Ident<N>)
    ensures { IsIdent N ident.now }
{
    let _bytes = ident.as_bytes();
}

fn law_optional<const N: usize>(ident: &Option<Ident<N>>)
    ensures { IfSome ident.now (λ bytes. IsIdent N bytes) }
{
    if let Some(ident) = ident {
        law_ident(ident);
    }
}

fn law_header(header: &Header)
    ensures { IsHeaderWithinLimits header.now }
{
    law_ident(&header.category);
    law_optional(&header.service);
    law_optional(&header.device);
    law_ident(&header.sale);
    law_ident(&header.poi);
}

fn law_outputs(outputs: &[Shown])
    ensures { All IsShownWithinLimits outputs.now }
{
    for shown in outputs {
        law_shown(shown);
    }
}

fn law_shown(shown: &Shown)
    ensures { IsShownWithinLimits shown.now }
{
    law_ident(&shown.device);
    law_ident(&shown.qualify);
    law_optional(&shown.verdict.path);
}

fn law_detail(detail: &Detail)
    ensures { IsDetailWithinLimits detail.now }
{
    match detail {
        Detail::Json(fault) => {
            law_u64(fault.at as u64);
        }
        Detail::Header(path) => law_ident(path),
        Detail::Body(path) => law_ident(path),
        Detail::Abort => {}
    }
}

/// A message whose parts lie within the limits fits its frame.
pub fn law_size()
    ensures { (reply : SaleReply) → IsWithinLimits reply → length (canonical (tree_of reply)) ≤ 65536 }
{
    law_stamp();
}

/// A message whose parts lie within the limits is written as JSON text (RFC 8259), by which it can be read again.
pub fn law_text()
    ensures { (reply : SaleReply) → IsWithinLimits reply → Spells (tree_of reply) (canonical (tree_of reply)) }
{
    law_stamp();
    spellable_trees_have_texts();
}
