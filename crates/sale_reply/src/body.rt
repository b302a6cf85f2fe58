//! The bodies of messages, written.
ghost use Rattle.std.specs.Prelude.{◌≡◌, codes, option_map};
ghost use Rattle.json_text.specs.Canonical.{canonical};
ghost use Rattle.gw_base.specs.Condition.{name_of};
ghost use Rattle.sale_reply.specs.Names.{result_of, paid_result};
ghost use Rattle.sale_reply.specs.inner.CanonicalMembers.{next_optional};
ghost use Rattle.sale_reply.specs.inner.Appends.{Appends};
ghost use Rattle.sale_reply.specs.Reply.{result_tree, verdict_tree, success_tree, sale_data, poi_data, payment_result, total, totals, approved_body, result_body, plain_body, diagnosis_body, print_body, event_body};

use crate::buffer::Out;
use crate::reply::{Detail, GlobalStatus, PoiMark, ReplyResult, Told, Verdict};
use crate::text::details;
use gw_base::{Condition, Currency, Ident, Money, stamp, transaction_text};
use itoa::Buffer;
use sale_values::{Period, money};

fn result_of(condition: Option<Condition>) -> ReplyResult
    ensures { result ≡ result_of condition }
{
    match condition {
        None => ReplyResult::Success,
        Some(_) => ReplyResult::Failure,
    }
}

fn paid_result(requested: u64, paid: u64) -> ReplyResult
    ensures { result ≡ paid_result requested paid }
{
    if requested <= paid {
        ReplyResult::Success
    } else {
        ReplyResult::Partial
    }
}

/// The response object.
fn write_result(
    outcome: ReplyResult,
    condition: Option<Condition>,
    path: &Option<Ident<100>>,
    out: &mut Out,
)
    ensures { Appends out.old out.new (canonical (result_tree outcome condition path.now)) }
{
    out.raw(b"{");
    out.first_text(b"Result", outcome.name().as_bytes());
    write_condition(condition, out);
    out.next_id(b"AdditionalResponse", path);
    out.raw(b"}");
}

fn write_condition(condition: Option<Condition>, out: &mut Out)
    ensures { Appends out.old out.new (next_optional (codes "ErrorCondition") (option_map name_of condition)) }
{
    if let Some(condition) = condition {
        out.next_text(b"ErrorCondition", condition.name().as_bytes());
    }
}

pub(crate) fn write_verdict(verdict: &Verdict, out: &mut Out)
    ensures { Appends out.old out.new (canonical (verdict_tree verdict.now)) }
{
    write_result(
        result_of(verdict.condition),
        verdict.condition,
        &verdict.path,
        out,
    );
}

pub(crate) fn write_plain(verdict: &Verdict, out: &mut Out)
    ensures { Appends out.old out.new (canonical (plain_body (verdict_tree verdict.now))) }
{
    out.raw(b"{");
    out.first_name(b"Response");
    write_verdict(verdict, out);
    out.raw(b"}");
}

fn write_sale_data(transaction: &Ident<80>, stamp: &Ident<35>, out: &mut Out)
    ensures { Appends out.old out.new (canonical (sale_data transaction.now stamp.now)) }
{
    out.raw(b"{");
    out.first_name(b"SaleTransactionID");
    out.raw(b"{");
    out.first_text(b"TransactionID", transaction.as_bytes());
    out.next_text(b"TimeStamp", stamp.as_bytes());
    out.raw(b"}}");
}

fn write_poi_data(trace: u32, receipt: u16, mark: &PoiMark, out: &mut Out)
    ensures { Appends out.old out.new (canonical (poi_data trace receipt mark.now)) }
{
    out.raw(b"{");
    out.first_name(b"POITransactionID");
    out.raw(b"{");
    out.first_text(
        b"TransactionID",
        transaction_text(trace, receipt, mark.slot).as_slice(),
    );
    out.next_text(b"TimeStamp", &stamp(mark.moment));
    out.raw(b"}}");
}

fn write_payment_result(paid: &Money, out: &mut Out)
    ensures { Appends out.old out.new (canonical (payment_result paid.now.currency paid.now.minor)) }
{
    out.raw(b"{");
    out.first_name(b"AmountsResp");
    out.raw(b"{");
    out.first_text(b"Currency", &paid.currency.code());
    out.next_number(b"AuthorizedAmount", money(paid.minor).as_slice());
    out.raw(b"}}");
}

#[tactic(auto, unfolding(crate::specs::Reply::result_body))]
pub(crate) fn write_result_body(told: &Told, out: &mut Out)
    ensures { Appends out.old out.new (canonical (result_body told.now)) }
{
    match told {
        Told::PaymentApproved {
            transaction,
            stamp,
            mark,
            requested,
            paid,
        } => {
            let outcome = paid_result(*requested, paid.minor);
            write_approved(transaction, stamp, mark, outcome, paid, out);
        }
        Told::PaymentDeclined {
            transaction,
            stamp,
            mark,
            condition,
        } => write_declined(transaction, stamp, mark, *condition, out),
        Told::ReversalApproved { mark, reversed } => write_reversed(mark, reversed, out),
        Told::ReversalDeclined { mark, condition } => write_unreversed(mark, *condition, out),
        Told::Reconciled {
            period,
            currency,
            debit,
            reversed,
        } => write_reconciled(*period, *currency, debit, reversed, out),
    }
}

fn write_approved(
    transaction: &Ident<80>,
    stamp: &Ident<35>,
    mark: &PoiMark,
    outcome: ReplyResult,
    paid: &Money,
    out: &mut Out,
)
    ensures { Appends out.old out.new
        (canonical (approved_body transaction.now stamp.now mark.now outcome paid.now)) }
{
    out.raw(b"{");
    out.first_name(b"Response");
    write_result(outcome, None, &None, out);
    out.next_name(b"SaleData");
    write_sale_data(transaction, stamp, out);
    out.next_name(b"POIData");
    write_poi_data(mark.number, mark.receipt, mark, out);
    out.next_name(b"PaymentResult");
    write_payment_result(paid, out);
    out.raw(b"}");
}

fn write_declined(
    transaction: &Ident<80>,
    stamp: &Ident<35>,
    mark: &PoiMark,
    condition: Condition,
    out: &mut Out,
)
    ensures { Appends out.old out.new
        (canonical (result_body (Told.PaymentDeclined transaction.now stamp.now mark.now condition))) }
{
    out.raw(b"{");
    out.first_name(b"Response");
    write_result(ReplyResult::Failure, Some(condition), &None, out);
    out.next_name(b"SaleData");
    write_sale_data(transaction, stamp, out);
    out.next_name(b"POIData");
    write_poi_data(0, 0, mark, out);
    out.raw(b"}");
}

fn write_reversed(mark: &PoiMark, reversed: &Money, out: &mut Out)
    ensures { Appends out.old out.new (canonical (result_body (Told.ReversalApproved mark.now reversed.now))) }
{
    out.raw(b"{");
    out.first_name(b"Response");
    write_success(out);
    out.next_name(b"POIData");
    write_poi_data(mark.number, mark.receipt, mark, out);
    out.next_number(b"ReversedAmount", money(reversed.minor).as_slice());
    out.raw(b"}");
}

fn write_unreversed(mark: &PoiMark, condition: Condition, out: &mut Out)
    ensures { Appends out.old out.new (canonical (result_body (Told.ReversalDeclined mark.now condition))) }
{
    out.raw(b"{");
    out.first_name(b"Response");
    write_result(ReplyResult::Failure, Some(condition), &None, out);
    out.next_name(b"POIData");
    write_poi_data(0, 0, mark, out);
    out.raw(b"}");
}

fn write_reconciled(
    period: Period,
    currency: Currency,
    debit: &(u32, u64),
    reversed: &(u32, u64),
    out: &mut Out,
)
    ensures { Appends out.old out.new
        (canonical (result_body (Told.Reconciled period currency debit.now reversed.now))) }
{
    out.raw(b"{");
    out.first_name(b"Response");
    write_success(out);
    out.next_text(b"ReconciliationType", period.name().as_bytes());
    out.next_name(b"TransactionTotals");
    out.raw(b"[");
    write_totals(currency, debit, reversed, out);
    out.raw(b"]}");
}

fn write_totals(currency: Currency, debit: &(u32, u64), reversed: &(u32, u64), out: &mut Out)
    ensures { Appends out.old out.new (canonical (totals currency debit.now reversed.now)) }
{
    out.raw(b"{");
    out.first_text(b"PaymentInstrumentType", b"Card");
    out.next_text(b"PaymentCurrency", &currency.code());
    out.next_name(b"PaymentTotals");
    out.raw(b"[");
    write_total(b"Debit", debit, out);
    out.raw(b",");
    write_total(b"ReverseDebit", reversed, out);
    out.raw(b"]}");
}

fn write_total(transaction_type: &[u8], sum: &(u32, u64), out: &mut Out)
    ensures { Appends out.old out.new (canonical (total transaction_type.now sum.now)) }
{
    out.raw(b"{");
    out.first_text(b"TransactionType", transaction_type);
    out.next_number(b"TransactionCount", Buffer::new().format(sum.0).as_bytes());
    out.next_number(b"TransactionAmount", money(sum.1).as_slice());
    out.raw(b"}");
}

pub(crate) fn write_success(out: &mut Out)
    ensures { Appends out.old out.new (canonical success_tree) }
{
    write_result(ReplyResult::Success, None, &None, out);
}

pub(crate) fn write_diagnosis(status: GlobalStatus, out: &mut Out)
    ensures { Appends out.old out.new (canonical (diagnosis_body status)) }
{
    out.raw(b"{");
    out.first_name(b"Response");
    write_success(out);
    out.next_name(b"POIStatus");
    out.raw(b"{");
    out.first_text(b"GlobalStatus", status.name().as_bytes());
    out.raw(b"}}");
}

pub(crate) fn write_print(qualifier: &Ident<40>, verdict: &Verdict, out: &mut Out)
    ensures { Appends out.old out.new (canonical (print_body qualifier.now verdict.now)) }
{
    out.raw(b"{");
    out.first_text(b"DocumentQualifier", qualifier.as_bytes());
    out.next_name(b"Response");
    write_verdict(verdict, out);
    out.raw(b"}");
}

pub(crate) fn write_event(moment: i64, detail: &Detail, out: &mut Out)
    ensures { Appends out.old out.new (canonical (event_body moment detail.now)) }
{
    out.raw(b"{");
    out.first_text(b"TimeStamp", &stamp(moment));
    out.next_text(b"EventToNotify", b"Reject");
    out.next_text(b"EventDetails", details(detail).as_slice());
    out.raw(b"}");
}
