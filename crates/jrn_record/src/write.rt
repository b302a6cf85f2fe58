//! The body of a record.
ghost use Rattle.std.specs.Prelude.{◌≡◌, ◌+◌, ◌^◌, ◌<◌, ◌≤◌, ◌++◌, [], length, replicate};
ghost use Rattle.std.specs.Int.{to_be_bytes, w32};
ghost use Rattle.arrayvec.specs.ArrayVec.{array_vec_len};
ghost use Rattle.gw_base.specs.Bcd.{bcd_of};
ghost use Rattle.gw_base.specs.Currency.{currency_number};
ghost use Rattle.gw_base.specs.Moment.{IsMoment};
ghost use Rattle.jrn_record.specs.Limits.{IsIntent, IsOutcome, IsRecord, IsSettled};
ghost use Rattle.jrn_record.specs.Grammar.{record_body, condition_code, deal_code, how_code, intent_fields, joined, moment_field, option_field, original_code, outcome_fields, settled_fields, text_field};

use crate::layout::{
    AMOUNT_SIZE, BODY_SIZE, CURRENCY_SIZE, INTENT_UNUSED, OUTCOME_UNUSED, PARTY_SIZE, RECEIPT_SIZE,
    SERVICE_SIZE, SETTLED_UNUSED, STAMP_SIZE, TRACE_SIZE, TRANSACTION_SIZE,
};
use crate::{Deal, How, Intent, Outcome, Record, Settled};
use arrayvec::ArrayVec;
use gw_base::{Condition, Currency, Ident, bcd_write};

/// A body as far as it is written. Fields are appended in their order, so that writing counts no offsets.
type Draft = ArrayVec<u8, BODY_SIZE>;

/// Appends bytes to a draft.
fn put(draft: &mut Draft, bytes: &[u8])
    requires { array_vec_len draft.old + length bytes.now ≤ 255 }
    ensures { draft.new.items ≡ draft.old.items ++ bytes.now }
{
    match draft.try_extend_from_slice(bytes) {
        Ok(()) => {}
        Err(_) => unreachable!(),
    }
}

/// Appends so many zeros to a draft.
fn put_zeros(draft: &mut Draft, count: usize)
    requires { array_vec_len draft.old + count ≤ 255 }
    ensures { draft.new.items ≡ draft.old.items ++ replicate count 0 }
{
    put(draft, &[0; 255][..count]);
}

/// Appends the length of a text and the text, filled with zeros to the size.
fn put_text(draft: &mut Draft, text: &[u8], size: usize)
    requires fits { length text.now < size }
    requires room { array_vec_len draft.old + size ≤ 255 }
    ensures { draft.new.items ≡ draft.old.items ++ text_field size text.now }
{
    draft.push(text.len() as u8);
    put(draft, text);
    put_zeros(draft, size - 1 - text.len());
}

/// Appends a text that may be absent, which is as an empty one.
fn put_option<const N: usize>(draft: &mut Draft, text: &Option<Ident<N>>, size: usize)
    requires fits { N < size }
    requires room { array_vec_len draft.old + size ≤ 255 }
    ensures { draft.new.items ≡ draft.old.items ++ option_field size text.now }
{
    match text {
        Some(text) => put_text(draft, text.as_bytes(), size),
        None => put_zeros(draft, size),
    }
}

/// Appends a number in so many bytes of two digits.
fn put_bcd(draft: &mut Draft, value: u64, count: usize)
    requires few { count ≤ 6 }
    requires fits { value < 100 ^ count }
    requires room { array_vec_len draft.old + count ≤ 255 }
    ensures { draft.new.items ≡ draft.old.items ++ bcd_of count value }
{
    let mut bytes = [0; 6];
    let digits = &mut bytes[..count];
    bcd_write(value, digits);
    put(draft, digits);
}

/// Appends the number of a currency.
fn put_currency(draft: &mut Draft, currency: Currency)
    requires { array_vec_len draft.old + 2 ≤ 255 }
    ensures { draft.new.items ≡ draft.old.items ++ bcd_of 2 (currency_number currency) }
{
    put_bcd(draft, u64::from(currency.number()), CURRENCY_SIZE);
}

/// Appends the slot of an original, or the greatest number where there is none, since 0 is a slot.
fn put_original(draft: &mut Draft, original: Option<u32>)
    requires { array_vec_len draft.old + 4 ≤ 255 }
    ensures { draft.new.items ≡ draft.old.items ++ to_be_bytes w32 (original_code original) }
{
    put(draft, &original.unwrap_or(u32::MAX).to_be_bytes());
}

/// Appends a moment.
fn put_moment(draft: &mut Draft, moment: i64)
    requires within { IsMoment moment }
    requires room { array_vec_len draft.old + 8 ≤ 255 }
    ensures { draft.new.items ≡ draft.old.items ++ moment_field moment }
{
    put(draft, &(moment as u64).to_be_bytes());
}

/// Appends the fields from `sale` to `service`.
fn put_key(draft: &mut Draft, sale: &Ident<40>, poi: &Ident<40>, service: &Ident<10>)
    requires { array_vec_len draft.old + 93 ≤ 255 }
    ensures { draft.new.items ≡ draft.old.items
        ++ (text_field 41 sale.now ++ (text_field 41 poi.now ++ text_field 11 service.now)) }
{
    put_text(draft, sale.as_bytes(), PARTY_SIZE);
    put_text(draft, poi.as_bytes(), PARTY_SIZE);
    put_text(draft, service.as_bytes(), SERVICE_SIZE);
}

/// Writes an Intent.
fn put_intent(draft: &mut Draft, intent: &Intent)
    requires empty { draft.old.items ≡ [] }
    requires within { IsIntent intent.now }
    ensures { draft.new.items ≡ joined (intent_fields intent.now) }
{
    put(draft, &[1, deal_byte(intent.what)]);
    put_key(draft, &intent.sale, &intent.poi, &intent.service);
    put_option(draft, &intent.transaction, TRANSACTION_SIZE);
    put_option(draft, &intent.stamp, STAMP_SIZE);
    put_bcd(draft, intent.amount, AMOUNT_SIZE);
    put_currency(draft, intent.currency);
    put_bcd(draft, u64::from(intent.before), TRACE_SIZE);
    put_original(draft, intent.original);
    put_moment(draft, intent.moment);
    put_zeros(draft, BODY_SIZE - INTENT_UNUSED);
}

/// Writes an Outcome.
fn put_outcome(draft: &mut Draft, outcome: &Outcome)
    requires empty { draft.old.items ≡ [] }
    requires within { IsOutcome outcome.now }
    ensures { draft.new.items ≡ joined (outcome_fields outcome.now) }
{
    put(draft, &[2, if outcome.approved { 1 } else { 2 }]);
    put(draft, &outcome.slot.to_be_bytes());
    put_bcd(draft, u64::from(outcome.number), TRACE_SIZE);
    put_bcd(draft, u64::from(outcome.receipt), RECEIPT_SIZE);
    put_bcd(draft, outcome.amount, AMOUNT_SIZE);
    put(draft, &[condition_byte(outcome.condition)]);
    put_moment(draft, outcome.moment);
    put_zeros(draft, BODY_SIZE - OUTCOME_UNUSED);
}

/// Writes a Settled.
fn put_settled(draft: &mut Draft, settled: &Settled)
    requires empty { draft.old.items ≡ [] }
    requires within { IsSettled settled.now }
    ensures { draft.new.items ≡ joined (settled_fields settled.now) }
{
    put(draft, &[3, how_byte(settled.how)]);
    put_key(draft, &settled.sale, &settled.poi, &settled.service);
    put_currency(draft, settled.currency);
    put_moment(draft, settled.moment);
    put_zeros(draft, BODY_SIZE - SETTLED_UNUSED);
}

fn deal_byte(what: Deal) -> u8
    ensures { result ≡ deal_code what }
{
    match what {
        Deal::Payment => 1,
        Deal::Reversal => 2,
    }
}

fn how_byte(how: How) -> u8
    ensures { result ≡ how_code how }
{
    match how {
        How::Sale => 1,
        How::Acquirer => 2,
    }
}

fn condition_byte(condition: Option<Condition>) -> u8
    ensures { result ≡ condition_code condition }
{
    match condition {
        Some(Condition::Aborted) => 1,
        Some(Condition::Cancel) => 2,
        Some(Condition::Refusal) => 3,
        Some(Condition::InvalidCard) => 4,
        Some(Condition::InsertedCard) => 5,
        Some(Condition::UnavailableService) => 6,
        Some(Condition::NotAllowed) => 7,
        _ => 0,
    }
}

/// The body of a record, whose fields lie within their limits.
pub fn to_body(the_record: &Record) -> [u8; 255]
    requires { IsRecord the_record.now }
    ensures { result ≡ record_body the_record.now }
{
    let mut draft = Draft::new();
    match the_record {
        Record::Intent(intent) => put_intent(&mut draft, intent),
        Record::Outcome(outcome) => put_outcome(&mut draft, outcome),
        Record::Settled(settled) => put_settled(&mut draft, settled),
    }
    match draft.into_inner() {
        Ok(body) => body,
        Err(_) => unreachable!(),
    }
}
