//! The record of a body.
ghost use Rattle.std.specs.Prelude.{◌≡◌, ◌∷◌, [], MatchResult};
ghost use Rattle.jrn_record.specs.Limits.{IsIntent, IsOutcome, IsRecord, IsSettled};
ghost use Rattle.jrn_record.specs.Grammar.{record_body, intent_fields, outcome_fields, settled_fields};
ghost use Rattle.jrn_record.specs.Table.{Agree, IsFirstRecordFault, field, body_field, intent_table, outcome_table, settled_table, table_at};

use crate::body_fields::{
    RecordFault, read_approval, read_condition, read_currency, read_deal, read_how, read_moment,
    read_number, read_option, read_original, read_text, read_zeros, slot_at,
};
use crate::layout::{
    AMOUNT_SIZE, BODY_SIZE, INTENT_AMOUNT, INTENT_BEFORE, INTENT_CURRENCY, INTENT_MOMENT,
    INTENT_ORIGINAL, INTENT_STAMP, INTENT_TRANSACTION, INTENT_UNUSED, KIND, OUTCOME_AMOUNT,
    OUTCOME_MOMENT, OUTCOME_NUMBER, OUTCOME_RECEIPT, OUTCOME_SLOT, OUTCOME_UNUSED, POI,
    RECEIPT_SIZE, SALE, SERVICE, SETTLED_CURRENCY, SETTLED_MOMENT, SETTLED_UNUSED, TRACE_SIZE,
};
use crate::{Intent, Outcome, Record, Settled};
use gw_bytes::{GREATEST_AMOUNT, GREATEST_RECEIPT, GREATEST_TRACE};

/// The record that spells this body, or the offset of the first field that no record spells.
///
/// The fields are looked at in the order of their offsets, so that the first fault is reported. A field's faults depend on the kind of the record,
/// and on whether it is a payment or approved.
pub fn from_body(body: &[u8; 255]) -> Result<Record, RecordFault>
    ensures { MatchResult result (λ the_record. IsRecord the_record × (body.now ≡ record_body the_record))
        (λ fault. IsFirstRecordFault (table_at body.now) body.now fault.at) }
{
    match body[KIND] {
        1 => Ok(Record::Intent(read_intent(body)?)),
        2 => Ok(Record::Outcome(read_outcome(body)?)),
        3 => Ok(Record::Settled(read_settled(body)?)),
        _ => Err(RecordFault { at: KIND }),
    }
}

/// The Intent of a body of that kind.
fn read_intent(body: &[u8; 255]) -> Result<Intent, RecordFault>
    requires { body_field body.now (field 0 1) ≡ 1 ∷ [] }
    ensures { MatchResult result (λ intent. IsIntent intent × Agree 13 (intent_fields intent) intent_table body.now)
        (λ fault. IsFirstRecordFault intent_table body.now fault.at) }
{
    let what = read_deal(body)?;
    let sale = read_text(body, SALE)?;
    let poi = read_text(body, POI)?;
    let service = read_text(body, SERVICE)?;
    let transaction = read_option(body, INTENT_TRANSACTION, what)?;
    let stamp = read_option(body, INTENT_STAMP, what)?;
    let amount = read_number(body, INTENT_AMOUNT, AMOUNT_SIZE, true, 1, GREATEST_AMOUNT)?;
    let currency = read_currency(body, INTENT_CURRENCY)?;
    let before = read_number(
        body,
        INTENT_BEFORE,
        TRACE_SIZE,
        true,
        0,
        GREATEST_TRACE as u64,
    )?;
    let original = read_original(body, INTENT_ORIGINAL, what)?;
    let moment = read_moment(body, INTENT_MOMENT)?;
    read_zeros(body, INTENT_UNUSED, BODY_SIZE - INTENT_UNUSED)?;
    Ok(Intent {
        what,
        sale,
        poi,
        service,
        transaction,
        stamp,
        amount,
        currency,
        before: before as u32,
        original,
        moment,
    })
}

/// The Outcome of a body of that kind.
fn read_outcome(body: &[u8; 255]) -> Result<Outcome, RecordFault>
    requires { body_field body.now (field 0 1) ≡ 2 ∷ [] }
    ensures { MatchResult result (λ outcome. IsOutcome outcome × Agree 9 (outcome_fields outcome) outcome_table body.now)
        (λ fault. IsFirstRecordFault outcome_table body.now fault.at) }
{
    let approved = read_approval(body)?;
    let slot = slot_at(body, OUTCOME_SLOT);
    let trace = read_number(
        body,
        OUTCOME_NUMBER,
        TRACE_SIZE,
        approved,
        1,
        GREATEST_TRACE as u64,
    )?;
    let receipt = read_number(
        body,
        OUTCOME_RECEIPT,
        RECEIPT_SIZE,
        approved,
        0,
        GREATEST_RECEIPT as u64,
    )?;
    let amount = read_number(
        body,
        OUTCOME_AMOUNT,
        AMOUNT_SIZE,
        approved,
        1,
        GREATEST_AMOUNT,
    )?;
    let condition = read_condition(body, approved)?;
    let moment = read_moment(body, OUTCOME_MOMENT)?;
    read_zeros(body, OUTCOME_UNUSED, BODY_SIZE - OUTCOME_UNUSED)?;
    Ok(Outcome {
        approved,
        slot,
        number: trace as u32,
        receipt: receipt as u16,
        amount,
        condition,
        moment,
    })
}

/// The Settled of a body of that kind.
fn read_settled(body: &[u8; 255]) -> Result<Settled, RecordFault>
    requires { body_field body.now (field 0 1) ≡ 3 ∷ [] }
    ensures { MatchResult result (λ settled. IsSettled settled × Agree 8 (settled_fields settled) settled_table body.now)
        (λ fault. IsFirstRecordFault settled_table body.now fault.at) }
{
    let how = read_how(body)?;
    let sale = read_text(body, SALE)?;
    let poi = read_text(body, POI)?;
    let service = read_text(body, SERVICE)?;
    let currency = read_currency(body, SETTLED_CURRENCY)?;
    let moment = read_moment(body, SETTLED_MOMENT)?;
    read_zeros(body, SETTLED_UNUSED, BODY_SIZE - SETTLED_UNUSED)?;
    Ok(Settled {
        how,
        sale,
        poi,
        service,
        currency,
        moment,
    })
}
