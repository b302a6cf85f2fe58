//! Where the fields of a body are: each size and each offset is here once, for writing and for reading.

/// The size of a body.
pub(crate) const BODY_SIZE: usize = 255;

/// A SaleID or a POIID: a length and 40 bytes.
pub(crate) const PARTY_SIZE: usize = 41;

/// A ServiceID: a length and 10 bytes.
pub(crate) const SERVICE_SIZE: usize = 11;

/// The till's transaction: a length and 80 bytes.
pub(crate) const TRANSACTION_SIZE: usize = 81;

/// The till's time of the transaction: a length and 35 bytes.
pub(crate) const STAMP_SIZE: usize = 36;

/// An amount in twelve digits.
pub(crate) const AMOUNT_SIZE: usize = 6;

/// A currency's number in four digits.
pub(crate) const CURRENCY_SIZE: usize = 2;

/// A trace number in six digits.
pub(crate) const TRACE_SIZE: usize = 3;

/// A receipt number in four digits.
pub(crate) const RECEIPT_SIZE: usize = 2;

/// A slot of the journal.
pub(crate) const SLOT_SIZE: usize = 4;

/// The reason of a refusal.
pub(crate) const CONDITION_SIZE: usize = 1;

/// A moment.
pub(crate) const MOMENT_SIZE: usize = 8;

/// The kind of the record.
pub(crate) const KIND: usize = 0;

/// What is asked, whether it is approved, or whose reconciliation it is.
pub(crate) const CHOICE: usize = 1;

// An Intent and a Settled begin with the key.

pub(crate) const SALE: usize = 2;

pub(crate) const POI: usize = SALE + PARTY_SIZE;

pub(crate) const SERVICE: usize = POI + PARTY_SIZE;

// The rest of an Intent.

pub(crate) const INTENT_TRANSACTION: usize = SERVICE + SERVICE_SIZE;

pub(crate) const INTENT_STAMP: usize = INTENT_TRANSACTION + TRANSACTION_SIZE;

pub(crate) const INTENT_AMOUNT: usize = INTENT_STAMP + STAMP_SIZE;

pub(crate) const INTENT_CURRENCY: usize = INTENT_AMOUNT + AMOUNT_SIZE;

pub(crate) const INTENT_BEFORE: usize = INTENT_CURRENCY + CURRENCY_SIZE;

pub(crate) const INTENT_ORIGINAL: usize = INTENT_BEFORE + TRACE_SIZE;

pub(crate) const INTENT_MOMENT: usize = INTENT_ORIGINAL + SLOT_SIZE;

pub(crate) const INTENT_UNUSED: usize = INTENT_MOMENT + MOMENT_SIZE;

// An Outcome.

pub(crate) const OUTCOME_SLOT: usize = 2;

pub(crate) const OUTCOME_NUMBER: usize = OUTCOME_SLOT + SLOT_SIZE;

pub(crate) const OUTCOME_RECEIPT: usize = OUTCOME_NUMBER + TRACE_SIZE;

pub(crate) const OUTCOME_AMOUNT: usize = OUTCOME_RECEIPT + RECEIPT_SIZE;

pub(crate) const OUTCOME_CONDITION: usize = OUTCOME_AMOUNT + AMOUNT_SIZE;

pub(crate) const OUTCOME_MOMENT: usize = OUTCOME_CONDITION + CONDITION_SIZE;

pub(crate) const OUTCOME_UNUSED: usize = OUTCOME_MOMENT + MOMENT_SIZE;

// The rest of a Settled.

pub(crate) const SETTLED_CURRENCY: usize = SERVICE + SERVICE_SIZE;

pub(crate) const SETTLED_MOMENT: usize = SETTLED_CURRENCY + CURRENCY_SIZE;

pub(crate) const SETTLED_UNUSED: usize = SETTLED_MOMENT + MOMENT_SIZE;
