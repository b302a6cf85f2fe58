//! The messages to a till, as values.
ghost use Rattle.std.specs.Prelude.{◌≡◌};

use crate::outputs::OutputResults;
use gw_base::{Condition, Currency, Ident, Money};
use json_text::JsonFault;
use sale_values::{Header, Period};

/// nexo's `POITransactionID`: the numbers that the terminal reported, the slot of the record of the
/// intent, and the moment of the outcome.
#[derive(Clone, Copy, Debug, PartialEq, Eq)]
pub struct PoiMark {
    /// The trace number, of six digits.
    pub number: u32,
    /// The receipt number, of four digits.
    pub receipt: u16,
    pub slot: u32,
    pub moment: i64,
}

/// A result: Success without a condition, else Failure. The path is that of the member at fault.
#[derive(Clone, Copy, PartialEq, Eq)]
pub struct Verdict {
    pub condition: Option<Condition>,
    pub path: Option<Ident<100>>,
}

/// The result body of a finished payment, reversal or reconciliation.
#[derive(Clone, Copy, PartialEq, Eq)]
pub enum Told {
    PaymentApproved {
        transaction: Ident<80>,
        stamp: Ident<35>,
        mark: PoiMark,
        /// What was asked for, in minor units.
        requested: u64,
        paid: Money,
    },
    PaymentDeclined {
        transaction: Ident<80>,
        stamp: Ident<35>,
        mark: PoiMark,
        condition: Condition,
    },
    ReversalApproved {
        mark: PoiMark,
        reversed: Money,
    },
    ReversalDeclined {
        mark: PoiMark,
        condition: Condition,
    },
    /// The totals of a period: how many, and their sum in minor units.
    Reconciled {
        period: Period,
        currency: Currency,
        debit: (u32, u64),
        reversed: (u32, u64),
    },
}

/// nexo's `Result`.
#[derive(Clone, Copy, Debug, PartialEq, Eq)]
pub enum ReplyResult {
    Success,
    Partial,
    Failure,
}

impl ReplyResult {
    ghost use Rattle.std.specs.Prelude.{◌≢◌, MatchOption};
    ghost use Rattle.sale_reply.specs.declared.reply.ReplyResult.{ReplyResult};
    ghost use Rattle.sale_reply.specs.Names.{result_name};

    /// The results, in the order of their declaration.
    pub const ALL: [ReplyResult; 3] = [
        ReplyResult::Success,
        ReplyResult::Partial,
        ReplyResult::Failure,
    ];

    /// The text of a response object's `Result`.
    pub fn name(self) -> &'static str
        ensures { result.now ≡ result_name self }
    {
        match self {
            ReplyResult::Success => "Success",
            ReplyResult::Partial => "Partial",
            ReplyResult::Failure => "Failure",
        }
    }

    /// The result of this name; `None` where there is none.
    pub fn from_name(name: &[u8]) -> Option<ReplyResult>
        ensures { MatchOption result ((r : ReplyResult) → result_name r ≢ name.now) (λ r. result_name r ≡ name.now) }
    {
        for outcome in ReplyResult::ALL {
            if outcome.name().as_bytes() == name {
                return Some(outcome);
            }
        }
        None
    }
}

/// The result of one output of a display.
#[derive(Clone, Copy, PartialEq, Eq)]
pub struct Shown {
    pub device: Ident<40>,
    pub qualify: Ident<40>,
    pub verdict: Verdict,
}

/// Whether a terminal can be used.
#[derive(Clone, Copy, Debug, PartialEq, Eq)]
pub enum GlobalStatus {
    /// Written `OK`.
    Ready,
    Busy,
    Maintenance,
    Unreachable,
}

impl GlobalStatus {
    ghost use Rattle.sale_reply.specs.Names.{status_name};

    /// The text of `GlobalStatus` in the reply to a Diagnosis.
    pub(crate) fn name(self) -> &'static str
        ensures { result.now ≡ status_name self }
    {
        match self {
            GlobalStatus::Ready => "OK",
            GlobalStatus::Busy => "Busy",
            GlobalStatus::Maintenance => "Maintenance",
            GlobalStatus::Unreachable => "Unreachable",
        }
    }
}

/// Why a message was rejected.
#[derive(Clone, Copy, PartialEq, Eq)]
pub enum Detail {
    Json(JsonFault),
    /// The path of the member of the header that is absent or of another form.
    Header(Ident<100>),
    /// The path of the member of an Abort's body that is absent or of another form.
    Body(Ident<100>),
    /// An Abort of a request that is neither open nor waiting.
    Abort,
}

/// A message to a till. Each header is the one that is written.
#[derive(Drop)]
pub enum SaleReply<'a> {
    Plain {
        header: Header,
        verdict: Verdict,
    },
    Told {
        header: Header,
        told: Told,
    },
    /// A result body that was sent before, repeated with the header that it had.
    Status {
        header: Header,
        repeated: Header,
        told: Told,
    },
    Diagnosis {
        header: Header,
        status: GlobalStatus,
    },
    Display {
        header: Header,
        outputs: OutputResults,
    },
    Print {
        header: Header,
        qualifier: Ident<40>,
        verdict: Verdict,
    },
    /// Shows a cashier what the terminal does, by the code of its intermediate status.
    DisplayRequest {
        header: Header,
        code: u8,
    },
    /// Prints what the terminal sent, each line in the bytes of a terminal's text.
    PrintRequest {
        header: Header,
        lines: &'a [&'a [u8]],
    },
    /// The event that a message was rejected.
    Reject {
        sale: Ident<40>,
        poi: Ident<40>,
        moment: i64,
        detail: Detail,
    },
}
