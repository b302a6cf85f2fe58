//! What the statuses of a dialogue have said.
ghost use Rattle.std.specs.Prelude.{◌≡◌};
ghost use Rattle.zvt_talk.specs.Table.{declined, declined_unless, full_figures};
ghost use Rattle.zvt_talk.specs.TalkSteps.{no_statuses, with_fields};

use crate::Heard;
use gw_base::Figures;
use zvt_bmp::Fields;

/// The statuses heard so far.
#[derive(Clone, Copy, PartialEq, Eq)]
pub(crate) struct Statuses {
    pub(crate) last: Option<Fields>,
    /// One of them had the result 00.
    pub(crate) approved: bool,
}

impl Statuses {
    pub(crate) fn none() -> Statuses
        ensures { result ≡ no_statuses }
    {
        Statuses {
            last: None,
            approved: false,
        }
    }

    pub(crate) fn with(self, status: Fields) -> Statuses
        ensures { result ≡ with_fields self status }
    {
        Statuses {
            last: Some(status),
            approved: self.approved || status.result == Some(0),
        }
    }

    /// Declined with this result code, and with the trace number of the last status.
    pub(crate) fn declined(self, result_code: u8) -> Heard
        ensures { result ≡ declined self result_code }
    {
        Heard::Declined {
            code: result_code,
            number: self.last.and_then(|status| status.trace),
        }
    }

    /// Declined with this result code, for a payment or a reversal. Once a status said that it is approved, a later code may
    /// contradict it, and so it is unclear: what was approved is never reported as declined.
    pub(crate) fn declined_unless_approved(self, result_code: u8) -> Heard
        ensures { result ≡ declined_unless self.approved self result_code }
    {
        if self.approved {
            Heard::Unclear
        } else {
            self.declined(result_code)
        }
    }
}

/// A trace number of at least 1, a receipt number and an amount of at least 1, where the status has them.
pub(crate) fn full_figures(status: &Fields) -> Option<Figures>
    ensures { result ≡ full_figures status.now }
{
    let trace = status.trace?;
    let receipt = status.receipt?;
    let amount = status.amount?;
    if trace == 0 || amount == 0 {
        return None;
    }
    Some(Figures {
        number: trace,
        receipt,
        amount,
    })
}
