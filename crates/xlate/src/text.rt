//! The text that names an entry.
ghost use Rattle.std.specs.Prelude.{◌≡◌, Some};
ghost use Rattle.gw_ledger.specs.Transaction.{text_of};
ghost use Rattle.xlate.specs.Finished.{IsResolved};

use arrayvec::ArrayVec;
use gw_ledger::Entry;

/// The text that names a resolved entry: its trace number in six digits, its receipt number in four, and its slot; the
/// numbers of a declined entry are zeros.
pub fn transaction_text(entry: &Entry) -> ArrayVec<u8, 24>
    requires { IsResolved entry.now }
    ensures { text_of entry.now ≡ Some result.items }
{
    match &entry.result {
        Some(outcome) => gw_base::transaction_text(outcome.number, outcome.receipt, entry.slot),
        None => unreachable!(),
    }
}
