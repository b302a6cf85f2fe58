//! The command that asks a terminal for what an Intent says.
ghost use Rattle.std.specs.Prelude.{◌≡◌};
ghost use Rattle.std.specs.Option.{option_copied};
ghost use Rattle.xlate.specs.Ask.{HasItsOriginal, ask, receipt_of};

use gw_base::Pt;
use gw_ledger::Entry;
use jrn_record::{Deal, Intent};
use zvt_msg::Command;

/// The command for an Intent at a terminal with this setup: a payment is an authorisation, and a reversal one of the
/// receipt of its original, which is approved.
pub fn command_of(intent: &Intent, original: Option<&Entry>, pt: &Pt) -> Command
    requires { HasItsOriginal intent.now.what intent.now.original (option_copied original) }
    ensures { result ≡ ask intent.now (option_copied original.entry) pt.now }
{
    match intent.what {
        Deal::Payment => Command::Authorise {
            amount: intent.amount,
            currency: intent.currency.number(),
        },
        Deal::Reversal => Command::Reverse {
            password: pt.password,
            receipt: receipt_of(original),
        },
    }
}

/// The receipt number of an original; 0 where there is none.
fn receipt_of(original: Option<&Entry>) -> u16
    ensures { result ≡ receipt_of (option_copied original.entry) }
{
    match original {
        None => 0,
        Some(entry) => match &entry.result {
            None => 0,
            Some(outcome) => outcome.receipt,
        },
    }
}
