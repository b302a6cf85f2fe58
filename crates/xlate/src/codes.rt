//! The error condition of a terminal's code.
ghost use Rattle.std.specs.Prelude.{◌≡◌, ◌≤◌};
ghost use Rattle.jrn_record.specs.Limits.{reason_code};
ghost use Rattle.xlate.specs.Codes.{condition_of_code};

use gw_base::Condition;

/// The condition of a code that declines: the error code of a refusal, or the result code of a status or an abort. `stop_sent`
/// says whether this dialogue sent a stop; what an enquiry reports is read with none.
pub fn condition_of(result_code: u8, stop_sent: bool) -> Condition
    ensures condition { result ≡ condition_of_code result_code stop_sent }
    ensures reason { 1 ≤ reason_code result }
{
    match result_code {
        0x6C => {
            if stop_sent {
                Condition::Aborted
            } else {
                Condition::Cancel
            }
        }
        0x78 => Condition::InvalidCard,
        0x83 => Condition::UnavailableService,
        0x6F | 0xB4 | 0xB5 => Condition::NotAllowed,
        0xDC => Condition::InsertedCard,
        _ => Condition::Refusal,
    }
}
