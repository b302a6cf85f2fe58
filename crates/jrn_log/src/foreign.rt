//! Which file a journal can have left.
ghost use Rattle.std.specs.Prelude.{◌↔◌, IsTrue};
ghost use Rattle.jrn_log.specs.Example.{FailureIsJournalLog, LostGateIsForeign, TextIsForeign, TwoAreLeft};
ghost use Rattle.jrn_log.specs.Foreign.{AppendEndsClosed, AppendLeavesJournals, BeginningLeaves, CrashLeavesJournals, FailedAppendLeavesJournals, FailedOpeningLeavesJournals, FileIsJournals, FitsSlots, OpeningEndsClosed, OpeningLeavesJournals, OthersLeaveJournals, StableIsJournals};
ghost use Rattle.jrn_log.specs.JournalLogs.{JournalLogsAreOpen, JournalLogsLeaveJournals, OpeningRests};

use crate::layout::SLOT_SIZE;

/// Whether a file of so many bytes, of which so many slots are open and the gate after them is this byte (`00` past the
/// file's end), fits its open slots.
///
/// Whatever openings, appends and power failures leave fits ([`law_files`]); a file that fits may come from elsewhere.
pub fn can_be_journal(length: u64, slots: u32, gate: u8) -> bool
    ensures { IsTrue result ↔ FitsSlots length slots gate }
{
    let end = SLOT_SIZE as u64 * (u64::from(slots) + 1);
    length <= end + 1 && (length <= 1 || length > end || gate == 0)
}

/// Whatever openings, appends and power failures leave, [`can_be_journal`] holds of it: at each turn of an opening on such
/// a file and of an append, whatever bytes a torn write leaves, where the disk fails in it too, after a power failure, and
/// whatever happens between them on connections.
///
/// The steps compose: it holds after any log that they make one after the other, and where a journal is open after this
/// log, the log is at rest with its bodies.
pub fn law_files()
    ensures beginning { BeginningLeaves }
    ensures opening { OpeningLeavesJournals }
    ensures opened { OpeningEndsClosed }
    ensures append { AppendLeavesJournals }
    ensures appended { AppendEndsClosed }
    ensures failed_opening { FailedOpeningLeavesJournals }
    ensures failed_append { FailedAppendLeavesJournals }
    ensures crash { CrashLeavesJournals }
    ensures others { OthersLeaveJournals }
    ensures file { FileIsJournals }
    ensures stable { StableIsJournals }

    // The steps, one after the other.
    ensures opening_rests { OpeningRests }
    ensures logs { JournalLogsLeaveJournals }
    ensures is_open { JournalLogsAreOpen }
{}

/// Two appends leave a file that a journal can have left, and so does a log of two with a power failure in the second, after
/// which the journal opens with both; one whose first gate is lost, and a text, are no journal's.
pub fn law_file_examples()
    ensures two { TwoAreLeft }
    ensures failure { FailureIsJournalLog }
    ensures lost_gate { LostGateIsForeign }
    ensures text { TextIsForeign }
{}
