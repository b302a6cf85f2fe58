//! Writes that are synced.
ghost use Rattle.std.specs.Prelude.{◌≡◌, [], ◌∷◌, ◌++◌};
ghost use Rattle.gw_site.specs.Failures.{HasCause};
ghost use Rattle.gw_site.specs.Observed.{Grows, IfObserved};
ghost use Rattle.jrn_log.specs.JournalTurns.{AppendTurns};
ghost use Rattle.jrn_log.specs.JournalSteps.{Phase, ToSync, ToWrite, TakesSteps, RestsDark, reached, TakesAppend};
ghost use Rattle.jrn_log.specs.inner.FileReader.{WroteSyncedTurns};

use crate::layout::{BODY_SIZE, CLOSED, OPEN, SLOT_SIZE};
use gw_site::{Failed, Site};

/// Writes bytes at an offset, and syncs.
pub(crate) fn write_synced<S: Site>(site: &mut S, offset: u64, bytes: &[u8]) -> Result<(), Failed>
    ensures turns { Grows (S.observed site.old) (S.observed site.new) (WroteSyncedTurns offset bytes.now result) }
    ensures steps { (rest : Phase) → IfObserved (S.observed site.old) (λ before. TakesSteps (ToWrite offset bytes.now (ToSync rest)) (reached rest result) before (S.observed site.old) (S.observed site.new)) }
    ensures rests { RestsDark (S.observed site.old) (S.observed site.new) }
    ensures cause { HasCause (S.observed site.old).faults (S.observed site.new).faults result }
{
    match site.write_at(offset, bytes) {
        Ok(()) => site.sync(),
        Err(Failed) => Err(Failed),
    }
}

/// A body and the closed gate of the next slot.
fn body_and_gate(body: &[u8; 255]) -> [u8; 256]
    ensures { result ≡ body.now ++ 0 ∷ [] }
{
    let mut bytes = [CLOSED; SLOT_SIZE];
    bytes[..BODY_SIZE].copy_from_slice(body);
    bytes
}

/// Writes a body and the closed gate after it, and then opens its own gate.
///
/// There are two syncs. By the first the body is whole before its gate is written, so that no torn write is read as a
/// body; by the second the gate is there before the caller acts on the record. The next gate is closed in the first
/// write, since a torn write may leave any byte there and the file must never end at an open gate.
pub(crate) fn keep_body<S: Site>(site: &mut S, slot: u32, body: &[u8; 255]) -> Result<(), Failed>
    ensures turns { Grows (S.observed site.old) (S.observed site.new) (AppendTurns slot body.now result) }
    ensures steps { IfObserved (S.observed site.old) (λ before. TakesAppend slot body.now before (S.observed site.old) (S.observed site.new) result) }
    ensures rests { RestsDark (S.observed site.old) (S.observed site.new) }
    ensures cause { HasCause (S.observed site.old).faults (S.observed site.new).faults result }
{
    let offset = SLOT_SIZE as u64 * u64::from(slot);
    match write_synced(site, offset + 1, &body_and_gate(body)) {
        Ok(()) => write_synced(site, offset, &[OPEN]),
        Err(Failed) => Err(Failed),
    }
}
