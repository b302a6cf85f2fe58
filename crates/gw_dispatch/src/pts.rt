//! The terminals of a run: a reader of APDUs for each, and what their connections bring.
ghost use Rattle.std.specs.Prelude.{◌≡◌, ◌<◌, ◌≤◌, ◌++◌, ◌∷◌, ℕ, true, length, List, [], IfOk, OnOk, OnErr, replicate};
ghost use Rattle.gw_base.specs.declared.key.Key.{Key};
ghost use Rattle.gw_base.specs.declared.setup.Setup.{Setup as TheSetup};
ghost use Rattle.jrn_record.specs.declared.records.Record.{Record};
ghost use Rattle.gw_owes.specs.Dialogues.{AllHaveDialogues};
ghost use Rattle.gw_owes.specs.Items.{RoundItem, Late, Due};
ghost use Rattle.gw_rules.specs.Triple.{Triple};
ghost use Rattle.gw_dispatch.specs.Apdus.{items_held, items_left, IsRest, LeavesApdus};
ghost use Rattle.gw_dispatch.specs.RunState.{IsWell, StaysInOrder, UnlessBroken};
ghost use Rattle.gw_dispatch.specs.Growth.{HasGoneOn, GoesOnBesideDisk, HasBroken};
ghost use Rattle.gw_dispatch.specs.MidRound.{AllHear, AreHeard, AreReady, BeforePtChunk, BeforePtClosed, HeldRound, MidRound, due_items, each_terminal};
ghost use Rattle.gw_dispatch.specs.Overdue.{AfterOverdue, MayBeOverdue, overdue_keys};
ghost use Rattle.gw_dispatch.specs.Tills.{AllStillHold};

use crate::messages::on_apdu;
use crate::perform::{link_due, on_late, on_oversized, send_owed};
use crate::run_state::RunState;
use crate::tills::Tills;
use gw_core::Core;
use gw_site::{Failed, Site};
use std::alloc::{AllocError, Global};
use zvt_apdu::ApduReader;

/// Handles the first APDU that a terminal's reader holds. False where it holds none, or the terminal isn't linked from there on:
/// what else it holds is dropped then.
fn take_apdu<S: Site>(
    state: &mut RunState,
    tills: &mut Tills,
    site: &mut S,
    pt: u16,
    reader: &mut ApduReader,
    now: i64,
) -> Result<bool, Failed>
    requires there { pt < length state.old.core.terminals }
    requires well { IsWell state.old (S.observed site.old) }
    ensures triple { (setup : TheSetup) (polls : ℕ) (heard : ℕ → List ℕ) (items : List RoundItem) → Triple (S.observed site.old) (S.observed site.new)
        (HeldRound setup state.old tills.old.list.items polls now (AreHeard heard) [] (items_held pt reader.old ++ items))
        (UnlessBroken result (λ more. HeldRound setup state.new tills.new.list.items polls now (AreHeard heard) [] (items_left more pt reader.new ++ items))) }
    ensures reader { IfOk result (λ more. LeavesApdus more state.new.core pt reader.old reader.new) }
    ensures well { OnOk result (IsWell state.new (S.observed site.new)) }
    ensures gateway { state.new.gateway ≡ state.old.gateway }
    ensures count { length state.new.core.terminals ≡ length state.old.core.terminals }
    ensures still { AllStillHold tills.old.list.items tills.new.list.items }
    ensures goes_on { HasGoneOn (S.observed site.old) (S.observed site.new) }
    ensures failed { OnErr result (HasBroken (S.observed site.old) (S.observed site.new)) }
{
    match reader.next() {
        Ok(None) => return Ok(false),
        Ok(Some(apdu)) => match on_apdu(state, tills, site, pt, &apdu, now) {
            Ok(true) => return Ok(true),
            Ok(false) => {}
            Err(Failed) => return Err(Failed),
        },
        Err(_) => on_oversized(&mut state.core, tills, site, pt, now),
    }
    // What a terminal has sent owes nothing once it isn't linked.
    reader.clear();
    Ok(false)
}

/// Handles the APDUs that a terminal's reader holds, until it holds less than one.
fn take_apdus<S: Site>(
    state: &mut RunState,
    tills: &mut Tills,
    site: &mut S,
    pt: u16,
    reader: &mut ApduReader,
    now: i64,
) -> Result<(), Failed>
    requires there { pt < length state.old.core.terminals }
    requires well { IsWell state.old (S.observed site.old) }
    ensures triple { (setup : TheSetup) (polls : ℕ) (heard : ℕ → List ℕ) (items : List RoundItem) → Triple (S.observed site.old) (S.observed site.new)
        (HeldRound setup state.old tills.old.list.items polls now (AreHeard heard) [] (items_held pt reader.old ++ items))
        (UnlessBroken result (λ done. HeldRound setup state.new tills.new.list.items polls now (AreHeard heard) [] items)) }
    ensures reader { OnOk result (IsRest state.new.core pt reader.old reader.new) }
    ensures well { OnOk result (IsWell state.new (S.observed site.new)) }
    ensures gateway { state.new.gateway ≡ state.old.gateway }
    ensures count { length state.new.core.terminals ≡ length state.old.core.terminals }
    ensures still { AllStillHold tills.old.list.items tills.new.list.items }
    ensures goes_on { HasGoneOn (S.observed site.old) (S.observed site.new) }
    ensures failed { OnErr result (HasBroken (S.observed site.old) (S.observed site.new)) }
{
    loop {
        match take_apdu(state, tills, site, pt, reader, now) {
            Ok(true) => {}
            Ok(false) => return Ok(()),
            Err(Failed) => return Err(Failed),
        }
    }
}

/// So many readers, with nothing in them. Each is empty as a link is made.
pub(crate) fn new_readers(alloc: Global, count: u16) -> Result<Vec<ApduReader>, AllocError>
    ensures { IfOk result (λ readers. readers.items ≡ replicate count []) }
{
    let mut readers = Vec::with_capacity(alloc, usize::from(count))?;
    for _ in 0..count {
        readers.push(ApduReader::new(alloc)?)?;
    }
    Ok(readers)
}

/// Handles the bytes that a terminal's connection has brought.
pub(crate) fn on_bytes<S: Site>(
    state: &mut RunState,
    tills: &mut Tills,
    readers: &mut Vec<ApduReader>,
    site: &mut S,
    pt: u16,
    bytes: &[u8],
    now: i64,
) -> Result<(), Failed>
    requires chunk { length bytes.now ≤ 4096 }
    requires there { pt < length state.old.core.terminals }
    requires well { IsWell state.old (S.observed site.old) }
    requires ready { AreReady state.old.core readers.old.items }
    ensures triple { (setup : TheSetup) (polls : ℕ) (items : List RoundItem) → Triple (S.observed site.old) (S.observed site.new)
        (BeforePtChunk setup state.old.core state.old.records.ledger.records readers.old.items tills.old.list.items polls now pt bytes.now items)
        (UnlessBroken result (λ done. HeldRound setup state.new tills.new.list.items polls now (AllHear readers.new.items) [] items)) }
    ensures ready { OnOk result (AreReady state.new.core readers.new.items) }
    ensures well { OnOk result (IsWell state.new (S.observed site.new)) }
    ensures gateway { state.new.gateway ≡ state.old.gateway }
    ensures count { length state.new.core.terminals ≡ length state.old.core.terminals }
    ensures still { AllStillHold tills.old.list.items tills.new.list.items }
    ensures goes_on { HasGoneOn (S.observed site.old) (S.observed site.new) }
    ensures failed { OnErr result (HasBroken (S.observed site.old) (S.observed site.new)) }
{
    let reader = &mut readers[usize::from(pt)];
    reader.feed(bytes);
    take_apdus(state, tills, site, pt, reader, now)
}

/// Handles the end of a terminal's connection.
pub(crate) fn on_closed<S: Site>(
    core: &mut Core,
    tills: &mut Tills,
    readers: &[ApduReader],
    site: &mut S,
    pt: u16,
    now: i64,
)
    requires there { pt < length core.old.terminals }
    requires ready { AreReady core.old readers.now }
    ensures triple { (setup : TheSetup) (kept : List Record) (polls : ℕ) (items : List RoundItem) → Triple (S.observed site.old) (S.observed site.new)
        (BeforePtClosed setup core.old kept readers.now tills.old.list.items polls now pt items)
        (MidRound setup core.new kept tills.new.list.items polls now (AllHear readers.now) [] items) }
    ensures ready { AreReady core.new readers.now }
    ensures order { StaysInOrder core.old core.new }
    ensures count { length core.new.terminals ≡ length core.old.terminals }
    ensures still { AllStillHold tills.old.list.items tills.new.list.items }
    ensures goes_on { GoesOnBesideDisk (S.observed site.old) (S.observed site.new) }
{
    let owed = core.on_link(pt, false, now);
    send_owed(core, tills, site, &owed);
}

/// Cuts the terminals that have been silent for too long.
fn cut_late<S: Site>(
    core: &mut Core,
    tills: &mut Tills,
    readers: &[ApduReader],
    site: &mut S,
    now: i64,
)
    requires ready { AreReady core.old readers.now }
    ensures triple { (setup : TheSetup) (kept : List Record) (polls : ℕ) (items : List RoundItem) → Triple (S.observed site.old) (S.observed site.new)
        (MidRound setup core.old kept tills.old.list.items polls now (AllHear readers.now) [] (each_terminal 0 (length core.old.terminals) Late ++ items))
        (MidRound setup core.new kept tills.new.list.items polls now (AllHear readers.now) [] items) }
    ensures ready { AreReady core.new readers.now }
    ensures order { StaysInOrder core.old core.new }
    ensures count { length core.new.terminals ≡ length core.old.terminals }
    ensures still { AllStillHold tills.old.list.items tills.new.list.items }
    ensures goes_on { GoesOnBesideDisk (S.observed site.old) (S.observed site.new) }
{
    for pt in 0..core.count() {
        on_late(core, tills, site, pt, now);
    }
}

/// Links a terminal that isn't linked and is due. Its new link begins with an empty reader.
fn link_if_due<S: Site>(
    core: &mut Core,
    tills: &mut Tills,
    readers: &mut [ApduReader],
    site: &mut S,
    pt: u16,
    now: i64,
)
    requires there { pt < length core.old.terminals }
    requires ready { AreReady core.old readers.old }
    ensures triple { (setup : TheSetup) (kept : List Record) (polls : ℕ) (items : List RoundItem) → Triple (S.observed site.old) (S.observed site.new)
        (MidRound setup core.old kept tills.old.list.items polls now (AllHear readers.old) [] (Due pt ∷ items))
        (MidRound setup core.new kept tills.new.list.items polls now (AllHear readers.new) [] items) }
    ensures ready { AreReady core.new readers.new }
    ensures order { StaysInOrder core.old core.new }
    ensures count { length core.new.terminals ≡ length core.old.terminals }
    ensures still { AllStillHold tills.old.list.items tills.new.list.items }
    ensures goes_on { GoesOnBesideDisk (S.observed site.old) (S.observed site.new) }
{
    if core.is_linked(pt) {
        return;
    }
    readers[usize::from(pt)].clear();
    link_due(core, tills, site, pt, now);
}

/// Links the terminals that are due.
fn link_all_due<S: Site>(
    core: &mut Core,
    tills: &mut Tills,
    readers: &mut [ApduReader],
    site: &mut S,
    now: i64,
)
    requires ready { AreReady core.old readers.old }
    ensures triple { (setup : TheSetup) (kept : List Record) (polls : ℕ) (items : List RoundItem) → Triple (S.observed site.old) (S.observed site.new)
        (MidRound setup core.old kept tills.old.list.items polls now (AllHear readers.old) [] (each_terminal 0 (length core.old.terminals) Due ++ items))
        (MidRound setup core.new kept tills.new.list.items polls now (AllHear readers.new) [] items) }
    ensures ready { AreReady core.new readers.new }
    ensures order { StaysInOrder core.old core.new }
    ensures count { length core.new.terminals ≡ length core.old.terminals }
    ensures still { AllStillHold tills.old.list.items tills.new.list.items }
    ensures goes_on { GoesOnBesideDisk (S.observed site.old) (S.observed site.new) }
{
    for pt in 0..core.count() {
        link_if_due(core, tills, readers, site, pt, now);
    }
}

/// Refuses the first of the requests, by their deadlines, that have waited for too long: it waits no longer, and its till gets the Failure.
/// False where there is none.
fn refuse_overdue<S: Site>(core: &mut Core, tills: &mut Tills, site: &mut S, now: i64) -> bool
    ensures triple { (setup : TheSetup) (kept : List Record) (polls : ℕ) (heard : ℕ → List ℕ) (items : List RoundItem) → overdue_keys items ≡ [] → Triple (S.observed site.old) (S.observed site.new)
        (MayBeOverdue setup core.old kept tills.old.list.items polls now (AreHeard heard) items)
        (AfterOverdue result setup core.new kept tills.new.list.items polls now (AreHeard heard) items) }
    ensures less { result ≡ true → length core.new.waits < length core.old.waits }
    ensures dialogues { AllHaveDialogues core.old → AllHaveDialogues core.new }
    ensures order { StaysInOrder core.old core.new }
    ensures count { length core.new.terminals ≡ length core.old.terminals }
    ensures still { AllStillHold tills.old.list.items tills.new.list.items }
    ensures goes_on { GoesOnBesideDisk (S.observed site.old) (S.observed site.new) }
{
    let owed = core.overdue(now);
    let refused = owed.is_some();
    send_owed(core, tills, site, &owed);
    refused
}

/// Refuses the requests that have waited for too long.
fn refuse_all_overdue<S: Site>(
    core: &mut Core,
    tills: &mut Tills,
    readers: &[ApduReader],
    site: &mut S,
    now: i64,
)
    requires ready { AreReady core.old readers.now }
    ensures triple { (setup : TheSetup) (kept : List Record) (polls : ℕ) (items : List RoundItem) → overdue_keys items ≡ [] → Triple (S.observed site.old) (S.observed site.new)
        (MayBeOverdue setup core.old kept tills.old.list.items polls now (AllHear readers.now) items)
        (MidRound setup core.new kept tills.new.list.items polls now (AllHear readers.now) [] items) }
    ensures ready { AreReady core.new readers.now }
    ensures order { StaysInOrder core.old core.new }
    ensures count { length core.new.terminals ≡ length core.old.terminals }
    ensures still { AllStillHold tills.old.list.items tills.new.list.items }
    ensures goes_on { GoesOnBesideDisk (S.observed site.old) (S.observed site.new) }
{
    while refuse_overdue(core, tills, site, now) {}
}

/// Handles what may be due: first the terminals' silences, then the requests that have waited for too long, then the terminals' links.
pub(crate) fn on_due<S: Site>(
    core: &mut Core,
    tills: &mut Tills,
    readers: &mut [ApduReader],
    site: &mut S,
    now: i64,
)
    requires ready { AreReady core.old readers.old }
    ensures triple { (setup : TheSetup) (kept : List Record) (polls : ℕ) (keys : List Key) → Triple (S.observed site.old) (S.observed site.new)
        (MidRound setup core.old kept tills.old.list.items polls now (AllHear readers.old) [] (due_items (length core.old.terminals) keys))
        (MidRound setup core.new kept tills.new.list.items polls now (AllHear readers.new) [] []) }
    ensures ready { AreReady core.new readers.new }
    ensures order { StaysInOrder core.old core.new }
    ensures count { length core.new.terminals ≡ length core.old.terminals }
    ensures still { AllStillHold tills.old.list.items tills.new.list.items }
    ensures goes_on { GoesOnBesideDisk (S.observed site.old) (S.observed site.new) }
{
    cut_late(core, tills, readers, site, now);
    refuse_all_overdue(core, tills, readers, site, now);
    link_all_due(core, tills, readers, site, now);
}
