//! The messages of a terminal: each is acknowledged or refused, and then taken; and what waits for the terminal is begun once it is ready.
ghost use Rattle.std.specs.Prelude.{◌≡◌, ◌<◌, ◌≤◌, ◌++◌, ◌∷◌, [], ℕ, true, List, length, slice_get, Ok, IfOk, OnOk, OnErr};
ghost use Rattle.gw_base.specs.declared.setup.Setup.{Setup};
ghost use Rattle.zvt_apdu.specs.Grammar.{ApduValue, longest_apdu_data, value_of as apdu_value};
ghost use Rattle.zvt_msg.specs.Message.{value_of as message_value};
ghost use Rattle.zvt_msg.specs.MessageDecode.{decode_pt_message};
ghost use Rattle.gw_owes.specs.Events.{apdu_items};
ghost use Rattle.gw_owes.specs.Items.{RoundItem, Greet, Handle, NextWaiting};
ghost use Rattle.gw_rules.specs.Triple.{Triple};
ghost use Rattle.gw_core.specs.IsRow.{HasFewLines, next_items};
ghost use Rattle.gw_dispatch.specs.RunState.{IsWell, StaysInOrder, UnlessBroken};
ghost use Rattle.gw_dispatch.specs.Growth.{HasGoneOn, GoesOnBesideDisk, HasBroken};
ghost use Rattle.gw_dispatch.specs.MidRound.{AreHeard, HeldRound, MidRound, is_linked_in};
ghost use Rattle.jrn_record.specs.declared.records.Record.{Record};
ghost use Rattle.gw_owes.specs.Dialogues.{AllHaveDialogues};
ghost use Rattle.gw_dispatch.specs.Tills.{AllStillHold};

use crate::perform::{perform, reject};
use crate::run_state::RunState;
use crate::tills::Tills;
use gw_core::Core;
use gw_owes::{law_records, law_waits};
use gw_site::{Failed, Site};
use zvt_apdu::Apdu;
use zvt_msg::{PtMessage, law_read_fits, read_pt};

/// Acknowledges or refuses a message of a terminal. Where that isn't taken the terminal is cut.
fn greet<S: Site>(
    core: &mut Core,
    tills: &mut Tills,
    site: &mut S,
    pt: u16,
    message: &PtMessage<'_>,
    now: i64,
)
    requires there { pt < length core.old.terminals }
    requires dialogues { AllHaveDialogues core.old }
    ensures triple { (apdu : ApduValue) → decode_pt_message apdu ≡ Ok (message_value message.now) → (setup : Setup) (kept : List Record) (polls : ℕ) (heard : ℕ → List ℕ) (items : List RoundItem) → Triple (S.observed site.old) (S.observed site.new)
        (MidRound setup core.old kept tills.old.list.items polls now (AreHeard heard) [] (Greet pt apdu ∷ items))
        (MidRound setup core.new kept tills.new.list.items polls now (AreHeard heard) [] items) }
    ensures dialogues { AllHaveDialogues core.new }
    ensures order { StaysInOrder core.old core.new }
    ensures count { length core.new.terminals ≡ length core.old.terminals }
    ensures still { AllStillHold tills.old.list.items tills.new.list.items }
    ensures goes_on { GoesOnBesideDisk (S.observed site.old) (S.observed site.new) }
{
    let greeting = core.greet(pt, message);
    perform(core, tills, site, pt, &greeting, now);
}

/// Takes a message of a terminal that was acknowledged or refused: what it has to be kept is kept, and then its call is made.
fn handle<S: Site>(
    state: &mut RunState,
    tills: &mut Tills,
    site: &mut S,
    pt: u16,
    message: &PtMessage<'_>,
    now: i64,
) -> Result<(), Failed>
    requires there { pt < length state.old.core.terminals }
    requires well { IsWell state.old (S.observed site.old) }
    requires read { (apdu : ApduValue) × (decode_pt_message apdu ≡ Ok (message_value message.now)) }
    requires printed { HasFewLines (message_value message.now) }
    ensures triple { (apdu : ApduValue) → decode_pt_message apdu ≡ Ok (message_value message.now) → (setup : Setup) (polls : ℕ) (heard : ℕ → List ℕ) (items : List RoundItem) → Triple (S.observed site.old) (S.observed site.new)
        (HeldRound setup state.old tills.old.list.items polls now (AreHeard heard) [] (Handle pt apdu ∷ items))
        (UnlessBroken result (λ done. HeldRound setup state.new tills.new.list.items polls now (AreHeard heard) [] items)) }
    ensures well { OnOk result (IsWell state.new (S.observed site.new)) }
    ensures gateway { state.new.gateway ≡ state.old.gateway }
    ensures count { length state.new.core.terminals ≡ length state.old.core.terminals }
    ensures still { AllStillHold tills.old.list.items tills.new.list.items }
    ensures goes_on { HasGoneOn (S.observed site.old) (S.observed site.new) }
    ensures failed { OnErr result (HasBroken (S.observed site.old) (S.observed site.new)) }
{
    law_records();
    law_waits();
    let acts = state.core.on_pt(&state.records.ledger, pt, message, now);
    // The record first: what the call says is only true once it is kept.
    match state.records.keep_wanted(site, &acts.keep) {
        Ok(()) => {}
        Err(Failed) => return Err(Failed),
    }
    perform(&mut state.core, tills, site, pt, &acts.act, now);
    Ok(())
}

/// Looks at the request that has waited longest for a terminal, where that is ready: it is begun, or is refused by what has become of its
/// original or of the trace numbers. True where it was refused, and the next one is to be looked at.
fn look_at_next<S: Site>(
    state: &mut RunState,
    tills: &mut Tills,
    site: &mut S,
    pt: u16,
    now: i64,
) -> Result<bool, Failed>
    requires there { pt < length state.old.core.terminals }
    requires well { IsWell state.old (S.observed site.old) }
    ensures triple { (setup : Setup) (polls : ℕ) (heard : ℕ → List ℕ) (items : List RoundItem) → Triple (S.observed site.old) (S.observed site.new)
        (HeldRound setup state.old tills.old.list.items polls now (AreHeard heard) [] (NextWaiting pt ∷ items))
        (UnlessBroken result (λ more. HeldRound setup state.new tills.new.list.items polls now (AreHeard heard) [] (next_items pt more ++ items))) }
    ensures less { result ≡ Ok true → length state.new.core.waits < length state.old.core.waits }
    ensures well { OnOk result (IsWell state.new (S.observed site.new)) }
    ensures gateway { state.new.gateway ≡ state.old.gateway }
    ensures count { length state.new.core.terminals ≡ length state.old.core.terminals }
    ensures still { AllStillHold tills.old.list.items tills.new.list.items }
    ensures goes_on { HasGoneOn (S.observed site.old) (S.observed site.new) }
    ensures failed { OnErr result (HasBroken (S.observed site.old) (S.observed site.new)) }
{
    law_records();
    law_waits();
    let next = state.core.next(&state.records.ledger, pt, now);
    match state.records.keep_wanted(site, &next.0.keep) {
        Ok(()) => {}
        Err(Failed) => return Err(Failed),
    }
    perform(&mut state.core, tills, site, pt, &next.0.act, now);
    Ok(next.1)
}

/// Begins what has waited longest for a terminal that is ready, once those before it were refused that can't be begun any more.
fn begin_waiting<S: Site>(
    state: &mut RunState,
    tills: &mut Tills,
    site: &mut S,
    pt: u16,
    now: i64,
) -> Result<(), Failed>
    requires there { pt < length state.old.core.terminals }
    requires well { IsWell state.old (S.observed site.old) }
    ensures triple { (setup : Setup) (polls : ℕ) (heard : ℕ → List ℕ) (items : List RoundItem) → Triple (S.observed site.old) (S.observed site.new)
        (HeldRound setup state.old tills.old.list.items polls now (AreHeard heard) [] (NextWaiting pt ∷ items))
        (UnlessBroken result (λ done. HeldRound setup state.new tills.new.list.items polls now (AreHeard heard) [] items)) }
    ensures well { OnOk result (IsWell state.new (S.observed site.new)) }
    ensures gateway { state.new.gateway ≡ state.old.gateway }
    ensures count { length state.new.core.terminals ≡ length state.old.core.terminals }
    ensures still { AllStillHold tills.old.list.items tills.new.list.items }
    ensures goes_on { HasGoneOn (S.observed site.old) (S.observed site.new) }
    ensures failed { OnErr result (HasBroken (S.observed site.old) (S.observed site.new)) }
{
    loop {
        match look_at_next(state, tills, site, pt, now) {
            Ok(true) => {}
            Ok(false) => return Ok(()),
            Err(Failed) => return Err(Failed),
        }
    }
}

/// Handles an APDU of a terminal: it is acknowledged or refused, and then taken, after which what waits for the terminal may begin; one
/// outside the grammar cuts the terminal. False where the terminal isn't linked from there on.
pub(crate) fn on_apdu<S: Site>(
    state: &mut RunState,
    tills: &mut Tills,
    site: &mut S,
    pt: u16,
    apdu: &Apdu<'_>,
    now: i64,
) -> Result<bool, Failed>
    requires there { pt < length state.old.core.terminals }
    requires well { IsWell state.old (S.observed site.old) }
    requires within { length (apdu_value apdu.now).body ≤ longest_apdu_data }
    ensures triple { (setup : Setup) (polls : ℕ) (heard : ℕ → List ℕ) (items : List RoundItem) → Triple (S.observed site.old) (S.observed site.new)
        (HeldRound setup state.old tills.old.list.items polls now (AreHeard heard) [] (apdu_items pt (apdu_value apdu.now) ++ items))
        (UnlessBroken result (λ linked. HeldRound setup state.new tills.new.list.items polls now (AreHeard heard) [] items)) }
    ensures linked { IfOk result (λ linked. linked ≡ is_linked_in (slice_get state.new.core.terminals pt)) }
    ensures well { OnOk result (IsWell state.new (S.observed site.new)) }
    ensures gateway { state.new.gateway ≡ state.old.gateway }
    ensures count { length state.new.core.terminals ≡ length state.old.core.terminals }
    ensures still { AllStillHold tills.old.list.items tills.new.list.items }
    ensures goes_on { HasGoneOn (S.observed site.old) (S.observed site.new) }
    ensures failed { OnErr result (HasBroken (S.observed site.old) (S.observed site.new)) }
{
    law_read_fits();
    let message = match read_pt(apdu) {
        Ok(message) => message,
        Err(_) => {
            reject(&mut state.core, tills, site, pt, now);
            return Ok(false);
        }
    };
    greet(&mut state.core, tills, site, pt, &message, now);
    // Where the acknowledgement wasn't taken the terminal was cut, and nothing follows.
    match handle(state, tills, site, pt, &message, now) {
        Ok(()) => {}
        Err(Failed) => return Err(Failed),
    }
    match begin_waiting(state, tills, site, pt, now) {
        Ok(()) => Ok(state.core.is_linked(pt)),
        Err(Failed) => Err(Failed),
    }
}
