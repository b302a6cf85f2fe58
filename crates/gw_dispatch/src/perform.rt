//! What each item of a terminal wants done, and the calls that it makes.
ghost use Rattle.std.specs.Prelude.{◌≡◌, ◌<◌, ◌≤◌, ℕ, ℤ, true, false, length, List, [], ◌∷◌, IfSome, slice_get};
ghost use Rattle.gw_base.specs.declared.setup.Setup.{Setup};
ghost use Rattle.jrn_record.specs.declared.records.Record.{Record};
ghost use Rattle.zvt_msg.specs.CommandGrammar.{HasCommandDigits};
ghost use Rattle.zvt_msg.specs.Message.{value_of as message_value};
ghost use Rattle.zvt_msg.specs.MessageCanonical.{HasPtMessageForm, canonical_pt_message};
ghost use Rattle.gw_owes.specs.Calls.{Ask, CutPt, LinkPt, OwedCall, SendPt, Sending, sending_bytes};
ghost use Rattle.gw_owes.specs.Days.{days_served};
ghost use Rattle.gw_owes.specs.Dialogues.{AllHaveDialogues, OthersHaveDialogues};
ghost use Rattle.gw_owes.specs.Items.{RoundItem, Due, Late, Oversized};
ghost use Rattle.gw_owes.specs.RecordLaws.{AreTerminalsInOrder, AreOthersInOrder};
ghost use Rattle.gw_owes.specs.TerminalLaws.{owes_cut, settings_of};
ghost use Rattle.gw_core.specs.IsRow.{AreCallsWith, IsWantedAt, IsWritable};
ghost use Rattle.gw_rules.specs.Triple.{Triple};
ghost use Rattle.gw_dispatch.specs.RunState.{ForgetsAny, OthersStayInOrder, StaysInOrder, WaitsStay};
ghost use Rattle.gw_dispatch.specs.Growth.{GoesOnBesideDisk};
ghost use Rattle.gw_dispatch.specs.MidRound.{AreHeard, MidRound, is_linked_in};
ghost use Rattle.gw_dispatch.specs.Tills.{AllStillHold};
ghost use Rattle.gw_dispatch.specs.Wanted.{IsOutside, calls_wanted, is_none_or_reply, owes_link};

use crate::printing::print;
use crate::tills::{Tills, deliver};
use arrayvec::ArrayVec;
use gw_core::{Act, Core, Timer};
use gw_site::Site;
use zvt_msg::{Command, PtMessage, write_command, write_pt};

/// The code of the Nack with which a command of a terminal's own is refused: it is unknown.
const UNKNOWN: u8 = 0x83;

/// Sends a till the reply or the device request that is owed, where there is one. Nothing else is.
pub(crate) fn send_owed<S: Site>(
    core: &mut Core,
    tills: &mut Tills,
    site: &mut S,
    owed: &Option<Act<'_>>,
)
    requires replies { is_none_or_reply owed.now ≡ true }
    requires writable { IfSome owed.now IsWritable }
    ensures triple { (calls : List OwedCall) → AreCallsWith [] owed.now calls → (setup : Setup) (kept : List Record) (polls : ℕ) (now : ℤ) (heard : ℕ → List ℕ) (items : List RoundItem) → Triple (S.observed site.old) (S.observed site.new)
        (MidRound setup core.old kept tills.old.list.items polls now (AreHeard heard) calls items)
        (MidRound setup core.new kept tills.new.list.items polls now (AreHeard heard) [] items) }
    ensures core { ForgetsAny core.old core.new }
    ensures still { AllStillHold tills.old.list.items tills.new.list.items }
    ensures goes_on { GoesOnBesideDisk (S.observed site.old) (S.observed site.new) }
{
    match owed {
        None => {}
        Some(owed) => match owed {
            Act::SendTill(till, reply) => deliver(core, tills, site, *till, reply),
            Act::Print(till, header, printed) => print(core, tills, site, *till, header, *printed),
            _ => unreachable!(),
        },
    }
}

/// Cuts a terminal, with which its link is lost: the till of what it serves is sent the reply that is owed then.
fn cut<S: Site>(core: &mut Core, tills: &mut Tills, site: &mut S, pt: u16, now: i64)
    requires there { pt < length core.old.terminals }
    requires others { OthersHaveDialogues pt core.old }
    ensures triple { (setup : Setup) (kept : List Record) (polls : ℕ) (heard : ℕ → List ℕ) (items : List RoundItem) → Triple (S.observed site.old) (S.observed site.new)
        (MidRound setup core.old kept tills.old.list.items polls now (AreHeard heard) (CutPt pt ∷ []) items)
        (MidRound setup core.new kept tills.new.list.items polls now (AreHeard heard) [] items) }
    ensures unlinked { is_linked_in (slice_get core.new.terminals pt) ≡ false }
    ensures dialogues { AllHaveDialogues core.new }
    ensures order { OthersStayInOrder pt core.old core.new }
    ensures count { length core.new.terminals ≡ length core.old.terminals }
    ensures still { AllStillHold tills.old.list.items tills.new.list.items }
    ensures goes_on { GoesOnBesideDisk (S.observed site.old) (S.observed site.new) }
{
    site.cut_pt(pt);
    let owed = core.on_link(pt, false, now);
    send_owed(core, tills, site, &owed);
}

/// Sends bytes to a terminal, and cuts it where that fails.
fn send<S: Site>(core: &mut Core, tills: &mut Tills, site: &mut S, pt: u16, bytes: &[u8], now: i64)
    requires there { pt < length core.old.terminals }
    requires dialogues { AllHaveDialogues core.old }
    ensures triple { (sending : Sending) → bytes.now ≡ sending_bytes sending → (setup : Setup) (kept : List Record) (polls : ℕ) (heard : ℕ → List ℕ) (items : List RoundItem) → Triple (S.observed site.old) (S.observed site.new)
        (MidRound setup core.old kept tills.old.list.items polls now (AreHeard heard) (SendPt pt sending ∷ []) items)
        (MidRound setup core.new kept tills.new.list.items polls now (AreHeard heard) [] items) }
    ensures linked { is_linked_in (slice_get core.new.terminals pt) ≡ true → is_linked_in (slice_get core.old.terminals pt) ≡ true }
    ensures dialogues { AllHaveDialogues core.new }
    ensures order { StaysInOrder core.old core.new }
    ensures count { length core.new.terminals ≡ length core.old.terminals }
    ensures still { AllStillHold tills.old.list.items tills.new.list.items }
    ensures goes_on { GoesOnBesideDisk (S.observed site.old) (S.observed site.new) }
{
    let sent = site.send_pt(pt, bytes).is_ok();
    if !sent {
        cut(core, tills, site, pt, now);
    }
}

/// Sends a command to a terminal, and cuts it where that fails.
fn ask<S: Site>(
    core: &mut Core,
    tills: &mut Tills,
    site: &mut S,
    pt: u16,
    command: &Command,
    now: i64,
)
    requires there { pt < length core.old.terminals }
    requires dialogues { AllHaveDialogues core.old }
    requires digits { HasCommandDigits command.now }
    ensures triple { (setup : Setup) (kept : List Record) (polls : ℕ) (heard : ℕ → List ℕ) (items : List RoundItem) → Triple (S.observed site.old) (S.observed site.new)
        (MidRound setup core.old kept tills.old.list.items polls now (AreHeard heard) (SendPt pt (Ask command.now) ∷ []) items)
        (MidRound setup core.new kept tills.new.list.items polls now (AreHeard heard) [] items) }
    ensures linked { is_linked_in (slice_get core.new.terminals pt) ≡ true → is_linked_in (slice_get core.old.terminals pt) ≡ true }
    ensures dialogues { AllHaveDialogues core.new }
    ensures order { StaysInOrder core.old core.new }
    ensures count { length core.new.terminals ≡ length core.old.terminals }
    ensures still { AllStillHold tills.old.list.items tills.new.list.items }
    ensures goes_on { GoesOnBesideDisk (S.observed site.old) (S.observed site.new) }
{
    let mut out = ArrayVec::new();
    write_command(command, &mut out);
    send(core, tills, site, pt, out.as_slice(), now);
}

/// Sends a terminal the acknowledgement or refusal of its message, and cuts it where that fails.
fn acknowledge<S: Site>(
    core: &mut Core,
    tills: &mut Tills,
    site: &mut S,
    pt: u16,
    message: &PtMessage<'_>,
    now: i64,
)
    requires there { pt < length core.old.terminals }
    requires dialogues { AllHaveDialogues core.old }
    requires form { HasPtMessageForm (message_value message.now) }
    requires fits { length (canonical_pt_message (message_value message.now)) ≤ 512 }
    ensures triple { (sending : Sending) → canonical_pt_message (message_value message.now) ≡ sending_bytes sending → (setup : Setup) (kept : List Record) (polls : ℕ) (heard : ℕ → List ℕ) (items : List RoundItem) → Triple (S.observed site.old) (S.observed site.new)
        (MidRound setup core.old kept tills.old.list.items polls now (AreHeard heard) (SendPt pt sending ∷ []) items)
        (MidRound setup core.new kept tills.new.list.items polls now (AreHeard heard) [] items) }
    ensures linked { is_linked_in (slice_get core.new.terminals pt) ≡ true → is_linked_in (slice_get core.old.terminals pt) ≡ true }
    ensures dialogues { AllHaveDialogues core.new }
    ensures order { StaysInOrder core.old core.new }
    ensures count { length core.new.terminals ≡ length core.old.terminals }
    ensures still { AllStillHold tills.old.list.items tills.new.list.items }
    ensures goes_on { GoesOnBesideDisk (S.observed site.old) (S.observed site.new) }
{
    let mut out = ArrayVec::new();
    write_pt(message, &mut out);
    send(core, tills, site, pt, out.as_slice(), now);
}

/// Makes the call that is wanted of a terminal or of a till, where there is one. It links no terminal.
pub(crate) fn perform<S: Site>(
    core: &mut Core,
    tills: &mut Tills,
    site: &mut S,
    pt: u16,
    wanted: &Option<Act<'_>>,
    now: i64,
)
    requires there { pt < length core.old.terminals }
    requires wanted { IfSome wanted.now (IsWantedAt pt) }
    requires no_link { owes_link (calls_wanted wanted.now) ≡ false }
    requires others { OthersHaveDialogues pt core.old }
    requires dialogues { owes_cut (calls_wanted wanted.now) ≡ false → AllHaveDialogues core.old }
    ensures triple { (calls : List OwedCall) → AreCallsWith [] wanted.now calls → (setup : Setup) (kept : List Record) (polls : ℕ) (heard : ℕ → List ℕ) (items : List RoundItem) → Triple (S.observed site.old) (S.observed site.new)
        (MidRound setup core.old kept tills.old.list.items polls now (AreHeard heard) calls items)
        (MidRound setup core.new kept tills.new.list.items polls now (AreHeard heard) [] items) }
    ensures linked { is_linked_in (slice_get core.new.terminals pt) ≡ true → is_linked_in (slice_get core.old.terminals pt) ≡ true }
    ensures dialogues { AllHaveDialogues core.new }
    ensures settings { settings_of core.new ≡ settings_of core.old }
    ensures days { days_served core.new.terminals ≤ days_served core.old.terminals }
    ensures waits { WaitsStay core.old core.new }
    ensures device_requests { core.new.device_requests ≡ core.old.device_requests }
    ensures order { (kept : List Record) → AreOthersInOrder pt kept core.old → (owes_cut (calls_wanted wanted.now) ≡ false → AreTerminalsInOrder kept core.old) → AreTerminalsInOrder kept core.new }
    ensures count { length core.new.terminals ≡ length core.old.terminals }
    ensures still { AllStillHold tills.old.list.items tills.new.list.items }
    ensures goes_on { GoesOnBesideDisk (S.observed site.old) (S.observed site.new) }
{
    match wanted {
        None => {}
        Some(act) => match act {
            Act::SendPt(_, command) => ask(core, tills, site, pt, command, now),
            Act::Ack(_) => acknowledge(core, tills, site, pt, &PtMessage::Ack, now),
            Act::Refuse(_) => acknowledge(core, tills, site, pt, &PtMessage::Nack(UNKNOWN), now),
            Act::CutPt(_) => cut(core, tills, site, pt, now),
            Act::Link(_) => unreachable!(),
            Act::SendTill(_, _) | Act::Print(_, _, _) => send_owed(core, tills, site, wanted),
        },
    }
}

/// Links a terminal that isn't linked, and registers it where that is done.
fn link<S: Site>(core: &mut Core, tills: &mut Tills, site: &mut S, pt: u16, now: i64)
    requires there { pt < length core.old.terminals }
    requires dialogues { AllHaveDialogues core.old }
    requires unlinked { is_linked_in (slice_get core.old.terminals pt) ≡ false }
    ensures triple { (setup : Setup) (kept : List Record) (polls : ℕ) (heard : ℕ → List ℕ) (items : List RoundItem) → heard pt ≡ [] → Triple (S.observed site.old) (S.observed site.new)
        (MidRound setup core.old kept tills.old.list.items polls now (AreHeard heard) (LinkPt pt ∷ []) items)
        (MidRound setup core.new kept tills.new.list.items polls now (AreHeard heard) [] items) }
    ensures dialogues { AllHaveDialogues core.new }
    ensures order { StaysInOrder core.old core.new }
    ensures count { length core.new.terminals ≡ length core.old.terminals }
    ensures still { AllStillHold tills.old.list.items tills.new.list.items }
    ensures goes_on { GoesOnBesideDisk (S.observed site.old) (S.observed site.new) }
{
    let made = site.link_pt(pt).is_ok();
    let wanted = core.on_link(pt, made, now);
    perform(core, tills, site, pt, &wanted, now);
}

/// Cuts a terminal for bytes that are no message, where it is linked.
pub(crate) fn reject<S: Site>(core: &mut Core, tills: &mut Tills, site: &mut S, pt: u16, now: i64)
    requires there { pt < length core.old.terminals }
    requires dialogues { AllHaveDialogues core.old }
    ensures triple { (item : RoundItem) → IsOutside pt item → (setup : Setup) (kept : List Record) (polls : ℕ) (heard : ℕ → List ℕ) (items : List RoundItem) → Triple (S.observed site.old) (S.observed site.new)
        (MidRound setup core.old kept tills.old.list.items polls now (AreHeard heard) [] (item ∷ items))
        (MidRound setup core.new kept tills.new.list.items polls now (AreHeard heard) [] items) }
    ensures unlinked { is_linked_in (slice_get core.new.terminals pt) ≡ false }
    ensures dialogues { AllHaveDialogues core.new }
    ensures order { StaysInOrder core.old core.new }
    ensures count { length core.new.terminals ≡ length core.old.terminals }
    ensures still { AllStillHold tills.old.list.items tills.new.list.items }
    ensures goes_on { GoesOnBesideDisk (S.observed site.old) (S.observed site.new) }
{
    if core.is_linked(pt) {
        cut(core, tills, site, pt, now);
    }
}

/// Bytes of a terminal begin an APDU above the limit, which cuts the terminal where it is linked.
pub(crate) fn on_oversized<S: Site>(
    core: &mut Core,
    tills: &mut Tills,
    site: &mut S,
    pt: u16,
    now: i64,
)
    requires there { pt < length core.old.terminals }
    requires dialogues { AllHaveDialogues core.old }
    ensures triple { (setup : Setup) (kept : List Record) (polls : ℕ) (heard : ℕ → List ℕ) (items : List RoundItem) → Triple (S.observed site.old) (S.observed site.new)
        (MidRound setup core.old kept tills.old.list.items polls now (AreHeard heard) [] (Oversized pt ∷ items))
        (MidRound setup core.new kept tills.new.list.items polls now (AreHeard heard) [] items) }
    ensures unlinked { is_linked_in (slice_get core.new.terminals pt) ≡ false }
    ensures dialogues { AllHaveDialogues core.new }
    ensures order { StaysInOrder core.old core.new }
    ensures count { length core.new.terminals ≡ length core.old.terminals }
    ensures still { AllStillHold tills.old.list.items tills.new.list.items }
    ensures goes_on { GoesOnBesideDisk (S.observed site.old) (S.observed site.new) }
{
    reject(core, tills, site, pt, now);
}

/// What may be due of a terminal: after too long a silence it is cut.
pub(crate) fn on_late<S: Site>(core: &mut Core, tills: &mut Tills, site: &mut S, pt: u16, now: i64)
    requires there { pt < length core.old.terminals }
    requires dialogues { AllHaveDialogues core.old }
    ensures triple { (setup : Setup) (kept : List Record) (polls : ℕ) (heard : ℕ → List ℕ) (items : List RoundItem) → Triple (S.observed site.old) (S.observed site.new)
        (MidRound setup core.old kept tills.old.list.items polls now (AreHeard heard) [] (Late pt ∷ items))
        (MidRound setup core.new kept tills.new.list.items polls now (AreHeard heard) [] items) }
    ensures linked { is_linked_in (slice_get core.new.terminals pt) ≡ true → is_linked_in (slice_get core.old.terminals pt) ≡ true }
    ensures dialogues { AllHaveDialogues core.new }
    ensures order { StaysInOrder core.old core.new }
    ensures count { length core.new.terminals ≡ length core.old.terminals }
    ensures still { AllStillHold tills.old.list.items tills.new.list.items }
    ensures goes_on { GoesOnBesideDisk (S.observed site.old) (S.observed site.new) }
{
    let wanted = core.on_moment(Timer::Silence(pt), now);
    perform(core, tills, site, pt, &wanted, now);
}

/// What may be due of a terminal: it is linked.
pub(crate) fn link_due<S: Site>(core: &mut Core, tills: &mut Tills, site: &mut S, pt: u16, now: i64)
    requires there { pt < length core.old.terminals }
    requires dialogues { AllHaveDialogues core.old }
    ensures triple { (setup : Setup) (kept : List Record) (polls : ℕ) (heard : ℕ → List ℕ) (items : List RoundItem) → heard pt ≡ [] → Triple (S.observed site.old) (S.observed site.new)
        (MidRound setup core.old kept tills.old.list.items polls now (AreHeard heard) [] (Due pt ∷ items))
        (MidRound setup core.new kept tills.new.list.items polls now (AreHeard heard) [] items) }
    ensures dialogues { AllHaveDialogues core.new }
    ensures order { StaysInOrder core.old core.new }
    ensures count { length core.new.terminals ≡ length core.old.terminals }
    ensures still { AllStillHold tills.old.list.items tills.new.list.items }
    ensures goes_on { GoesOnBesideDisk (S.observed site.old) (S.observed site.new) }
{
    match core.on_moment(Timer::Link(pt), now) {
        Some(_) => link(core, tills, site, pt, now),
        None => {}
    }
}
