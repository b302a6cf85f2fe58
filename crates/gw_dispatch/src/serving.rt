//! What a till's bytes bring: each message gets its reply, begins at a terminal or waits for one, and bytes that begin no frame the cut of the connection.
ghost use Rattle.std.specs.Prelude.{◌≡◌, ◌+◌, ◌<◌, ◌≤◌, ◌++◌, ◌∷◌, [], ℕ, true, false, List, length, map, IfOk, Ok, Err, OnOk, OnErr};
ghost use Rattle.gw_base.specs.Moment.{moment_of};
ghost use Rattle.gw_base.specs.declared.setup.Setup.{Setup};
ghost use Rattle.sale_frame.specs.Grammar.{IsIncompleteFrame};
ghost use Rattle.gw_owes.specs.Calls.{OwedCall};
ghost use Rattle.gw_owes.specs.Items.{RoundItem, Queue, Serve};
ghost use Rattle.gw_owes.specs.Waits.{memory_reserved};
ghost use Rattle.gw_rules.specs.Triple.{Triple};
ghost use Rattle.gw_core.specs.ReplyOf.{ArePrepared, AreSendOf, BeginsAt, IsGivenToBegin, IsGivenWithinLimits, QueuesAt, items_given, reply_given};
ghost use Rattle.gw_dispatch.specs.RunState.{HoldsSame, IsWell, UnlessBroken, gateway_of};
ghost use Rattle.gw_dispatch.specs.Growth.{HasGoneOn, HasBroken};
ghost use Rattle.gw_dispatch.specs.MidRound.{AreHeard, HeldRound};
ghost use Rattle.gw_dispatch.specs.NextMessage.{HasSpareAfter, IsNextOf, IsThereWith};
ghost use Rattle.gw_dispatch.specs.Serving.{AfterTill, items_of};
ghost use Rattle.gw_dispatch.specs.Tills.{OthersStillHold, AllStillHold, bytes_held, rested};
ghost use Rattle.gw_dispatch.specs.declared.fault.TurnFault.{TurnFault as TheFault};

use crate::fault::TurnFault;
use crate::perform::{perform, send_owed};
use crate::run_state::RunState;
use crate::tills::{Tills, cut_till, deliver, index_of};
use gw_core::Given;
use gw_owes::{law_records, law_waits};
use gw_site::{Failed, Site};
use sale_frame::FrameReader;
use sale_reply::OutputResults;
use sale_values::{Header, SaleRequest};
use std::alloc::{AllocError, Global};

/// What the first bytes of a reader are.
#[derive(Drop)]
pub(crate) enum Next {
    /// Less than a frame.
    Incomplete,
    /// A message, and what it wants done.
    Message(Given),
    /// Bytes that begin no frame.
    Unframed,
}

/// What the first bytes of a reader are, and what is wanted where they are a message. Before a message is taken there is
/// memory in the ledger for what it may begin, at once or once it has waited.
fn take_message(
    alloc: Global,
    state: &mut RunState,
    now: i64,
    reader: &mut FrameReader,
) -> Result<Next, AllocError>
    ensures next { IfOk result (λ next. IsNextOf state.old.gateway state.old.records.ledger.records state.old.core now next reader.old reader.new) }
    ensures same { HoldsSame state.old state.new }
    ensures spare { IfOk result (λ next. HasSpareAfter next state.old.core state.old.records.ledger.spare state.new.records.ledger.spare) }
{
    match reader.next() {
        Err(_) => Ok(Next::Unframed),
        Ok(None) => Ok(Next::Incomplete),
        Ok(Some(message)) => {
            // One for what the message may begin, and one each for what is served or waits.
            let reserved = state.core.memory_reserved();
            state.records.ledger.reserve(alloc, reserved + 1)?;
            let given = state
                .core
                .on_till(alloc, &state.gateway, &state.records.ledger, message, now)?;
            Ok(Next::Message(given))
        }
    }
}

/// What the first bytes of a till's reader are. That of a till which isn't there any more holds none.
fn next_message(
    state: &mut RunState,
    tills: &mut Tills,
    now: i64,
    number: u64,
) -> Result<Next, AllocError>
    ensures next { IfOk result (λ next. IsNextOf state.old.gateway state.old.records.ledger.records state.old.core now next (bytes_held number tills.old.list.items) (bytes_held number tills.new.list.items)) }
    ensures there { IfOk result (λ next. IsThereWith next number tills.old.list.items) }
    ensures same { HoldsSame state.old state.new }
    ensures spare { IfOk result (λ next. HasSpareAfter next state.old.core state.old.records.ledger.spare state.new.records.ledger.spare) }
    ensures rested { OnOk result (map rested tills.new.list.items ≡ map rested tills.old.list.items) }
    ensures others { OthersStillHold number tills.old.list.items tills.new.list.items }
{
    let alloc = tills.replier.alloc;
    match index_of(&tills.list, number) {
        None => Ok(Next::Incomplete),
        Some(index) => take_message(alloc, state, now, &mut tills.list[index].reader),
    }
}

/// Begins what a till has asked for: the Intent of a payment or a reversal is kept, and then the terminal is asked, as it is at once for an
/// end of day and to show a display; a reconciliation of the till's own is kept, and then the till gets the totals; at an Abort the terminal
/// is to stop what it serves; a Login or a Logout gets its reply.
fn begin<S: Site>(
    state: &mut RunState,
    tills: &mut Tills,
    site: &mut S,
    pt: u16,
    till: u64,
    header: &Header,
    request: &SaleRequest,
    results: Option<OutputResults>,
    now: i64,
) -> Result<(), Failed>
    requires well { IsWell state.old (S.observed site.old) }
    requires begins { BeginsAt state.old.gateway state.old.records.ledger.records state.old.core (moment_of now) pt header.now request.now }
    requires prepared { ArePrepared request.now results }
    requires spare { memory_reserved state.old.core + 1 ≤ state.old.records.ledger.spare }
    ensures triple { (setup : Setup) (polls : ℕ) (heard : ℕ → List ℕ) (items : List RoundItem) → gateway_of setup ≡ state.old.gateway → Triple (S.observed site.old) (S.observed site.new)
        (HeldRound setup state.old tills.old.list.items polls now (AreHeard heard) [] (Serve pt till header.now request.now ∷ items))
        (UnlessBroken result (λ done. HeldRound setup state.new tills.new.list.items polls now (AreHeard heard) [] items)) }
    ensures well { OnOk result (IsWell state.new (S.observed site.new)) }
    ensures gateway { state.new.gateway ≡ state.old.gateway }
    ensures count { length state.new.core.terminals ≡ length state.old.core.terminals }
    ensures still { AllStillHold tills.old.list.items tills.new.list.items }
    ensures goes_on { HasGoneOn (S.observed site.old) (S.observed site.new) }
    ensures failed { OnErr result (HasBroken (S.observed site.old) (S.observed site.new)) }
{
    law_records();
    law_waits();
    let gateway = state.gateway;
    let acts = state.core.begin(
        &gateway,
        &state.records.ledger,
        pt,
        till,
        header,
        request,
        results,
        now,
    );
    // The record first: the terminal is only asked for what is kept.
    match state.records.keep_wanted(site, &acts.keep) {
        Ok(()) => {}
        Err(Failed) => return Err(Failed),
    }
    perform(&mut state.core, tills, site, pt, &acts.act, now);
    Ok(())
}

/// A request of a till joins those that wait for its terminal, where nothing is owed for it yet; by an Abort the one that it names waits no
/// longer, and its till gets the Failure.
fn queue<S: Site>(
    state: &mut RunState,
    tills: &mut Tills,
    site: &mut S,
    pt: u16,
    till: u64,
    header: Header,
    request: SaleRequest,
    now: i64,
) -> Result<(), AllocError>
    requires well { IsWell state.old (S.observed site.old) }
    requires queues { QueuesAt state.old.gateway state.old.records.ledger.records state.old.core (moment_of now) pt header request }
    requires spare { memory_reserved state.old.core + 1 ≤ state.old.records.ledger.spare }
    ensures triple { (setup : Setup) (polls : ℕ) (heard : ℕ → List ℕ) (items : List RoundItem) → gateway_of setup ≡ state.old.gateway → OnOk result (Triple (S.observed site.old) (S.observed site.new)
        (HeldRound setup state.old tills.old.list.items polls now (AreHeard heard) [] (Queue pt till header request ∷ items))
        (HeldRound setup state.new tills.new.list.items polls now (AreHeard heard) [] items)) }
    ensures untouched { OnErr result (S.observed site.new ≡ S.observed site.old) }
    ensures well { OnOk result (IsWell state.new (S.observed site.new)) }
    ensures gateway { state.new.gateway ≡ state.old.gateway }
    ensures count { length state.new.core.terminals ≡ length state.old.core.terminals }
    ensures still { AllStillHold tills.old.list.items tills.new.list.items }
    ensures goes_on { HasGoneOn (S.observed site.old) (S.observed site.new) }
{
    law_records();
    law_waits();
    let gateway = state.gateway;
    match state.core.queue(
        &gateway,
        &state.records.ledger,
        pt,
        till,
        header,
        request,
        now,
    ) {
        Ok(owed) => {
            send_owed(&mut state.core, tills, site, &owed);
            Ok(())
        }
        Err(AllocError) => Err(AllocError),
    }
}

/// Does what a till's message wants: nothing, its reply, its beginning at a terminal, or a change of those that wait.
fn serve_message<S: Site>(
    state: &mut RunState,
    tills: &mut Tills,
    site: &mut S,
    now: i64,
    till: u64,
    given: Given,
) -> Result<(), TurnFault>
    requires well { IsWell state.old (S.observed site.old) }
    requires begins { IsGivenToBegin state.old.gateway state.old.records.ledger.records state.old.core (moment_of now) given }
    requires within { IsGivenWithinLimits given }
    requires spare { memory_reserved state.old.core + 1 ≤ state.old.records.ledger.spare }
    ensures triple { (calls : List OwedCall) → AreSendOf till (reply_given given) calls → (setup : Setup) (polls : ℕ) (heard : ℕ → List ℕ) (items : List RoundItem) → gateway_of setup ≡ state.old.gateway → Triple (S.observed site.old) (S.observed site.new)
        (HeldRound setup state.old tills.old.list.items polls now (AreHeard heard) calls (items_given till given ++ (items_of till tills.old.list.items ++ items)))
        (AfterTill result setup state.new tills.new.list.items polls now (AreHeard heard) till items) }
    ensures well { OnOk result (IsWell state.new (S.observed site.new)) }
    ensures gateway { state.new.gateway ≡ state.old.gateway }
    ensures count { length state.new.core.terminals ≡ length state.old.core.terminals }
    ensures still { AllStillHold tills.old.list.items tills.new.list.items }
    ensures goes_on { HasGoneOn (S.observed site.old) (S.observed site.new) }
    ensures failed { result ≡ Err TheFault.Disk → HasBroken (S.observed site.old) (S.observed site.new) }
{
    match given {
        Given::Nothing => Ok(()),
        Given::Reply(reply) => {
            deliver(&mut state.core, tills, site, till, &reply);
            Ok(())
        }
        Given::Begins {
            pt,
            header,
            request,
            results,
        } => match begin(
            state, tills, site, pt, till, &header, &request, results, now,
        ) {
            Ok(()) => Ok(()),
            Err(Failed) => Err(TurnFault::Disk),
        },
        Given::Queues {
            pt,
            header,
            request,
        } => match queue(state, tills, site, pt, till, header, request, now) {
            Ok(()) => Ok(()),
            Err(AllocError) => Err(TurnFault::Memory),
        },
    }
}

/// Serves what is first in a till's reader. False where less than a frame waits there, or the till was cut.
fn serve_next<S: Site>(
    state: &mut RunState,
    tills: &mut Tills,
    site: &mut S,
    now: i64,
    till: u64,
) -> Result<bool, TurnFault>
    requires well { IsWell state.old (S.observed site.old) }
    ensures triple { (setup : Setup) (polls : ℕ) (heard : ℕ → List ℕ) (items : List RoundItem) → gateway_of setup ≡ state.old.gateway → Triple (S.observed site.old) (S.observed site.new)
        (HeldRound setup state.old tills.old.list.items polls now (AreHeard heard) [] (items_of till tills.old.list.items ++ items))
        (AfterTill result setup state.new tills.new.list.items polls now (AreHeard heard) till items) }
    ensures less { result ≡ Ok true → length (bytes_held till tills.new.list.items) < length (bytes_held till tills.old.list.items) }
    ensures waits { result ≡ Ok false → IsIncompleteFrame (bytes_held till tills.new.list.items) }
    ensures others { OthersStillHold till tills.old.list.items tills.new.list.items }
    ensures well { OnOk result (IsWell state.new (S.observed site.new)) }
    ensures gateway { state.new.gateway ≡ state.old.gateway }
    ensures count { length state.new.core.terminals ≡ length state.old.core.terminals }
    ensures goes_on { HasGoneOn (S.observed site.old) (S.observed site.new) }
    ensures failed { result ≡ Err TheFault.Disk → HasBroken (S.observed site.old) (S.observed site.new) }
{
    match next_message(state, tills, now, till) {
        Err(AllocError) => Err(TurnFault::Memory),
        Ok(Next::Incomplete) => Ok(false),
        Ok(Next::Unframed) => {
            cut_till(&mut state.core, tills, site, till);
            Ok(false)
        }
        Ok(Next::Message(given)) => match serve_message(state, tills, site, now, till, given) {
            Ok(()) => Ok(true),
            Err(fault) => Err(fault),
        },
    }
}

/// Serves a till until less than a frame waits at its reader, or it was cut.
pub(crate) fn serve<S: Site>(
    state: &mut RunState,
    tills: &mut Tills,
    site: &mut S,
    now: i64,
    till: u64,
) -> Result<(), TurnFault>
    requires well { IsWell state.old (S.observed site.old) }
    ensures triple { (setup : Setup) (polls : ℕ) (heard : ℕ → List ℕ) (items : List RoundItem) → gateway_of setup ≡ state.old.gateway → Triple (S.observed site.old) (S.observed site.new)
        (HeldRound setup state.old tills.old.list.items polls now (AreHeard heard) [] (items_of till tills.old.list.items ++ items))
        (AfterTill result setup state.new tills.new.list.items polls now (AreHeard heard) till items) }
    ensures waits { OnOk result (IsIncompleteFrame (bytes_held till tills.new.list.items)) }
    ensures others { OthersStillHold till tills.old.list.items tills.new.list.items }
    ensures well { OnOk result (IsWell state.new (S.observed site.new)) }
    ensures gateway { state.new.gateway ≡ state.old.gateway }
    ensures count { length state.new.core.terminals ≡ length state.old.core.terminals }
    ensures goes_on { HasGoneOn (S.observed site.old) (S.observed site.new) }
    ensures failed { result ≡ Err TheFault.Disk → HasBroken (S.observed site.old) (S.observed site.new) }
{
    loop {
        match serve_next(state, tills, site, now, till) {
            Ok(true) => {}
            Ok(false) => return Ok(()),
            Err(TurnFault::Disk) => return Err(TurnFault::Disk),
            Err(TurnFault::Memory) => return Err(TurnFault::Memory),
        }
    }
}
