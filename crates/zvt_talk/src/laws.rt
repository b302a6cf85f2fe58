//! Laws of the table, in words of the subject. Each function does nothing: its contract is the law.
ghost use Rattle.std.specs.Prelude.{◌≡◌, ◌≢◌, ◌^◌, ◌↔◌, ◌⊎◌, ◌||◌, ◌&&◌, not, ℕ, ℤ, pos, ◌+ℤ◌, ◌<◌, Bool, true, false, List, [], ◌∷◌, ◌++◌, Option, Some, IsTrue, IsFalse, is_some, if◌then◌else◌, None};
ghost use Rattle.gw_base.specs.Limits.{IsTrace};
ghost use Rattle.gw_base.specs.declared.figures.Figures.{Figures};
ghost use Rattle.zvt_msg.specs.Message.{MessageValue, Ack, Nack, Intermediate, Completion, Other};
ghost use Rattle.zvt_talk.specs.declared.meaning.Heard.{Heard};
ghost use Rattle.zvt_talk.specs.declared.meaning.Heard.TheVariants as heard;
ghost use Rattle.zvt_talk.specs.declared.dialogue_kind.DialogueKind.TheVariants.{Display};
ghost use Rattle.zvt_talk.specs.Dialogue.{Dialogue};
ghost use Rattle.zvt_talk.specs.Example.{ExampleBegins, ExampleGoesOn, ExampleDeadlines, ExampleFigures, ExampleReadFigures, ExampleReports, ExampleTalkSteps};
ghost use Rattle.zvt_talk.specs.Came.{Came, Message, StopWished, messages, statuses, last_status, said_approved, has_ended, is_begun, is_stop_sent, is_stop_wished, deadline};
ghost use Rattle.zvt_talk.specs.Talk.{meaning, end_of, is_end, phase_of, talk_after, talk_goes_on};
ghost use Rattle.zvt_talk.specs.Limits.{AreAtLeastOne, FiguresFitFields, FiguresFitRecord, AllNumbersFitFields, WereRead};
ghost use Rattle.zvt_talk.specs.Laws.{AbortsApproved, AbortsEnquiry, AbortsWithoutCode, AcknowledgesCommand, Approves, BringsBlock, BringsLine, BringsStatus, EndStays, HasNoRefusal, HasNoStopWished, HasStopWished, IsAckOrNack, IsEndOf, IsEnquiry, IsEnquiryOrDisplay, LeavesCommandUnclear, IsService, IsTransaction, LeavesEnquiryOpen, LeavesTransactionOpen, MeansForTalkAsAfterAll, NextTalkIsAfterAll, RefusedAtOnce, RefusedLater, RefusesCommand, ReportsLastTransaction, ReportsNoTransaction, says_stop, StopWishedEndsNothing, TalkAfterStopWishedIsAfterAll};

/// A message approves exactly where it completes a payment or a reversal whose last status said that it is approved, with
/// full figures.
pub fn law_approved()
    ensures { (dialogue : Dialogue) (came : List Came) (message : MessageValue) (figures : Figures)
        → (meaning dialogue came message ≡ heard.Approved figures) ↔ Approves dialogue came message figures }
{}

/// When a dialogue is declined. A payment or a reversal never is once a status said that it is approved.
pub fn law_declined()
    ensures transaction { (dialogue : Dialogue) (came : List Came) (message : MessageValue) (result_code : ℕ) (trace : Option ℕ)
        → IsTransaction dialogue.dialogue_kind → (meaning dialogue came message ≡ heard.Declined result_code trace)
        ↔ (IsFalse (said_approved came) × RefusesCommand came message result_code trace) }
    ensures service { (dialogue : Dialogue) (came : List Came) (message : MessageValue) (result_code : ℕ) (trace : Option ℕ)
        → IsService dialogue.dialogue_kind → (meaning dialogue came message ≡ heard.Declined result_code trace)
        ↔ RefusesCommand came message result_code trace }
    ensures other { (dialogue : Dialogue) (came : List Came) (message : MessageValue) (result_code : ℕ) (trace : Option ℕ)
        → IsEnquiryOrDisplay dialogue.dialogue_kind → (meaning dialogue came message ≡ heard.Declined result_code trace)
        ↔ ((result_code ≢ 0) × RefusedAtOnce came message result_code trace) }
    ensures never { (dialogue : Dialogue) (came : List Came) (message : MessageValue) (result_code : ℕ) (trace : Option ℕ)
        → IsTransaction dialogue.dialogue_kind → IsTrue (said_approved came)
        → meaning dialogue came message ≢ heard.Declined result_code trace }
{
    law_transaction_declined();
}

/// When a payment or a reversal is declined, by the phases. For the prover alone: `law_declined` follows from it.
fn law_transaction_declined()
    ensures { (dialogue : Dialogue) (came : List Came) (message : MessageValue) (result_code : ℕ) (trace : Option ℕ)
        → IsTransaction dialogue.dialogue_kind → (meaning dialogue came message ≡ heard.Declined result_code trace)
        ↔ ((result_code ≢ 0) × (RefusedAtOnce came message result_code trace
        ⊎ (RefusedLater came message result_code trace × IsFalse (said_approved came)))) }
{}

/// When a registration, an end of day or a display is done.
pub fn law_done()
    ensures service { (dialogue : Dialogue) (came : List Came) (message : MessageValue) → IsService dialogue.dialogue_kind
        → (meaning dialogue came message ≡ heard.Done)
        ↔ ((messages came ≢ []) × (message ≡ Completion) × HasNoRefusal (last_status came)) }
    ensures display { (dialogue : Dialogue) (came : List Came) (message : MessageValue) → dialogue.dialogue_kind ≡ Display
        → (meaning dialogue came message ≡ heard.Done) ↔ ((messages came ≡ []) × (message ≡ Ack)) }
{}

/// When a dialogue ends and it isn't clear how, by how far it is. A display ends with the first message.
#[tactic(auto, using(crate::proofs::StatusLemmas::no_status))]
pub fn law_unclear()
    ensures asked { (dialogue : Dialogue) (came : List Came) (message : MessageValue) → messages came ≡ []
        → (meaning dialogue came message ≡ heard.Unclear) ↔ LeavesCommandUnclear message }
    ensures transaction { (dialogue : Dialogue) (came : List Came) (message : MessageValue) → messages came ≢ []
        → IsTransaction dialogue.dialogue_kind → (meaning dialogue came message ≡ heard.Unclear)
        ↔ (AbortsWithoutCode message ⊎ (AbortsApproved came message
        ⊎ ((message ≡ Completion) × LeavesTransactionOpen came (last_status came)))) }
    ensures enquiry { (dialogue : Dialogue) (came : List Came) (message : MessageValue) → messages came ≢ []
        → IsEnquiry dialogue.dialogue_kind → (meaning dialogue came message ≡ heard.Unclear)
        ↔ (AbortsWithoutCode message ⊎ (AbortsEnquiry dialogue came message
        ⊎ ((message ≡ Completion) × LeavesEnquiryOpen (last_status came)))) }
    ensures service { (dialogue : Dialogue) (came : List Came) (message : MessageValue) → messages came ≢ []
        → IsService dialogue.dialogue_kind → (meaning dialogue came message ≡ heard.Unclear) ↔ AbortsWithoutCode message }
{}

/// A message means nothing exactly where it is outside the table, or an acknowledgement or a refusal that comes after the
/// first message.
pub fn law_stray()
    ensures { (dialogue : Dialogue) (came : List Came) (message : MessageValue)
        → (meaning dialogue came message ≡ heard.Stray)
        ↔ ((message ≡ Other) ⊎ ((messages came ≢ []) × IsAckOrNack message)) }
{}

/// A completion without a status neither approves nor declines a payment or a reversal.
pub fn law_no_status()
    ensures { (dialogue : Dialogue) (came : List Came) → IsTransaction dialogue.dialogue_kind
        → IsTrue (is_begun dialogue.dialogue_kind (messages came)) → statuses came ≡ []
        → meaning dialogue came Completion ≡ heard.Unclear }
{}

/// What an enquiry reports of the terminal's last transaction.
#[tactic(auto, using(crate::proofs::StatusLemmas::no_status))]
pub fn law_reports()
    ensures { (dialogue : Dialogue) (came : List Came) (message : MessageValue) (trace : ℕ) (approved : Option Figures) (result_code : ℕ)
        → IsEnquiry dialogue.dialogue_kind → (meaning dialogue came message ≡ heard.Told trace approved result_code)
        ↔ (ReportsLastTransaction came message trace approved result_code ⊎ ReportsNoTransaction dialogue came message trace approved result_code) }
{}

/// In a dialogue that was begun, an acknowledgement or a refusal is meant for `06 B0`, or for nothing: it ends nothing, and nothing
/// but the deadline changes.
pub fn law_stop_acknowledged()
    ensures ack { (dialogue : Dialogue) (came : List Came) → IsTrue (is_begun dialogue.dialogue_kind (messages came))
        → meaning dialogue came Ack ≡ heard.Stray }
    ensures ack_stays { (dialogue : Dialogue) (came : List Came) (at : ℤ) → IsTrue (is_begun dialogue.dialogue_kind (messages came))
        → phase_of dialogue.dialogue_kind (came ++ Message Ack at ∷ []) ≡ phase_of dialogue.dialogue_kind came }
    ensures nack { (dialogue : Dialogue) (came : List Came) (error_code : ℕ) → IsTrue (is_begun dialogue.dialogue_kind (messages came))
        → meaning dialogue came (Nack error_code) ≡ heard.Stray }
    ensures nack_stays { (dialogue : Dialogue) (came : List Came) (error_code : ℕ) (at : ℤ)
        → IsTrue (is_begun dialogue.dialogue_kind (messages came))
        → phase_of dialogue.dialogue_kind (came ++ Message (Nack error_code) at ∷ []) ≡ phase_of dialogue.dialogue_kind came }
{}

/// `06 B0` is asked for once: exactly where it was not sent before and is sent afterwards.
pub fn law_stop()
    ensures message { (dialogue : Dialogue) (came : List Came) (message : MessageValue) (at : ℤ)
        → IsTrue (talk_goes_on (talk_after dialogue came))
        → says_stop (meaning dialogue came message)
        ≡ (is_stop_sent dialogue.dialogue_kind (came ++ Message message at ∷ []) && not (is_stop_sent dialogue.dialogue_kind came)) }
    ensures stop_wished { (dialogue : Dialogue) (came : List Came)
        → (is_begun dialogue.dialogue_kind (messages came) && not (is_stop_sent dialogue.dialogue_kind came))
        ≡ (is_stop_sent dialogue.dialogue_kind (came ++ StopWished ∷ []) && not (is_stop_sent dialogue.dialogue_kind came)) }
    ensures stays { (dialogue : Dialogue) (came more : List Came) → IsTrue (is_stop_sent dialogue.dialogue_kind came)
        → IsTrue (is_stop_sent dialogue.dialogue_kind (came ++ more)) }
{}

/// A dialogue has ended exactly where it has an end, and that is the meaning of the message that ended it. The ends of a
/// payment or a reversal are approved, declined and unclear, those of an enquiry reported, declined and unclear, and those of
/// the others done, declined and unclear. A stop that is wished ends nothing.
pub fn law_ends()
    ensures ended { (dialogue : Dialogue) (came : List Came)
        → has_ended dialogue.dialogue_kind (messages came) ≡ is_some (end_of dialogue came) }
    ensures goes_on { (dialogue : Dialogue) (came : List Came)
        → talk_goes_on (talk_after dialogue came) ≡ not (has_ended dialogue.dialogue_kind (messages came)) }
    ensures by_message { (dialogue : Dialogue) (came : List Came) (message : MessageValue) (at : ℤ)
        → IsTrue (talk_goes_on (talk_after dialogue came)) → end_of dialogue (came ++ Message message at ∷ [])
        ≡ (if is_end (meaning dialogue came message) then Some (meaning dialogue came message) else None) }
    ensures dialogue_kinds { (dialogue : Dialogue) (came : List Came) (end : Heard)
        → end_of dialogue came ≡ Some end → IsEndOf dialogue.dialogue_kind end }
    ensures stop_wished { StopWishedEndsNothing }
{
    law_meanings();
}

/// The few facts that a talk keeps are enough: while a dialogue goes on, a message means for them, and makes of them, what it does
/// for all that came; and so does a stop that is wished. Once the dialogue has ended, its end stays.
pub fn law_talk_steps()
    ensures means { MeansForTalkAsAfterAll }
    ensures next { NextTalkIsAfterAll }
    ensures stop_wished { TalkAfterStopWishedIsAfterAll }
    ensures ended { EndStays }
{}

/// What ends a dialogue is an end that its kind may have. For the prover alone: `law_ends` follows from it.
fn law_meanings()
    ensures { (dialogue : Dialogue) (came : List Came) (message : MessageValue)
        → IsTrue (is_end (meaning dialogue came message)) → IsEndOf dialogue.dialogue_kind (meaning dialogue came message) }
{}

/// What is reported of a transaction fits the fields that it came in, where the messages were read; and its trace number and its
/// amount aren't 0 where it is approved, whatever the messages.
pub fn law_figures()
    ensures approved { (dialogue : Dialogue) (came : List Came) (message : MessageValue) (figures : Figures)
        → AllNumbersFitFields (messages came) → meaning dialogue came message ≡ heard.Approved figures → FiguresFitFields figures }
    ensures some { (dialogue : Dialogue) (came : List Came) (message : MessageValue) (figures : Figures)
        → meaning dialogue came message ≡ heard.Approved figures → AreAtLeastOne figures }
    ensures reported { (dialogue : Dialogue) (came : List Came) (message : MessageValue) (trace : ℕ) (figures : Figures) (result_code : ℕ)
        → AllNumbersFitFields (messages came) → meaning dialogue came message ≡ heard.Told trace (Some figures) result_code
        → FiguresFitFields figures }
    ensures reported_some { (dialogue : Dialogue) (came : List Came) (message : MessageValue) (trace : ℕ) (figures : Figures) (result_code : ℕ)
        → meaning dialogue came message ≡ heard.Told trace (Some figures) result_code → AreAtLeastOne figures }
    ensures reported_trace { (dialogue : Dialogue) (came : List Came) (message : MessageValue) (trace : ℕ) (approved : Option Figures) (result_code : ℕ)
        → AllNumbersFitFields (messages came) → meaning dialogue came message ≡ heard.Told trace approved result_code → trace < 100 ^ 3 }
{
    law_approved();
    law_reports();
    law_meanings();
}

/// What is reported of a transaction can be kept in a record and reported to a till, where each message was read of an APDU:
/// what was read has its numbers within their fields. The trace number of a declined one is within its field too.
pub fn law_read_figures()
    ensures fit { (messages : List MessageValue) → WereRead messages → AllNumbersFitFields messages }
    ensures approved { (dialogue : Dialogue) (came : List Came) (message : MessageValue) (figures : Figures)
        → WereRead (messages came) → meaning dialogue came message ≡ heard.Approved figures → FiguresFitRecord figures }
    ensures reported { (dialogue : Dialogue) (came : List Came) (message : MessageValue) (trace : ℕ) (figures : Figures) (result_code : ℕ)
        → WereRead (messages came) → meaning dialogue came message ≡ heard.Told trace (Some figures) result_code → FiguresFitRecord figures }
    ensures reported_trace { (dialogue : Dialogue) (came : List Came) (message : MessageValue) (trace : ℕ) (approved : Option Figures) (result_code : ℕ)
        → WereRead (messages came) → meaning dialogue came message ≡ heard.Told trace approved result_code → IsTrace trace }
    ensures declined_trace { (dialogue : Dialogue) (came : List Came) (message : MessageValue) (result_code trace : ℕ)
        → WereRead (messages came) → meaning dialogue came message ≡ heard.Declined result_code (Some trace) → IsTrace trace }
    ensures example { ExampleReadFigures }
{
    zvt_msg::law_read_fits();
    law_figures();
    law_declined();
}

/// A dialogue is begun exactly where its command, which is no display, is acknowledged, and a stop is to be sent with it
/// exactly where one was wished before.
pub fn law_begun()
    ensures without_stop_wished { (dialogue : Dialogue) (came : List Came) (message : MessageValue)
        → (meaning dialogue came message ≡ heard.Begun false) ↔ (AcknowledgesCommand dialogue came message × HasNoStopWished came) }
    ensures with_stop_wished { (dialogue : Dialogue) (came : List Came) (message : MessageValue)
        → (meaning dialogue came message ≡ heard.Begun true) ↔ (AcknowledgesCommand dialogue came message × HasStopWished came) }
{
    law_acknowledged();
}

/// When a dialogue is begun, by whether a stop was wished. For the prover alone: `law_begun` follows from it.
fn law_acknowledged()
    ensures { (dialogue : Dialogue) (came : List Came) (message : MessageValue) (stop : Bool)
        → (meaning dialogue came message ≡ heard.Begun stop)
        ↔ (AcknowledgesCommand dialogue came message × (is_stop_wished came ≡ stop)) }
{}

/// What is noted to be shown, what is to be printed, and which status is seen: each exactly where the command was acknowledged
/// before and the terminal sends that.
pub fn law_goes_on()
    ensures note { (dialogue : Dialogue) (came : List Came) (message : MessageValue) (intermediate_status : ℕ)
        → (meaning dialogue came message ≡ heard.Note intermediate_status) ↔ ((messages came ≢ []) × (message ≡ Intermediate intermediate_status)) }
    ensures line { (dialogue : Dialogue) (came : List Came) (message : MessageValue)
        → (meaning dialogue came message ≡ heard.Line) ↔ BringsLine came message }
    ensures block { (dialogue : Dialogue) (came : List Came) (message : MessageValue)
        → (meaning dialogue came message ≡ heard.Block) ↔ BringsBlock came message }
    ensures status { (dialogue : Dialogue) (came : List Came) (message : MessageValue)
        → (meaning dialogue came message ≡ heard.Seen) ↔ BringsStatus came message }
{}

/// Until when the terminal may be silent: so many seconds from the command on, and so many from each message on. A message
/// outside the table, or a stop wished, puts nothing off.
pub fn law_deadline()
    ensures command { (dialogue : Dialogue) → deadline dialogue [] ≡ dialogue.sent +ℤ pos dialogue.acknowledge_time }
    ensures message { (dialogue : Dialogue) (came : List Came) (message : MessageValue) (at : ℤ) → message ≢ Other
        → deadline dialogue (came ++ Message message at ∷ []) ≡ at +ℤ pos dialogue.command_time }
    ensures other { (dialogue : Dialogue) (came : List Came) (at : ℤ)
        → deadline dialogue (came ++ Message Other at ∷ []) ≡ deadline dialogue came }
    ensures stop_wished { (dialogue : Dialogue) (came : List Came)
        → deadline dialogue (came ++ StopWished ∷ []) ≡ deadline dialogue came }
{}

/// Examples of the laws, which are computed: how a payment begins and goes on, its deadlines, the greatest numbers that
/// are reported, what an enquiry reports, and what a talk keeps.
pub fn law_examples()
    ensures begun { ExampleBegins }
    ensures goes_on { ExampleGoesOn }
    ensures deadline { ExampleDeadlines }
    ensures figures { ExampleFigures }
    ensures reports { ExampleReports }
    ensures steps { ExampleTalkSteps }
{}
