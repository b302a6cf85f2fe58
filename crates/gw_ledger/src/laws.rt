//! Laws of the fold of the records.
ghost use Rattle.gw_ledger.specs.Laws.{CountIsOfOpenSlots, EntriesAreWithin, EntriesStay, LastNumberIsGreatest, NamedIsEntry, NewestIsFirst, OpenSlotIsOpen, OpenStays, OtherKeysStay, OthersLeaveTerminal, OtherTotalsStay, OutcomeFits, PaymentFits, PaymentsAreSettled, ReversalFits, SettledFits, SettledIsAfter, SettledIsFound, TextNamesOne, TotalsBeginAnew};
ghost use Rattle.gw_ledger.specs.Premises.{ExampleNamed, ExampleOpen, ExampleOther, ExampleOutcome, ExamplePayment, ExampleReconciliation, ExampleReversal, ExampleSettledAfter, ExampleSettling, ExampleWithin};
ghost use Rattle.gw_ledger.specs.Reversals.{ExampleReversedOnce, ExampleSecondReversal, OriginalIsPayment, OthersAreDeclined, ReversedIsApproved, ReversedOnce};

/// One more record is the newest of the history, and where it is one of another terminal it leaves a terminal's open slot
/// and its last trace number.
pub fn law_next()
    ensures newest { NewestIsFirst }
    ensures others { OthersLeaveTerminal }
{}

/// The count of open Intents is the number of open slots, and a terminal's open slot is the one that is open and has an
/// Intent of it.
pub fn law_open()
    ensures count { CountIsOfOpenSlots }
    ensures slot { OpenSlotIsOpen }
{}

/// A terminal's last trace number is the greatest in its records.
pub fn law_last_number()
    ensures { LastNumberIsGreatest }
{}

/// A payment is settled where a Settled of its terminal comes after its Outcome.
pub fn law_settled()
    ensures { SettledIsAfter }
{}

/// What one more Settled does: its key has the reconciliation, with the totals up to it, and the totals of its terminal begin
/// anew; the totals of other terminals, what other keys have, each entry, what is open and the last trace numbers stay. Each
/// payment of its terminal that has its Outcome is then settled, and no longer reversed.
pub fn law_settling()
    ensures found { SettledIsFound }
    ensures fresh { TotalsBeginAnew }
    ensures others { OtherTotalsStay }
    ensures keys { OtherKeysStay }
    ensures entries { EntriesStay }
    ensures opened { OpenStays }
    ensures settled { PaymentsAreSettled }
{}

/// A text names at most one entry of a terminal, and what it names is an entry of that terminal.
pub fn law_named()
    ensures one { TextNamesOne }
    ensures entry { NamedIsEntry }
{}

/// Each field of what the ledger returns lies within its limits.
pub fn law_within()
    ensures { EntriesAreWithin }
{}

/// When a record may come next, by what the ledger returns.
pub fn law_fits()
    ensures payment { PaymentFits }
    ensures reversal { ReversalFits }
    ensures outcome { OutcomeFits }
    ensures settled { SettledFits }
{}

/// A payment is reversed at most once: no two records approve a reversal of it, and it counts as reversed where one does. Of
/// two reversals of a payment one is declined, and what a reversal refers to is an earlier payment of its terminal that was
/// approved, with its whole amount.
pub fn law_reversed_once()
    ensures once { ReversedOnce }
    ensures reversed { ReversedIsApproved }
    ensures others { OthersAreDeclined }
    ensures original { OriginalIsPayment }
{}

/// Examples of the laws, which are computed: their premises hold of a day, and of the day with one more payment that is open.
pub fn law_examples()
    ensures next { ExampleOther }
    ensures opened { ExampleOpen }
    ensures settled_after { ExampleSettledAfter }
    ensures named { ExampleNamed }
    ensures within { ExampleWithin }
    ensures payment { ExamplePayment }
    ensures reversal { ExampleReversal }
    ensures outcome { ExampleOutcome }
    ensures reconciliation { ExampleReconciliation }
    ensures settling { ExampleSettling }
    ensures reversed_once { ExampleReversedOnce }
    ensures second_reversal { ExampleSecondReversal }
{}
