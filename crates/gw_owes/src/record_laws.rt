//! Laws of the records beside what is remembered. Each function does nothing: its contract is the law.
ghost use Rattle.gw_owes.specs.HeardLaws.{EachMeaningFits};
ghost use Rattle.gw_owes.specs.RecordLaws.{EachCutKeepsInOrder, EachLinkKeepsInOrder, EachMessageTakesItsMemory, EachNextTakesItsMemory, EachOverdueKeepsInOrder, EachQueueKeepsInOrder, EachRequestTakesOne, EachRowBringsReadItems, EachRowKeepsInOrder, EachTillGoneLeavesDays, NewCoreIsInOrder};

/// While a terminal is ready none of its keys is open on record, and its last trace number is none below that of its records; while
/// it serves a payment or a reversal, that is its one open key, and the number before is the one with which it was ready; while it
/// serves an end of day, the key of that is unknown, so that its Settled may come next. So it is as a run begins, whatever the records;
/// each item leaves it so, and each event of a link. A row keeps one record at most; it may come after those before it, and a slot is
/// left for the Outcome of each open key and the Settled of each end of day, and two for each request that waits. Memory that is there
/// for a record of each end of day and of each that waits, and for one more, is enough for each request.
pub fn law_records()
    ensures new { NewCoreIsInOrder }
    ensures rows { EachRowKeepsInOrder }
    ensures cuts { EachCutKeepsInOrder }
    ensures links { EachLinkKeepsInOrder }
    ensures queues { EachQueueKeepsInOrder }
    ensures overdue { EachOverdueKeepsInOrder }
    ensures items { EachRowBringsReadItems }
    ensures messages { EachMessageTakesItsMemory }
    ensures next { EachNextTakesItsMemory }
    ensures requests { EachRequestTakesOne }
    ensures gone { EachTillGoneLeavesDays }
{
    gw_ledger::law_next();
    gw_ledger::law_open();
    gw_ledger::law_within();
    gw_ledger::law_named();
    gw_ledger::law_fits();
    zvt_msg::law_read_fits();
}

/// What a message means for a dialogue whose last status was read can be kept in a record.
pub fn law_meanings()
    ensures { EachMeaningFits }
{}
