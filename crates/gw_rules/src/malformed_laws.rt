//! Laws of lawful logs on malformed bytes: they change no books. Each function does nothing: its contract is the law.
ghost use Rattle.gw_rules.specs.MalformedLaws.{EachApduChangesNoBooks, EachCrowdedLeavesOthers, EachFrameChangesNoBooks, EachMessageChangesNoBooks, EachOfGoneTillLeavesOthers, EachTerminalItemLeavesOthers, EachTillItemLeavesOthers, EachTooLongChangesNoBooks};

/// In a lawful log no malformed bytes of a till change the books: a message that is no JSON or no message of a till, and bytes that begin no frame.
/// At each place of the log, whatever comes next, their item owes the till its reply or its cut and nothing else, and where the till is gone
/// nothing. The records that are kept, the ledger, the file and each queue are as before, and so is all else; but where the till is cut it is
/// gone, and its own requests wait no longer. The same holds of a till more than may be there, which is cut. In a round that ends with a poll
/// their item begins before that.
pub fn law_malformed_till_bytes()
    ensures each_item { EachTillItemLeavesOthers }
    ensures gone { EachOfGoneTillLeavesOthers }
    ensures crowded { EachCrowdedLeavesOthers }
    ensures message { EachMessageChangesNoBooks }
    ensures frame { EachFrameChangesNoBooks }
{}

/// In a lawful log no malformed bytes of a terminal change the books: an APDU outside the grammar, and bytes that begin one above the limit.
/// At each place of the log, whatever comes next, their item owes the terminal its cut and nothing else, and where its link was cut before
/// nothing. The records that are kept, the ledger, the file and each queue are as before, and so is all else but that link and what its loss
/// brings: the till of an end of day or a display gets its reply, and where that can't be sent the till is cut, and its own requests wait no
/// longer. In a round that ends with a poll their item begins before that.
pub fn law_malformed_terminal_bytes()
    ensures each_item { EachTerminalItemLeavesOthers }
    ensures outside { EachApduChangesNoBooks }
    ensures too_long { EachTooLongChangesNoBooks }
{}
