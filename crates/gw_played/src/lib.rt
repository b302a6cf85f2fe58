//! Honest books there are: along each lawful log whose terminals are played ones, their book is honest.
#![tactic(auto)]

ghost use Rattle.gw_played.specs.DayExample.{PlayedDays};
ghost use Rattle.gw_played.specs.Example.{PlayedExamples};
ghost use Rattle.gw_played.specs.Played.{PlayedAgrees, PlayedIsHonest};
ghost use Rattle.gw_played.specs.ReversalExample.{PlayedReversals};

/// Along each lawful log whose terminals are played ones, each with a setting of its own, so that what is heard of a terminal is a prefix
/// of what it had sent, the book of these terminals, with the places at which they book, is honest: each entry has the command that
/// was sent to its terminal, none comes after its link was replaced, a command has one entry, numbers rise, and each end of a dialogue is
/// true. So the headline holds of it: what was done, and what tills were sent, agrees with it. In the examples a played terminal approves
/// a payment, declines one, and cuts the connection at one, with its entry in the book or without. At the enquiry of its next link it
/// reports the entry, or that there is none, which ends the payment that is open; so it does where the power has failed before. It
/// reverses a payment that it has booked, and books the reversal beside it; and of a payment whose stop it is sent it books what it
/// approves all the same, and nothing where it aborts: a stop that was wished before the command was acknowledged is sent as it is.
/// For an end of day it books nothing, also where it is sent a stop, nor for a display.
pub fn law_played()
    ensures honest { PlayedIsHonest }
    ensures agrees { PlayedAgrees }
    ensures examples { PlayedExamples }
    ensures reversals { PlayedReversals }
    ensures days { PlayedDays }
{
    gw_books::law_headline();
    gw_owes::law_records();
    gw_owes::law_waits();
    gw_ledger::law_next();
    gw_ledger::law_open();
    gw_ledger::law_within();
    gw_ledger::law_named();
    gw_ledger::law_fits();
    zvt_apdu::law_decode_apdus();
    zvt_msg::law_decode_pt_message();
    zvt_msg::law_read_again();
    zvt_msg::law_commands();
    zvt_talk::law_ends();
    zvt_talk::law_talk_steps();
    xlate::law_commands();
}
