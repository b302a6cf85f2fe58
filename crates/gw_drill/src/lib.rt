//! What a drill counts, and the books of its terminals: what its log says of them, and that they are honest for it.
#![tactic(auto)]

mod counts;

ghost use Rattle.gw_drill.specs.CountsExample.{NothingIsCounted, OneIsCounted};
ghost use Rattle.gw_drill.specs.DrillBooks.{DrillIsAt, DrillIsHonest};

pub use counts::Counts;

/// Along each lawful log whose runs start with the drill's setup, and in which each hearing of a terminal is of what it had sent, the
/// books of the drill's terminals, with the places at which they book, are honest. So the headline holds of each drill: what was done,
/// and what tills were sent, agrees with these books. They are the books that the commands sent to the terminals give, by their numbers.
/// Wherever the drill is played to, its terminals have these books, and what was heard of them is a prefix of what they had sent.
pub fn law_drill_books()
    ensures honest { DrillIsHonest }
    ensures at { DrillIsAt }
{
    gw_played::law_played();
    pt_core::law_met();
    zvt_apdu::law_decode_apdus();
}

/// The six lines of a drill with no payment, and of one with an approved payment: these are computed.
pub fn law_drill_counts()
    ensures none { NothingIsCounted }
    ensures one { OneIsCounted }
{}
