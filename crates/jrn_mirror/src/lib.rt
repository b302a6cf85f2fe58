//! A journal on two disks: a pair of disks with the connections of a site, and the site of one disk that stands for both.
#![tactic(auto)]

ghost use Rattle.jrn_mirror.specs.Laws.{OneHasImages, OneGrows, DisksHoldOne, LinesAreOne, JointHasOutside, CrashStaysMirrored};
ghost use Rattle.jrn_mirror.specs.Examples.{FirstOpening, FirstOpeningBroken, PairOpenFailed, BothWrite, BothSync, OneSyncs, FirstLostAtWrite, SecondLostAtWrite, FirstLostAtSync, SecondLostAtSync, FirstLostAtLook, BothLostAtWrite, BothLostAtSync, BothLostAtOpening, BothLostBefore, CrashInWrite, CrashLosesWrite, CrashInSync, CrashInCopying, CrashTwice, PlainStop, OpeningOfOne, SourceLostInCopying, TargetLostInCopying, LostBetweenSyncs, UnopenedFile, UnopenedDisks, ApartStandsFor, ApartIsNoImage, CopiesAllStandsFor, CopiesAllIsNoImage, ReplacedFirst, ReplacedIsNoImage, ReplacedSecond, CopiedIsMirrored};

mod copying;
mod halves;
mod mirror;
mod opening;
mod pair;
mod turn;

pub use mirror::Mirror;
pub use pair::Pair;
pub use turn::{Half, Turn2, Turns2};

/// The log of one disk that a log of two stands for only grows; where the two disks were used as one from the first turn
/// on, each power failure in it leaves an image of what comes before it, and in a run each disk that is there holds its
/// file between the calls.
pub fn law_one()
    ensures grows { OneGrows }
    ensures images { OneHasImages }
    ensures files { DisksHoldOne }
    ensures lines { LinesAreOne }
    ensures outside { JointHasOutside }
    ensures crash { CrashStaysMirrored }
{}

/// What a log of two disks stands for, in examples.
pub fn law_one_examples()
    ensures first_opening { FirstOpening }
    ensures first_opening_broken { FirstOpeningBroken }
    ensures pair_open_failed { PairOpenFailed }
    ensures both_write { BothWrite }
    ensures both_sync { BothSync }
    ensures one_syncs { OneSyncs }
    ensures first_lost_at_write { FirstLostAtWrite }
    ensures second_lost_at_write { SecondLostAtWrite }
    ensures first_lost_at_sync { FirstLostAtSync }
    ensures second_lost_at_sync { SecondLostAtSync }
    ensures first_lost_at_look { FirstLostAtLook }
    ensures both_lost_at_write { BothLostAtWrite }
    ensures both_lost_at_sync { BothLostAtSync }
    ensures both_lost_at_opening { BothLostAtOpening }
    ensures both_lost_before { BothLostBefore }
    ensures crash_in_write { CrashInWrite }
    ensures crash_loses_write { CrashLosesWrite }
    ensures crash_in_sync { CrashInSync }
    ensures crash_in_copying { CrashInCopying }
    ensures crash_twice { CrashTwice }
    ensures plain_stop { PlainStop }
    ensures opening_of_one { OpeningOfOne }
    ensures source_lost { SourceLostInCopying }
    ensures target_lost { TargetLostInCopying }
    ensures lost_between_syncs { LostBetweenSyncs }
{}

/// Where the rule needs its premises: that a mirror is opened before it is used, that nobody else writes the disks, that
/// an opening writes no byte that is equal, and that no disk comes back empty. And one log that meets them.
pub fn law_premise_examples()
    ensures unopened_file { UnopenedFile }
    ensures unopened_disks { UnopenedDisks }
    ensures apart { ApartStandsFor }
    ensures apart_no_image { ApartIsNoImage }
    ensures copies_all { CopiesAllStandsFor }
    ensures copies_all_no_image { CopiesAllIsNoImage }
    ensures replaced_first { ReplacedFirst }
    ensures replaced_no_image { ReplacedIsNoImage }
    ensures replaced_second { ReplacedSecond }
    ensures copied { CopiedIsMirrored }
{}
