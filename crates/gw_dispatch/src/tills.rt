//! The tills that are there, each with the reader of its frames.
ghost use Rattle.std.specs.Prelude.{◌≡◌, ◌⊎◌, ◌++◌, ◌∷◌, ◌<◌, [], ℕ, ℤ, List, OnOk, OnErr, IfSome, length};
ghost use Rattle.gw_base.specs.declared.setup.Setup.{Setup};
ghost use Rattle.jrn_record.specs.declared.records.Record.{Record};
ghost use Rattle.sale_reply.specs.Limits.{IsWithinLimits};
ghost use Rattle.sale_reply.specs.Reply.{tree_of};
ghost use Rattle.gw_owes.specs.Calls.{CutTill, SendTill};
ghost use Rattle.gw_owes.specs.Items.{RoundItem};
ghost use Rattle.gw_owes.specs.Reply.{ReplyValue, reply_value_tree};
ghost use Rattle.gw_owes.specs.Terminals.{core_without};
ghost use Rattle.gw_rules.specs.Triple.{Triple};
ghost use Rattle.gw_dispatch.specs.Growth.{GoesOnBesideDisk};
ghost use Rattle.gw_dispatch.specs.MidRound.{AreHeard, MidRound};
ghost use Rattle.gw_dispatch.specs.Tills.{AllStillHold, rank, others};

use crate::replier::Replier;
use gw_core::Core;
use gw_site::Site;
use sale_frame::FrameReader;
use sale_reply::SaleReply;
use std::alloc::{AllocError, Global};

/// A till, by the number of its connection.
#[derive(Drop)]
pub(crate) struct Till {
    pub(crate) number: u64,
    pub(crate) reader: FrameReader,
}

/// The index of the till of this number.
pub(crate) fn index_of(tills: &[Till], number: u64) -> Option<usize>
    ensures index { result ≡ rank number tills.now }
    ensures within { IfSome result (λ index. index < length tills.now) }
{
    let mut index = 0;
    while index < tills.len() {
        if tills[index].number == number {
            return Some(index);
        }
        index += 1;
    }
    None
}

/// A till has opened.
pub(crate) fn open_till(alloc: Global, tills: &mut Vec<Till>, number: u64) -> Result<(), AllocError>
    ensures ok { OnOk result (tills.new.items ≡ tills.old.items ++ record { number = number; reader = [] } ∷ []) }
    ensures err { OnErr result (tills.new.items ≡ tills.old.items) }
{
    let reader = FrameReader::new(alloc)?;
    tills.push(Till { number, reader })?;
    Ok(())
}

/// A till is gone.
pub(crate) fn drop_till(tills: &mut Vec<Till>, number: u64)
    ensures { tills.new.items ≡ others tills.old.items number }
{
    tills.retain(|till| till.number != number);
}

/// The tills that are there, and what makes the replies to them.
#[derive(Drop)]
pub(crate) struct Tills {
    pub(crate) replier: Replier,
    pub(crate) list: Vec<Till>,
}

/// Cuts a till's connection, and forgets it: replies to it aren't sent later.
pub(crate) fn cut_till<S: Site>(core: &mut Core, tills: &mut Tills, site: &mut S, till: u64)
    ensures triple { (setup : Setup) (kept : List Record) (polls : ℕ) (now : ℤ) (heard : ℕ → List ℕ) (items : List RoundItem) → Triple (S.observed site.old) (S.observed site.new)
        (MidRound setup core.old kept tills.old.list.items polls now (AreHeard heard) (CutTill till ∷ []) items)
        (MidRound setup core.new kept tills.new.list.items polls now (AreHeard heard) [] items) }
    ensures core { core.new ≡ core_without core.old till }
    ensures list { tills.new.list.items ≡ others tills.old.list.items till }
    ensures goes_on { GoesOnBesideDisk (S.observed site.old) (S.observed site.new) }
{
    site.cut_till(till);
    drop_till(&mut tills.list, till);
    core.forget(till);
}

/// Sends a till a reply. Where that fails it is cut, by which it learns that it has lost one.
pub(crate) fn deliver<S: Site>(
    core: &mut Core,
    tills: &mut Tills,
    site: &mut S,
    till: u64,
    reply: &SaleReply<'_>,
)
    requires { IsWithinLimits reply.now }
    ensures triple { (owed : ReplyValue) → tree_of reply.now ≡ reply_value_tree owed → (setup : Setup) (kept : List Record) (polls : ℕ) (now : ℤ) (heard : ℕ → List ℕ) (items : List RoundItem) → Triple (S.observed site.old) (S.observed site.new)
        (MidRound setup core.old kept tills.old.list.items polls now (AreHeard heard) (SendTill till owed ∷ []) items)
        (MidRound setup core.new kept tills.new.list.items polls now (AreHeard heard) [] items) }
    ensures core { (core.new ≡ core.old) ⊎ (core.new ≡ core_without core.old till) }
    ensures still { AllStillHold tills.old.list.items tills.new.list.items }
    ensures goes_on { GoesOnBesideDisk (S.observed site.old) (S.observed site.new) }
{
    if tills.replier.send_reply(site, till, reply) {
        return;
    }
    cut_till(core, tills, site, till);
}
