//! The replies to the tills.
ghost use Rattle.std.specs.Prelude.{◌≡◌, ◌∷◌, [], ℕ, ℤ, List};
ghost use Rattle.gw_base.specs.declared.setup.Setup.{Setup};
ghost use Rattle.jrn_record.specs.declared.records.Record.{Record};
ghost use Rattle.sale_reply.specs.Limits.{IsWithinLimits};
ghost use Rattle.sale_reply.specs.Reply.{tree_of};
ghost use Rattle.gw_owes.specs.Calls.{SendTill};
ghost use Rattle.gw_owes.specs.Core.{Core};
ghost use Rattle.gw_owes.specs.Items.{RoundItem};
ghost use Rattle.gw_owes.specs.Reply.{ReplyValue, reply_value_tree};
ghost use Rattle.gw_rules.specs.Triple.{Triple};
ghost use Rattle.gw_dispatch.specs.Growth.{GoesOnBesideDisk};
ghost use Rattle.gw_dispatch.specs.MidRound.{AreHeard, MidRound};
ghost use Rattle.gw_dispatch.specs.Round.{calls_after_send};
ghost use Rattle.gw_dispatch.specs.declared.tills.Till.{Till};

use gw_site::Site;
use sale_reply::{Out, SaleReply, write_reply};
use std::alloc::Global;

/// Makes the replies of a run, and sends them.
#[derive(Drop)]
pub(crate) struct Replier {
    pub(crate) alloc: Global,
    /// One buffer for all replies of the run, so that no reply has to take memory.
    pub(crate) out: Out,
}

impl Replier {
    /// Sends a till a reply. False where that fails: its connection is to be cut then.
    pub(crate) fn send_reply<S: Site>(
        &mut self,
        site: &mut S,
        till: u64,
        reply: &SaleReply<'_>,
    ) -> bool
        requires { IsWithinLimits reply.now }
        ensures triple { (owed : ReplyValue) → tree_of reply.now ≡ reply_value_tree owed → (setup : Setup) (core : Core) (kept : List Record) (tills : List Till) (polls : ℕ) (now : ℤ) (heard : ℕ → List ℕ) (items : List RoundItem) → Triple (S.observed site.old) (S.observed site.new)
            (MidRound setup core kept tills polls now (AreHeard heard) (SendTill till owed ∷ []) items)
            (MidRound setup core kept tills polls now (AreHeard heard) (calls_after_send result till) items) }
        ensures goes_on { GoesOnBesideDisk (S.observed site.old) (S.observed site.new) }
    {
        write_reply(reply, &mut self.out);
        site.send_till(till, self.out.as_bytes()).is_ok()
    }
}
