//! The device requests that print what a terminal's message has.
ghost use Rattle.std.specs.Prelude.{◌≡◌, ◌⊎◌, ◌≤◌, ◌∷◌, [], ℕ, ℤ, List, length, map};
ghost use Rattle.gw_base.specs.declared.setup.Setup.{Setup};
ghost use Rattle.jrn_record.specs.declared.records.Record.{Record};
ghost use Rattle.sale_reply.specs.Limits.{IsHeaderWithinLimits};
ghost use Rattle.zvt_msg.specs.BlockDecode.{decode_block_lines};
ghost use Rattle.gw_owes.specs.Calls.{SendTill};
ghost use Rattle.gw_owes.specs.Items.{RoundItem};
ghost use Rattle.gw_owes.specs.Reply.{PrintRequest};
ghost use Rattle.gw_owes.specs.Terminals.{core_without};
ghost use Rattle.gw_rules.specs.Triple.{Triple};
ghost use Rattle.gw_core.specs.IsRow.{AreFewLines, lines_printed};
ghost use Rattle.gw_dispatch.specs.Growth.{GoesOnBesideDisk};
ghost use Rattle.gw_dispatch.specs.MidRound.{AreHeard, MidRound};
ghost use Rattle.gw_dispatch.specs.Tills.{AllStillHold};

use crate::tills::{Tills, deliver};
use arrayvec::ArrayVec;
use gw_core::{Core, Printed};
use gw_site::Site;
use sale_msg::Header;
use sale_reply::SaleReply;
use zvt_msg::Lines437;

/// Adds the lines of a block, of which there are at most 400.
fn add_block<'a>(texts: &mut ArrayVec<&'a [u8], 400>, block: &'a [u8])
    requires none { texts.old.items ≡ [] }
    requires few { length (decode_block_lines block.now) ≤ 400 }
    ensures { map (λ text. text.now) texts.new.items ≡ decode_block_lines block.now }
{
    let mut rest = Lines437::over(block);
    while let Some(text) = rest.next() {
        texts.push(text);
    }
}

/// Adds the lines that are printed.
fn add_printed<'a>(texts: &mut ArrayVec<&'a [u8], 400>, printed: Printed<'a>)
    requires none { texts.old.items ≡ [] }
    requires few { AreFewLines (lines_printed printed) }
    ensures { map (λ text. text.now) texts.new.items ≡ lines_printed printed.entry }
{
    match printed {
        Printed::Line(text) => texts.push(text),
        Printed::Block(block) => add_block(texts, block),
    }
}

/// Sends a till the device request with this header that prints these lines. They are put together here, and nowhere kept.
pub(crate) fn print<S: Site>(
    core: &mut Core,
    tills: &mut Tills,
    site: &mut S,
    till: u64,
    header: &Header,
    printed: Printed<'_>,
)
    requires heading { IsHeaderWithinLimits header.now }
    requires few { AreFewLines (lines_printed printed) }
    ensures triple { (setup : Setup) (kept : List Record) (polls : ℕ) (now : ℤ) (heard : ℕ → List ℕ) (items : List RoundItem) → Triple (S.observed site.old) (S.observed site.new)
        (MidRound setup core.old kept tills.old.list.items polls now (AreHeard heard) (SendTill till (PrintRequest header.now (lines_printed printed.entry)) ∷ []) items)
        (MidRound setup core.new kept tills.new.list.items polls now (AreHeard heard) [] items) }
    ensures core { (core.new ≡ core.old) ⊎ (core.new ≡ core_without core.old till) }
    ensures still { AllStillHold tills.old.list.items tills.new.list.items }
    ensures goes_on { GoesOnBesideDisk (S.observed site.old) (S.observed site.new) }
{
    let mut texts = ArrayVec::new();
    add_printed(&mut texts, printed);
    let request = SaleReply::PrintRequest {
        header: *header,
        lines: texts.as_slice(),
    };
    deliver(core, tills, site, till, &request);
}
