//! The drill: its numbers and its terminals.
ghost use Rattle.std.specs.Prelude.{◌≡◌, ◌≤◌, [], IfOk};
ghost use Rattle.pt_core.specs.History.{terminal_after};
ghost use Rattle.gw_script.specs.site.Drill.{drill_payments, drill_setting, drill_terminals};

use pt_core::Terminal;
use sim_script::{drill_plays, drill_pt};
use std::alloc::{AllocError, Global};

/// The two numbers of a drill.
#[derive(Clone, Copy)]
pub(crate) struct Drill {
    /// The first seed of its draws.
    pub(crate) from: u64,
    pub(crate) payments: u32,
}

/// The terminal of this number, which has met nothing yet.
fn drill_terminal(alloc: Global, pt: u16, from: u64, payments: u32) -> Result<Terminal, AllocError>
    requires { payments ≤ 10000 }
    ensures { IfOk result (λ terminal. terminal ≡ terminal_after (drill_setting pt (drill_payments from payments)) []) }
{
    let plays = drill_plays(alloc, pt, from, payments)?;
    Terminal::new(alloc, &drill_pt(alloc, pt), plays)
}

/// The two terminals of the drill, which have met nothing yet.
pub(crate) fn drill_terminals(
    alloc: Global,
    from: u64,
    payments: u32,
) -> Result<Vec<Terminal>, AllocError>
    requires { payments ≤ 10000 }
    ensures { IfOk result (λ terminals. terminals.items ≡ drill_terminals (drill_payments from payments)) }
{
    let mut terminals = Vec::new(alloc);
    terminals.push(drill_terminal(alloc, 0, from, payments)?)?;
    terminals.push(drill_terminal(alloc, 1, from, payments)?)?;
    Ok(terminals)
}
