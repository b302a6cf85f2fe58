//! A poll of a script.
ghost use Rattle.std.specs.Prelude.{◌≡◌, IfOk, None, [], length};
ghost use Rattle.sim_script.specs.Values.{script_event_value};
ghost use Rattle.sim_site.specs.Broughts.{HasEventTurn};
ghost use Rattle.sim_site.specs.Connected.{IsFollowed};
ghost use Rattle.sim_site.specs.Made.{EndsPoll};
ghost use Rattle.sim_site.specs.Peering.{peers_value};

use crate::brought::{Brought, bring, bring_event};
use crate::connections::Connections;
use crate::place::Place;
use crate::sought::sought;
use sim_script::{ScriptEvent, ScriptLine};
use std::alloc::AllocError;

/// The script is played up to the line at which the poll ends, and the connections follow what it brings. Nothing where the
/// power fails at that line. Nothing is to come of played terminals.
fn polled_lines(
    place: &mut Place,
    lines: &[ScriptLine],
    connections: &mut Connections,
    buf: &mut [u8; 4096],
) -> Result<Option<Brought>, AllocError>
    requires power { place.old.off ≡ None }
    requires coming { (peers_value place.old.peers).coming ≡ [] }
    ensures polled { IfOk result (λ brought. EndsPoll lines.now place.old place.new connections.old connections.new buf.new brought) }
    ensures buf { length buf.new ≡ 4096 }
{
    let line = sought(place, lines, connections)?;
    if place.off.is_some() {
        return Ok(None);
    }
    let brought = bring(line, buf)?;
    connections.follow(brought.what).and(Ok(Some(brought)))
}

/// An event of a terminal is brought, and the connections follow it.
fn bring_next(
    event: ScriptEvent,
    connections: &mut Connections,
    buf: &mut [u8; 4096],
) -> Result<Brought, AllocError>
    ensures brought { IfOk result (λ brought. HasEventTurn brought (script_event_value event) buf.new) }
    ensures followed { IfOk result (λ brought. IsFollowed connections.old connections.new brought.what) }
    ensures buf { length buf.new ≡ 4096 }
{
    let brought = bring_event(&event, buf)?;
    connections.follow(brought.what).and(Ok(brought))
}

/// What is still to come of played terminals is brought, one event a poll; then the script goes on as `polled_lines` says.
pub(crate) fn polled(
    place: &mut Place,
    lines: &[ScriptLine],
    connections: &mut Connections,
    buf: &mut [u8; 4096],
) -> Result<Option<Brought>, AllocError>
    requires { place.old.off ≡ None }
    ensures polled { IfOk result (λ brought. EndsPoll lines.now place.old place.new connections.old connections.new buf.new brought) }
    ensures buf { length buf.new ≡ 4096 }
{
    match place.next(connections) {
        Some(event) => Ok(Some(bring_next(event, connections, buf)?)),
        None => polled_lines(place, lines, connections, buf),
    }
}
