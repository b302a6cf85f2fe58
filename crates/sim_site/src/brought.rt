//! What a poll brings.
ghost use Rattle.std.specs.Prelude.{◌≡◌, ◌≤◌, length, take, option_map, IfOk};
ghost use Rattle.std.specs.Option.{option_copied};
ghost use Rattle.sim_script.specs.Values.{script_event_value, script_line_value};
ghost use Rattle.gw_script.specs.site.ScriptLine.{FromTill, FromPt};
ghost use Rattle.sim_site.specs.Broughts.{HasDueTurn, HasEventTurn};

use gw_site::{Turn, What};
use sim_script::{Chunk, ScriptEvent, ScriptLine};
use std::alloc::AllocError;

/// What a poll brings, and the turn of it where it has one.
#[derive(Drop)]
pub(crate) struct Brought {
    pub(crate) what: What,
    pub(crate) turn: Option<Turn>,
}

/// Makes these the first bytes of the buffer.
fn fill(buf: &mut [u8; 4096], bytes: &[u8])
    requires { length bytes.now ≤ 4096 }
    ensures bytes { take (length bytes.now) buf.new ≡ bytes.now }
    ensures buf { length buf.new ≡ 4096 }
{
    buf[..bytes.len()].copy_from_slice(bytes);
}

/// What a till says, and its bytes in the buffer.
fn heard_till(till: u64, chunk: &Chunk, buf: &mut [u8; 4096]) -> Result<Brought, AllocError>
    ensures brought { IfOk result (λ brought. HasEventTurn brought (FromTill till chunk.now.bytes) buf.new) }
    ensures buf { length buf.new ≡ 4096 }
{
    let shared = chunk.share()?;
    let bytes = chunk.as_slice();
    fill(buf, bytes);
    Ok(Brought {
        what: What::TillBytes(till, bytes.len()),
        turn: Some(Turn::HeardTill {
            till,
            bytes: shared,
        }),
    })
}

/// What a terminal says, and its bytes in the buffer.
fn heard_pt(pt: u16, chunk: &Chunk, buf: &mut [u8; 4096]) -> Result<Brought, AllocError>
    ensures brought { IfOk result (λ brought. HasEventTurn brought (FromPt pt chunk.now.bytes) buf.new) }
    ensures buf { length buf.new ≡ 4096 }
{
    let shared = chunk.share()?;
    let bytes = chunk.as_slice();
    fill(buf, bytes);
    Ok(Brought {
        what: What::PtBytes(pt, bytes.len()),
        turn: Some(Turn::HeardPt { pt, bytes: shared }),
    })
}

/// What a poll brings that has met this event.
pub(crate) fn bring_event(event: &ScriptEvent, buf: &mut [u8; 4096]) -> Result<Brought, AllocError>
    ensures brought { IfOk result (λ brought. HasEventTurn brought (script_event_value event.now) buf.new) }
    ensures buf { length buf.new ≡ 4096 }
{
    match event {
        ScriptEvent::Open(till) => Ok(Brought {
            what: What::TillOpened(*till),
            turn: Some(Turn::Opened { till: *till }),
        }),
        ScriptEvent::Close(till) => Ok(Brought {
            what: What::TillClosed(*till),
            turn: Some(Turn::Closed { till: *till }),
        }),
        ScriptEvent::FromTill(till, chunk) => heard_till(*till, chunk, buf),
        ScriptEvent::FromPt(pt, chunk) => heard_pt(*pt, chunk, buf),
        ScriptEvent::Lose(pt) => Ok(Brought {
            what: What::PtClosed(*pt),
            turn: Some(Turn::Lost { pt: *pt }),
        }),
        ScriptEvent::Tick => Ok(Brought {
            what: What::Nothing,
            turn: None,
        }),
    }
}

/// What a poll brings that ends at this line, or after the last one.
pub(crate) fn bring(line: Option<&ScriptLine>, buf: &mut [u8; 4096]) -> Result<Brought, AllocError>
    ensures brought { IfOk result (λ brought. HasDueTurn brought (option_map script_line_value (option_copied line.entry)) buf.new) }
    ensures buf { length buf.new ≡ 4096 }
{
    match line {
        Some(ScriptLine::Poll(event)) => bring_event(event, buf),
        // No poll that brings something ends at another line.
        Some(_) => Ok(Brought {
            what: What::Nothing,
            turn: None,
        }),
        None => Ok(Brought {
            what: What::Stopped,
            turn: Some(Turn::Stopped),
        }),
    }
}
