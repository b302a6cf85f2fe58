//! The line at which a poll ends.
ghost use Rattle.std.specs.Prelude.{◌≡◌, ◌==◌, true, false, Some, option_map, OnOk, IfOk};
ghost use Rattle.std.specs.Option.{option_copied};
ghost use Rattle.gw_site.specs.Outside.{Outside};
ghost use Rattle.gw_script.specs.site.Playing.{early_hazard, fails_next, is_early, is_off, met, powered};
ghost use Rattle.sim_script.specs.Values.{failing_value, image_value, lines_value, script_line_value};
ghost use Rattle.sim_site.specs.Broughts.{EndsUnskipped};
ghost use Rattle.gw_script.specs.site.Hazards.{no_hazard};
ghost use Rattle.sim_site.specs.Hazards.{hazard_value};
ghost use Rattle.sim_site.specs.Connected.{HasConnections};
ghost use Rattle.sim_site.specs.Sought.{Passes, bare, met_due};
ghost use Rattle.sim_site.specs.Places.{place_value};

use crate::connections::Connections;
use crate::hazard::{Armed, Hazard};
use crate::place::Place;
use sim_script::{FailingCall, ImageKind, ScriptLine};
use std::alloc::{AllocError, Global};

/// Whether a fail line before all lines that poll takes effect before the first run.
pub(crate) fn is_early(failing: FailingCall) -> bool
    ensures { result ≡ is_early (failing_value failing) }
{
    match failing {
        FailingCall::Open | FailingCall::Length | FailingCall::Read => true,
        FailingCall::Link(_)
        | FailingCall::SendTill(_, _)
        | FailingCall::SendPt(_, _)
        | FailingCall::Write
        | FailingCall::Sync => false,
    }
}

/// What is armed before the first run: failing opens, lengths and reads of lines before every line that polls.
pub(crate) fn early_hazard(alloc: Global, lines: &[ScriptLine]) -> Result<Hazard, AllocError>
    ensures { IfOk result (λ hazard. hazard_value hazard ≡ early_hazard no_hazard (lines_value lines.now)) }
{
    let mut hazard = Hazard::none(alloc);
    let mut at = 0;
    while at < lines.len() {
        match &lines[at] {
            ScriptLine::Poll(_) => return Ok(hazard),
            ScriptLine::Fail(failing) if is_early(*failing) => hazard.arm(*failing)?,
            _ => {}
        }
        at += 1;
    }
    Ok(hazard)
}

/// A fail line is passed.
fn pass_failing(
    place: &mut Place,
    failing: FailingCall,
    connections: &Connections,
) -> Result<(), AllocError>
    ensures passes { OnOk result ((o : Outside) → HasConnections o connections.now → bare place.new ≡ fails_next o (failing_value failing) (bare place.old)) }
    ensures at { place.new.at ≡ place.old.at }
    ensures early { place.new.early ≡ place.old.early }
{
    if connections.reaches(failing) {
        place.hazard.arm(failing)?;
    }
    Ok(())
}

/// A power line is passed. True where the power fails at once.
fn pass_power(place: &mut Place, calls: u64, kind: ImageKind) -> bool
    ensures at_once { result ≡ (calls == 0) }
    ensures off { result ≡ true → bare place.new ≡ is_off (image_value kind) (bare place.old) }
    ensures later { result ≡ false → bare place.new ≡ powered calls (image_value kind) (bare place.old) }
    ensures at { place.new.at ≡ place.old.at }
    ensures early { place.new.early ≡ place.old.early }
{
    if calls == 0 {
        place.hazard.power = None;
        place.off = Some(kind);
        return true;
    }
    place.hazard.power = Some(Armed { calls, kind });
    false
}

/// A line is passed. True where the poll ends at it: it brings its event, or the power fails at once.
fn pass(place: &mut Place, line: &ScriptLine, connections: &Connections) -> Result<bool, AllocError>
    ensures unskipped { IfOk result (λ ends. ends ≡ true → (o : Outside) → HasConnections o connections.now → EndsUnskipped o (Some (script_line_value line.now))) }
    ensures passes { IfOk result (λ ends. (o : Outside) → HasConnections o connections.now → Passes o ends place.old place.new (script_line_value line.now)) }
    ensures at { place.new.at ≡ place.old.at }
{
    match line {
        ScriptLine::At(moment) => {
            place.moment = *moment;
            Ok(false)
        }
        ScriptLine::Poll(event) => {
            place.early = false;
            Ok(connections.applies(event))
        }
        ScriptLine::Fail(failing) => {
            if !(place.early && is_early(*failing)) {
                pass_failing(place, *failing, connections)?;
            }
            Ok(false)
        }
        ScriptLine::Power(calls, kind) => Ok(pass_power(place, *calls, *kind)),
        ScriptLine::ForgetPower => {
            place.hazard.power = None;
            Ok(false)
        }
    }
}

/// The line at which a poll ends, where it isn't after the last one; the place is after that line.
pub(crate) fn sought<'a>(
    place: &mut Place,
    lines: &'a [ScriptLine],
    connections: &Connections,
) -> Result<Option<&'a ScriptLine>, AllocError>
    ensures unskipped { IfOk result (λ line. (o : Outside) → HasConnections o connections.now → EndsUnskipped o (option_map script_line_value (option_copied line))) }
    ensures met { IfOk result (λ line. (o : Outside) → HasConnections o connections.now
        → met o (place_value lines.now place.old) (place_value lines.now place.old).lines ≡ record (place_value lines.now place.new) { due = met_due (option_map script_line_value (option_copied line)) }) }
{
    while place.at < lines.len() {
        let line = &lines[place.at];
        place.at += 1;
        if pass(place, line, connections)? {
            return Ok(Some(line));
        }
    }
    Ok(None)
}
