//! The drill: what a number and a count of payments give to play.
ghost use Rattle.std.specs.Prelude.{◌≡◌, ◌≤◌, ◌∷◌, [], ◌++◌, IfOk, OnOk, option_map};
ghost use Rattle.gw_base.specs.Setup.{IsPt};
ghost use Rattle.gw_script.specs.site.Drill.{drill_given, drill_payments, drill_plays, drill_poi, drill_pt, drill_script, drawn_number, fails_by_draw, image_by_number, next_seed, payment_drawn, play_by_draw, power_by_draw, seed_after_payment};
ghost use Rattle.gw_script.specs.site.Drill as drills;
ghost use Rattle.sim_script.specs.Drawn.{payment_value, power_value};
ghost use Rattle.sim_script.specs.Values.{given_value, image_value, lines_value, whole_script_value};

use crate::drill_lines::push_payment;
use crate::line::{Given, ImageKind, Script, ScriptLine};
use gw_base::{Currency, Ident, Pt, Text};
use pt_core::{Play, Plays};
use std::alloc::{AllocError, Global};

/// When the power fails at a payment, and what this leaves.
#[derive(Clone, Copy)]
pub(crate) struct DrawnPower {
    pub(crate) calls: u64,
    pub(crate) kind: ImageKind,
}

/// One payment of the drill.
#[derive(Clone, Copy)]
pub(crate) struct DrawnPayment {
    /// From 1.
    pub(crate) number: u32,
    /// In minor units.
    pub(crate) amount: u64,
    /// The terminal's number.
    pub(crate) pt: u16,
    /// What the terminal does at it.
    pub(crate) play: Play,
    pub(crate) power: Option<DrawnPower>,
}

/// The seed after one more draw.
fn next_seed(seed: u64) -> u64
    ensures { result ≡ next_seed seed }
{
    seed.wrapping_mul(6_364_136_223_846_793_005)
        .wrapping_add(1_442_695_040_888_963_407)
}

/// The number that was drawn with this seed.
fn drawn_number(seed: u64) -> u64
    ensures { result ≡ drawn_number seed }
{
    seed / 4_294_967_296
}

/// What the terminal does, by the third draw.
fn play_by_draw(draw: u64) -> Play
    ensures { result ≡ play_by_draw draw }
{
    match draw % 8 {
        0 => Play::Decline(0x6C),
        1 => Play::CutAfterBook,
        2 => Play::DropAtOnce,
        _ => Play::Approve,
    }
}

/// Whether the power fails at the payment, by the third draw.
fn fails_by_draw(draw: u64) -> bool
    ensures { result ≡ fails_by_draw draw }
{
    draw % 8 == 3
}

/// What a power failure leaves, by its number.
fn image_by_number(number: u64) -> ImageKind
    ensures { image_value result ≡ image_by_number number }
{
    match number {
        0 => ImageKind::Old,
        1 => ImageKind::New,
        _ => ImageKind::Junk(0xA5),
    }
}

/// When the power fails, by the fourth draw, and what this leaves.
fn power_by_draw(draw: u64) -> DrawnPower
    ensures { power_value result ≡ power_by_draw draw }
{
    DrawnPower {
        calls: draw % 12,
        kind: image_by_number(draw / 12 % 3),
    }
}

/// The power failure at a payment whose third draw has left this seed, if there is one.
fn power_drawn(third: u64) -> Option<DrawnPower>
    ensures { option_map power_value result ≡ drills.power_drawn third }
{
    if fails_by_draw(drawn_number(third)) {
        Some(power_by_draw(drawn_number(next_seed(third))))
    } else {
        None
    }
}

/// The payment of this number that is drawn after this seed.
fn payment_drawn(number: u32, seed: u64) -> DrawnPayment
    ensures value { payment_value result ≡ payment_drawn number seed }
    ensures number { result.number ≡ number }
    ensures amount { result.amount ≤ 100000 }
{
    let first = next_seed(seed);
    let second = next_seed(first);
    let third = next_seed(second);
    DrawnPayment {
        number,
        amount: 1 + drawn_number(first) % 100_000,
        pt: (drawn_number(second) % 2) as u16,
        play: play_by_draw(drawn_number(third)),
        power: power_drawn(third),
    }
}

/// The seed after the draws of one payment.
fn seed_after_payment(seed: u64) -> u64
    ensures { result ≡ seed_after_payment seed }
{
    let third = next_seed(next_seed(next_seed(seed)));
    if fails_by_draw(drawn_number(third)) {
        next_seed(third)
    } else {
        third
    }
}

/// The POIID of the terminal of this number.
pub(crate) fn drill_poi(pt: u16) -> Ident<40>
    ensures { result ≡ drill_poi pt }
{
    if pt == 0 {
        Ident::known(b"T0")
    } else {
        Ident::known(b"T1")
    }
}

/// The terminal of this number, as it is set up.
pub fn drill_pt(alloc: Global, pt: u16) -> Pt
    ensures pt { result ≡ drill_pt pt }
    ensures within { IsPt result }
{
    Pt {
        poi: drill_poi(pt),
        address: Text::new(String::new(alloc)),
        password: [0; 3],
        currency: Currency::Eur,
        config: 0,
        none: 131,
        answer: 5,
        command: 180,
    }
}

/// What the setup lines of the drill give.
fn drill_given(alloc: Global) -> Result<Given, AllocError>
    ensures { IfOk result (λ given. given_value given ≡ drill_given) }
{
    let mut terminals = Vec::new(alloc);
    terminals.push(drill_pt(alloc, 0))?;
    terminals.push(drill_pt(alloc, 1))?;
    Ok(Given {
        name: None,
        queue: None,
        wait: None,
        slots: None,
        terminals,
    })
}

/// The lines of the drill.
fn drill_lines(alloc: Global, from: u64, payments: u32) -> Result<Vec<ScriptLine>, AllocError>
    requires { payments ≤ 10000 }
    ensures { IfOk result (λ lines. lines_value lines.items ≡ drills.drill_lines (drill_payments from payments)) }
{
    let mut lines = Vec::new(alloc);
    let mut seed = from;
    let mut number = 0;
    while number < payments {
        let payment = payment_drawn(number + 1, seed);
        push_payment(alloc, &mut lines, &payment)?;
        number += 1;
        seed = seed_after_payment(seed);
    }
    Ok(lines)
}

/// The script of the drill: so many payments, drawn from this number on.
pub fn drill_script(alloc: Global, from: u64, payments: u32) -> Result<Script, AllocError>
    requires { payments ≤ 10000 }
    ensures { IfOk result (λ script. whole_script_value script ≡ drill_script from payments) }
{
    Ok(Script {
        given: drill_given(alloc)?,
        lines: drill_lines(alloc, from, payments)?,
    })
}

/// Adds what a terminal does at a payment, where it is that of this number.
fn push_play(plays: &mut Vec<Play>, pt: u16, payment: &DrawnPayment) -> Result<(), AllocError>
    ensures { OnOk result (plays.new.items ≡ plays.old.items ++ drill_plays pt (payment_value payment.now ∷ [])) }
{
    if payment.pt == pt {
        plays.push(payment.play)?;
    }
    Ok(())
}

/// What the terminal of this number does at its payments of the drill, in their order.
pub fn drill_plays(alloc: Global, pt: u16, from: u64, payments: u32) -> Result<Plays, AllocError>
    requires { payments ≤ 10000 }
    ensures { IfOk result (λ plays. plays ≡ drill_plays pt (drill_payments from payments)) }
{
    let mut plays = Vec::new(alloc);
    let mut seed = from;
    let mut number = 0;
    while number < payments {
        let payment = payment_drawn(number + 1, seed);
        push_play(&mut plays, pt, &payment)?;
        number += 1;
        seed = seed_after_payment(seed);
    }
    Ok(Plays::new(plays))
}
