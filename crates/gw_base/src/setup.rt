//! The setup of a gateway and of its terminals.
ghost use Rattle.std.specs.Prelude.{◌≢◌, ◌↔◌, IsTrue, All};
ghost use Rattle.gw_base.specs.Setup.{IsPt, HaveDistinctPois};

use crate::{Currency, Ident, Text};
use gw_bytes::{
    FEWEST_SLOTS, LONGEST_ANSWER, LONGEST_WAIT, MOST_SLOTS, MOST_TERMINALS, MOST_WAITING,
};
use std::marker::Model;

/// One terminal, which a POIID names.
#[derive(Clone, Drop)]
pub struct Pt {
    pub poi: Ident<40>,
    /// The address at which it listens, as `host:port`.
    pub address: Text,
    /// The password of a registration, six BCD digits.
    pub password: [u8; 3],
    pub currency: Currency,
    /// The configuration byte of a registration.
    pub config: u8,
    /// The code with which the terminal reports that it has no last transaction.
    pub none: u8,
    /// How long the terminal may take to acknowledge or refuse a command, 1 to 60 seconds.
    pub answer: u32,
    /// How long a begun command may take to send its next message, 1 to 3,600 seconds.
    pub command: u32,
}

impl Pt {
    ghost use Rattle.std.specs.Prelude.{◌↔◌, IsTrue};
    ghost use Rattle.gw_base.specs.Setup.{IsPt};

    /// Whether the numbers and the password lie within this profile's limits.
    pub fn is_within_limits(&self) -> bool
        ensures { IsTrue result ↔ IsPt self.now }
    {
        // The proof takes the limits of an identifier and of the two bytes from these calls and copies.
        let _poi = self.poi.as_bytes();
        let (_config, _none) = (self.config, self.none);
        self.password
            .iter()
            .all(|byte| byte / 16 <= 9 && byte % 16 <= 9)
            && (1..=u32::from(LONGEST_ANSWER)).contains(&self.answer)
            && (1..=u32::from(LONGEST_WAIT)).contains(&self.command)
    }
}

/// The terminals, in the order of their numbers. A contract sees a list.
#[derive(Clone, Drop)]
pub struct Pts {
    inner: Vec<Pt>,
}

impl Model for Pts {
    ghost use Rattle.std.specs.Prelude.{List};
    ghost use Rattle.gw_base.specs.declared.setup.Pt.{Pt};

    ghost Value = { List Pt };

    ghost view = { λ pts. pts.inner.items };
}

impl Pts {
    ghost use Rattle.std.specs.Prelude.{◌≡◌};

    /// The terminals of this vector.
    pub fn new(inner: Vec<Pt>) -> Pts
        ensures { result ≡ inner.items }
    {
        Pts { inner }
    }

    /// The vector.
    pub fn inner(&self) -> &Vec<Pt>
        ensures { result.now.items ≡ self.now }
    {
        &self.inner
    }

    /// The terminals as a slice.
    pub fn as_slice(&self) -> &[Pt]
        ensures { result.now ≡ self.now }
    {
        &self.inner
    }
}

/// A gateway's setup.
#[derive(Clone, Drop)]
pub struct Setup {
    /// The gateway's name, given as POIID where a message's own was not read.
    pub name: Ident<40>,
    /// The address at which tills connect, as `host:port`.
    pub listen: Text,
    /// The path of the journal.
    pub journal: Text,
    /// How many requests may wait for one terminal, 0 to 8.
    pub line: u8,
    /// How long a request may wait, 1 to 3,600 seconds.
    pub wait: u32,
    /// How many records the journal holds, 2 to 1,000,000.
    pub slots: u32,
    pub terminals: Pts,
}

impl Setup {
    ghost use Rattle.std.specs.Prelude.{◌↔◌, IsTrue};
    ghost use Rattle.gw_base.specs.Setup.{IsSetup};

    /// Whether the numbers lie within this profile's limits, and there are at most 32 terminals, each within its own limits
    /// and with a POIID of its own.
    pub fn is_within_limits(&self) -> bool
        ensures { IsTrue result ↔ IsSetup self.now }
    {
        // The proof takes the limits of an identifier from this call.
        let _name = self.name.as_bytes();
        let terminals = self.terminals.as_slice();
        if self.line > MOST_WAITING || terminals.len() > MOST_TERMINALS {
            return false;
        }
        if !(1..=u32::from(LONGEST_WAIT)).contains(&self.wait) {
            return false;
        }
        if !(FEWEST_SLOTS..=MOST_SLOTS).contains(&self.slots) {
            return false;
        }
        are_within_limits(terminals) && have_distinct_pois(terminals)
    }
}

/// Whether each of these terminals has a POIID of its own.
///
/// Each is compared with those after it; a setup has at most 32, so no set of names is built.
fn have_distinct_pois(terminals: &[Pt]) -> bool
    ensures { IsTrue result ↔ HaveDistinctPois terminals.now }
{
    let Some((first, rest)) = terminals.split_first() else {
        return true;
    };
    lack_poi(rest, &first.poi) && have_distinct_pois(rest)
}

/// Whether none of these terminals has this POIID.
fn lack_poi(terminals: &[Pt], poi: &Ident<40>) -> bool
    ensures { IsTrue result ↔ All (λ pt. poi.now ≢ pt.poi) terminals.now }
{
    terminals.iter().all(|pt| *poi != pt.poi)
}

/// Whether each of these terminals lies within this profile's limits.
fn are_within_limits(terminals: &[Pt]) -> bool
    ensures { IsTrue result ↔ All IsPt terminals.now }
{
    terminals.iter().all(|pt| pt.is_within_limits())
}
