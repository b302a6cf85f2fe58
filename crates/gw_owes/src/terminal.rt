//! What the gateway remembers of a terminal, and of a logout. Definitions take these types as they are.
use gw_base::{Ident, Pt};
use sale_reply::OutputResults;
use sale_values::{Header, Period};
use zvt_talk::Talk;

/// What a terminal serves.
#[derive(Drop)]
pub enum Service {
    /// A payment or a reversal, by the slot of its Intent.
    Transaction {
        slot: u32,
    },
    EndOfDay {
        header: Header,
        period: Period,
    },
    /// A display, with the results that its till gets, in which no output is shown yet; `None` where no output asks for one.
    Display {
        header: Header,
        results: Option<OutputResults>,
    },
}

/// The standing of a terminal.
#[derive(Drop)]
pub enum Standing {
    /// It is linked again at this moment; `None`: at once.
    Unlinked { due: Option<u64> },
    Registering,
    Enquiring,
    /// With its last trace number.
    Ready { last: u32 },
    /// With the last trace number that it was ready with.
    Serving { service: Service, last: u32 },
    /// The trace number before, and the one that was reported.
    Aside { before: u32, reported: u32 },
}

/// A terminal, with its dialogue and who waits for it.
#[derive(Drop)]
pub struct Terminal {
    pub pt: Pt,
    pub standing: Standing,
    /// The dialogue that runs.
    pub talk: Option<Talk>,
    /// How many Acks and Nacks are awaited: the commands sent on the link, less those heard on it; never below 0. At its
    /// greatest value it stays until the next link.
    pub awaited: u32,
    /// The till, where it is there, that asked for what is served, or for the open key that was begun in this run.
    pub asker: Option<u64>,
}

/// A SaleID that is logged out at a POIID.
#[derive(Drop)]
pub struct LoggedOut {
    pub sale: Ident<40>,
    pub poi: Ident<40>,
}
