//! What a run remembers and keeps.
use crate::records::Records;
use gw_core::{Core, Gateway};

/// What the gateway is, what it remembers of its terminals, and the records that it keeps.
#[derive(Drop)]
pub(crate) struct RunState {
    pub(crate) gateway: Gateway,
    pub(crate) core: Core,
    pub(crate) records: Records,
}
