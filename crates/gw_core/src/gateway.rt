//! What the setup of a run says of the gateway itself.
use gw_base::Ident;

/// What the setup of a run says of the gateway itself.
#[derive(Clone, Copy)]
pub struct Gateway {
    /// Under which it rejects messages.
    pub name: Ident<40>,
    /// How many records its journal may have.
    pub slots: u32,
    /// How many requests may wait for one terminal.
    pub line: u8,
    /// For how many seconds a request may wait.
    pub wait: u32,
}
