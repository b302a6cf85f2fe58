//! The outside of the gateway: one object for connections and disk, whose log a proof may observe, and the streams of a
//! program.
#![tactic(auto)]

ghost use Rattle.gw_site.specs.Laws.{StableIsImage, FileIsImage, JunkIsImage};

mod memory;
mod no_site;
mod on_heap;
mod site;
mod standard;
mod streams;
mod turn;

pub use memory::{MemSink, MemSource};
pub use no_site::NoSite;
pub use on_heap::{BoxedSetup, SharedBytes};
pub use site::{Failed, Polled, Site, What};
pub use standard::{StdSink, StdSource};
pub use streams::{Sink, Source};
pub use turn::{Turn, Turns};

/// After every log a power failure may leave the file of the last sync, the file with all writes, or the latter with one
/// byte over all that was written since that sync.
pub fn law_images()
    ensures stable { StableIsImage }
    ensures file { FileIsImage }
    ensures junk { JunkIsImage }
{}
