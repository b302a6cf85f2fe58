//! Reading the whole script: its setup lines, and the lines that are played. Making the script of a drill.
#![tactic(auto)]

mod drill;
mod drill_lines;
mod fault;
mod line;
mod played_line;
mod reader;
mod setup_line;
mod word;

pub use drill::{drill_plays, drill_pt, drill_script};
pub use fault::ScriptFault;
pub use line::{Chunk, FailingCall, Given, ImageKind, Script, ScriptEvent, ScriptLine, SetupLine};
pub use reader::{ReadEntry, entry_of, first_text, read_script};
