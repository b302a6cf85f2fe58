//! Whole JSON text (RFC 8259): read exactly, refused at the exact offset, written in one spelling.
//!
//! This profile allows at most 32 arrays and objects open at once and no member name twice in one object.
//! A number has its text as its value.
//!
//! ```
//! let tree = json_text::read(alloc, b"{\"a\":[1,\"x\"],\"b\":true}")?;
//! assert_eq!(tree.get(b"b").ok_or("b")?.as_bool(), Some(true));
//! let mut out = Vec::new(alloc);
//! json_text::write(alloc, &tree, &mut out)?; // text in its one spelling: that which was read
//! ```
#![tactic(auto)]

mod block;
mod blocks;
mod character;
mod content;
mod digits;
mod fault;
mod laws;
mod literal;
mod members;
mod number;
mod plain;
mod reader;
mod tokens;
mod tree;
mod writer;

pub use fault::{FaultKind, JsonFault, ReadError};
pub use laws::{no_two_written_alike, one_tree_of_a_text, spellable_trees_have_texts};
pub use reader::read;
pub use tree::{Chars, Json, Numeral};
pub use writer::{escaped, write, write_text, written_is_read_again};
