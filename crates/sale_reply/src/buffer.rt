//! The buffer of a message to a till.
ghost use Rattle.std.specs.Prelude.{◌≡◌, ◌<◌, ◌≤◌, [], ◌∷◌, ◌++◌, length, drop, IfOk, flat_map, encode_utf8};
ghost use Rattle.sale_reply.specs.Texts.{line_text};
ghost use Rattle.json_text.specs.Canonical.{canonical_string, canonical_byte};
ghost use Rattle.sale_frame.specs.Grammar.{frame};
ghost use Rattle.sale_values.specs.PartBytes.{part_text, parts_text};
ghost use Rattle.sale_reply.specs.inner.CanonicalMembers.{first_name, next_name, first_text, next_text, next_optional, next_number};
ghost use Rattle.sale_reply.specs.inner.Appends.{Appends};
ghost use Rattle.sale_reply.specs.inner.ShownByte.{shown_byte};

use crate::plain::{ascii_len, plain_len};
use gw_base::{Ident, char_of_437};
use gw_bytes::{FRAME_LENGTH_SIZE, LONGEST_PAYLOAD};
use json_text::escaped;
use sale_frame::frame_length;
use sale_values::Part;
use std::alloc::{AllocError, Global};
use std::marker::Model;

/// A frame's length and the longest message: a message that fits a frame always fits the buffer.
const ROOM: usize = FRAME_LENGTH_SIZE + LONGEST_PAYLOAD as usize;

/// A message to a till in its frame: four bytes of length, most significant first, and at most 65,536 bytes of JSON
/// text. A contract sees the bytes.
///
/// Its memory is taken once; no message takes more.
#[derive(Drop)]
pub struct Out {
    bytes: Vec<u8>,
}

impl Model for Out {
    ghost use Rattle.std.specs.Prelude.{◌≤◌, List, ℕ, length};
    ghost use Rattle.std.specs.Vec.{vec_capacity};

    ghost Value = { List ℕ };

    ghost view = { λ out. out.bytes.items };

    ghost invariant = { λ out. (length out.bytes.items ≤ 65540) × (65540 ≤ vec_capacity out.bytes) };
}

impl Out {
    /// An empty buffer.
    pub fn new(alloc: Global) -> Result<Out, AllocError>
        ensures { IfOk result (λ out. out ≡ []) }
    {
        Ok(Out {
            bytes: Vec::with_capacity(alloc, ROOM)?,
        })
    }

    /// The bytes of the message that was written last, in its frame.
    pub fn as_bytes(&self) -> &[u8]
        ensures { result.now ≡ self.now }
    {
        &self.bytes
    }

    /// Begins a message, with four bytes for its length: how long it is, is known only at its end.
    pub(crate) fn begin(&mut self)
        ensures { self.new ≡ 0 ∷ 0 ∷ 0 ∷ 0 ∷ [] }
    {
        self.bytes.clear();
        self.raw(&[0; FRAME_LENGTH_SIZE]);
    }

    /// Writes the message's length into the first four bytes.
    pub(crate) fn end(&mut self)
        requires begun { 4 < length self.old }
        requires fits { length self.old ≤ 65540 }
        ensures { self.new ≡ frame (drop 4 self.old) }
    {
        let [first, second, third, fourth] = frame_length(self.bytes.len() - FRAME_LENGTH_SIZE);
        self.bytes[0] = first;
        self.bytes[1] = second;
        self.bytes[2] = third;
        self.bytes[3] = fourth;
    }

    /// Appends bytes as they are; none of them where there is no room for all.
    pub(crate) fn raw(&mut self, bytes: &[u8])
        ensures { Appends self.old self.new bytes.now }
    {
        // That there is room is proved once, of the whole message. So no caller has an error to handle that never
        // comes, and without room nothing is written past the buffer's end, where memory would be taken.
        if bytes.len() <= ROOM - self.bytes.len() {
            self.bytes.extend_from_slice(bytes).unwrap();
        }
    }

    /// Appends a byte of a string, escaped where it has to be.
    fn byte(&mut self, byte: u8)
        ensures { Appends self.old self.new (canonical_byte byte) }
    {
        self.raw(escaped(byte).as_slice());
    }

    /// Appends the bytes of a string. Those up to the next that has to be escaped are copied at once.
    fn escape(&mut self, text: &[u8])
        ensures { Appends self.old self.new (flat_map canonical_byte text.now) }
    {
        let mut start = 0;
        while start < text.len() {
            let end = start + plain_len(&text[start..]);
            self.raw(&text[start..end]);
            if end < text.len() {
                self.byte(text[end]);
            }
            start = end + 1;
        }
    }

    /// Appends the bytes of a string between these bytes.
    // Inlined, since what is before and after is constant nearly everywhere, and then copied by a few moves.
    #[inline(always)]
    fn string_between(&mut self, before: &[u8], text: &[u8], after: &[u8])
        ensures { Appends self.old self.new (before.now ++ (flat_map canonical_byte text.now ++ after.now)) }
    {
        self.raw(before);
        self.escape(text);
        self.raw(after);
    }

    /// Appends the parts of a message.
    pub(crate) fn parts(&mut self, parts: &[Part<'_>])
        ensures { Appends self.old self.new (parts_text parts.now) }
    {
        for part in parts {
            self.part(*part);
        }
    }

    fn part(&mut self, part: Part<'_>)
        ensures { Appends self.old self.new (part_text part.entry) }
    {
        match part {
            Part::Raw(bytes) => self.raw(bytes),
            Part::Text(text) => self.string(text),
            Part::Optional(prefix, Some(text)) => {
                self.raw(prefix);
                self.string(text);
            }
            Part::Optional(_, None) => {}
        }
    }

    /// Appends a string between its quotation marks.
    pub(crate) fn string(&mut self, text: &[u8])
        ensures { Appends self.old self.new (canonical_string text.now) }
    {
        self.string_between(b"\"", text, b"\"");
    }

    /// Appends the characters of a terminal's line, between quotation marks.
    pub(crate) fn line(&mut self, line: &[u8])
        ensures { Appends self.old self.new (canonical_string (line_text line.now)) }
    {
        self.raw(b"\"");
        self.characters(line);
        self.raw(b"\"");
    }

    /// Appends the characters of a terminal's line. Those between two that aren't printable ASCII, or have to be escaped,
    /// are copied at once.
    fn characters(&mut self, line: &[u8])
        ensures { Appends self.old self.new (flat_map shown_byte line.now) }
    {
        let mut start = 0;
        while start < line.len() {
            let end = start + ascii_len(&line[start..]);
            self.raw(&line[start..end]);
            if end < line.len() {
                self.character(char_of_437(line[end]));
            }
            start = end + 1;
        }
    }

    /// Appends a character of a string, escaped where it has to be.
    fn character(&mut self, character: char)
        ensures { Appends self.old self.new (flat_map canonical_byte (encode_utf8 character)) }
    {
        self.escape(character.encode_utf8(&mut [0; 4]).as_bytes());
    }

    /// Appends `"name":`.
    pub(crate) fn first_name(&mut self, name: &[u8])
        ensures { Appends self.old self.new (first_name name.now) }
    {
        self.string_between(b"\"", name, b"\":");
    }

    /// Appends `,"name":`.
    pub(crate) fn next_name(&mut self, name: &[u8])
        ensures { Appends self.old self.new (next_name name.now) }
    {
        self.string_between(b",\"", name, b"\":");
    }

    /// Appends `"name":"text"`.
    pub(crate) fn first_text(&mut self, name: &[u8], text: &[u8])
        ensures { Appends self.old self.new (first_text name.now text.now) }
    {
        self.first_name(name);
        self.string(text);
    }

    /// Appends `,"name":"text"`.
    pub(crate) fn next_text(&mut self, name: &[u8], text: &[u8])
        ensures { Appends self.old self.new (next_text name.now text.now) }
    {
        self.next_name(name);
        self.string(text);
    }

    /// Appends `,"name":"text"` where there is an identifier.
    pub(crate) fn next_id<const N: usize>(&mut self, name: &[u8], id: &Option<Ident<N>>)
        ensures { Appends self.old self.new (next_optional name.now id.now) }
    {
        if let Some(id) = id {
            self.next_text(name, id.as_bytes());
        }
    }

    /// Appends `,"name":` and the digits of a number.
    pub(crate) fn next_number(&mut self, name: &[u8], digits: &[u8])
        ensures { Appends self.old self.new (next_number name.now digits.now) }
    {
        self.next_name(name);
        self.raw(digits);
    }
}
