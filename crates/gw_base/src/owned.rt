//! Small types over vectors and texts, which contracts see as lists.
ghost use Rattle.std.specs.Prelude.{◌≡◌, ◌++◌, nat_eq, IfOk, OnOk, OnErr};
ghost use Rattle.std.specs.String.{string_bytes};

use std::alloc::{AllocError, Global};
use std::marker::Model;

/// Owned bytes. A contract sees a list.
#[derive(Clone, Debug, Drop)]
pub struct Bytes {
    inner: Vec<u8>,
}

impl Model for Bytes {
    ghost use Rattle.std.specs.Prelude.{List, ℕ};

    ghost Value = { List ℕ };

    ghost view = { λ bytes. bytes.inner.items };
}

impl Bytes {
    /// The bytes of this vector.
    pub fn new(inner: Vec<u8>) -> Bytes
        ensures { result ≡ inner.items }
    {
        Bytes { inner }
    }

    /// The vector.
    pub fn inner(&self) -> &Vec<u8>
        ensures { result.now.items ≡ self.now }
    {
        &self.inner
    }

    /// The bytes as a slice.
    pub fn as_slice(&self) -> &[u8]
        ensures { result.now ≡ self.now }
    {
        &self.inner
    }

    /// A copy of these bytes.
    pub fn copied(alloc: Global, bytes: &[u8]) -> Result<Bytes, AllocError>
        ensures { IfOk result (λ copy. copy ≡ bytes.now) }
    {
        Ok(Bytes {
            inner: bytes.to_vec(alloc)?,
        })
    }

    /// Appends these bytes; nothing where there is no memory.
    pub fn extend(&mut self, bytes: &[u8]) -> Result<(), AllocError>
        ensures ok { OnOk result (self.new ≡ self.old ++ bytes.now) }
        ensures err { OnErr result (self.new ≡ self.old) }
    {
        self.inner.extend_from_slice(bytes)
    }
}

/// An owned text. A contract sees the list of its bytes in UTF-8.
#[derive(Clone, Debug, Drop)]
pub struct Text {
    inner: String,
}

impl Model for Text {
    ghost use Rattle.std.specs.Prelude.{List, ℕ};
    ghost use Rattle.std.specs.String.{string_bytes};

    ghost Value = { List ℕ };

    ghost view = { λ text. string_bytes text.inner };
}

impl Text {
    /// The text of this string.
    pub fn new(inner: String) -> Text
        ensures { result ≡ string_bytes inner }
    {
        Text { inner }
    }

    /// The string.
    pub fn inner(&self) -> &String
        ensures { string_bytes result.now ≡ self.now }
    {
        &self.inner
    }

    /// The text as a slice.
    pub fn as_str(&self) -> &str
        ensures { result.now ≡ self.now }
    {
        self.inner.as_str()
    }
}

/// The bodies of the records that a journal holds, oldest first. A contract sees a list of byte lists.
#[derive(Clone, Drop)]
pub struct Bodies {
    inner: Vec<[u8; 255]>,
}

impl Model for Bodies {
    ghost use Rattle.std.specs.Prelude.{List, ℕ};

    ghost Value = { List (List ℕ) };

    ghost view = { λ bodies. bodies.inner.items };
}

impl Bodies {
    /// The bodies of this vector.
    pub fn new(inner: Vec<[u8; 255]>) -> Bodies
        ensures { result ≡ inner.items }
    {
        Bodies { inner }
    }

    /// The vector.
    pub fn inner(&self) -> &Vec<[u8; 255]>
        ensures { result.now.items ≡ self.now }
    {
        &self.inner
    }

    /// The bodies as a slice.
    pub fn as_slice(&self) -> &[[u8; 255]]
        ensures { result.now ≡ self.now }
    {
        &self.inner
    }
}
