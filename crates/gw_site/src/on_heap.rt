//! What a turn holds on the heap: it is small beside it.
ghost use Rattle.std.specs.Prelude.{◌≡◌, IfOk};

use gw_base::{Bytes, Setup};
use std::alloc::{AllocError, Global};
use std::marker::Model;
use std::rc::Rc;

/// A setup on the heap. A contract sees the setup.
#[derive(Drop)]
pub struct BoxedSetup {
    inner: Box<Setup>,
}

impl Model for BoxedSetup {
    ghost use Rattle.gw_base.specs.declared.setup.Setup.{Setup};

    ghost Value = { Setup };

    ghost view = { λ setup. setup.inner.value };
}

impl BoxedSetup {
    /// A copy of this setup.
    pub fn copied(alloc: Global, setup: &Setup) -> Result<BoxedSetup, AllocError>
        ensures { IfOk result (λ copy. copy ≡ setup.now) }
    {
        let copy = setup.clone()?;
        Ok(BoxedSetup {
            inner: Box::new(alloc, copy)?,
        })
    }

    /// The setup.
    pub fn inner(&self) -> &Setup
        ensures { result.now ≡ self.now }
    {
        &self.inner
    }
}

/// Bytes that are there once, however many hold them. A contract sees a list.
#[derive(Drop)]
pub struct SharedBytes {
    inner: Rc<Bytes>,
}

impl Model for SharedBytes {
    ghost use Rattle.std.specs.Prelude.{List, ℕ};

    ghost Value = { List ℕ };

    ghost view = { λ bytes. bytes.inner.value };
}

impl SharedBytes {
    /// These bytes, which one holds.
    pub fn new(alloc: Global, bytes: Bytes) -> Result<SharedBytes, AllocError>
        ensures { IfOk result (λ shared. shared ≡ bytes) }
    {
        Ok(SharedBytes {
            inner: Rc::new(alloc, bytes)?,
        })
    }

    /// A copy of these bytes.
    pub fn copied(alloc: Global, bytes: &[u8]) -> Result<SharedBytes, AllocError>
        ensures { IfOk result (λ copy. copy ≡ bytes.now) }
    {
        SharedBytes::new(alloc, Bytes::copied(alloc, bytes)?)
    }

    /// The same bytes, which one more holds.
    pub fn share(&self) -> Result<SharedBytes, AllocError>
        ensures { IfOk result (λ shared. shared ≡ self.now) }
    {
        Ok(SharedBytes {
            inner: self.inner.clone()?,
        })
    }

    /// The bytes as a slice.
    pub fn as_slice(&self) -> &[u8]
        ensures { result.now ≡ self.now }
    {
        self.inner.as_slice()
    }
}
