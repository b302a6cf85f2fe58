//! Streams in memory, whose bytes a proof observes, and of which one call fails where that is asked.
ghost use Rattle.std.specs.Prelude.{◌≡◌, ◌≤◌, ◌↔◌, ◌⊎◌, ◌+◌, ◌++◌, IsErr, IfOk, OnErr, [], ◌-◌, length, take, drop, min, Some, List, ℕ};
ghost use Rattle.gw_site.specs.Failures.{one_more, faults_after, HasCause};
ghost use Rattle.gw_site.specs.Memory.{IsPartialWrite};
ghost use Rattle.gw_bytes.specs.Bytes.{IsPrefix};
ghost use Rattle.gw_site.specs.Streams.{TakesFrom, EndsAt, AddsTo};

use crate::{Failed, Sink, Source};
use gw_base::Bytes;
use gw_bytes::LONGEST_CHUNK;
use std::alloc::Global;
use std::marker::Model;

/// A count of failures after one more. It stays at its last value, so that no count of calls makes it fall.
fn risen(faults: u64) -> u64
    ensures exact { result ≡ one_more faults }
    ensures later { faults ≤ result }
{
    faults.saturating_add(1)
}

/// Makes these the first bytes of the buffer.
fn fill(buf: &mut [u8; 4096], bytes: &[u8])
    requires { length bytes.now ≤ 4096 }
    ensures bytes { take (length bytes.now) buf.new ≡ bytes.now }
    ensures buf { length buf.new ≡ 4096 }
{
    buf[..bytes.len()].copy_from_slice(bytes);
}

/// Fills the buffer with the bytes from an offset on, as many as it holds, and returns how many.
fn give(buf: &mut [u8; 4096], bytes: &[u8], offset: usize) -> usize
    requires { offset ≤ length bytes.now }
    ensures prefix { drop offset bytes.now ≡ take result buf.new ++ drop (offset + result) bytes.now }
    ensures end { result ≡ 0 → drop offset bytes.now ≡ [] }
    ensures within { offset + result ≤ length bytes.now }
    ensures full { result ≡ min (length bytes.now - offset) 4096 }
    ensures bound { result ≤ 4096 }
    ensures buf { length buf.new ≡ 4096 }
{
    let count = (bytes.len() - offset).min(LONGEST_CHUNK);
    fill(buf, &bytes[offset..offset + count]);
    count
}

/// A source of bytes that are there already.
#[derive(Drop)]
pub struct MemSource {
    bytes: Bytes,
    /// The offset of the first byte that is left: no byte is moved by a read.
    offset: usize,
    calls: u64,
    fails: Option<u64>,
    faults: u64,
}

impl Model for MemSource {
    ghost use Rattle.std.specs.Prelude.{◌≤◌, drop, length};
    ghost use Rattle.gw_site.specs.Memory.{Giving};

    ghost Value = { Giving };

    ghost view = { λ source. record {
      left = drop source.offset source.bytes;
      calls = source.calls;
      fails = source.fails;
      faults = source.faults;
    } };

    ghost invariant = { λ source. source.offset ≤ length source.bytes };
}

impl MemSource {
    /// A source of these bytes, whose read number `fails`, counted from 0, fails.
    pub fn new(bytes: Bytes, fails: Option<u64>) -> MemSource
        ensures { result ≡ record { left = bytes; calls = 0; fails = fails; faults = 0 } }
    {
        MemSource {
            bytes,
            offset: 0,
            calls: 0,
            fails,
            faults: 0,
        }
    }
}

impl Source for MemSource {
    ghost left = { λ source. Some source.left };

    ghost faults = { λ source. source.faults };

    fn read(&mut self, buf: &mut [u8; 4096]) -> Result<usize, Failed>
        ensures bytes { TakesFrom (Some self.old.left) (Some self.new.left) buf.new result }
        ensures end { EndsAt (Some self.old.left) result }
        ensures bound { IfOk result (λ count. count ≤ 4096) }
        ensures buf { length buf.new ≡ 4096 }
        ensures cause { HasCause self.old.faults self.new.faults result }
        ensures failed { IsErr result ↔ (self.old.fails ≡ Some self.old.calls) }
        ensures full { IfOk result (λ count. count ≡ min (length self.old.left) 4096) }
        ensures faults { self.new.faults ≡ faults_after self.old.faults result }
        ensures calls { self.new.calls ≡ one_more self.old.calls }
        ensures fails { self.new.fails ≡ self.old.fails }
    {
        let call = self.calls;
        self.calls = self.calls.saturating_add(1);
        if self.fails == Some(call) {
            self.faults = risen(self.faults);
            return Err(Failed);
        }
        let count = give(buf, self.bytes.as_slice(), self.offset);
        self.offset += count;
        Ok(count)
    }
}

/// Takes at most so many of the bytes; none where there is no memory.
fn take_part(stored: &mut Bytes, bytes: &[u8], most: usize)
    ensures prefix { (part : List ℕ) × IsPrefix part bytes.now × (stored.new ≡ stored.old ++ part) }
    ensures most { (stored.new ≡ stored.old ++ take most bytes.now) ⊎ (stored.new ≡ stored.old) }
{
    let count = most.min(bytes.len());
    match stored.extend(&bytes[..count]) {
        Ok(()) => {}
        Err(_) => {}
    }
}

/// A sink that keeps what is written.
#[derive(Drop)]
pub struct MemSink {
    bytes: Bytes,
    calls: u64,
    fails: Option<u64>,
    taken: usize,
    faults: u64,
}

impl Model for MemSink {
    ghost use Rattle.gw_site.specs.Memory.{Taking};

    ghost Value = { Taking };

    ghost view = { λ sink. record {
      written = sink.bytes;
      calls = sink.calls;
      fails = sink.fails;
      taken = sink.taken;
      faults = sink.faults;
    } };
}

impl MemSink {
    /// An empty sink, whose write number `fails`, counted from 0, takes at most `taken` bytes and fails.
    pub fn new(alloc: Global, fails: Option<u64>, taken: usize) -> MemSink
        ensures { result ≡ record { written = []; calls = 0; fails = fails; taken = taken; faults = 0 } }
    {
        MemSink {
            bytes: Bytes::new(Vec::new(alloc)),
            calls: 0,
            fails,
            taken,
            faults: 0,
        }
    }

    /// What was written.
    pub fn bytes(&self) -> &Bytes
        ensures { result.now ≡ self.now.written }
    {
        &self.bytes
    }
}

impl Sink for MemSink {
    ghost written = { λ sink. Some sink.written };

    ghost faults = { λ sink. sink.faults };

    /// A write that finds no memory fails, and takes nothing.
    fn write(&mut self, bytes: &[u8]) -> Result<(), Failed>
        ensures bytes { AddsTo (Some self.old.written) (Some self.new.written) bytes.now result }
        ensures cause { HasCause self.old.faults self.new.faults result }
        ensures failed { self.old.fails ≡ Some self.old.calls → IsErr result }
        ensures part { OnErr result (IsPartialWrite self.old self.new.written bytes.now) }
        ensures faults { self.new.faults ≡ faults_after self.old.faults result }
        ensures calls { self.new.calls ≡ one_more self.old.calls }
        ensures fails { self.new.fails ≡ self.old.fails }
        ensures taken { self.new.taken ≡ self.old.taken }
    {
        let call = self.calls;
        self.calls = self.calls.saturating_add(1);
        if self.fails == Some(call) {
            take_part(&mut self.bytes, bytes, self.taken);
            self.faults = risen(self.faults);
            return Err(Failed);
        }
        match self.bytes.extend(bytes) {
            Ok(()) => Ok(()),
            Err(_) => {
                self.faults = risen(self.faults);
                Err(Failed)
            }
        }
    }
}
