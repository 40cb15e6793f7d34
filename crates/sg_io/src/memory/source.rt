ghost use Rattle.std.specs.Prelude.{◌≡◌, ◌↔◌, ◌≤◌, Some, length, min, IfOk, OnErr, IsOk, IsErr, Contains};
ghost use Rattle.std.specs.Io.{ReadsAtMost};
ghost use Rattle.std.specs.Io.KnownBytes.{ReadConsumes};
ghost use Rattle.sg_io.specs.Count.{CountsErrors, raised};
ghost use Rattle.sg_io.specs.Memory.{MemoryInput, FailingInput};

use super::NoIoMemory;
use super::calls::Calls;
use crate::source::{Failed, Source};
use std::alloc::Global;
use std::marker::Model;

/// Bytes in memory. One call gives `piece` of them, or those that are left or have room, where they are fewer. Reading
/// them never fails.
#[derive(Drop)]
pub struct NoFailSource {
    bytes: Vec<u8>,
    at: usize,
    piece: u32,
}

impl Model for NoFailSource {
    ghost use Rattle.std.specs.Prelude.{◌≤◌, drop, vec_len};
    ghost use Rattle.sg_io.specs.Memory.{MemoryInput};

    ghost Value = { MemoryInput };

    ghost view = { λ s. record { left = drop s.at s.bytes.items; piece = s.piece } };

    ghost invariant = { λ s. (s.at ≤ vec_len s.bytes) × (1 ≤ s.piece) };
}

impl NoFailSource {
    /// A source of these bytes, of which it takes a copy. A piece has at least one byte.
    pub fn new(alloc: Global, bytes: &[u8], piece: u32) -> Result<NoFailSource, NoIoMemory>
        requires { 1 ≤ piece }
        ensures value { IfOk result (λ source.
            source ≡ record { left = bytes.now; piece = piece }) }
        ensures left { IfOk result
            (λ source. ⟦<NoFailSource as Source>⟧.seen.left source ≡ Some bytes.now) }
    {
        match Vec::from_slice(alloc, bytes) {
            Ok(bytes) => Ok(NoFailSource {
                bytes,
                at: 0,
                piece,
            }),
            Err(_) => Err(NoIoMemory),
        }
    }
}

impl Source for NoFailSource {
    ghost seen = { record { left = λ s. Some s.left; faults = λ _. 0 } };

    fn read(&mut self, buf: &mut [u8]) -> Result<usize, Failed>
        ensures bound { ReadsAtMost result buf.new }
        ensures bytes { ReadConsumes (Some self.old.left) (Some self.new.left) result buf.new }
        ensures never_fails { IsOk result }
        ensures count { IfOk result (λ count.
            count ≡ min (min (length self.old.left) (length buf.new)) self.old.piece) }
        ensures same { self.new.piece ≡ self.old.piece }
    {
        let rest = &self.bytes[self.at..];
        let count = rest.len().min(buf.len()).min(self.piece as usize);
        buf[..count].copy_from_slice(&rest[..count]);
        self.at += count;
        Ok(count)
    }
}

/// Bytes in memory, given as by a `NoFailSource`. The calls whose numbers are listed fail: every call of `read` counts,
/// from 0, also one that failed and one with an empty buffer.
#[derive(Drop)]
pub struct MemSource {
    inner: NoFailSource,
    calls: Calls,
}

impl Model for MemSource {
    ghost use Rattle.sg_io.specs.Memory.{FailingInput};

    ghost Value = { FailingInput };

    ghost view = { λ s. record {
      left = s.inner.left;
      piece = s.inner.piece;
      fails = s.calls.fails;
      made = s.calls.made;
      faults = s.calls.faults;
    } };
}

impl MemSource {
    /// A source of these bytes, of which it takes a copy, as of the list of the calls that fail. A piece has at least one byte.
    pub fn new(
        alloc: Global,
        bytes: &[u8],
        piece: u32,
        fails: &[u32],
    ) -> Result<MemSource, NoIoMemory>
        requires { 1 ≤ piece }
        ensures value { IfOk result (λ source. source ≡
            record { left = bytes.now; piece = piece; fails = fails.now; made = 0; faults = 0 }) }
        ensures left { IfOk result
            (λ source. ⟦<MemSource as Source>⟧.seen.left source ≡ Some bytes.now) }
    {
        Ok(MemSource {
            inner: NoFailSource::new(alloc, bytes, piece)?,
            calls: Calls::new(alloc, fails)?,
        })
    }
}

impl Source for MemSource {
    ghost seen = { record { left = λ s. Some s.left; faults = λ s. s.faults } };

    fn read(&mut self, buf: &mut [u8]) -> Result<usize, Failed>
        ensures bound { ReadsAtMost result buf.new }
        ensures bytes { ReadConsumes (Some self.old.left) (Some self.new.left) result buf.new }
        ensures fails { IsErr result ↔ Contains self.old.fails self.old.made }
        ensures unfilled { OnErr result (buf.new ≡ buf.old) }
        ensures faults_later { self.old.faults ≤ self.new.faults }
        ensures counted { CountsErrors self.old.faults self.new.faults result }
        ensures made { self.new.made ≡ raised self.old.made }
        ensures count { IfOk result (λ count.
            count ≡ min (min (length self.old.left) (length buf.new)) self.old.piece) }
        ensures same_fails { self.new.fails ≡ self.old.fails }
        ensures same_piece { self.new.piece ≡ self.old.piece }
    {
        self.calls.make_next()?;
        self.inner.read(buf)
    }
}
