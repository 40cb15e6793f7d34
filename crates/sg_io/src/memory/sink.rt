ghost use Rattle.std.specs.Prelude.{◌≡◌, ◌≢◌, ◌↔◌, [], ◌≤◌, Some, length, min, IfOk, IsErrOf, Contains};
ghost use Rattle.std.specs.Io.{WritesAtMost};
ghost use Rattle.std.specs.Io.KnownBytes.{WriteAppends};
ghost use Rattle.sg_io.specs.Count.{CountsError, CountsErrors, raised};
ghost use Rattle.sg_io.specs.Memory.{MemoryOutput, FailingOutput};

use super::NoIoMemory;
use super::calls::Calls;
use crate::count::Count;
use crate::sink::{Sink, SinkStop};
use std::alloc::Global;
use std::marker::Model;

/// Bytes in memory. One call takes `piece` of them, or all where they are fewer. Writing never fails but for want of
/// memory.
#[derive(Drop)]
pub struct NoFailSink {
    bytes: Vec<u8>,
    piece: u32,
    wants: Count,
}

impl Model for NoFailSink {
    ghost use Rattle.std.specs.Prelude.{◌≤◌};
    ghost use Rattle.sg_io.specs.Memory.{MemoryOutput};

    ghost Value = { MemoryOutput };

    ghost view = { λ s. record { held = s.bytes.items; piece = s.piece; wants = s.wants } };

    ghost invariant = { λ s. 1 ≤ s.piece };
}

impl NoFailSink {
    /// An empty sink, which takes no memory yet.
    pub fn new(alloc: Global, piece: u32) -> NoFailSink
        requires { 1 ≤ piece }
        ensures value { result ≡ record { held = []; piece = piece; wants = 0 } }
        ensures held { ⟦<NoFailSink as Sink>⟧.seen.held result ≡ Some [] }
    {
        NoFailSink {
            bytes: Vec::new(alloc),
            piece,
            wants: Count::new(),
        }
    }

    /// The bytes taken so far.
    pub fn held(&self) -> &[u8]
        ensures { result.now ≡ self.now.held }
    {
        &self.bytes
    }
}

impl Sink for NoFailSink {
    ghost seen = { record { held = λ s. Some s.held; faults = λ _. 0; wants = λ s. s.wants } };

    fn write(&mut self, piece: &[u8]) -> Result<usize, SinkStop>
        ensures bound { WritesAtMost result piece.now }
        ensures bytes { WriteAppends (Some self.old.held) (Some self.new.held) result piece.now }
        ensures none { IfOk result (λ count. (count ≡ 0) ↔ (piece.now ≡ [])) }
        ensures never_fails { result ≢ Err SinkStop.Failed }
        ensures wants_later { self.old.wants ≤ self.new.wants }
        ensures wants { CountsErrors self.old.wants self.new.wants result }
        ensures count { IfOk result (λ count. count ≡ min (length piece.now) self.old.piece) }
        ensures same { self.new.piece ≡ self.old.piece }
    {
        let count = piece.len().min(self.piece as usize);
        match self.bytes.extend_from_slice(&piece[..count]) {
            Ok(()) => Ok(count),
            Err(_) => {
                self.wants.raise();
                Err(SinkStop::NoMemory)
            }
        }
    }
}

/// Bytes in memory, taken as by a `NoFailSink`. The calls whose numbers are listed fail: every call of `write` counts,
/// from 0, also one that was refused and one with an empty piece.
#[derive(Drop)]
pub struct MemSink {
    inner: NoFailSink,
    calls: Calls,
}

impl Model for MemSink {
    ghost use Rattle.sg_io.specs.Memory.{FailingOutput};

    ghost Value = { FailingOutput };

    ghost view = { λ s. record {
      held = s.inner.held;
      piece = s.inner.piece;
      wants = s.inner.wants;
      fails = s.calls.fails;
      made = s.calls.made;
      faults = s.calls.faults;
    } };
}

impl MemSink {
    /// An empty sink, which takes memory only for the list of the calls that fail.
    pub fn new(alloc: Global, piece: u32, fails: &[u32]) -> Result<MemSink, NoIoMemory>
        requires { 1 ≤ piece }
        ensures value { IfOk result (λ sink. sink ≡
            record {
              held = [];
              piece = piece;
              wants = 0;
              fails = fails.now;
              made = 0;
              faults = 0;
            }) }
        ensures held { IfOk result (λ sink. ⟦<MemSink as Sink>⟧.seen.held sink ≡ Some []) }
    {
        Ok(MemSink {
            inner: NoFailSink::new(alloc, piece),
            calls: Calls::new(alloc, fails)?,
        })
    }

    /// The bytes taken so far.
    pub fn held(&self) -> &[u8]
        ensures { result.now ≡ self.now.held }
    {
        self.inner.held()
    }
}

impl Sink for MemSink {
    ghost seen = { record {
      held = λ s. Some s.held;
      faults = λ s. s.faults;
      wants = λ s. s.wants;
    } };

    fn write(&mut self, piece: &[u8]) -> Result<usize, SinkStop>
        ensures bound { WritesAtMost result piece.now }
        ensures bytes { WriteAppends (Some self.old.held) (Some self.new.held) result piece.now }
        ensures none { IfOk result (λ count. (count ≡ 0) ↔ (piece.now ≡ [])) }
        ensures fails { IsErrOf result SinkStop.Failed ↔ Contains self.old.fails self.old.made }
        ensures faults_later { self.old.faults ≤ self.new.faults }
        ensures wants_later { self.old.wants ≤ self.new.wants }
        ensures faults { CountsError self.old.faults self.new.faults result SinkStop.Failed }
        ensures wants { CountsError self.old.wants self.new.wants result SinkStop.NoMemory }
        ensures made { self.new.made ≡ raised self.old.made }
        ensures count { IfOk result (λ count. count ≡ min (length piece.now) self.old.piece) }
        ensures same_fails { self.new.fails ≡ self.old.fails }
        ensures same_piece { self.new.piece ≡ self.old.piece }
    {
        if self.calls.make_next().is_err() {
            return Err(SinkStop::Failed);
        }
        self.inner.write(piece)
    }
}
