ghost use Rattle.std.specs.Prelude.{◌≡◌, ◌+◌, ◌≤◌, ◌<◌, length, min, take, drop, None, IfOk, IsOk};
ghost use Rattle.std.specs.Io.{ReadsAtMost};
ghost use Rattle.std.specs.Io.KnownBytes.{ReadConsumes};
ghost use Rattle.sg_io.specs.Memory.{RepeatedInput, IsPlaceAfter};

use super::NoIoMemory;
use crate::source::{Failed, Source};
use std::alloc::Global;
use std::marker::Model;

/// The bytes of a line, again and again, without an end. One call gives at most `piece` of them, and none of the next line.
/// It tells no bytes that are left. Reading it never fails.
#[derive(Drop)]
pub struct RepeatSource {
    line: Vec<u8>,
    at: usize,
    piece: u32,
}

impl Model for RepeatSource {
    ghost use Rattle.std.specs.Prelude.{◌≤◌, ◌<◌, vec_len};
    ghost use Rattle.sg_io.specs.Memory.{RepeatedInput};

    ghost Value = { RepeatedInput };

    ghost view = { λ s. record { line = s.line.items; at = s.at; piece = s.piece } };

    ghost invariant = { λ s. (s.at < vec_len s.line) × (1 ≤ s.piece) };
}

impl RepeatSource {
    /// A source of this line, of which it takes a copy. A piece and the line have at least one byte.
    pub fn new(alloc: Global, piece: u32, line: &[u8]) -> Result<RepeatSource, NoIoMemory>
        requires piece { 1 ≤ piece }
        requires line { 1 ≤ length line.now }
        ensures { IfOk result (λ source.
            source ≡ record { line = line.now; at = 0; piece = piece }) }
    {
        match Vec::from_slice(alloc, line) {
            Ok(line) => Ok(RepeatSource { line, at: 0, piece }),
            Err(_) => Err(NoIoMemory),
        }
    }
}

impl Source for RepeatSource {
    ghost seen = { record { left = λ _. None; faults = λ _. 0 } };

    fn read(&mut self, buf: &mut [u8]) -> Result<usize, Failed>
        ensures bound { ReadsAtMost result buf.new }
        ensures bytes { ReadConsumes None None result buf.new }
        ensures never_fails { IsOk result }
        ensures count { IfOk result (λ count. count
            ≡ min (min (length (drop self.old.at self.old.line)) (length buf.new)) self.old.piece) }
        ensures given { IfOk result (λ count. take count buf.new
            ≡ take count (drop self.old.at self.old.line)) }
        ensures next { IfOk result
            (λ count. IsPlaceAfter (self.old.at + count) (length self.old.line) self.new.at) }
        ensures same_line { self.new.line ≡ self.old.line }
        ensures same_piece { self.new.piece ≡ self.old.piece }
    {
        let rest = &self.line[self.at..];
        let count = rest.len().min(buf.len()).min(self.piece as usize);
        buf[..count].copy_from_slice(&rest[..count]);
        self.at += count;
        if self.at == self.line.len() {
            self.at = 0;
        }
        Ok(count)
    }
}
