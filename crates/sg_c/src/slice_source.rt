ghost use Rattle.std.specs.Prelude.{◌≡◌, Some, length, min, IfOk, IsOk};
ghost use Rattle.std.specs.Io.{ReadsAtMost};
ghost use Rattle.std.specs.Io.KnownBytes.{ReadConsumes};

use sg_io::{Failed, Source};
use std::marker::Model;

/// Bytes of another, which are read where they stand. One call gives as many as have room. Reading them never fails.
#[derive(Drop)]
pub struct SliceSource<'a> {
    rest: &'a [u8],
}

impl<'a> Model for SliceSource<'a> {
    ghost use Rattle.std.specs.Prelude.{List, ℕ};

    ghost Value = { List ℕ };

    ghost view = { λ s. s.rest.now };
}

impl<'a> SliceSource<'a> {
    /// A source of these bytes.
    pub fn new(bytes: &'a [u8]) -> SliceSource<'a>
        ensures value { result ≡ bytes.now }
        ensures left { ⟦<SliceSource<'a> as Source>⟧.seen.left result ≡ Some bytes.now }
    {
        SliceSource { rest: bytes }
    }
}

impl<'a> Source for SliceSource<'a> {
    ghost seen = { record { left = λ s. Some s; faults = λ _. 0 } };

    fn read(&mut self, buf: &mut [u8]) -> Result<usize, Failed>
        ensures bound { ReadsAtMost result buf.new }
        ensures bytes { ReadConsumes (Some self.old) (Some self.new) result buf.new }
        ensures never_fails { IsOk result }
        ensures count { IfOk result (λ count. count ≡ min (length self.old) (length buf.new)) }
    {
        let count = self.rest.len().min(buf.len());
        let (front, rest) = self.rest.split_at(count);
        buf[..count].copy_from_slice(front);
        self.rest = rest;
        Ok(count)
    }
}
