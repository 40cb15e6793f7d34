ghost use Rattle.std.specs.Prelude.{◌≡◌, ◌≢◌, ◌↔◌, [], ◌≤◌, None, IfOk, OnErr, take};
ghost use Rattle.std.specs.Io.{ReadsAtMost, WritesAtMost};
ghost use Rattle.std.specs.Io.KnownBytes.{Appends, ReadConsumes};
ghost use Rattle.sg_io.specs.Bytes.{AppendsPrefix};
ghost use Rattle.sg_io.specs.Count.{CountsErrors};

use crate::count::Count;
use crate::sink::{Sink, SinkStop};
use crate::source::{Failed, Source};
use std::io::{Read, Write};
use std::marker::Model;

/// Any reader of std. It tells the bytes that the reader tells, and tries no read again.
#[derive(Drop)]
pub struct StdSource<R> {
    inner: R,
    faults: Count,
}

impl<R: Read> StdSource<R> {
    /// A source over the reader, with no fault counted yet.
    pub fn new(inner: R) -> StdSource<R>
        ensures left { ⟦<StdSource<R> as Source>⟧.seen.left result ≡ R.remaining inner }
        ensures faults { ⟦<StdSource<R> as Source>⟧.seen.faults result ≡ 0 }
    {
        StdSource {
            inner,
            faults: Count::new(),
        }
    }
}

impl<R: Read> Source for StdSource<R> {
    ghost seen = { record { left = λ s. R.remaining s.inner; faults = λ s. s.faults } };

    fn read(&mut self, buf: &mut [u8]) -> Result<usize, Failed>
        ensures bound { ReadsAtMost result buf.new }
        ensures bytes { let left = ⟦<StdSource<R> as Source>⟧.seen.left in
            ReadConsumes (left self.old) (left self.new) result buf.new }
        ensures faults_later { let faults = ⟦<StdSource<R> as Source>⟧.seen.faults in
            faults self.old ≤ faults self.new }
        ensures counted { let faults = ⟦<StdSource<R> as Source>⟧.seen.faults in
            CountsErrors (faults self.old) (faults self.new) result }
    {
        match self.inner.read(buf) {
            Ok(count) => Ok(count),
            Err(_) => {
                self.faults.raise();
                Err(Failed)
            }
        }
    }
}

/// Any writer of std, flushed after each write. As a sink it tells no bytes: where the flush fails after a write, the writer
/// has taken them although the sink has not. It tries no write again. A write that takes none of
/// a piece that is not empty is a fault.
#[derive(Drop)]
pub struct StdSink<W: Write> {
    inner: W,
    faults: Count,
}

impl<W: Write> Model for StdSink<W> {
    ghost use Rattle.sg_io.specs.Writer.{Writer};

    ghost Value = { Writer };

    ghost view = { λ a. record { contents = W.contents a.inner; faults = a.faults } };
}

impl<W: Write> StdSink<W> {
    /// A sink over the writer, with no fault counted yet.
    pub fn new(inner: W) -> StdSink<W>
        ensures contents { result.contents ≡ W.contents inner }
        ensures faults { ⟦<StdSink<W> as Sink>⟧.seen.faults result ≡ 0 }
    {
        StdSink {
            inner,
            faults: Count::new(),
        }
    }
}

impl<W: Write> Sink for StdSink<W> {
    ghost seen = { record { held = λ _. None; faults = λ s. s.faults; wants = λ _. 0 } };

    fn write(&mut self, piece: &[u8]) -> Result<usize, SinkStop>
        ensures bound { WritesAtMost result piece.now }
        // The writer has taken what is counted.
        ensures taken { IfOk result
            (λ count. Appends self.old.contents self.new.contents (take count piece.now)) }
        // After an Err it has taken at most a prefix of the piece.
        ensures lost { OnErr result (AppendsPrefix self.old.contents self.new.contents piece.now) }
        ensures none { IfOk result (λ count. (count ≡ 0) ↔ (piece.now ≡ [])) }
        ensures never_wants { result ≢ Err SinkStop.NoMemory }
        ensures faults_later { let faults = ⟦<StdSink<W> as Sink>⟧.seen.faults in
            faults self.old ≤ faults self.new }
        ensures counted { let faults = ⟦<StdSink<W> as Sink>⟧.seen.faults in
            CountsErrors (faults self.old) (faults self.new) result }
    {
        if piece.is_empty() {
            return Ok(0);
        }
        if let Ok(count) = self.inner.write(piece) {
            if count > 0 && self.inner.flush().is_ok() {
                return Ok(count);
            }
        }
        self.faults.raise();
        Err(SinkStop::Failed)
    }
}
