ghost use Rattle.std.specs.Prelude.{◌≡◌, ◌≢◌, ◌↔◌, [], ◌≤◌, IfOk, OnOk, OnErr, IsErrOf};
ghost use Rattle.std.specs.Io.{WritesAtMost};
ghost use Rattle.std.specs.Io.KnownBytes.{WriteAppends, Appends};
ghost use Rattle.sg_io.specs.Bytes.{AppendsPrefix};
ghost use Rattle.sg_io.specs.Count.{Rose};
ghost use Rattle.sg_io.specs.Streams.{SeenSink};

/// Why bytes were not taken.
#[derive(Clone, Copy, Debug, PartialEq, Eq)]
pub enum SinkStop {
    /// The write failed.
    Failed,
    /// The sink itself wants memory.
    NoMemory,
}

/// Where bytes go.
pub trait Sink {
    /// What clauses see of it: the bytes taken so far, where it tells them; how often a write has failed, and how often the
    /// sink itself has wanted memory. Only a write that says so raises such a count, and it never falls.
    ghost seen: { SeenSink Self };

    /// Takes a prefix of the piece, and says how many bytes of it: none exactly where the piece is empty. A write that
    /// is refused took no byte.
    fn write(&mut self, piece: &[u8]) -> Result<usize, SinkStop>
        ensures bound { WritesAtMost result piece.now }
        ensures bytes { WriteAppends (seen.held self.old) (seen.held self.new) result piece.now }
        ensures none { IfOk result (λ count. (count ≡ 0) ↔ (piece.now ≡ [])) }
        ensures faults_later { seen.faults self.old ≤ seen.faults self.new }
        ensures wants_later { seen.wants self.old ≤ seen.wants self.new }
        ensures failed { IsErrOf result SinkStop.Failed
            → Rose (seen.faults self.old) (seen.faults self.new) }
        ensures no_memory { IsErrOf result SinkStop.NoMemory
            → Rose (seen.wants self.old) (seen.wants self.new) }
        ensures unfailed { result ≢ Err SinkStop.Failed
            → seen.faults self.new ≡ seen.faults self.old }
        ensures unwanted { result ≢ Err SinkStop.NoMemory
            → seen.wants self.new ≡ seen.wants self.old };
}

/// Writes all the bytes, in as many calls as it takes. After an Err the sink has taken a prefix of them.
pub fn put_all<K: Sink>(sink: &mut K, bytes: &[u8]) -> Result<(), SinkStop>
    ensures ok { OnOk result (Appends (K.seen.held sink.old) (K.seen.held sink.new) bytes.now) }
    ensures err { OnErr result
        (AppendsPrefix (K.seen.held sink.old) (K.seen.held sink.new) bytes.now) }
    ensures faults_later { K.seen.faults sink.old ≤ K.seen.faults sink.new }
    ensures wants_later { K.seen.wants sink.old ≤ K.seen.wants sink.new }
    ensures failed { IsErrOf result SinkStop.Failed
        → Rose (K.seen.faults sink.old) (K.seen.faults sink.new) }
    ensures no_memory { IsErrOf result SinkStop.NoMemory
        → Rose (K.seen.wants sink.old) (K.seen.wants sink.new) }
    ensures unfailed { result ≢ Err SinkStop.Failed
        → K.seen.faults sink.new ≡ K.seen.faults sink.old }
    ensures unwanted { result ≢ Err SinkStop.NoMemory
        → K.seen.wants sink.new ≡ K.seen.wants sink.old }
{
    let mut put = 0;
    while put < bytes.len() {
        put += sink.write(&bytes[put..])?;
    }
    Ok(())
}
