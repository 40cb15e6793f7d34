ghost use Rattle.std.specs.Prelude.{◌≡◌, ◌≢◌, ◌↔◌, ◌+◌, ◌≤◌, ◌<◌, ◌++◌, ℕ, List, length, take, IfOk, OnOk, OnErr, IsErrOf, vec_len, vec_capacity};
ghost use Rattle.std.specs.Io.{ReadsAtMost};
ghost use Rattle.std.specs.Io.KnownBytes.{ReadConsumes, Consumes, IsAtEnd};
ghost use Rattle.sg_io.specs.Bytes.{ConsumesSome};
ghost use Rattle.sg_io.specs.Count.{Rose};
ghost use Rattle.sg_io.specs.Streams.{SeenSource};

use std::alloc::Global;

/// So many bytes are cleared at a time, to be read into.
const PIECE: usize = 16_384;

/// A read failed.
#[derive(Clone, Copy, Debug, PartialEq, Eq)]
pub struct Failed;

/// Where bytes come from.
pub trait Source {
    /// What clauses see of it: the bytes still to come, where it tells them; and how often a read has failed. Only such a
    /// read raises that count, and it never falls.
    ghost seen: { SeenSource Self };

    /// Fills the front of the buffer with the next bytes, and says with how many. 0 for a buffer that is not empty
    /// means the end of the input. A read that failed took no byte.
    fn read(&mut self, buf: &mut [u8]) -> Result<usize, Failed>
        ensures bound { ReadsAtMost result buf.new }
        ensures bytes { ReadConsumes (seen.left self.old) (seen.left self.new) result buf.new }
        ensures faults_later { seen.faults self.old ≤ seen.faults self.new }
        ensures failed { OnErr result (Rose (seen.faults self.old) (seen.faults self.new)) }
        ensures unfailed { OnOk result (seen.faults self.new ≡ seen.faults self.old) };
}

/// Why an input was not read to its end.
#[derive(Clone, Copy, Debug, PartialEq, Eq)]
pub enum ReadStop {
    /// There is no memory for the bytes. The source was not read.
    NoMemory,
    /// A read failed. What was read before it is lost.
    Failed,
    /// There is more than the limit. One byte beyond it was read.
    TooLong,
}

/// Reads until the buffer is full or the input ends, and says how many bytes came.
fn fill<S: Source>(src: &mut S, buf: &mut [u8]) -> Result<usize, Failed>
    ensures bound { ReadsAtMost result buf.new }
    ensures bytes { IfOk result
        (λ count. Consumes (S.seen.left src.old) (S.seen.left src.new) (take count buf.new)) }
    ensures end { IfOk result (λ count. count < length buf.new → IsAtEnd (S.seen.left src.new)) }
    ensures faults_later { S.seen.faults src.old ≤ S.seen.faults src.new }
    ensures failed { OnErr result (Rose (S.seen.faults src.old) (S.seen.faults src.new)) }
    ensures unfailed { OnOk result (S.seen.faults src.new ≡ S.seen.faults src.old) }
    ensures taken { OnErr result (ConsumesSome (S.seen.left src.old)
        (S.seen.left src.new) (λ count. count < length buf.new)) }
{
    let mut filled = 0;
    while filled < buf.len() {
        let count = src.read(&mut buf[filled..])?;
        if count == 0 {
            return Ok(filled);
        }
        filled += count;
    }
    Ok(filled)
}

/// Adds the next bytes, until so many came or the input ends, and says how many came. There is room for them.
fn add_piece<S: Source>(src: &mut S, all: &mut Vec<u8>, wanted: usize) -> Result<usize, Failed>
    requires { vec_len all.old + wanted ≤ vec_capacity all.old }
    ensures within { IfOk result (λ count. count ≤ wanted) }
    ensures added { IfOk result (λ count. vec_len all.new ≡ vec_len all.old + count) }
    ensures bytes { IfOk result (λ count. (bytes : List ℕ)
        × (all.new.items ≡ all.old.items ++ bytes)
        × Consumes (S.seen.left src.old) (S.seen.left src.new) bytes) }
    ensures end { IfOk result (λ count. count < wanted → IsAtEnd (S.seen.left src.new)) }
    ensures faults_later { S.seen.faults src.old ≤ S.seen.faults src.new }
    ensures failed { OnErr result (Rose (S.seen.faults src.old) (S.seen.faults src.new)) }
    ensures unfailed { OnOk result (S.seen.faults src.new ≡ S.seen.faults src.old) }
    ensures taken { OnErr result
        (ConsumesSome (S.seen.left src.old) (S.seen.left src.new) (λ count. count < wanted)) }
    ensures capacity { vec_capacity all.old ≤ vec_capacity all.new }
{
    let before = all.len();
    all.resize(before + wanted, 0).unwrap();
    let count = fill(src, &mut all[before..])?;
    all.truncate(before + count);
    Ok(count)
}

/// Reads all that is left, where it is at most `limit` bytes. Room for one byte more is taken before the first read.
pub fn read_all<S: Source>(alloc: Global, src: &mut S, limit: u32) -> Result<Vec<u8>, ReadStop>
    ensures bytes { IfOk result
        (λ all. Consumes (S.seen.left src.old) (S.seen.left src.new) all.items) }
    ensures end { OnOk result (IsAtEnd (S.seen.left src.new)) }
    ensures within { IfOk result (λ all. length all.items ≤ limit) }
    // At most one byte beyond the limit was taken, and that one exactly where the input is too long.
    ensures too_long { ConsumesSome (S.seen.left src.old) (S.seen.left src.new) (λ count.
        (count ≤ limit + 1) × (IsErrOf result ReadStop.TooLong ↔ (count ≡ limit + 1))) }
    ensures failed { IsErrOf result ReadStop.Failed
        → Rose (S.seen.faults src.old) (S.seen.faults src.new) }
    ensures unfailed { result ≢ Err ReadStop.Failed
        → S.seen.faults src.new ≡ S.seen.faults src.old }
    ensures no_memory { IsErrOf result ReadStop.NoMemory → src.new ≡ src.old }
    ensures faults_later { S.seen.faults src.old ≤ S.seen.faults src.new }
{
    let room = limit as usize + 1;
    let Ok(mut all) = Vec::with_capacity(alloc, room) else {
        return Err(ReadStop::NoMemory);
    };
    while all.len() < room {
        let wanted = PIECE.min(room - all.len());
        let Ok(count) = add_piece(src, &mut all, wanted) else {
            return Err(ReadStop::Failed);
        };
        if count < wanted {
            return Ok(all);
        }
    }
    Err(ReadStop::TooLong)
}
