//! A call of the program.

ghost use Rattle.std.specs.Prelude.{◌≡◌, ◌≢◌, ◌⊎◌, ◌↔◌, ◌+◌, IsErrOf};
ghost use Rattle.std.specs.Io.KnownBytes.{Appends, IsAtEnd};
ghost use Rattle.sg_io.specs.Bytes.{AppendsPrefix, ConsumesSome};
ghost use Rattle.sg_io.specs.Count.{Rose};
ghost use Rattle.sg_cli.specs.declared.fault.Fault.{Fault};
ghost use Rattle.sg_cli.specs.Fault.{status_of, text_of};
ghost use Rattle.sg_cli.specs.Run.{IsDecided, IsRefusal, IsReadToEnd, before_writing, HasStatus, IfPrinted, IfTabled, IfRefused, IfKnown, IsTold, Completes};
ghost use Rattle.sg_cli.specs.Listed.{IfListed};
ghost use Rattle.sg_cli.specs.Steps.{Counted, Serves};
ghost use Rattle.sg_cli.specs.Words.{IsNoCommand, texts};
ghost use Rattle.sg_cli.specs.Inputs.{ReadsNothing};

use crate::MAX_INPUT;
use crate::answers::{answer_input, answer_over};
use crate::fault::Fault;
use crate::words::{Input, read_words};
use samples::{number_of, sample_group};
use sg_io::{Sink, Source, put_all, read_all};
use std::alloc::Global;

/// Reads the words, and the source where the command reads one, and prints the answer.
fn serve<S: Source, K: Sink>(
    alloc: Global,
    words: &[String],
    source: &mut S,
    out: &mut K,
) -> Result<(), Fault>
    ensures words { IsErrOf result Fault.Words ↔ IsNoCommand (texts words.now) }
    ensures served { Serves K.seen S.seen
        (texts words.now) source.old source.new out.old out.new result }
    ensures counted { Counted K.seen out.old out.new result }
    ensures unfailed { result ≢ Err Fault.Reading
        → S.seen.faults source.new ≡ S.seen.faults source.old }
    ensures unread { ReadsNothing (texts words.now)
        → (result ≢ Err Fault.Reading) × (source.new ≡ source.old) }
{
    let Some(command) = read_words(words) else {
        return Err(Fault::Words);
    };
    let input = command.input();
    if let Input::Made(seed) = input {
        let group = sample_group(alloc, number_of(seed))?;
        return answer_over(alloc, command, &group, &[], 1, out);
    }
    let bytes = read_all(alloc, source, MAX_INPUT)?;
    answer_input(alloc, command, &bytes, out)
}

/// Writes the text of the fault. Where the write is refused, nothing more comes of it.
pub fn tell<E: Sink>(err: &mut E, fault: Fault)
    ensures { IsTold E.seen
        err.old err.new (text_of fault) }
{
    let _ = put_all(err, fault.text().bytes());
}

/// Answers the words over the bytes of the source, and gives the status that the program ends with: 0, or that of the
/// fault whose text is told on `err`.
pub fn run<S: Source, K: Sink, E: Sink>(
    alloc: Global,
    words: &[String],
    source: &mut S,
    out: &mut K,
    err: &mut E,
) -> u8
    // Words are refused exactly where they are no command in range. Nothing is read then.
    ensures words { (result ≡ 2) ↔ IsNoCommand (texts words.now) }
    ensures words_unread { result ≡ 2 → source.new ≡ source.old }

    // `sample` reads nothing, so its reading cannot fail.
    ensures sample_unread { ReadsNothing (texts words.now)
        → (result ≢ 3) × (source.new ≡ source.old) }

    // No other status hides a fault of reading.
    ensures read_fault { result ≡ 3 → Rose (S.seen.faults source.old) (S.seen.faults source.new) }
    ensures read_fault_only { result ≢ 3 → S.seen.faults source.new ≡ S.seen.faults source.old }

    // The status is that of the answer, of which the writing may have failed.
    ensures status { result ≢ 3 → result ≢ 9 →
        IfKnown (texts words.now) (S.seen.left source.old)
        (λ bytes. HasStatus (texts words.now) bytes (before_writing result)) }
    ensures status_end_of_input { (ReadsNothing (texts words.now) → ⊥)
        → IsReadToEnd result → IsAtEnd (S.seen.left source.new) }
    ensures status_too_long { result ≡ 10 →
        ConsumesSome (S.seen.left source.old)
        (S.seen.left source.new) (λ count. count ≡ MAX_INPUT + 1) }

    // The output is the text of the answer, or a prefix of it.
    ensures output { result ≡ 0 →
        IfPrinted (texts words.now) (S.seen.left source.old)
        (Appends (K.seen.held out.old) (K.seen.held out.new)) }
    ensures output_prefix { result ≡ 4 →
        IfPrinted (texts words.now) (S.seen.left source.old)
        (AppendsPrefix (K.seen.held out.old) (K.seen.held out.new)) }
    ensures output_memory { result ≡ 9 → (out.new ≡ out.old)
        ⊎ (Rose (K.seen.wants out.old) (K.seen.wants out.new)
        × IfPrinted (texts words.now) (S.seen.left source.old)
        (AppendsPrefix (K.seen.held out.old) (K.seen.held out.new))) }
    ensures output_none { IsRefusal result → out.new ≡ out.old }

    // The rows that were written are those of a Wyckoff table of the group that is asked about.
    ensures table { result ≡ 0 →
        IfTabled (texts words.now) (S.seen.left source.old)
        (Appends (K.seen.held out.old) (K.seen.held out.new)) }

    // The lines that were written are of the classes or orbits that are asked for: each index of the box is of the class of
    // exactly one line, each grid point of a cell in the orbit of exactly one, and what a line says is so.
    ensures listed { result ≡ 0 →
        IfListed (texts words.now) (S.seen.left source.old)
        (Appends (K.seen.held out.old) (K.seen.held out.new)) }

    // No other status hides a fault of writing, or a want of memory of the output.
    ensures write_fault { result ≡ 4 → Rose (K.seen.faults out.old) (K.seen.faults out.new) }
    ensures write_fault_only { result ≢ 4 → K.seen.faults out.new ≡ K.seen.faults out.old }
    ensures want_only { result ≢ 9 → K.seen.wants out.new ≡ K.seen.wants out.old }

    // The fault with this status is told, and it is that of the answer.
    ensures fault_text { result ≢ 0 → (fault : Fault) × (status_of fault ≡ result)
        × (IsDecided result → IfRefused (texts words.now) (S.seen.left source.old) fault)
        × IsTold E.seen err.old err.new (text_of fault) }
    ensures fault_text_none { result ≡ 0 → err.new ≡ err.old }

    // Where nothing fails, the answer is given, or memory is wanted.
    ensures complete { ReadsNothing (texts words.now)
        ⊎ (Rose (S.seen.faults source.old) (S.seen.faults source.new) → ⊥)
        → (Rose (K.seen.faults out.old) (K.seen.faults out.new) → ⊥)
        → Completes (texts words.now) (S.seen.left source.old)
        (K.seen.held out.old) (K.seen.held out.new) result }
{
    match serve(alloc, words, source, out) {
        Ok(()) => 0,
        Err(fault) => {
            tell(err, fault);
            fault.status()
        }
    }
}
