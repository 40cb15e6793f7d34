ghost use Rattle.std.specs.Prelude.{◌≤◌};

use sg_cli::run;
use sg_io::{MemSink, MemSource, NoFailSink, ReadStop, SinkStop, put_all, read_all};
use std::alloc::Global;
use std::process::Abort;
use std::test::Fail;

const INVERSION: &[u8] = b"-x,-y,-z";

/// The rows of P-1.
const ROWS: &[u8] = b"\
    1 2 x,y,z\n\
    2 1 0,0,0\n\
    3 1 0,0,1/2\n\
    4 1 0,1/2,0\n\
    5 1 0,1/2,1/2\n\
    6 1 1/2,0,0\n\
    7 1 1/2,0,1/2\n\
    8 1 1/2,1/2,0\n\
    9 1 1/2,1/2,1/2\n\
";

pub fn words_of(alloc: Global, texts: &[&str]) -> Result<Vec<String>, Fail> {
    let mut words = Vec::new(alloc);
    for text in texts {
        words.push(String::from_str(alloc, text)?)?;
    }
    Ok(words)
}

fn source_of(alloc: Global, bytes: &[u8], piece: u32, call: u32) -> Result<MemSource, Fail>
    requires { 1 ≤ piece }
{
    let source = MemSource::new(alloc, bytes, piece, &[call]);
    Ok(source.ok().ok_or("memory")?)
}

fn sink_of(alloc: Global, piece: u32, call: u32) -> Result<MemSink, Fail>
    requires { 1 ≤ piece }
{
    Ok(MemSink::new(alloc, piece, &[call]).ok().ok_or("memory")?)
}

/// `wyckoff` over the source prints the text; or where there is none, reading fails, and that is told.
fn reads(
    rt: &impl Abort,
    alloc: Global,
    mut source: MemSource,
    text: Option<&[u8]>,
) -> Result<(), Fail> {
    let mut out = NoFailSink::new(alloc, 100);
    let mut err = NoFailSink::new(alloc, 100);
    let words = words_of(alloc, &["wyckoff"])?;
    let status = run(alloc, &words, &mut source, &mut out, &mut err);
    let (want, printed, told) = match text {
        Some(text) => (0, text, b"".as_slice()),
        None => (3, b"".as_slice(), b"sg: reading failed\n".as_slice()),
    };
    assert_eq!(rt; status, want);
    assert_eq!(rt; out.held(), printed);
    assert_eq!(rt; err.held(), told);
    Ok(())
}

/// Eight reads give a byte each, and the ninth is the end. Two reads give five bytes and three.
#[test]
fn a_read_that_fails_is_status_3(rt: HostRuntime) -> Result<(), Fail> {
    let alloc = rt.alloc();
    for call in 0..9u32 {
        reads(&rt, alloc, source_of(alloc, INVERSION, 1, call)?, None)?;
    }
    reads(&rt, alloc, source_of(alloc, INVERSION, 1, 9)?, Some(ROWS))?;
    reads(&rt, alloc, source_of(alloc, INVERSION, 5, 1)?, None)
}

#[test]
fn an_empty_input_is_read_once(rt: HostRuntime) -> Result<(), Fail> {
    let alloc = rt.alloc();
    reads(&rt, alloc, source_of(alloc, b"", 5, 0)?, None)?;
    reads(
        &rt,
        alloc,
        source_of(alloc, b"", 5, 1)?,
        Some(b"1 1 x,y,z\n"),
    )
}

/// Words, an input, and what is printed.
const TEXTS: [(&[&str], &[u8], &[u8]); 9] = [
    (&["ops"], INVERSION, b"x,y,z\n-x,-y,-z\n"),
    (
        &["types"],
        b"-y,x,z+1/4",
        b"\
        x,y,z 1 0,0,0 -\n\
        y,-x,z+3/4 4 0,0,3/4 0,0,1\n\
        -y,x,z+1/4 4 0,0,1/4 0,0,1\n\
        -x,-y,z+1/2 2 0,0,1/2 0,0,1\n\
    ",
    ),
    (
        &["site", "1/10", "1/5", "3/10"],
        INVERSION,
        b"\
        order 1\n\
        multiplicity 2\n\
        fix x,y,z\n\
        at 1/10 1/5 3/10\n\
        at 9/10 4/5 7/10\n\
    ",
    ),
    (&["wyckoff"], INVERSION, ROWS),
    (&["params"], INVERSION, ROWS),
    (
        &["report"],
        b"",
        b"{\"operators\":[\"x,y,z\"],\"rows\":[{\"mult\":1,\"param\":\"x,y,z\",\"text\":\"x,y,z\"}]}\n",
    ),
    (
        &["atoms"],
        b"-x,-y,-z\n%%\nO 0.1 0.2 0.3\nFe 1 0 0\nFe 0 0 0",
        b"\
        site 1 O 2\n\
        at 1 1/10 1/5 3/10\n\
        at 1 9/10 4/5 7/10\n\
        site 2 Fe 1\n\
        at 2 0 0 0\n\
        same 3 Fe 2\n\
    ",
    ),
    (
        &["merge"],
        b"-x,y+1/2,-z\n%%\n0 1 0 3\n0 -1 0 -3\n1 0 0 4",
        b"\
        1 0 0 1 4 present\n\
        0 1 0 2 0 absent\n\
        observed absences 1\n\
        0 1 0\n\
    ",
    ),
    (
        &["map", "3", "1", "1"],
        b"-x,-y,-z\n%%\n5\n6\n7",
        b"0 0 0 1 5\n1 0 0 2 13\ntotal 18\n",
    ),
];

/// Each write takes a byte. What stands before the one that fails is printed, and all of the text where it would be one more.
#[test]
fn a_write_that_fails_is_status_4(rt: HostRuntime) -> Result<(), Fail> {
    let alloc = rt.alloc();
    for (texts, input, text) in TEXTS {
        let words = words_of(alloc, texts)?;
        for call in 0..=text.len() {
            let mut source = source_of(alloc, input, 100, 100)?;
            let mut out = sink_of(alloc, 1, u32::try_from(call)?)?;
            let mut err = NoFailSink::new(alloc, 100);
            let status = run(alloc, &words, &mut source, &mut out, &mut err);
            let (want, told) = if call < text.len() {
                (4, b"sg: writing failed\n".as_slice())
            } else {
                (0, b"".as_slice())
            };
            assert_eq!(rt; status, want, "{words:?}, call {call}");
            assert_eq!(rt; out.held(), &text[..call], "{words:?}, call {call}");
            assert_eq!(rt; err.held(), told, "{words:?}, call {call}");
        }
    }
    Ok(())
}

/// Two writes take four bytes each, and the third fails.
#[test]
fn rows_of_which_eight_bytes_were_taken(rt: HostRuntime) -> Result<(), Fail> {
    let alloc = rt.alloc();
    let mut source = source_of(alloc, INVERSION, 100, 100)?;
    let mut out = sink_of(alloc, 4, 2)?;
    let mut err = NoFailSink::new(alloc, 100);
    let words = words_of(alloc, &["wyckoff"])?;
    let status = run(alloc, &words, &mut source, &mut out, &mut err);
    assert_eq!(rt; status, 4);
    assert_eq!(rt; out.held(), &ROWS[..8]);
    assert_eq!(rt; err.held(), b"sg: writing failed\n".as_slice());
    Ok(())
}

/// Words, an input that is refused, the status and the fault text.
const REFUSED: [(&[&str], &[u8], u8, &[u8]); 17] = [
    (
        &["ops"],
        b"x,y+1/2,z+1/2\nx+1/2,y,z+1/2\n-x,-y,z\n-x,y,-z\nz,x,y\ny,x,-z\n-x,-y,-z\nx+1/4,y,z",
        7,
        b"sg: operators do not close\n",
    ),
    (&["ops"], b"x+y,y,z", 7, b"sg: operators do not close\n"),
    (&["ops"], b"x+3y,y,z", 7, b"sg: operators do not close\n"),
    (&["ops"], b"2x,y,z", 6, b"sg: line 1: not unimodular\n"),
    (&["ops"], b"x-x,y,z", 6, b"sg: line 1: not unimodular\n"),
    (&["ops"], b"2x,y,z\nx,y", 6, b"sg: line 1: not unimodular\n"),
    (&["ops"], b"x,y,z\nx,y", 5, b"sg: line 2: not a triplet\n"),
    (
        &["ops"],
        b"x,y,z\nx,y,z,",
        5,
        b"sg: line 2: not a triplet\n",
    ),
    (
        &["ops"],
        b"x,y,z\nx+1/5,y,z",
        5,
        b"sg: line 2: not a triplet\n",
    ),
    (
        &["ops"],
        b"x,y,z\nx+0.333,y,z",
        5,
        b"sg: line 2: not a triplet\n",
    ),
    (
        &["ops"],
        b"x,y,z\n\n1 x,y,z",
        5,
        b"sg: line 3: not a triplet\n",
    ),
    (
        &["grid", "4", "4", "6"],
        b"-y,x,z+1/4",
        8,
        b"sg: grid is not kept\n",
    ),
    (
        &["grid", "6", "4", "1"],
        b"x-y,x,z",
        8,
        b"sg: grid is not kept\n",
    ),
    (
        &["atoms"],
        b"x,y,z\n%%\nO 0 0 0\n0 0 0",
        11,
        b"sg: line 4: not a data line\n",
    ),
    (
        &["merge"],
        b"%%\n1 0 0 4\n%%",
        11,
        b"sg: line 3: not a data line\n",
    ),
    (
        &["map", "3", "1", "1"],
        b"-x,-y,-z\n%%\n5\n6",
        12,
        b"sg: wrong number of values\n",
    ),
    (
        &["help"],
        b"x,y,z",
        2,
        b"sg: words are not a command in range\n",
    ),
];

/// Each write of the fault text takes a byte. What stands before the one that fails is told, and the status is the same.
#[test]
fn the_status_does_not_depend_on_the_fault_text(rt: HostRuntime) -> Result<(), Fail> {
    let alloc = rt.alloc();
    for (texts, input, wanted, text) in REFUSED {
        let words = words_of(alloc, texts)?;
        for call in 0..=text.len() {
            let mut source = source_of(alloc, input, 100, 100)?;
            let mut out = NoFailSink::new(alloc, 100);
            let mut err = sink_of(alloc, 1, u32::try_from(call)?)?;
            let status = run(alloc, &words, &mut source, &mut out, &mut err);
            assert_eq!(rt; status, wanted, "{input:?}, call {call}");
            assert_eq!(rt; out.held(), b"".as_slice());
            assert_eq!(rt; err.held(), &text[..call], "{input:?}, call {call}");
        }
    }
    Ok(())
}

/// The call that fails, and what the first and the second read of all give.
const FAILED_READS: [(u32, Option<&str>, Option<&str>); 6] = [
    (0, None, Some("x,y,z")),
    (1, None, Some("y,z")),
    (2, None, Some("z")),
    (3, None, Some("")),
    (4, Some("x,y,z"), None),
    (5, Some("x,y,z"), Some("")),
];

#[test]
fn a_source_in_memory_fails_at_the_listed_call(rt: HostRuntime) -> Result<(), Fail> {
    let alloc = rt.alloc();
    for (call, first, second) in FAILED_READS {
        let mut source = source_of(alloc, b"x,y,z", 2, call)?;
        for wanted in [first, second] {
            match read_all(alloc, &mut source, 8) {
                Ok(all) => {
                    let wanted = wanted.map(|text| text.as_bytes());
                    assert_eq!(rt; Some(all.as_slice()), wanted, "call {call}");
                }
                Err(stop) => {
                    assert_eq!(rt; stop, ReadStop::Failed, "call {call}");
                    assert_eq!(rt; wanted, None, "call {call}");
                }
            }
        }
    }
    Ok(())
}

/// The call that fails, and what is held after the operator and after the line feed.
const FAILED_WRITES: [(u32, &str, &str); 5] = [
    (0, "", "\n"),
    (1, "x,", "x,\n"),
    (2, "x,y,", "x,y,\n"),
    (3, "x,y,z", "x,y,z"),
    (4, "x,y,z", "x,y,z\n"),
];

#[test]
fn a_sink_in_memory_fails_at_the_listed_call(rt: HostRuntime) -> Result<(), Fail> {
    let alloc = rt.alloc();
    for (call, first, second) in FAILED_WRITES {
        let mut sink = sink_of(alloc, 2, call)?;
        let put = put_all(&mut sink, b"x,y,z");
        let stop = (call < 3).then_some(SinkStop::Failed);
        assert_eq!(rt; put.err(), stop, "call {call}");
        assert_eq!(rt; sink.held(), first.as_bytes(), "call {call}");
        let put = put_all(&mut sink, b"\n");
        let stop = (call == 3).then_some(SinkStop::Failed);
        assert_eq!(rt; put.err(), stop, "call {call}");
        assert_eq!(rt; sink.held(), second.as_bytes(), "call {call}");
    }
    Ok(())
}
