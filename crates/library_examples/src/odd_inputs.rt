//! Inputs without an end, and inputs that are cut off.

use crate::failing_streams::words_of;
use sg_cli::run;
use sg_io::{NoFailSink, NoFailSource, RepeatSource};
use std::test::Fail;

/// One line is read until the input is too long.
#[test]
fn an_input_without_an_end_is_too_long(rt: HostRuntime) -> Result<(), Fail> {
    let alloc = rt.alloc();
    let words = words_of(alloc, &["ops"])?;
    for line in ["x,y,z\n", "x", "\n"] {
        let source = RepeatSource::new(alloc, 7, line.as_bytes());
        let mut source = source.ok().ok_or("memory")?;
        let mut out = NoFailSink::new(alloc, 100);
        let mut err = NoFailSink::new(alloc, 100);
        let status = run(alloc, &words, &mut source, &mut out, &mut err);
        assert_eq!(rt; status, 10, "{line:?}");
        assert_eq!(rt; out.held(), b"".as_slice());
        assert_eq!(rt; err.held(), b"sg: input too long\n".as_slice());
    }
    Ok(())
}

/// The operators of Fm-3m, as a file might have them.
const CUBIC: &str = "x,y+1/2,z+1/2\nx+1/2,y,z+1/2\n-x,-y,z\n-x,y,-z\nz,x,y\ny,x,-z\n-x,-y,-z\n";

/// What a cut may leave of a line so that it can be read.
const READABLE: [&str; 12] = [
    "",
    "x,y+1/2,z",
    "x,y+1/2,z+1",
    "x,y+1/2,z+1/2",
    "x+1/2,y,z",
    "x+1/2,y,z+1",
    "x+1/2,y,z+1/2",
    "-x,-y,z",
    "-x,y,-z",
    "z,x,y",
    "y,x,-z",
    "-x,-y,-z",
];

/// Cut behind any of its bytes the input is that of a subgroup, or its last line is no triplet.
#[test]
fn an_input_that_is_cut_off(rt: HostRuntime) -> Result<(), Fail> {
    let alloc = rt.alloc();
    let words = words_of(alloc, &["ops"])?;
    for end in 0..=CUBIC.len() {
        let input = CUBIC.get(..end).ok_or("no text")?;
        let last = input.rsplit('\n').next().ok_or("no line")?;
        let wanted = if READABLE.contains(&last) { 0 } else { 5 };
        let source = NoFailSource::new(alloc, input.as_bytes(), 100);
        let mut source = source.ok().ok_or("memory")?;
        let mut out = NoFailSink::new(alloc, 100);
        let mut err = NoFailSink::new(alloc, 100);
        let status = run(alloc, &words, &mut source, &mut out, &mut err);
        assert_eq!(rt; status, wanted, "{input:?}");
    }
    Ok(())
}
