//! `run_holds` with readers and writers that are interrupted or fail.
use report_runs::run_holds;
use std::alloc::Global;
use std::fmt::Debug;
use std::io::{ErrorKind, Read};
use std::process::Abort;
use std::str;
use std::test::Fail;
use testing::{Failures, Pieces, Slow, assert_equal, assert_equal_at};

const HEADING: &str = "SYSMOD   KIND    REASON   FMID     CLASS    DATE   RESOLVER CATEGORY\n";

const SOURCE: &str =
    "++HOLD(UA10001) ERROR FMID(HBB7790)                                     00010000
 REASON(AA20002) CLASS(PE) DATE(12045).                                 00020000
";

const ONE_HOLD: &str = "UA10001  ERROR   AA20002  HBB7790  PE       12045  -        -\nROWS 1\n";

// The outcome of a run: the status, standard output and standard error.
#[derive(Drop)]
struct Run {
    status: u8,
    output: Vec<u8>,
    errors: Vec<u8>,
}

fn run_of<R: Read>(alloc: Global, reader: &mut R) -> Run {
    let (mut output, mut errors) = (Vec::new(alloc), Vec::new(alloc));
    let status = run_holds(alloc, reader, &mut output, &mut errors);
    Run {
        status,
        output,
        errors,
    }
}

// Checks the outcome of a run. A failure says the case.
fn assert_run<P: Debug + Copy + Drop>(
    case: P,
    run: &Run,
    status: u8,
    output: &str,
    errors: &str,
) -> Result<(), Fail> {
    assert_equal_at(case, run.status, status)?;
    assert_equal_at(case, str::from_utf8(run.output.as_slice()), Ok(output))?;
    assert_equal_at(case, str::from_utf8(run.errors.as_slice()), Ok(errors))
}

// A reader of the source, which is interrupted so often first, and fails at the end if it isn't whole.
fn reader_of(piece: usize, interruptions: u32, is_whole: bool) -> Pieces<'static> {
    let failures = Failures::interruptions(interruptions);
    let mut reader = Pieces::new(SOURCE.as_bytes(), piece, failures);
    if !is_whole {
        reader.end = Some(ErrorKind::TimedOut);
    }
    reader
}

// The piece, the interruptions, whether the source is whole, the status, and the text on standard error.
static READERS: [(usize, u32, bool, u8, &str); 5] = [
    (7, 0, true, 0, ""),
    (1000, 64, true, 0, ""),
    (1000, 65, true, 3, "FAULT 71\n"),
    (1000, 0, false, 3, "FAULT 71\n"),
    (7, 3, false, 3, "FAULT 71\n"),
];

#[test]
fn readers_that_are_interrupted_or_fail(rt: HostRuntime) -> Result<(), Fail> {
    let whole = format!(in rt.alloc(); "{HEADING}{ONE_HOLD}")?;
    for &(piece, interruptions, is_whole, status, errors) in &READERS {
        let mut reader = reader_of(piece, interruptions, is_whole);
        let run = run_of(rt.alloc(), &mut reader);
        let wanted = if status == 0 { whole.as_str() } else { "" };
        assert_run((piece, interruptions), &run, status, wanted, errors)?;
    }
    Ok(())
}

// The piece, the interruptions, the room, whether a write fails if there is none, the status, the number of bytes
// that are taken, and the text on standard error.
type Writing = (usize, u32, usize, bool, u8, usize, &'static str);

static WRITERS: [Writing; 6] = [
    (1, 0, 1000, true, 0, 138, ""),
    (1000, 64, 1000, true, 0, 138, ""),
    (1000, 65, 1000, true, 3, 0, "FAULT 72\n"),
    (10, 0, 25, true, 3, 25, "FAULT 72\n"),
    (10, 0, 25, false, 3, 25, "FAULT 72\n"),
    (0, 0, 1000, false, 3, 0, "FAULT 72\n"),
];

#[test]
fn writers_that_are_interrupted_or_fail(rt: HostRuntime) -> Result<(), Fail> {
    let whole = format!(in rt.alloc(); "{HEADING}{ONE_HOLD}")?;
    for row in &WRITERS {
        assert_written(&rt, rt.alloc(), row, whole.as_bytes())?;
    }
    Ok(())
}

// Checks that a run over the source writes the first bytes of this whole text.
fn assert_written(rt: &impl Abort, alloc: Global, row: &Writing, whole: &[u8]) -> Result<(), Fail> {
    let (piece, interruptions, room, is_failing, status, taken, errors) = *row;
    let case = (piece, interruptions, room);
    let mut writer = Slow::new(alloc, piece, room, Failures::interruptions(interruptions));
    if is_failing {
        writer.full = Some(ErrorKind::StorageFull);
    }
    let mut told = Vec::new(alloc);
    let got = run_holds(alloc, &mut SOURCE.as_bytes(), &mut writer, &mut told);
    assert_equal_at(case, got, status)?;
    assert_equal_at(case, writer.taken.len(), taken)?;
    assert!(rt; whole.starts_with(writer.taken.as_slice()), "{case:?}");
    assert_equal_at(case, str::from_utf8(told.as_slice()), Ok(errors))
}

#[test]
fn standard_error_that_fails_changes_nothing(rt: HostRuntime) -> Result<(), Fail> {
    let mut errors = Slow::new(rt.alloc(), 4, 6, Failures::none());
    errors.full = Some(ErrorKind::StorageFull);
    let mut output = Vec::new(rt.alloc());
    let source = "++HOLD(UA10001) ERROR.";
    let status = run_holds(rt.alloc(), &mut source.as_bytes(), &mut output, &mut errors);
    assert_equal(status, 1)?;
    assert!(rt; output.is_empty() && errors.taken.as_slice() == b"FAULT ".as_slice());
    Ok(())
}
