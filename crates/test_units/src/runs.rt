//! Runs over a source and a sink that fail at calls that are listed.

use js_run::{FailingSource, RoomSink, Status, run};
use std::alloc::{AllocError, Global};

/// How a run begins: the goal, how many spaces and then which bytes the source has, the calls at which source and sink fail, and
/// the sink's room. Then how it has to end, and what the sink has to have.
struct Row {
    goal: &'static str,
    spaces: usize,
    bytes: &'static [u8],
    reads_fail: &'static [u64],
    writes_fail: &'static [u64],
    room: usize,
    status: Status,
    written: &'static str,
}

/// The tree of `a;`.
const TREE: &str = "Program 0..2\n  ExpressionStatement 0..2\n    IdentifierReference 0..1\n";

#[rattlefmt::skip]
static ROWS: [Row; 9] = [
    Row { goal: "script", spaces: 0, bytes: b"a;", reads_fail: &[], writes_fail: &[], room: 1000, status: Status::Ok, written: TREE },
    Row { goal: "script", spaces: 0, bytes: b"[a, ...b,] = c", reads_fail: &[], writes_fail: &[], room: 1000, status: Status::Refused, written: "8..9 rest_element_trailing_comma\n" },
    Row { goal: "script", spaces: 0, bytes: b"a;", reads_fail: &[2], writes_fail: &[], room: 1000, status: Status::ReadFault, written: "" },
    Row { goal: "script", spaces: 0, bytes: b"a;", reads_fail: &[], writes_fail: &[1], room: 1000, status: Status::WriteFault, written: "" },
    Row { goal: "script", spaces: 0, bytes: b"a;", reads_fail: &[], writes_fail: &[], room: 10, status: Status::WriteFault, written: "Program 0." },
    Row { goal: "es6", spaces: 0, bytes: b"a;", reads_fail: &[], writes_fail: &[], room: 1000, status: Status::Usage, written: "" },
    Row { goal: "script", spaces: 0, bytes: b"\xff", reads_fail: &[], writes_fail: &[], room: 1000, status: Status::NotUtf8, written: "" },
    Row { goal: "script", spaces: 67_108_865, bytes: b"", reads_fail: &[], writes_fail: &[], room: 1000, status: Status::TooLong, written: "" },
    Row { goal: "script", spaces: 67_108_864, bytes: b"", reads_fail: &[], writes_fail: &[], room: 1000, status: Status::Ok, written: "Program 0..67108864\n" },
];

/// Whether the run ends as its row says.
fn holds(alloc: Global, row: &Row) -> Result<bool, AllocError> {
    let words = vec![in alloc; "--goal".to_string(alloc)?, row.goal.to_string(alloc)?]?;
    let mut bytes = vec![in alloc; b' '; row.spaces]?;
    bytes.extend_from_slice(row.bytes)?;
    let mut source = FailingSource::new(bytes, row.reads_fail.to_vec(alloc)?);
    let Ok(mut sink) = RoomSink::with_room(alloc, row.room, row.writes_fail.to_vec(alloc)?) else {
        return Ok(false);
    };
    let status = run(alloc, &words, &mut source, &mut sink);
    Ok(status == row.status && sink.bytes() == row.written.as_bytes())
}

#[test]
fn runs_end_with_their_status(rt: HostRuntime) {
    for (i, row) in ROWS.iter().enumerate() {
        assert!(rt; matches!(holds(rt.alloc(), row), Ok(true)), "at row {i}");
    }
}
