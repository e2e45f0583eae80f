//! The commands over devices in memory.

use std::alloc::{AllocError, Global};
use std::process::Abort;
use std::sync::Wait;
use std::thread::Threads;
use t1_guests::{Plan, Row};
use t1_io::{MemSink, MemSource};
use t1_live::FreeGate;
use t1_top::t1_top;

/// What came of a command.
#[derive(Drop)]
pub struct Came {
    pub status: u8,
    pub out: Vec<u8>,
    pub err: Vec<u8>,
}

/// Serves a command.
pub fn serve<R: Threads + Wait + Sync>(
    rt: &R,
    alloc: Global,
    line: &str,
    file: Vec<u8>,
    plan: Plan,
) -> Result<Came, AllocError> {
    let mut words = Vec::new(alloc);
    for word in line.split_whitespace() {
        words.push(String::from_str(alloc, word)?)?;
    }
    let piece = plan.piece.max(1);
    let mut input = MemSource::new(file, 16, Vec::from_slice(alloc, &[plan.read])?);
    let writes = Vec::from_slice(alloc, &[plan.write])?;
    let mut out = MemSink::new(alloc, plan.room, piece, writes)?;
    let tells = Vec::from_slice(alloc, &[plan.tell])?;
    let mut err = MemSink::new(alloc, 256, piece, tells)?;
    let status = t1_top(
        rt,
        alloc,
        words.as_slice(),
        &mut input,
        &mut out,
        &mut err,
        &FreeGate,
    );
    Ok(Came {
        status: status.code(),
        out: out.as_slice().to_vec(alloc)?,
        err: err.as_slice().to_vec(alloc)?,
    })
}

/// Serves commands with ` | ` between, each over what the one before wrote, up to the first that does not
/// do well.
pub fn serve_all<R: Threads + Wait + Sync>(
    rt: &R,
    alloc: Global,
    lines: &str,
    file: Vec<u8>,
    plan: Plan,
) -> Result<Came, AllocError> {
    let mut came = Came {
        status: 0,
        out: file,
        err: Vec::new(alloc),
    };
    for line in lines.split(" | ") {
        if came.status == 0 {
            came = serve(rt, alloc, line, came.out, plan)?;
        }
    }
    Ok(came)
}

/// What comes of a row is what it says.
pub fn assert_row<R: Threads + Wait + Sync + Abort>(
    rt: &R,
    alloc: Global,
    row: &Row<'_>,
) -> Result<(), AllocError> {
    let came = serve_all(rt, alloc, row.words, row.input.bytes(alloc)?, row.plan)?;
    let told = row.is_told(came.err.as_slice());
    let is_out = row.out.is(alloc, came.out.as_slice())?;
    let (words, line) = (row.words, row.err);
    assert_eq!(*rt; came.status, row.status, "{words}: {line}");
    assert!(*rt; told, "what is told by {words}: {line}");
    assert!(*rt; is_out, "what is written by {words}: {line}");
    Ok(())
}
