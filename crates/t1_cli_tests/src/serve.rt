//! The serial command over devices in memory.

use std::alloc::{AllocError, Global};
use std::process::Abort;
use t1_cli::t1_serial;
use t1_guests::{Plan, Row};
use t1_io::{MemSink, MemSource};

/// What came of a command.
#[derive(Drop)]
pub struct Came {
    pub status: u8,
    pub out: Vec<u8>,
    pub err: Vec<u8>,
}

/// The words of a command line.
pub fn words_of(alloc: Global, line: &str) -> Result<Vec<String>, AllocError> {
    let mut words = Vec::new(alloc);
    for word in line.split_whitespace() {
        words.push(String::from_str(alloc, word)?)?;
    }
    Ok(words)
}

/// Serves a command.
pub fn serve(alloc: Global, line: &str, file: Vec<u8>, plan: Plan) -> Result<Came, AllocError> {
    let list = words_of(alloc, line)?;
    let piece = plan.piece.max(1);
    let mut input = MemSource::new(file, 16, Vec::from_slice(alloc, &[plan.read])?);
    let writes = Vec::from_slice(alloc, &[plan.write])?;
    let mut out = MemSink::new(alloc, plan.room, piece, writes)?;
    let tells = Vec::from_slice(alloc, &[plan.tell])?;
    let mut err = MemSink::new(alloc, 256, piece, tells)?;
    let status = t1_serial(alloc, list.as_slice(), &mut input, &mut out, &mut err);
    Ok(Came {
        status: status.code(),
        out: out.as_slice().to_vec(alloc)?,
        err: err.as_slice().to_vec(alloc)?,
    })
}

/// Serves commands with ` | ` between, each over what the one before wrote, up to the first that does not
/// do well.
pub fn serve_all(
    alloc: Global,
    lines: &str,
    file: Vec<u8>,
    plan: Plan,
) -> Result<Came, AllocError> {
    let mut came = Came {
        status: 0,
        out: file,
        err: Vec::new(alloc),
    };
    for line in lines.split(" | ") {
        if came.status == 0 {
            came = serve(alloc, line, came.out, plan)?;
        }
    }
    Ok(came)
}

/// What comes of each row is what it says.
pub fn assert_rows(rt: &impl Abort, alloc: Global, rows: &[Row]) -> Result<(), AllocError> {
    for (number, row) in rows.iter().enumerate() {
        let came = serve_all(alloc, row.words, row.input.bytes(alloc)?, row.plan)?;
        let told = row.is_told(came.err.as_slice());
        let is_out = row.out.is(alloc, came.out.as_slice())?;
        let words = row.words;
        assert_eq!(rt; came.status, row.status, "row {number}: {words}");
        assert!(rt; told, "what row {number} tells: {words}");
        assert!(rt; is_out, "what row {number} writes: {words}");
    }
    Ok(())
}
