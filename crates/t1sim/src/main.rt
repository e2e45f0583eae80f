//! The program t1sim: it hands its words and the standard streams to the top command, and ends
//! with the number of its status.
#![tactic(auto)]

ghost use Rattle.std.specs.Prelude.{◌≡◌, ◌⊎◌};

use std::alloc::Global;
use std::env::{self, Args};
use std::io;
use std::process::ExitCode;
use t1_cli::Status;
use t1_io::{Sink, StdSink, StdSource, write_all};
use t1_live::FreeGate;
use t1_top::t1_top;

/// The words after the program's name.
fn words(alloc: Global, args: Args) -> io::Result<Vec<String>> {
    let mut words = Vec::new(alloc);
    for word in args.skip(1) {
        words.push(word)?;
    }
    Ok(words)
}

/// The status where there are no words to serve: a word that is no text is no command.
fn wordless<E: Sink>(error: io::Error, err: &mut E) -> Status
    ensures status { (result ≡ Status.OutOfMemory) ⊎ (result ≡ Status.Usage) }
{
    if error.kind() == io::ErrorKind::OutOfMemory {
        let _ = write_all(err, b"t1sim: out of memory\n");
        Status::OutOfMemory
    } else {
        let _ = write_all(err, b"t1sim: usage\n");
        Status::Usage
    }
}

fn main(rt: HostRuntime) -> ExitCode {
    let mut err = StdSink::new(rt.stderr());
    let status = match env::args(&rt).and_then(|args| words(rt.alloc(), args)) {
        Ok(words) => {
            let mut input = StdSource::new(rt.stdin());
            let mut out = StdSink::new(rt.stdout());
            t1_top(
                &rt,
                rt.alloc(),
                words.as_slice(),
                &mut input,
                &mut out,
                &mut err,
                &FreeGate,
            )
        }
        Err(error) => wordless(error, &mut err),
    };
    ExitCode::from(status.code())
}
