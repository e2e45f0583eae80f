//! The top command: words, an input and two outputs in, a status out.
ghost use Rattle.std.specs.Prelude.{◌≡◌, ◌↔◌, map, string_bytes, None, IfSome, IsTrue};
ghost use Rattle.t1_io.specs.Causes.{Rose};
ghost use Rattle.t1_cli.specs.Serial.{HasNoText};
ghost use Rattle.t1_cli.specs.Verdict.{Tells};
ghost use Rattle.t1_cli.specs.Words.{command_of};
ghost use Rattle.t1_take.specs.Limits.{is_in_limits};
ghost use Rattle.t1_top.specs.Headline.{ClaimsCommand};
ghost use Rattle.t1_top.specs.Top.{live_of, AnswersCommand, ReadsNoInput, ServesCommand};

use crate::live::serve_live;
use std::alloc::Global;
use std::sync::Wait;
use std::thread::Threads;
use t1_cli::lines::tell;
use t1_cli::{Command, Status, read_words, t1_serial};
use t1_event::Config;
use t1_io::{Sink, Source};
use t1_live::Gate;

/// The machine of the threaded run, where the words ask for it.
fn read_live(words: &[String]) -> Option<Config>
    ensures value { result ≡ live_of (command_of (map string_bytes words.now)) }
    ensures limits { IfSome result (λ config. IsTrue (is_in_limits config)) }
{
    match read_words(words)? {
        Command::Live { config } => Some(config),
        Command::Run { .. } | Command::Asm | Command::Dis | Command::Check | Command::Gen { .. } =>
            None,
    }
}

/// Serves every command: reads its input, writes its text to `out`, and one line to `err` where the
/// status is not good.
///
/// The command `live` takes an ELF file, runs it on the machine of the words with each core, each
/// destination and the crossbar in a thread of its own, and writes the log of that run; each agent
/// passes the gate before each of its turns. What order the run comes to is what the threads did. All
/// other commands are those of `t1_serial`. Because threads wait for one another, that the call comes
/// back is promised for no command.
pub fn t1_top<R: Threads + Wait + Sync, S: Source, K: Sink, E: Sink, G: Gate + Sync>(
    rt: &R,
    alloc: Global,
    words: &[String],
    input: &mut S,
    out: &mut K,
    err: &mut E,
    gate: &G,
) -> Status
    // When each status comes.
    ensures usage { (result ≡ Status.Usage) ↔ (command_of (map string_bytes words.now) ≡ None) }
    ensures headline { ClaimsCommand (command_of (map string_bytes words.now)) (S.left input.old) (K.held out.old) (K.held out.new) result }
    ensures answers { AnswersCommand (command_of (map string_bytes words.now)) (S.left input.old) (S.left input.new) (K.held out.old) (K.held out.new) result }
    ensures read_fault { result ≡ Status.ReadFault → Rose (S.faults input.old) (S.faults input.new) }
    ensures write_fault { result ≡ Status.WriteFault → Rose (K.faults out.old) (K.faults out.new) }

    // What is read, and what is written.
    ensures unread { ReadsNoInput (command_of (map string_bytes words.now)) → input.new ≡ input.old }
    ensures unchanged { HasNoText result → out.new ≡ out.old }
    ensures line { Tells (ServesCommand (command_of (map string_bytes words.now)) (S.left input.old) (K.held out.old) (K.held out.new)) (E.faults err.old) (E.faults err.new) (E.held err.old) (E.held err.new) result }
{
    match read_live(words) {
        Some(config) => {
            let verdict = serve_live(rt, alloc, &config, input, out, gate);
            tell(err, verdict);
            verdict.status()
        }
        None => t1_serial(alloc, words, input, out, err),
    }
}
