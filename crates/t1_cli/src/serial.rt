//! The serial command: words, an input and two outputs in, a status out.
ghost use Rattle.std.specs.Prelude.{◌≡◌, ◌≢◌, ◌↔◌, ◌≤◌, map, string_bytes, None, IfOk, IfSome, IsTrue};
ghost use Rattle.std.specs.Io.KnownBytes.{IsAtEnd};
ghost use Rattle.t1_io.specs.Causes.{Rose};
ghost use Rattle.t1_elf.specs.Saved.{saved};
ghost use Rattle.t1_gen.specs.Guests.{generated};
ghost use Rattle.t1_cli.specs.Made.{asm_of, dis_of};
ghost use Rattle.t1_cli.specs.Statuses.{status_of_verdict};
ghost use Rattle.t1_cli.specs.Headline.{ClaimsTask};
ghost use Rattle.t1_cli.specs.Serial.{HasText, HasNoText, AnswersTask, ReadsNothing};
ghost use Rattle.t1_cli.specs.Verdict.{OfInput, JudgedRun, Made, Checked, Guests, ServesTask, Tells};
ghost use Rattle.t1_cli.specs.Words.{task_of, IsTask};
ghost use Rattle.t1_take.specs.Limits.{is_in_limits};

use crate::checks::write_verdict;
use crate::command::{Run, Task};
use crate::input::{load_input, read_input};
use crate::lines::tell;
use crate::report::write_run;
use crate::status::Status;
use crate::texts::{write_file, write_words};
use crate::verdict::Verdict;
use crate::words::read_task;
use std::alloc::{AllocError, Global};
use t1_elf::save;
use t1_gen::generate;
use t1_io::{Sink, Source, write_all};

impl Verdict {
    /// The status that a verdict has.
    pub fn status(self) -> Status
        ensures { result ≡ status_of_verdict self }
    {
        match self {
            Verdict::Good => Status::Good,
            Verdict::Usage => Status::Usage,
            Verdict::Refused(_) => Status::Refused,
            Verdict::Fault {
                strand: _,
                number: _,
                pc: _,
            } => Status::Fault,
            Verdict::Spent { strand: _ } => Status::Spent,
            Verdict::ReadFault => Status::ReadFault,
            Verdict::WriteFault => Status::WriteFault,
            Verdict::OutOfMemory => Status::OutOfMemory,
            Verdict::NotInOrder => Status::NotInOrder,
        }
    }
}

/// Reads an ELF file, runs it and writes its log or summary.
fn serve_run<S: Source, K: Sink>(alloc: Global, run: &Run, input: &mut S, out: &mut K) -> Verdict
    requires { IsTrue (is_in_limits run.now.config) }
    ensures serves { OfInput (S.left input.old) (λ bytes. JudgedRun run.now bytes (K.held out.old) (K.held out.new) result) }
    ensures usage { result ≢ Verdict.Usage }
    ensures unchanged { HasNoText (status_of_verdict result) → out.new ≡ out.old }
    ensures read_fault { result ≡ Verdict.ReadFault → Rose (S.faults input.old) (S.faults input.new) }
    ensures write_fault { result ≡ Verdict.WriteFault → Rose (K.faults out.old) (K.faults out.new) }
    ensures end { HasText (status_of_verdict result) → IsAtEnd (S.left input.new) }
{
    match load_input(alloc, &run.config, input) {
        Ok(image) => write_run(alloc, run, image, out),
        Err(verdict) => verdict,
    }
}

/// Reads an assembly text and writes its file.
fn serve_asm<S: Source, K: Sink>(alloc: Global, input: &mut S, out: &mut K) -> Verdict
    ensures serves { OfInput (S.left input.old) (λ bytes. Made (asm_of bytes) (K.held out.old) (K.held out.new) result) }
    ensures usage { result ≢ Verdict.Usage }
    ensures unchanged { HasNoText (status_of_verdict result) → out.new ≡ out.old }
    ensures read_fault { result ≡ Verdict.ReadFault → Rose (S.faults input.old) (S.faults input.new) }
    ensures write_fault { result ≡ Verdict.WriteFault → Rose (K.faults out.old) (K.faults out.new) }
    ensures end { HasText (status_of_verdict result) → IsAtEnd (S.left input.new) }
{
    match read_input(alloc, input) {
        Ok(text) => write_file(alloc, text, out),
        Err(verdict) => verdict,
    }
}

/// Reads an ELF file and writes the lines of its words.
fn serve_dis<S: Source, K: Sink>(alloc: Global, input: &mut S, out: &mut K) -> Verdict
    ensures serves { OfInput (S.left input.old) (λ bytes. Made (dis_of bytes) (K.held out.old) (K.held out.new) result) }
    ensures usage { result ≢ Verdict.Usage }
    ensures unchanged { HasNoText (status_of_verdict result) → out.new ≡ out.old }
    ensures read_fault { result ≡ Verdict.ReadFault → Rose (S.faults input.old) (S.faults input.new) }
    ensures write_fault { result ≡ Verdict.WriteFault → Rose (K.faults out.old) (K.faults out.new) }
    ensures end { HasText (status_of_verdict result) → IsAtEnd (S.left input.new) }
{
    match read_input(alloc, input) {
        Ok(file) => write_words(alloc, file, out),
        Err(verdict) => verdict,
    }
}

/// Reads a log and writes the verdict on its order.
fn serve_check<S: Source, K: Sink>(alloc: Global, input: &mut S, out: &mut K) -> Verdict
    ensures serves { OfInput (S.left input.old) (λ bytes. Checked bytes (K.held out.old) (K.held out.new) result) }
    ensures usage { result ≢ Verdict.Usage }
    ensures unchanged { HasNoText (status_of_verdict result) → out.new ≡ out.old }
    ensures read_fault { result ≡ Verdict.ReadFault → Rose (S.faults input.old) (S.faults input.new) }
    ensures write_fault { result ≡ Verdict.WriteFault → Rose (K.faults out.old) (K.faults out.new) }
    ensures end { HasText (status_of_verdict result) → IsAtEnd (S.left input.new) }
{
    match read_input(alloc, input) {
        Ok(text) => write_verdict(alloc, text, out),
        Err(verdict) => verdict,
    }
}

/// The file of a guest.
fn guest(alloc: Global, seed: u64, size: u32) -> Result<Vec<u8>, AllocError>
    requires some { 1 ≤ size }
    requires most { size ≤ 4000 }
    ensures { IfOk result (λ file. file.items ≡ saved (generated seed size)) }
{
    let object = generate(alloc, seed, size)?;
    save(alloc, &object)
}

/// Writes a guest.
fn serve_gen<K: Sink>(alloc: Global, seed: u64, size: u32, out: &mut K) -> Verdict
    requires some { 1 ≤ size }
    requires most { size ≤ 4000 }
    ensures guests { Guests seed size (K.held out.old) (K.held out.new) result }
    ensures unchanged { HasNoText (status_of_verdict result) → out.new ≡ out.old }
    ensures fault { result ≡ Verdict.WriteFault → Rose (K.faults out.old) (K.faults out.new) }
{
    let Ok(file) = guest(alloc, seed, size) else {
        return Verdict::OutOfMemory;
    };
    if write_all(out, file.as_slice()).is_err() {
        return Verdict::WriteFault;
    }
    Verdict::Good
}

/// Does what the words ask for.
fn serve<S: Source, K: Sink>(
    alloc: Global,
    asked: Option<Task>,
    input: &mut S,
    out: &mut K,
) -> Verdict
    requires { IfSome asked IsTask }
    ensures usage { (result ≡ Verdict.Usage) ↔ (asked ≡ None) }
    ensures serves { ServesTask asked (S.left input.old) (K.held out.old) (K.held out.new) result }
    ensures unread { ReadsNothing asked → input.new ≡ input.old }
    ensures unchanged { HasNoText (status_of_verdict result) → out.new ≡ out.old }
    ensures read_fault { result ≡ Verdict.ReadFault → Rose (S.faults input.old) (S.faults input.new) }
    ensures write_fault { result ≡ Verdict.WriteFault → Rose (K.faults out.old) (K.faults out.new) }
    ensures end { (ReadsNothing asked → ⊥) → HasText (status_of_verdict result) → IsAtEnd (S.left input.new) }
{
    match asked {
        None => Verdict::Usage,
        Some(Task::Run(run)) => serve_run(alloc, &run, input, out),
        Some(Task::Asm) => serve_asm(alloc, input, out),
        Some(Task::Dis) => serve_dis(alloc, input, out),
        Some(Task::Check) => serve_check(alloc, input, out),
        Some(Task::Gen { seed, size }) => serve_gen(alloc, seed, size, out),
    }
}

/// Serves a command: reads its input, writes its text to `out`, and one line to `err` where the
/// status is not good.
///
/// The command `run` takes an ELF file and writes the log of its run on the machine of the words, or
/// with `--brief` its summary; `asm` takes an assembly text and writes its ELF file; `dis` takes an ELF
/// file and writes a line for each of its words; `check` takes a log and writes whether its order is a
/// memory order that obeys total store order; `gen` reads nothing and writes the ELF file of a guest.
/// All other words, those of the run in threads among them, are answered as those that are not in the form.
pub fn t1_serial<S: Source, K: Sink, E: Sink>(
    alloc: Global,
    words: &[String],
    input: &mut S,
    out: &mut K,
    err: &mut E,
) -> Status
    // When each status comes.
    ensures usage { (result ≡ Status.Usage) ↔ (task_of (map string_bytes words.now) ≡ None) }
    ensures headline { ClaimsTask (task_of (map string_bytes words.now)) (S.left input.old) (K.held out.old) (K.held out.new) result }
    ensures answers { AnswersTask (task_of (map string_bytes words.now)) (S.left input.old) (S.left input.new) (K.held out.old) (K.held out.new) result }
    ensures read_fault { result ≡ Status.ReadFault → Rose (S.faults input.old) (S.faults input.new) }
    ensures write_fault { result ≡ Status.WriteFault → Rose (K.faults out.old) (K.faults out.new) }

    // What is read, and what is written.
    ensures unread { ReadsNothing (task_of (map string_bytes words.now)) → input.new ≡ input.old }
    ensures unchanged { HasNoText result → out.new ≡ out.old }
    ensures line { Tells (ServesTask (task_of (map string_bytes words.now)) (S.left input.old) (K.held out.old) (K.held out.new)) (E.faults err.old) (E.faults err.new) (E.held err.old) (E.held err.new) result }
{
    let asked = read_task(words);
    let verdict = serve(alloc, asked, input, out);
    tell(err, verdict);
    verdict.status()
}
