//! The lines on err.
ghost use Rattle.std.specs.Prelude.{◌≡◌, ◌≤◌, length};
ghost use Rattle.t1_cli.specs.Lines.{name_of, fault_name_of, kind_name_of, elf_line, asm_line, log_line, refusal_line, fault_line, spent_line};
ghost use Rattle.t1_cli.specs.Serial.{TellsLine};
ghost use Rattle.t1_cli.specs.Verdict.{verdict_line_of};

use crate::refusal::Refusal;
use crate::verdict::Verdict;
use t1_elf::ElfError;
use t1_io::{Sink, write_all};
use t1_log::Line;
use t1_read::LogKind;
use t1_stmt::fault::Fault;

/// The most bytes of a line on err, and room to make it.
const LINE: usize = 80;

/// The name of a kind of fault of a file.
fn name_of(error: ElfError) -> &'static str
    ensures value { result.now ≡ name_of error }
    ensures short { length result.now ≤ 16 }
{
    match error {
        ElfError::TooShort => "TooShort",
        ElfError::NotElf => "NotElf",
        ElfError::WrongClass => "WrongClass",
        ElfError::WrongOrder => "WrongOrder",
        ElfError::WrongMachine => "WrongMachine",
        ElfError::WrongType => "WrongType",
        ElfError::BadHeader => "BadHeader",
        ElfError::Dynamic => "Dynamic",
        ElfError::NoSegment => "NoSegment",
        ElfError::SegmentOutside => "SegmentOutside",
        ElfError::EntryOutside => "EntryOutside",
        ElfError::EntryMisaligned => "EntryMisaligned",
        ElfError::OutOfMemory => "OutOfMemory",
    }
}

/// The name of a kind of fault of an assembly text.
fn fault_name_of(fault: Fault) -> &'static str
    ensures value { result.now ≡ fault_name_of fault }
    ensures short { length result.now ≤ 16 }
{
    match fault {
        Fault::Syntax => "Syntax",
        Fault::UnknownName => "UnknownName",
        Fault::BadOperand => "BadOperand",
        Fault::OutOfRange => "OutOfRange",
        Fault::DuplicateLabel => "DuplicateLabel",
        Fault::MissingLabel => "MissingLabel",
        Fault::TooLong => "TooLong",
    }
}

fn misformed(error: ElfError) -> Line<LINE>
    ensures { result ≡ elf_line error }
{
    let mut line = Line::new();
    line.text("t1sim: elf ");
    line.text(name_of(error));
    line.text("\n");
    line
}

fn faulty(number: u32, fault: Fault) -> Line<LINE>
    ensures { result ≡ asm_line number fault }
{
    let mut line = Line::new();
    line.text("t1sim: asm line ");
    line.decimal(u64::from(number));
    line.text(": ");
    line.text(fault_name_of(fault));
    line.text("\n");
    line
}

/// The name of a kind of fault of a log.
fn kind_name_of(kind: LogKind) -> &'static str
    ensures value { result.now ≡ kind_name_of kind }
    ensures short { length result.now ≤ 16 }
{
    match kind {
        LogKind::Version => "Version",
        LogKind::Syntax => "Syntax",
        LogKind::Range => "Range",
        LogKind::Unended => "Unended",
        LogKind::OutOfMemory => "OutOfMemory",
    }
}

fn no_log(number: u32, kind: LogKind) -> Line<LINE>
    ensures { result ≡ log_line number kind }
{
    let mut line = Line::new();
    line.text("t1sim: log line ");
    line.decimal(u64::from(number));
    line.text(": ");
    line.text(kind_name_of(kind));
    line.text("\n");
    line
}

fn refused(why: Refusal) -> Line<LINE>
    ensures { result ≡ refusal_line why }
{
    match why {
        Refusal::TooLong => fixed("t1sim: input too long\n"),
        Refusal::Misformed(error) => misformed(error),
        Refusal::Faulty { line, fault } => faulty(line, fault),
        Refusal::NoLog { line, kind } => no_log(line, kind),
    }
}

fn fault(strand: usize, number: u16, pc: u64) -> Line<LINE>
    ensures { result ≡ fault_line strand number pc }
{
    let mut line = Line::new();
    line.text("t1sim: strand ");
    line.decimal(strand as u64);
    line.text(" fault ");
    line.hex(3, u64::from(number));
    line.text(" at ");
    line.hex(16, pc);
    line.text("\n");
    line
}

fn spent(strand: usize) -> Line<LINE>
    ensures { result ≡ spent_line strand }
{
    let mut line = Line::new();
    line.text("t1sim: strand ");
    line.decimal(strand as u64);
    line.text(" spent\n");
    line
}

/// A line that is always the same.
fn fixed(text: &str) -> Line<LINE>
    requires { length text.now ≤ LINE }
    ensures { result ≡ text.now }
{
    let mut line = Line::new();
    line.text(text);
    line
}

/// The line that a verdict has on err: it is empty where all is well.
#[tactic(auto, unfolding(crate::specs::Verdict::verdict_line_of))]
fn verdict_line(verdict: Verdict) -> Line<LINE>
    ensures { result ≡ verdict_line_of verdict }
{
    match verdict {
        Verdict::Good => Line::new(),
        Verdict::Usage => fixed("t1sim: usage\n"),
        Verdict::Refused(why) => refused(why),
        Verdict::Fault { strand, number, pc } => fault(strand, number, pc),
        Verdict::Spent { strand } => spent(strand),
        Verdict::ReadFault => fixed("t1sim: read fault\n"),
        Verdict::WriteFault => fixed("t1sim: write fault\n"),
        Verdict::OutOfMemory => fixed("t1sim: out of memory\n"),
        Verdict::NotInOrder => fixed("t1sim: not in order\n"),
    }
}

/// Writes the line of a verdict, or a front of it where a fault comes.
pub fn tell<E: Sink>(err: &mut E, verdict: Verdict)
    ensures { TellsLine (E.faults err.old) (E.faults err.new) (E.held err.old) (E.held err.new) (verdict_line_of verdict) }
{
    let _ = write_all(err, verdict_line(verdict).as_slice());
}
