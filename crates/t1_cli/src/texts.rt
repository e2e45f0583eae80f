//! The commands that make a text of their input: the assembler and the disassembler.
ghost use Rattle.std.specs.Prelude.{ℕ, ◌≡◌, ◌≢◌, ◌≤◌, List, length, Result};
ghost use Rattle.t1_io.specs.Causes.{Rose};
ghost use Rattle.t1_asm.specs.Passes.{IsFault};
ghost use Rattle.t1_stmt.specs.declared.fault.Fault.{Fault as FaultRecord};
ghost use Rattle.t1_cli.specs.Made.{asm_of, dis_of, file_or_fault};
ghost use Rattle.t1_cli.specs.Serial.{HasNoText};
ghost use Rattle.t1_cli.specs.Statuses.{status_of_verdict};
ghost use Rattle.t1_cli.specs.Verdict.{FaultTold, Made};

use crate::input::read_object;
use crate::refusal::Refusal;
use crate::verdict::Verdict;
use std::alloc::Global;
use t1_asm::{AsmError, AsmKind};
use t1_elf::ElfError;
use t1_io::{Sink, write_all};
use t1_stmt::fault::Fault;
use t1_text::{assemble_file, print_words};

/// The end of the memory that the words of a file may stand in.
const WORDS_END: u64 = 1 << 39;

/// The verdict on a text that is not assembled.
fn fault_verdict(error: AsmError) -> Verdict
    ensures { (made : Result (List ℕ) (ℕ × FaultRecord)) → IsFault error.line error.kind made → FaultTold made result }
{
    let line = error.line;
    let fault = match error.kind {
        AsmKind::Syntax => Fault::Syntax,
        AsmKind::UnknownName => Fault::UnknownName,
        AsmKind::BadOperand => Fault::BadOperand,
        AsmKind::OutOfRange => Fault::OutOfRange,
        AsmKind::DuplicateLabel => Fault::DuplicateLabel,
        AsmKind::MissingLabel => Fault::MissingLabel,
        AsmKind::TooLong => Fault::TooLong,
        AsmKind::OutOfMemory => return Verdict::OutOfMemory,
    };
    Verdict::Refused(Refusal::Faulty { line, fault })
}

/// Writes the file of an assembly text.
pub(crate) fn write_file<K: Sink>(alloc: Global, text: Vec<u8>, out: &mut K) -> Verdict
    requires { length text.items ≤ 67108864 }
    ensures made { Made (asm_of text.items) (K.held out.old) (K.held out.new) result }
    ensures unchanged { HasNoText (status_of_verdict result) → out.new ≡ out.old }
    ensures fault { result ≡ Verdict.WriteFault → Rose (K.faults out.old) (K.faults out.new) }
    ensures never { result ≢ Verdict.ReadFault }
{
    match assemble_file(alloc, text.as_slice()) {
        Ok(file) => {
            if write_all(out, file.as_slice()).is_err() {
                return Verdict::WriteFault;
            }
            Verdict::Good
        }
        Err(error) => fault_verdict(error),
    }
}

/// Writes the lines of the words of a file.
#[tactic(auto, unfolding(crate::specs::Made::dis_of))]
pub(crate) fn write_words<K: Sink>(alloc: Global, file: Vec<u8>, out: &mut K) -> Verdict
    requires { length file.items ≤ 67108864 }
    ensures made { Made (dis_of file.items) (K.held out.old) (K.held out.new) result }
    ensures unchanged { HasNoText (status_of_verdict result) → out.new ≡ out.old }
    ensures fault { result ≡ Verdict.WriteFault → Rose (K.faults out.old) (K.faults out.new) }
    ensures never { result ≢ Verdict.ReadFault }
{
    match read_object(alloc, file, WORDS_END) {
        Ok(object) => {
            if print_words(&object, out).is_err() {
                return Verdict::WriteFault;
            }
            Verdict::Good
        }
        Err(ElfError::OutOfMemory) => Verdict::OutOfMemory,
        Err(error) => Verdict::Refused(Refusal::Misformed(error)),
    }
}
