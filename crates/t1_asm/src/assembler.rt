// The object of a text.
ghost use Rattle.std.specs.Prelude.{ℕ, ◌≡◌, ◌≤◌, length, Result, IfOk, unwrap_or};
ghost use Rattle.t1_elf.specs.Saved.{IsSavable};
ghost use Rattle.t1_elf.specs.declared.object.Object.{Object as ObjectRecord};
ghost use Rattle.t1_stmt.specs.declared.fault.Fault.{Fault as FaultRecord};
ghost use Rattle.t1_asm.specs.Passes.{assembled, FailsAt, IsFault, IsAnswer, first_address, bytes_of_chunks};

use crate::error::{AsmError, AsmKind};
use crate::failure::Failure;
use crate::first::first_pass;
use crate::second::second_pass;
use std::alloc::Global;
use std::collections::BTreeMap;
use t1_elf::{Chunk, Object};
use t1_stmt::fault::{Fault, Halt};

/// The error of a pass that stopped; want of memory has line 0.
fn error(failure: Failure) -> AsmError
    ensures { (read : Result ObjectRecord (ℕ × FaultRecord)) → FailsAt failure.line failure.halt read → IsFault result.line result.kind read }
{
    let line = failure.line;
    match failure.halt {
        Halt::Memory => AsmError {
            line: 0,
            kind: AsmKind::OutOfMemory,
        },
        Halt::Fault(Fault::Syntax) => AsmError {
            line,
            kind: AsmKind::Syntax,
        },
        Halt::Fault(Fault::UnknownName) => AsmError {
            line,
            kind: AsmKind::UnknownName,
        },
        Halt::Fault(Fault::BadOperand) => AsmError {
            line,
            kind: AsmKind::BadOperand,
        },
        Halt::Fault(Fault::OutOfRange) => AsmError {
            line,
            kind: AsmKind::OutOfRange,
        },
        Halt::Fault(Fault::DuplicateLabel) => AsmError {
            line,
            kind: AsmKind::DuplicateLabel,
        },
        Halt::Fault(Fault::MissingLabel) => AsmError {
            line,
            kind: AsmKind::MissingLabel,
        },
        Halt::Fault(Fault::TooLong) => AsmError {
            line,
            kind: AsmKind::TooLong,
        },
    }
}

fn first_addr(chunks: &[Chunk]) -> u64
    ensures { result ≡ first_address chunks.now }
{
    match chunks.split_first() {
        None => 0,
        Some((first, _)) => first.addr,
    }
}

/// Both passes.
#[tactic(auto, unfolding(crate::specs::Passes::assembled, crate::specs::Passes::finished))]
fn read(alloc: Global, text: &[u8]) -> Result<Object, AsmError>
    requires { length text.now ≤ 67108864 }
    ensures { IsAnswer result (assembled text.now) }
{
    let mut map = BTreeMap::new(alloc);
    let state = match first_pass(alloc, &mut map, text) {
        Ok(state) => state,
        Err(failure) => return Err(error(failure)),
    };
    let out = match second_pass(alloc, &map, text) {
        Ok(out) => out,
        Err(failure) => return Err(error(failure)),
    };
    let Ok(chunks) = out.finish() else {
        return Err(AsmError {
            line: 0,
            kind: AsmKind::OutOfMemory,
        });
    };
    let entry = state.entry.unwrap_or(first_addr(chunks.as_slice()));
    Ok(Object { entry, chunks })
}

/// The object of a text of at most 67,108,864 bytes.
///
/// It has at most 32,768 chunks and 16,777,216 bytes, none of them zeros behind a chunk's bytes, and
/// can be saved.
///
/// # Errors
/// The line, counted from 1, and the kind of the first fault; `OutOfMemory` with line 0.
pub fn assemble(alloc: Global, text: &[u8]) -> Result<Object, AsmError>
    requires { length text.now ≤ 67108864 }
    ensures answer { IsAnswer result (assembled text.now) }
    ensures chunks { IfOk result (λ o. length o.chunks ≤ 32768) }
    ensures bytes { IfOk result (λ o. bytes_of_chunks o.chunks ≤ 16777216) }
    ensures savable { IfOk result (λ o. IsSavable o) }
{
    read(alloc, text)
}
