//! The file of an assembly text.
ghost use Rattle.std.specs.Prelude.{◌≡◌, ◌≤◌, length, Ok, IfOk, IfErr};
ghost use Rattle.t1_asm.specs.Passes.{IsFault};
ghost use Rattle.t1_text.specs.Files.{file_of};

use std::alloc::Global;
use t1_asm::{AsmError, AsmKind, assemble};
use t1_elf::save;

/// The ELF file of an assembly text of at most 67,108,864 bytes.
///
/// # Errors
///
/// The line, counted from 1, and the kind of the first fault of the text; `OutOfMemory` with line 0.
pub fn assemble_file(alloc: Global, text: &[u8]) -> Result<Vec<u8>, AsmError>
    requires { length text.now ≤ 67108864 }
    ensures file { IfOk result (λ file. file_of text.now ≡ Ok file.items) }
    ensures error { IfErr result (λ error. IsFault error.line error.kind (file_of text.now)) }
{
    let object = assemble(alloc, text)?;
    match save(alloc, &object) {
        Ok(file) => Ok(file),
        Err(_) => Err(AsmError {
            line: 0,
            kind: AsmKind::OutOfMemory,
        }),
    }
}
