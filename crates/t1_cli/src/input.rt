//! Inputs: their bytes, and the images of programs.
ghost use Rattle.std.specs.Prelude.{◌≡◌, ◌≢◌, ◌<◌, ◌≤◌, ◌^◌, length, Ok, Err, IfOk, IfErr, IsTrue};
ghost use Rattle.std.specs.Io.KnownBytes.{IsAtEnd};
ghost use Rattle.t1_io.specs.Causes.{Rose};
ghost use Rattle.t1_elf.specs.Images.{image_of};
ghost use Rattle.t1_elf.specs.Parsed.{parsed, KeepsTo};
ghost use Rattle.t1_machine.specs.Start.{IsRunnable, setup_of};
ghost use Rattle.t1_cli.specs.Runs.{IsImageOfInput};
ghost use Rattle.t1_cli.specs.Serial.{WasLeft};
ghost use Rattle.t1_cli.specs.Verdict.{OfInput, IsRefusal, IsUnread, IsUnloaded};
ghost use Rattle.t1_take.specs.Limits.{is_in_limits};

use crate::refusal::Refusal;
use crate::verdict::Verdict;
use std::alloc::{AllocError, Global};
use t1_elf::{ElfError, Image, Object, lay, parse};
use t1_event::Config;
use t1_io::{ReadError, Source, read_all};

/// The most bytes of an input.
pub const MOST_INPUT: usize = 67_108_864;

/// The whole input, or the verdict where it was not read.
pub(crate) fn read_input<S: Source>(alloc: Global, input: &mut S) -> Result<Vec<u8>, Verdict>
    ensures read { IfOk result (λ bytes. WasLeft (S.left input.old) bytes.items) }
    ensures within { IfOk result (λ bytes. length bytes.items ≤ 67108864) }
    ensures end { IfOk result (λ bytes. IsAtEnd (S.left input.new)) }
    ensures unread { IfErr result (IsUnread (S.left input.old)) }
    ensures fault { IfErr result (λ verdict. verdict ≡ Verdict.ReadFault → Rose (S.faults input.old) (S.faults input.new)) }
{
    match read_all(alloc, input, MOST_INPUT) {
        Ok(bytes) => Ok(bytes),
        Err(ReadError::Failed) => Err(Verdict::ReadFault),
        Err(ReadError::TooLong) => Err(Verdict::Refused(Refusal::TooLong)),
        Err(ReadError::OutOfMemory) => Err(Verdict::OutOfMemory),
    }
}

/// The object of a file, whose bytes are let go.
pub(crate) fn read_object(alloc: Global, input: Vec<u8>, limit: u64) -> Result<Object, ElfError>
    ensures object { IfOk result (λ object. parsed input.items limit ≡ Ok object) }
    ensures keeps { IfOk result (KeepsTo limit) }
    ensures error { IfErr result (λ error. error ≢ ElfError.OutOfMemory → parsed input.items limit ≡ Err error) }
{
    parse(alloc, input, limit)
}

/// The image of an object for a machine. The object is let go.
fn laid_image(alloc: Global, config: &Config, object: Object) -> Result<Image, AllocError>
    requires limits { IsTrue (is_in_limits config.now) }
    requires keeps { KeepsTo config.now.ram object }
    ensures value { IfOk result (λ image. image ≡ image_of object config.now.ram) }
    ensures runnable { IfOk result (λ image. IsRunnable (setup_of config.now image)) }
    ensures entry { IfOk result (λ image. image.entry < 2 ^ 40) }
{
    lay(alloc, &object, config.ram)
}

/// The image of a file for a machine, or the verdict where it is refused.
fn load_image(alloc: Global, config: &Config, input: Vec<u8>) -> Result<Image, Verdict>
    requires limits { IsTrue (is_in_limits config.now) }
    requires short { length input.items ≤ 67108864 }
    ensures image { IfOk result (IsImageOfInput config.now input.items) }
    ensures runnable { IfOk result (λ image. IsRunnable (setup_of config.now image)) }
    ensures entry { IfOk result (λ image. image.entry < 2 ^ 40) }
    ensures refused { IfErr result (IsRefusal config.now input.items) }
{
    match read_object(alloc, input, config.ram) {
        Ok(object) => match laid_image(alloc, config, object) {
            Ok(image) => Ok(image),
            Err(_) => Err(Verdict::OutOfMemory),
        },
        Err(ElfError::OutOfMemory) => Err(Verdict::OutOfMemory),
        Err(error) => Err(Verdict::Refused(Refusal::Misformed(error))),
    }
}

/// Reads an ELF file whole, and lays the image of its program for a machine that can be run; else the
/// verdict where the input was not read, or is refused.
pub fn load_input<S: Source>(
    alloc: Global,
    config: &Config,
    input: &mut S,
) -> Result<Image, Verdict>
    requires { IsTrue (is_in_limits config.now) }
    ensures image { IfOk result (λ image. OfInput (S.left input.old) (λ bytes. IsImageOfInput config.now bytes image)) }
    ensures runnable { IfOk result (λ image. IsRunnable (setup_of config.now image)) }
    ensures entry { IfOk result (λ image. image.entry < 2 ^ 40) }
    ensures end { IfOk result (λ image. IsAtEnd (S.left input.new)) }
    ensures unloaded { IfErr result (λ verdict. OfInput (S.left input.old) (λ bytes. IsUnloaded config.now bytes verdict)) }
    ensures fault { IfErr result (λ verdict. verdict ≡ Verdict.ReadFault → Rose (S.faults input.old) (S.faults input.new)) }
{
    match read_input(alloc, input) {
        Ok(bytes) => load_image(alloc, config, bytes),
        Err(verdict) => Err(verdict),
    }
}
