//! From the bytes of a file to an object.
ghost use Rattle.std.specs.Prelude.{◌≡◌, ◌≢◌, ◌≤◌, length, false, Some, None, Ok, Err, IfOk, IfErr, IfSome};
ghost use Rattle.t1_elf.specs.Parsed.{parsed, object_of, KeepsTo};
ghost use Rattle.t1_elf.specs.Tests.{is_too_short, is_not_elf, has_wrong_class, has_wrong_order, has_wrong_machine, has_wrong_type, has_bad_table, has_entry_outside, has_entry_misaligned, first_failure, header_tests_of, program_tests_of, tests_of, HasTable, CanBeRead};

use crate::error::ElfError;
use crate::object::Object;
use crate::table::{look_through, read_chunks};
use std::alloc::{AllocError, Global};
use std::rc::Rc;
use t1_num::get_be;

#[tactic(auto, unfolding(crate::specs::Tests::is_too_short))]
fn is_too_short(file: &[u8]) -> bool
    ensures value { result ≡ is_too_short file.now }
    ensures long { result ≡ false → 64 ≤ length file.now }
{
    file.len() < 64
}

#[tactic(auto, unfolding(crate::specs::Tests::is_not_elf))]
fn is_not_elf(file: &[u8]) -> bool
    requires { 64 ≤ length file.now }
    ensures { result ≡ is_not_elf file.now }
{
    get_be(file, 0, 4) != 0x7f45_4c46
}

#[tactic(auto, unfolding(crate::specs::Tests::has_wrong_class))]
fn has_wrong_class(file: &[u8]) -> bool
    requires { 64 ≤ length file.now }
    ensures { result ≡ has_wrong_class file.now }
{
    get_be(file, 4, 1) != 2
}

#[tactic(auto, unfolding(crate::specs::Tests::has_wrong_order))]
fn has_wrong_order(file: &[u8]) -> bool
    requires { 64 ≤ length file.now }
    ensures { result ≡ has_wrong_order file.now }
{
    get_be(file, 5, 1) != 2
}

#[tactic(auto, unfolding(crate::specs::Tests::has_wrong_machine))]
fn has_wrong_machine(file: &[u8]) -> bool
    requires { 64 ≤ length file.now }
    ensures { result ≡ has_wrong_machine file.now }
{
    get_be(file, 18, 2) != 43
}

#[tactic(auto, unfolding(crate::specs::Tests::has_wrong_type))]
fn has_wrong_type(file: &[u8]) -> bool
    requires { 64 ≤ length file.now }
    ensures { result ≡ has_wrong_type file.now }
{
    get_be(file, 16, 2) != 2
}

#[tactic(auto, unfolding(crate::specs::Tests::has_bad_table))]
fn has_bad_table(file: &[u8]) -> bool
    requires { 64 ≤ length file.now }
    ensures value { result ≡ has_bad_table file.now }
    ensures table { result ≡ false → HasTable file.now }
{
    let table = get_be(file, 32, 8);
    let size = get_be(file, 54, 2);
    let count = get_be(file, 56, 2);
    count > 0 && (size != 56 || table as u128 + 56 * count as u128 > file.len() as u128)
}

#[tactic(auto, unfolding(crate::specs::Tests::has_entry_outside))]
fn has_entry_outside(file: &[u8], limit: u64) -> bool
    requires { 64 ≤ length file.now }
    ensures { result ≡ has_entry_outside file.now limit }
{
    get_be(file, 24, 8) as u128 + 4 > limit as u128
}

#[tactic(auto, unfolding(crate::specs::Tests::has_entry_misaligned))]
fn has_entry_misaligned(file: &[u8]) -> bool
    requires { 64 ≤ length file.now }
    ensures { result ≡ has_entry_misaligned file.now }
{
    get_be(file, 24, 8) % 4 != 0
}

/// The first test of the file header that fails.
fn header_failure(file: &[u8]) -> Option<ElfError>
    ensures value { result ≡ first_failure (header_tests_of file.now) }
    ensures read { result ≡ None → (64 ≤ length file.now) × HasTable file.now }
{
    if is_too_short(file) {
        Some(ElfError::TooShort)
    } else if is_not_elf(file) {
        Some(ElfError::NotElf)
    } else if has_wrong_class(file) {
        Some(ElfError::WrongClass)
    } else if has_wrong_order(file) {
        Some(ElfError::WrongOrder)
    } else if has_wrong_machine(file) {
        Some(ElfError::WrongMachine)
    } else if has_wrong_type(file) {
        Some(ElfError::WrongType)
    } else if has_bad_table(file) {
        Some(ElfError::BadHeader)
    } else {
        None
    }
}

/// The first test of the program headers and of the entry that fails.
fn program_failure(file: &[u8], limit: u64) -> Option<ElfError>
    requires long { 64 ≤ length file.now }
    requires table { HasTable file.now }
    ensures value { result ≡ first_failure (program_tests_of file.now limit) }
{
    let found = look_through(file, limit);
    if found.dynamic {
        Some(ElfError::Dynamic)
    } else if !found.segment {
        Some(ElfError::NoSegment)
    } else if found.outside {
        Some(ElfError::SegmentOutside)
    } else if has_entry_outside(file, limit) {
        Some(ElfError::EntryOutside)
    } else if has_entry_misaligned(file) {
        Some(ElfError::EntryMisaligned)
    } else {
        None
    }
}

/// The first test that fails.
fn failure(file: &[u8], limit: u64) -> Option<ElfError>
    ensures value { result ≡ first_failure (tests_of file.now limit) }
    ensures read { result ≡ None → CanBeRead file.now }
{
    match header_failure(file) {
        Some(error) => Some(error),
        None => program_failure(file, limit),
    }
}

/// The object of a file that can be read, whose chunks refer to the file.
fn read_object(alloc: Global, file: Vec<u8>) -> Result<Object, AllocError>
    requires { CanBeRead file.items }
    ensures { IfOk result (λ object. object ≡ object_of file.items) }
{
    let entry = get_be(file.as_slice(), 24, 8);
    let file = Rc::new(alloc, file)?;
    let chunks = read_chunks(alloc, &file)?;
    Ok(Object { entry, chunks })
}

/// The object of an ELF-64 file, whose chunks end at the limit or below it.
///
/// Segments give the chunks in the order of the table. Sections, flags, other kinds of program
/// headers and all other fields are not looked at. The chunks refer to the file: no byte of it is
/// copied, however many segments have it.
///
/// # Errors
///
/// The first test of `specs/Tests.antt` that the file fails, and [`ElfError::OutOfMemory`].
#[tactic(auto, unfolding(crate::specs::Parsed::parsed))]
pub fn parse(alloc: Global, file: Vec<u8>, limit: u64) -> Result<Object, ElfError>
    ensures object { IfOk result (λ object. parsed file.items limit ≡ Ok object) }
    ensures keeps { IfOk result (KeepsTo limit) }
    ensures error { IfErr result (λ error. error ≢ ElfError.OutOfMemory → parsed file.items limit ≡ Err error) }
{
    if let Some(error) = failure(file.as_slice(), limit) {
        return Err(error);
    }
    match read_object(alloc, file) {
        Ok(object) => Ok(object),
        Err(AllocError) => Err(ElfError::OutOfMemory),
    }
}
