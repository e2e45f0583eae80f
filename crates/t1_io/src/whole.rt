//! A whole input, and a whole piece of output.
ghost use Rattle.std.specs.Prelude.{◌≡◌, ◌≢◌, ◌<◌, ◌≤◌, length, take, vec_len, IfSome, IfOk, OnOk, OnErr};
ghost use Rattle.std.specs.Io.KnownBytes.{Consumes, IsAtEnd};
ghost use Rattle.t1_io.specs.Causes.{HasCause, Rose};
ghost use Rattle.t1_io.specs.Held.{Grew, GrewPart};
ghost use Rattle.t1_io.specs.Whole.{GaveAtMost, GaveMore, ReadsAt};

use crate::faults::{Failed, OutOfMemory};
use crate::sinks::Sink;
use crate::sources::Source;
use std::alloc::Global;

/// The most bytes by which [`read_all`] makes room for a read.
const BLOCK: usize = 65_536;

/// Why an input was not read whole.
#[derive(Clone, Copy, Debug, PartialEq, Eq)]
pub enum ReadError {
    /// A read failed: the source's count of faults rose.
    Failed,
    /// More bytes came than were allowed.
    TooLong,
    /// Memory is wanting.
    OutOfMemory,
}

/// All bytes of a source, to its end.
///
/// A read puts its bytes straight into the list, which grows by blocks, and at no time holds more
/// than `most` bytes and one. Its room doubles where it is used up.
///
/// # Errors
///
/// [`ReadError::Failed`] only where the source's count of faults rose, [`ReadError::TooLong`]
/// exactly where more than `most` bytes came, and [`ReadError::OutOfMemory`].
pub fn read_all<S: Source>(alloc: Global, source: &mut S, most: usize) -> Result<Vec<u8>, ReadError>
    // The count of faults.
    ensures later { S.faults source.old ≤ S.faults source.new }
    ensures failed { result ≡ Err ReadError.Failed →
        Rose (S.faults source.old) (S.faults source.new) }
    ensures kept { result ≢ Err ReadError.Failed →
        S.faults source.new ≡ S.faults source.old }

    // The bytes, where the source tells them.
    ensures all { IfOk result (λ v. Consumes (S.left source.old) (S.left source.new) v.items
        × IsAtEnd (S.left source.new)) }
    ensures told { IfOk result (λ v. IfSome (S.left source.old) (λ bytes. v.items ≡ bytes)) }

    // How many came.
    ensures within { IfOk result (λ v. length v.items ≤ most) }
    ensures long { result ≡ Err ReadError.TooLong →
        GaveMore (S.left source.old) (S.left source.new) most }
    ensures short { result ≢ Err ReadError.TooLong →
        GaveAtMost (S.left source.old) (S.left source.new) most }
{
    let mut all = Vec::new(alloc);
    let mut came = 0;
    loop {
        let Ok(()) = make_room(&mut all, came, most) else {
            return Err(ReadError::OutOfMemory);
        };
        let Ok(count) = read_at(source, &mut all, came) else {
            return Err(ReadError::Failed);
        };
        if count == 0 {
            all.truncate(came);
            return Ok(all);
        }
        came += count;
        if came > most {
            return Err(ReadError::TooLong);
        }
    }
}

/// Reads into a list from a place on.
fn read_at<S: Source>(source: &mut S, all: &mut Vec<u8>, at: usize) -> Result<usize, Failed>
    requires { at < vec_len all.old }
    ensures bytes { ReadsAt (S.left source.old) (S.left source.new) result at all.old.items all.new.items }
    ensures cause { HasCause (S.faults source.old) (S.faults source.new) result }
{
    source.read(&mut all[at..])
}

/// Makes room in a list of which bytes came up to a place. Where it is used up, a block of zeros is
/// appended, or what is left of `most` bytes and one.
fn make_room(all: &mut Vec<u8>, came: usize, most: usize) -> Result<(), OutOfMemory>
    requires came { came ≤ vec_len all.old }
    requires most { came ≤ most }
    ensures room { OnOk result (came < vec_len all.new) }
    ensures front { OnOk result (take came all.new.items ≡ take came all.old.items) }
{
    let length = all.len();
    if came < length {
        return Ok(());
    }
    let more = BLOCK.min((most - length).saturating_add(1));
    if all.capacity() - length < more {
        let room = all.capacity().min(most - length).max(more);
        all.reserve_exact(room)?;
    }
    all.resize(length + more, 0)
}

/// Writes a whole piece.
///
/// # Errors
///
/// [`Failed`] only where the sink's count of faults rose. A front of the piece was appended then.
pub fn write_all<K: Sink>(sink: &mut K, piece: &[u8]) -> Result<(), Failed>
    ensures cause { HasCause (K.faults sink.old) (K.faults sink.new) result }
    ensures all { OnOk result (Grew (K.held sink.old) (K.held sink.new) piece.now) }
    ensures part { OnErr result (GrewPart (K.held sink.old) (K.held sink.new) piece.now) }
{
    let mut done = 0;
    while done < piece.len() {
        done += sink.write(piece.split_at(done).1)?;
    }
    Ok(())
}
