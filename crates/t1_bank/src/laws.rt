//! Laws of banks, each as a clause of a function with nothing to do.
//!
//! They speak of the rule of a bank and not of this code, which follows the rule, and hold of every
//! state that a bank comes to by requests of any kind.
ghost use Rattle.t1_bank.specs.Laws.{Always, IsLawful, SoundIsLawful, StaysSound, BytesAreMemory, MirrorsTheImage, RefusesQuietly};

/// Every bank that was made stays sound, whatever was asked of it: a line stands in one way of a
/// core's cache, and only where its 64-byte line is present in the L2.
///
/// In such a state kills are few, shown by the directory, and in order; a fill takes the way in which
/// the directory shows the line; what is evicted is the bank's own; and the directory is what the
/// served accesses alone make of it.
pub fn banks_are_lawful()
    ensures always { Always IsLawful }
    ensures state { SoundIsLawful }
    ensures step { StaysSound }
{}

/// What a bank reads is one flat memory after the writes that it served.
pub fn bytes_are_memory()
    ensures state { BytesAreMemory }
    ensures start { MirrorsTheImage }
{}

/// A request that a bank does not serve changes nothing, and is answered with nothing.
pub fn refusals_are_quiet()
    ensures { RefusesQuietly }
{}
