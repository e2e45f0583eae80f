//! Laws of encoding and decoding, each as the one clause of a function with nothing to do.
//!
//! They hold of the definitions, for every instruction. `proofs/Encoding.antt` has them as lemmas for
//! the crates above.
ghost use Rattle.t1_encode.specs.Laws.{IsDecodedAgain, HasWordInRange, IsOfWordSize};

/// The word of an instruction is decoded to it.
pub fn word_is_decoded_again()
    ensures { IsDecodedAgain }
{}

/// An instruction has a word exactly where its fields are in their ranges.
pub fn instruction_in_range_has_a_word()
    ensures { HasWordInRange }
{}

/// A word has 32 bits.
pub fn word_has_32_bits()
    ensures { IsOfWordSize }
{}
