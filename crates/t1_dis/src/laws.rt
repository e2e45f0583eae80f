// Laws of the texts of words.
ghost use Rattle.t1_dis.specs.Laws.{TextHasLexemes, TextIsWord, TextIsItself};

/// The lexemes of a text are those that its form names.
pub fn text_has_lexemes()
    ensures { TextHasLexemes }
{}

/// At its own place a text is one word, which decodes to the same instruction.
pub fn text_is_word()
    ensures { TextIsWord }
{}

/// The text of a word without an instruction is the word itself.
pub fn text_is_itself()
    ensures { TextIsItself }
{}
