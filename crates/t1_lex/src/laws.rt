// Laws of tokens.
ghost use Rattle.t1_lex.specs.Parts.{PartsAreLexemes};

/// A text that is written part by part has the lexemes of its parts.
pub fn parts_are_lexemes()
    ensures { PartsAreLexemes }
{}
