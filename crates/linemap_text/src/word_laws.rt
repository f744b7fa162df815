//! What follows from the definitions. Each function is a law: it does nothing, and its contract is
//! proved.

ghost use Rattle.linemap_text.specs.WordLaws.{WordsAnswered};

/// Over sections that answer a table, words are answered as the table answers them.
pub fn words_answered()
    ensures { WordsAnswered }
{}
