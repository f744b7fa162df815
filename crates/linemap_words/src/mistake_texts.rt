//! What the program itself says of a mistake. The function does nothing; its contract is a law.
ghost use Rattle.linemap_words.specs.MistakeTexts.{MistakeTexts};

/// What it says of matches that are no request.
pub fn mistake_texts()
    ensures { MistakeTexts }
{}
