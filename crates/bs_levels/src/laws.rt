//! Laws of the words: reading what was written.

ghost use Rattle.bs_levels.specs.Laws.{ReadsBack, PlainReadsBack, CodeReadsBack};

/// The words of a level sequence are read as the tree that it describes.
pub fn written_words_are_read()
    ensures { ReadsBack }
{}

/// The word of levels alone is read as that tree where each colour is 0.
pub fn written_levels_are_read()
    ensures { PlainReadsBack }
{}

/// What is read from the words of a code has this code.
pub fn written_codes_are_read()
    ensures { CodeReadsBack }
{}
