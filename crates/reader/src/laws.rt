//! The theorems of this crate, each on the contract of a function that does nothing.
ghost use Rattle.reader.specs.Examples.{WorkedLines};
ghost use Rattle.reader.specs.Laws.{LinesRejoin, OneSpelling, WordsCover};

/// The lines of an input, joined by byte 10, are the input, but for the byte 10 that may end it.
pub fn lines_rejoin()
    ensures { LinesRejoin }
{}

/// The words of a line are its parts at their columns, and each byte that is no space belongs to exactly one.
pub fn words_cover_their_line()
    ensures { WordsCover }
{}

/// A number has one spelling, the one in which it is written.
pub fn numbers_have_one_spelling()
    ensures { OneSpelling }
{}

/// A dozen lines are read as they should be.
pub fn worked_lines()
    ensures { WorkedLines }
{}
