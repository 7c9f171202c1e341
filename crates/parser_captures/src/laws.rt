//! Laws of a parser's step: a call that does nothing, whose contract says what is true of every step.
ghost use Rattle.parser_captures.specs.Steps.{GoingKeeps, GoingMarks};

/// A step with a capture that goes on, in which more of it was read or records were taken up and the Item of an
/// accepted one was put, keeps what a parser promises of its links and of its marks.
pub fn going_keeps()
    ensures keeps { GoingKeeps }
    ensures marks { GoingMarks }
{}
