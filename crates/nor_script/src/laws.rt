//! Laws of the definitions, as theorems.
ghost use Rattle.nor_script.specs.Laws.{LinesAreAnswered, AnswersGoOn, TextsSayScripts};
ghost use Rattle.nor_script.specs.Racing.{TextsSayRaces};

/// A line is answered by its own entries, and lines one after the other by theirs.
pub fn scripts_are_answered_line_by_line()
    ensures line { LinesAreAnswered }
    ensures lines { AnswersGoOn }
{}

/// The lines that a text says have their callers, and aren't too many. Those of a text that is to be raced
/// are lines of a race.
pub fn texts_say_scripts()
    ensures scripts { TextsSayScripts }
    ensures races { TextsSayRaces }
{}
