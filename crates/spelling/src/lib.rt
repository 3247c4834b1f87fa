//! How records are spelled, and what holds of every spelling.
#![tactic(auto)]

ghost use Rattle.spelling.specs.Laws.{ReadsBack, OneSpelling};

/// What may be written is read back the same, in every sheet that lets it stand there: a theorem, which this function's contract states.
pub fn reads_back()
    ensures { ReadsBack }
{}

/// No record has a second spelling: a theorem, which this function's contract states.
pub fn one_spelling()
    ensures { OneSpelling }
{}
