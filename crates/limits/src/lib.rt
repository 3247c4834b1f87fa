//! The number of parts, choices, limits, and the refusals of a job's calls.
#![tactic(auto)]

ghost use Rattle.std.specs.Prelude.{◌≡◌};
ghost use Rattle.limits.specs.Choices.{WordsAreChoices};
ghost use Rattle.limits.specs.Refusals.{number};

pub mod drafts;

/// A job has at most so many parts.
pub const MOST_PARTS: usize = 48;

/// Which parts are fitted: bit i of the word is 1 when part i is.
#[derive(Clone, Copy, PartialEq, Eq, Debug, Drop)]
pub struct Choice(pub u64);

/// On which side of its bound a sum has to stay.
#[derive(Clone, Copy, PartialEq, Eq, Debug, Drop)]
pub enum Sense {
    AtMost,
    AtLeast,
}

/// A limit: the sum of the fitted parts' coefficients is at most, or at least, the bound.
#[derive(Clone, Copy, PartialEq, Eq, Debug, Drop)]
pub struct Limit {
    pub coefficients: [i32; MOST_PARTS],
    pub sense: Sense,
    pub bound: i32,
}

/// Why a call of a job or of a draft refuses.
// The numbers are one list for all layers; each layer's enum has those that it refuses with.
#[derive(Clone, Copy, PartialEq, Eq, Debug, Drop)]
pub enum Refusal {
    PartOutOfRange = 7,
    PartNotRising = 8,
    OutOfRange = 9,
    WrongCount = 10,
    TooFewRows = 11,
    NothingStands = 12,
    TooManyLimits = 14,
    TooFewPlaces = 15,
}

impl Refusal {
    /// The number by which the refusal is known in listings and documents.
    // A method and no `From` for `u8`, which would not say which number it gives.
    pub fn number(self) -> u8
        ensures { result ≡ number self }
    {
        self as u8
    }
}

/// Words and choices stand for each other.
pub fn words_are_choices()
    ensures { WordsAreChoices }
{}
