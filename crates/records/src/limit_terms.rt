//! The terms of a limit that was read.
use crate::Terms;
use fields::Payload;
use limits::drafts::Term;

impl<'a> Terms<'a> {
    ghost use Rattle.std.specs.Prelude.{◌≡◌};

    /// The terms that a limit shows.
    pub fn new(bytes: &'a [u8]) -> Terms<'a>
        ensures { (result.payload.body.now ≡ bytes.now) × (result.payload.at ≡ 0) × (result.least ≡ 0) }
    {
        Terms {
            payload: Payload::new(bytes, 0, 0),
            least: 0,
        }
    }
}

impl<'a> Iterator for Terms<'a> {
    ghost use Rattle.std.specs.Prelude.{◌-◌, length};
    ghost use Rattle.std.specs.Iterator.{at_most};
    ghost use Rattle.records.specs.Meanings.{GivesTerm};

    type Item = Term;

    ghost next_gives = { GivesTerm };

    ghost remaining = { λ s. at_most (length s.payload.body.now - s.payload.at) };

    // The next term, and none at the end and where no term stands.
    fn next(&mut self) -> Option<Term> {
        if self.payload.is_at_end() {
            return None;
        }
        let mut payload = self.payload;
        let Ok(term) = payload.term(self.least) else {
            return None;
        };
        self.payload = payload;
        self.least = term.part + 1;
        Some(term)
    }
}
