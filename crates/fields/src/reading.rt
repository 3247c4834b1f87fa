//! The fields of a payload, one after another.
ghost use Rattle.std.specs.Prelude.{◌≡◌, ℕ, ◌+◌, ◌<◌, ◌≤◌, length, take, drop, IfOk, MatchBool, MatchResult, nat_le};
ghost use Rattle.fields.specs.Fields.{number_at, signed_at, read_mass, read_amount, read_term};
ghost use Rattle.fields.specs.Meanings.{read_from, Reads};

use crate::judging::{MOST_AMOUNT, in_range};
use crate::{Fault, Layer, Payload, Reason};
use limits::drafts::Term;
use numbers::{read_number, signed_of};

impl<'a> Payload<'a> {
    /// The payload of the record at `place`, from `at` to the end of `body`.
    pub fn new(body: &'a [u8], place: usize, at: usize) -> Payload<'a>
        ensures { (result.body.now ≡ body.now) × (result.place ≡ place) × (result.at ≡ at) }
    {
        Payload { body, place, at }
    }

    /// The place that is read next.
    pub fn at(&self) -> usize
        ensures { result ≡ self.now.at }
    {
        self.at
    }

    /// The bytes that are left to read.
    pub fn rest(&self) -> &'a [u8]
        requires { self.now.at ≤ length self.now.body.now }
        ensures { result.now ≡ drop self.now.at self.now.body.now }
    {
        &self.body[self.at..]
    }

    /// The payload of the next bytes alone, `size` of them.
    pub fn cut(&self, size: usize) -> Payload<'a>
        requires { self.now.at + size ≤ length self.now.body.now }
        ensures { (result.body.now ≡ take (self.now.at + size) self.now.body.now) × (result.place ≡ self.now.place) × (result.at ≡ self.now.at) }
    {
        Payload {
            body: &self.body[..self.at + size],
            place: self.place,
            at: self.at,
        }
    }

    /// Whether no byte is left to read.
    pub fn is_at_end(&self) -> bool
        ensures value { result ≡ nat_le (length self.now.body.now) self.now.at }
        ensures cases { MatchBool result (length self.now.body.now ≤ self.now.at) (self.now.at < length self.now.body.now) }
    {
        self.at >= self.body.len()
    }

    /// A fault in the record.
    pub fn fault(&self, reason: Reason) -> Fault
        ensures { result ≡ record { reason = reason; layer = Layer.Records; place = self.now.place } }
    {
        Layer::Records.fault(reason, self.place)
    }

    /// The next number.
    pub fn number(&mut self) -> Result<u32, Fault>
        ensures { Reads (number_at self.old.body.now self.old.at) self.old self.new result }
    {
        let at = self.at;
        let (value, next) = read_number(self.body, at).map_err(|e| Layer::Numbers.fault(
            e.into(),
            at,
        ))?;
        self.at = next;
        Ok(value)
    }

    /// The next signed number.
    #[tactic(auto, using(crate::proofs::Signs::signed_found, crate::proofs::Signs::signed_fault))]
    pub fn signed(&mut self) -> Result<i32, Fault>
        ensures { Reads (signed_at self.old.body.now self.old.at) self.old self.new result }
    {
        Ok(signed_of(self.number()?))
    }

    /// A part's mass.
    pub fn mass(&mut self) -> Result<i32, Fault>
        ensures { Reads (read_from read_mass self.old) self.old self.new result }
    {
        let mass = self.signed()?;
        if !in_range(mass) {
            return Err(self.fault(Reason::OutOfRange));
        }
        Ok(mass)
    }

    /// A part's wait or price.
    pub fn amount(&mut self) -> Result<u32, Fault>
        ensures { Reads (read_from read_amount self.old) self.old self.new result }
    {
        let amount = self.number()?;
        if amount > MOST_AMOUNT {
            return Err(self.fault(Reason::OutOfRange));
        }
        Ok(amount)
    }

    /// A limit's term; its part is `least` or above.
    pub fn term(&mut self, least: u8) -> Result<Term, Fault>
        ensures is { Reads (read_term self.old.body.now self.old.place least self.old.at) self.old self.new result }
        ensures part { IfOk result (λ t. t.part ≤ 47) }
    {
        let part = self.number()?;
        if part > 47 {
            return Err(Layer::Jobs.fault(Reason::PartOutOfRange, self.place));
        }
        // At most 47 by the test before.
        let part = part as u8;
        if part < least {
            return Err(Layer::Jobs.fault(Reason::PartNotRising, self.place));
        }
        let coefficient = self.signed()?;
        if !in_range(coefficient) {
            return Err(Layer::Jobs.fault(Reason::OutOfRange, self.place));
        }
        Ok(Term { part, coefficient })
    }

    /// The payload's end, where no byte is left to read.
    pub fn end(&self) -> Result<(), Fault>
        ensures { MatchResult result
            (λ _. length self.now.body.now ≤ self.now.at)
            (λ f. (self.now.at < length self.now.body.now)
            × (f ≡ record { reason = Reason.WrongLength; layer = Layer.Records; place = self.now.place })) }
    {
        if self.is_at_end() {
            Ok(())
        } else {
            Err(self.fault(Reason::WrongLength))
        }
    }
}
