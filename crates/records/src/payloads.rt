//! The payloads of records, by their kinds.
ghost use Rattle.std.specs.Prelude.{◌≡◌, ℕ, ◌<◌, ◌≤◌, List, length, MatchResult};
ghost use Rattle.limits.specs.declared.drafts.Term.{Term as LimitTerm};
ghost use Rattle.records.specs.Codes.{kind_code};
ghost use Rattle.fields.specs.Fields.{found};
ghost use Rattle.fields.specs.Meanings.{fault_of, contents, read_from};
ghost use Rattle.records.specs.Sheets.{end_says, ended, read_named_part, read_part, read_limit, read_goal, read_payload};
ghost use Rattle.records.specs.Meanings.{terms_from, Shows, ReadsRecord};

use crate::{Goal, Kind, Part, Record};
use fields::{Fault, Payload, Reason};
use limits::Sense;

// How many parts a sheet may have.
const MOST_PARTS: usize = 48;

// The part of a payload, once its name is read.
fn named_part<'a>(name: &'a [u8], mut payload: Payload) -> Result<Record<'a>, Fault>
    ensures { ReadsRecord (read_from (read_named_part name.now) payload.entry) (length payload.entry.body.now) (λ p. (n : ℕ) → n < 48 → Shows p n) result }
{
    let mass = payload.mass()?;
    let wait = payload.amount()?;
    let price = payload.amount()?;
    payload.end()?;
    Ok(Record::Part(Part {
        name,
        mass,
        wait,
        price,
    }))
}

// The part of a payload.
fn part<'a>(mut payload: Payload<'a>, names: &[&'a [u8]]) -> Result<Record<'a>, Fault>
    ensures { ReadsRecord (read_from (read_part (contents names.now)) payload.entry) (length payload.entry.body.now) (λ p. Shows p (length names.now)) result }
{
    if names.len() >= MOST_PARTS {
        return Err(payload.fault(Reason::PartOutOfRange));
    }
    let name = payload.name(names)?;
    named_part(name, payload)
}

// The goal of a payload.
fn goal<'a>(mut payload: Payload<'a>) -> Result<Record<'a>, Fault>
    ensures { ReadsRecord (read_from read_goal payload.entry) (length payload.entry.body.now) (λ p. (n : ℕ) → Shows p n) result }
{
    let code = payload.number()?;
    let Ok(goal) = Goal::try_from(code) else {
        return Err(payload.fault(Reason::BadGoal));
    };
    payload.end()?;
    Ok(Record::Goal(goal))
}

// Reads the terms of a payload, to its end. Terms that were read give no fault, so a fault is found here, before they are shown.
fn all_terms(mut payload: Payload) -> Result<(), Fault>
    requires { payload.at ≤ length payload.body.now }
    ensures { MatchResult result
        (λ _. ((ts : List LimitTerm) × (terms_from payload.entry ≡ found ts (length payload.entry.body.now))))
        (λ f. terms_from payload.entry ≡ fault_of f) }
{
    let mut least = 0;
    while !payload.is_at_end() {
        least = payload.term(least)?.part + 1;
    }
    Ok(())
}

// The limit of a payload.
fn limit<'a>(sense: Sense, mut payload: Payload<'a>) -> Result<Record<'a>, Fault>
    ensures { ReadsRecord (read_from (read_limit sense) payload.entry) (length payload.entry.body.now) (λ p. (n : ℕ) → Shows p n) result }
{
    let bound = payload.signed()?;
    all_terms(payload)?;
    Ok(Record::Limit {
        sense,
        bound,
        terms: payload.rest(),
    })
}

// The end, after which nothing stands.
fn end<'a>(sheet: Payload<'a>) -> Result<Record<'a>, Fault>
    requires { sheet.at ≤ length sheet.body.now }
    ensures { ReadsRecord (ended sheet.entry.body.now sheet.entry.place end_says sheet.entry.at) sheet.entry.at
        (λ p. (sheet.entry.at ≡ length sheet.entry.body.now) × ((n : ℕ) → Shows p n)) result }
{
    sheet.end()?;
    Ok(Record::End)
}

// The record of a kind, whose payload is read from a sheet. The sheet is passed beside the payload that is cut from it, since after an end
// nothing may stand in the whole sheet.
pub fn payload<'a>(
    kind: Kind,
    names: &[&'a [u8]],
    sheet: Payload<'a>,
    payload: Payload<'a>,
) -> Result<Record<'a>, Fault>
    requires within { (payload.at ≤ length payload.body.now) × (length payload.body.now ≤ length sheet.body.now) }
    requires same { (payload.place ≡ sheet.place) × (payload.at ≡ sheet.at) }
    ensures { ReadsRecord (read_from (read_payload (kind_code kind) (contents names.now) sheet.entry.body.now) payload.entry)
        (length payload.entry.body.now) (λ p. Shows p (length names.now)) result }
{
    match kind {
        Kind::End => end(sheet),
        Kind::Part => part(payload, names),
        Kind::Limit(sense) => limit(sense, payload),
        Kind::Goal => goal(payload),
    }
}
