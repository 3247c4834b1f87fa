//! The record at a place: its kind, the length of its payload, and then the payload.
ghost use Rattle.std.specs.Prelude.{◌≡◌, ℕ, ◌+◌, ◌<◌, ◌≤◌, length, IfOk, MatchResult};
ghost use Rattle.fields.specs.Fields.{found};
ghost use Rattle.fields.specs.Meanings.{fault_of, contents, read_from, Reads};
ghost use Rattle.records.specs.Codes.{kind_code};
ghost use Rattle.records.specs.Sheets.{read_kind, read_length, read_sized, read_record};
ghost use Rattle.records.specs.Meanings.{said, Shows};

use crate::payloads::payload;
use crate::{Kind, Record, Stage};
use fields::{Fault, Payload, Reason};

// The kind of the record at `at`, and the sheet as a payload after it.
fn kind_at<'a>(sheet: &'a [u8], stage: Stage, at: usize) -> Result<(Kind, Payload<'a>), Fault>
    ensures { MatchResult result
        (λ p. (read_kind stage sheet.now at ≡ found (kind_code p.0) p.1.at)
        × (p.1.body.now ≡ sheet.now) × (p.1.place ≡ at) × (at < p.1.at))
        (λ f. read_kind stage sheet.now at ≡ fault_of f) }
{
    let mut head = Payload::new(sheet, at, at);
    let code = head.number()?;
    match Kind::try_from(code) {
        Ok(kind) if stage.allows(kind) => Ok((kind, head)),
        _ => Err(head.fault(Reason::BadKind)),
    }
}

// The length of a record's payload.
fn payload_length(head: &mut Payload) -> Result<usize, Fault>
    ensures is { Reads (read_from read_length head.old) head.old head.new result }
    ensures within { IfOk result (λ n. head.new.at + n ≤ length head.new.body.now) }
{
    let size = head.number()? as usize;
    if head.rest().len() < size {
        return Err(head.fault(Reason::WrongLength));
    }
    Ok(size)
}

// The record of a kind, whose payload's length is read next, and the place after it.
fn sized<'a>(
    kind: Kind,
    names: &[&'a [u8]],
    mut head: Payload<'a>,
) -> Result<(Record<'a>, usize), Fault>
    ensures { MatchResult result
        (λ p. (read_from (read_sized (kind_code kind) (contents names.now)) head.entry ≡ found (said p.0) p.1)
        × (head.entry.at < p.1) × (p.1 ≤ length head.entry.body.now) × Shows p.0 (length names.now))
        (λ f. read_from (read_sized (kind_code kind) (contents names.now)) head.entry ≡ fault_of f) }
{
    let size = payload_length(&mut head)?;
    let record = payload(kind, names, head, head.cut(size))?;
    Ok((record, head.at() + size))
}

// The record at `at`, and the place after it. It takes one by one what a reader holds, as the definition of a record at a place does.
pub fn record_at<'a>(
    sheet: &'a [u8],
    stage: Stage,
    names: &[&'a [u8]],
    at: usize,
) -> Result<(Record<'a>, usize), Fault>
    ensures { MatchResult result
        (λ p. (read_record stage (contents names.now) sheet.now at ≡ found (said p.0) p.1)
        × (at < p.1) × (p.1 ≤ length sheet.now) × Shows p.0 (length names.now))
        (λ f. read_record stage (contents names.now) sheet.now at ≡ fault_of f) }
{
    let (kind, head) = kind_at(sheet, stage, at)?;
    sized(kind, names, head)
}
