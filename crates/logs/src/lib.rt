//! Any list of calls on a new job, with the answer to each.
#![tactic(auto)]

ghost use Rattle.std.specs.Prelude.{◌≡◌, ◌<◌, min, map, length, IfOk, slice_index_or, slice_set};
ghost use Rattle.limits.specs.Refusals.{told};
ghost use Rattle.jobs.specs.Calls.{closed, after_close, asked};
ghost use Rattle.jobs.specs.Stands.{stands, places};
ghost use Rattle.logs.specs.Drafted.{named, limit_of};
ghost use Rattle.logs.specs.Logs.{after, Finds, lent, SolvedRight, Right, Replayed};

use grades::{Grade, Mass, MassPrice, Wait};
use jobs::Job;
use limits::drafts::{Side, Term, draft_of};
use limits::{Choice, Refusal};
use memories::Memory;
use rows::{Row, RowTables, Rows};
use solving::Answer;
use tables::Place;

/// The weights of a solve: by one of the three kinds, or by a further one whose weights are `W`.
// The kinds are told apart here, since one log mixes them and their weights are of different types.
#[derive(Clone, Copy, PartialEq, Eq, Debug, Drop)]
pub enum Weights<'a, W> {
    Mass(&'a [i32]),
    Wait(&'a [u32]),
    MassPrice(&'a [(i32, u32)]),
    Own(&'a [W]),
}

/// A call of a job. A close opens a draft, gives it the terms, of which refused ones leave it as it was, and closes it.
#[derive(Clone, Copy, Drop)]
pub enum Call<'a, W> {
    Begin(u8),
    Close(&'a [Term], Side),
    TakeBack,
    Solve(Weights<'a, W>),
    Check(Choice),
}

/// What a solve finds, by the kind of its weights; none where nothing fits.
// One log mixes the kinds, so each answer says by which it is.
#[derive(Clone, Copy, PartialEq, Eq, Debug)]
pub enum Found<G> {
    Mass(Option<Answer<Mass>>),
    Wait(Option<Answer<Wait>>),
    MassPrice(Option<Answer<MassPrice>>),
    Own(Option<Answer<G>>),
}

/// What a call answers that is not refused: that it is done, what a solve finds, or the first limit that a choice breaks.
#[derive(Clone, Copy, PartialEq, Eq, Debug)]
pub enum Answered<G> {
    Done,
    Solved(Found<G>),
    Checked(Option<usize>),
}

/// The answer to a call.
pub type Reply<G> = Result<Answered<G>, Refusal>;

/// Why a log is not run.
#[derive(Clone, Copy, PartialEq, Eq, Debug, Drop)]
pub enum ReplayRefusal {
    RepliesTooShort,
}

/// Lent rows for each kind of grade: the three that goals name, and the further one.
#[derive(Drop)]
pub struct LogRows<'a, G> {
    pub tables: RowTables<'a>,
    pub own: &'a mut [Row<G>],
}

// Solves by one kind, in lent rows.
fn solved_by<G: Grade>(
    job: &Job,
    weights: &[G::Weight],
    row_places: &mut [Row<G>],
) -> Result<Option<Answer<G>>, Refusal>
    ensures reply { told result ≡ asked G.kind (stands job.now) (map G.weighs weights.now) (length row_places.old) }
    ensures answer { IfOk result (λ o. Finds G.kind G.means (map G.weighs weights.now) (stands job.now).limits o) }
{
    let mut rows = Rows::new(row_places);
    job.solve(weights, &mut rows)
}

// Solves by the kind of the weights.
fn solved<G: Grade>(job: &Job, weights: &Weights<G::Weight>, rows: &mut LogRows<G>) -> Reply<G>
    ensures right { SolvedRight G.kind G.means G.weighs (lent rows.old) (stands job.now) weights.now result }
    ensures lent { lent rows.new ≡ lent rows.old }
{
    let found = match weights {
        Weights::Mass(masses) => Found::Mass(solved_by(job, masses, rows.tables.mass)?),
        Weights::Wait(waits) => Found::Wait(solved_by(job, waits, rows.tables.wait)?),
        Weights::MassPrice(costs) => Found::MassPrice(solved_by(
            job,
            costs,
            rows.tables.mass_price,
        )?),
        Weights::Own(own) => Found::Own(solved_by(job, own, rows.own)?),
    };
    Ok(Answered::Solved(found))
}

// Closes the limit that terms make, of which refused ones leave the draft as it was.
fn close<M: Memory>(
    job: &mut Job,
    terms: &[Term],
    side: Side,
    memory: &mut M,
) -> Result<(), Refusal>
    ensures reply { told result ≡ closed (places job.old) (stands job.old) (named terms.now) (limit_of terms.now side) }
    ensures stands { stands job.new ≡ after_close (places job.old) (stands job.old) (named terms.now) (limit_of terms.now side) }
    ensures places { places job.new ≡ places job.old }
{
    job.close(draft_of(terms.iter().copied()), side, memory)
}

// Makes one call of the job.
fn perform<M: Memory, G: Grade>(
    job: &mut Job,
    call: &Call<G::Weight>,
    rows: &mut LogRows<G>,
    memory: &mut M,
) -> Reply<G>
    ensures right { Right G.kind G.means G.weighs (places job.old) (lent rows.old) (stands job.old) call.now result }
    ensures stands { stands job.new ≡ after (places job.old) (stands job.old) call.now }
    ensures places { places job.new ≡ places job.old }
    ensures lent { lent rows.new ≡ lent rows.old }
{
    match call {
        Call::Begin(parts) => job.begin(*parts)?,
        Call::Close(terms, side) => close(job, terms, *side, memory)?,
        Call::TakeBack => job.take_back()?,
        Call::Solve(weights) => return solved(job, weights, rows),
        Call::Check(choice) => return Ok(Answered::Checked(job.check(*choice)?)),
    }
    Ok(Answered::Done)
}

// Puts a value into a place. For any type, since the place of a reply, whose size has many cases, is not found within the search's limits.
fn put<T: Copy>(xs: &mut [T], i: usize, x: T)
    requires { i < length xs.old }
    ensures { xs.new ≡ slice_set xs.old i x }
{
    xs[i] = x;
}

/// Makes the calls of a new job over the lent places, one after another, and puts the answer to each into its place among the replies; what
/// is left of the replies stays as it was. Refused if there are more calls than places for replies: then nothing is done.
pub fn replay<M: Memory, G: Grade>(
    node_places: &mut [Place],
    calls: &[Call<G::Weight>],
    rows: &mut LogRows<G>,
    memory: &mut M,
    replies: &mut [Reply<G>],
) -> Result<(), ReplayRefusal>
    ensures { Replayed G.kind G.means G.weighs (min (length node_places.old) 60000) (lent rows.old) calls.now replies.old replies.new result }
{
    if replies.len() < calls.len() {
        return Err(ReplayRefusal::RepliesTooShort);
    }
    let mut job = Job::new(node_places);
    // The number names the place of the reply; the calls and the places for replies are lent apart, and more places may be lent.
    for (i, call) in calls.iter().enumerate() {
        put(replies, i, perform(&mut job, call, rows, memory));
    }
    Ok(())
}
