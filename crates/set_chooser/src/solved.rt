//! What solving a sheet that is read comes to.
ghost use Rattle.std.specs.Prelude.{◌≡◌, ◌≤◌, List, map, length};
ghost use Rattle.jobs.specs.Stands.{stands};
ghost use Rattle.sheets.specs.Told.{Part};
ghost use Rattle.sheets.specs.Notes.{part_of, parts_of};
ghost use Rattle.set_chooser.specs.Verdicts.{rows_lent, JudgedFor};

use crate::kinds::GoalKind;
use arrayvec::ArrayVec;
use grades::{Mass, MassPrice, Wait};
use jobs::Job;
use limits::{Choice, Refusal};
use listings::Grade;
use records::Goal;
use rows::{Row, RowTables, Rows};
use sheets::{Figures, Notes};

/// The rule's choice, and its grade as a listing shows it.
#[derive(Clone, Copy, PartialEq, Eq, Debug, Drop)]
pub struct Best {
    pub grade: Grade,
    pub choice: Choice,
}

/// What solving a sheet comes to: the best, or nothing where nothing fits; or it is refused.
pub type Verdict = Result<Option<Best>, Refusal>;

// The weights of the parts by one kind of grade. By a loop: `extend` and `collect` answer a fault where a vector is full, and 48 figures never
// are too many.
fn weights<G: GoalKind>(figures: &[Figures]) -> ArrayVec<G::Weight, 48>
where
    G::Weight: Default + Drop,
    requires { length figures.now ≤ 48 }
    ensures { result.items ≡ map G.weight_of (map part_of figures.now) }
{
    let mut weights = ArrayVec::new();
    for next in figures {
        weights.push(G::weight(next));
    }
    weights
}

// Solves by one kind of grade, and shows the grade as a listing does; the calls of a log, whose grades stay as they are, are solved on their own.
fn solved_by<G: GoalKind>(job: &Job, weights: &[G::Weight], lent: &mut [Row<G>]) -> Verdict
    ensures { (ps : List Part) → weights.now ≡ map G.weight_of ps → JudgedFor G.goal ps (stands job.now) (length lent.old) result }
{
    let answer = job.solve(weights, &mut Rows::new(lent))?;
    Ok(answer.map(|answer| Best {
        grade: answer.grade.show(),
        choice: answer.choice,
    }))
}

/// Solves the sheet's parts and limits for its goal.
pub fn solved(job: &Job, notes: &Notes, rows: &mut RowTables) -> Verdict
    ensures { JudgedFor notes.now.goal (parts_of notes.now) (stands job.now) (rows_lent rows.old notes.now.goal) result }
{
    let figures = notes.figures();
    match notes.goal() {
        Goal::Mass => solved_by(job, &weights::<Mass>(figures), rows.mass),
        Goal::Wait => solved_by(job, &weights::<Wait>(figures), rows.wait),
        Goal::MassPrice => solved_by(job, &weights::<MassPrice>(figures), rows.mass_price),
    }
}
