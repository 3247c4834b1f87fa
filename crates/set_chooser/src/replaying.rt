//! Any list of calls on a new job.
ghost use Rattle.std.specs.Prelude.{min, length};
ghost use Rattle.logs.specs.Logs.{lent, Replayed};
ghost use Rattle.set_chooser.specs.Promise.{ListingsRight};

use grades::Grade;
use logs::{Call, LogRows, ReplayRefusal, Reply};
use memories::Memory;
use tables::Place;

/// Makes the calls of a new job over the lent places, one after another, and puts the answer to each into its place among the replies; the
/// other replies are left. Refused if there are more calls than places for replies: then nothing is done.
///
/// Its contract is the whole promise. Each answer of the log is right: a solve that is not refused finds nothing exactly when no choice keeps
/// all standing limits, and otherwise the rule's choice with its grade, which keeps them, and every other that keeps them ranks no earlier; a
/// close of a sound limit, with fewer than 64 standing, is refused for want of places exactly when more nodes are needed than there are places;
/// and what stands is settled by the calls before. And the listing of every sheet, if it has no fault line, is right in the same way.
pub fn replay<M: Memory, G: Grade>(
    places: &mut [Place],
    calls: &[Call<G::Weight>],
    rows: &mut LogRows<G>,
    memory: &mut M,
    replies: &mut [Reply<G>],
) -> Result<(), ReplayRefusal>
    ensures log { Replayed G.kind G.means G.weighs (min (length places.old) 60000) (lent rows.old) calls.now replies.old replies.new result }
    ensures sheets { ListingsRight }
{
    logs::replay(places, calls, rows, memory, replies)
}
