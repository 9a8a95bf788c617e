// Every cause of a refusal (document 01, "Who causes which number", and document 02), and its number, here alone.
ghost use Rattle.std.specs.Prelude.{◌≡◌};
ghost use Rattle.admit.specs.Refusals.{number_of};
ghost use Rattle.admit.specs.declared.refusal.Refusal.TheVariants.{Sheet};

// "B is 0 to 2,048,000,000".
pub const MOST_LIMIT: u64 = 2048000000;

// The most trials that a search may be asked for: so many are enough on every graph.
pub const MOST_TRIALS: usize = 33;

// The least length of a buffer, in bytes: room for any cover.
pub const LEAST_ROOM: usize = 32708;

// The same of a walk's: room for 511 stops.
pub const LEAST_WALK_ROOM: usize = 1022;

// What can be refused.
#[derive(Clone, Copy)]
pub enum Refusal {
    // The graph's bytes have a fault.
    Sheet(graph_check::Cause),
    // The class list has not one byte for each edge.
    Classes,
    // A weight by its class is too large.
    Adjusted,
    // There are no crews, too many, or more than vertices where each has a root and no list says which.
    Crews,
    // The list of vans has not two bytes for each crew, or names no vertex.
    Vans,
    // The limit is too large.
    Limit,
    // The buffer is too small.
    Room,
    // The number of trials is too small or too large.
    Trials,
    // A filed cover: its length is not that of so many trees and entries.
    Length,
    // Its number of trees or a start breaks the kind's rule, or a start is no vertex.
    Starts,
    // An entry names no tree or no edge, or stands out of order.
    Entries,
    // A tree has a loop, or an edge that is not joined to its start.
    Trees,
    // A vertex is not covered.
    Vertices,
    // A walk: the cover has no such tree.
    TreeNumber,
    // The buffer is too small for some walk.
    WalkRoom,
}

impl From<graph_check::Cause> for Refusal {
    ghost from_gives = { λ cause refusal. refusal ≡ Sheet cause };

    // A fault of the graph's bytes is refused as that.
    fn from(cause: graph_check::Cause) -> Refusal {
        Refusal::Sheet(cause)
    }
}

// The number of a cause.
pub fn number(refusal: Refusal) -> u32
    ensures { result ≡ number_of refusal }
{
    match refusal {
        Refusal::Sheet(f) => graph_check::number(f) as u32,
        Refusal::Classes => 53,
        Refusal::Adjusted => 54,
        Refusal::Crews => 21,
        Refusal::Vans => 55,
        Refusal::Limit => 22,
        Refusal::Room => 23,
        Refusal::Trials => 56,
        Refusal::Length => 31,
        Refusal::Starts => 32,
        Refusal::Entries => 33,
        Refusal::Trees => 34,
        Refusal::Vertices => 35,
        Refusal::TreeNumber => 51,
        Refusal::WalkRoom => 52,
    }
}
