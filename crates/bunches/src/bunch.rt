// A child's piece becomes a part, fills the bunch up to a part, or joins the bunch.
ghost use Rattle.std.specs.Prelude.{◌≡◌};
ghost use Rattle.rules.specs.Split.{reaches_weight};
ghost use Rattle.bunches.specs.Store.{store_of};
ghost use Rattle.bunches.specs.Settles.{Settleable, ChildSettled};

use crate::Progress;
use crate::piece::put_piece;

// The bunch of a node: it stands on the stack from `base` up to `end`, and weighs `weight`.
#[derive(Clone, Copy)]
pub struct Bunch {
    pub base: usize,
    pub end: usize,
    pub weight: u64,
}

// Whether a weight reaches the threshold: a threshold of 0 is never reached, so that nothing is split.
fn reaches(h: u64, weight: u64) -> bool
    ensures { result ≡ reaches_weight h weight }
{
    if h == 0 {
        return false;
    }
    h <= weight
}

// The child's piece, on the stack behind the bunch, meets the bunch at v: it becomes a part alone, or the bunch with it
// becomes a part, or it joins the bunch. The weight of `s` is the piece's.
pub fn settle(
    h: u64,
    v: usize,
    bunch: Bunch,
    s: Progress,
    stack: &[u16],
    starts: &mut [u16],
    cuts: &mut [u16],
    members: &mut [u16],
) -> Progress
    requires { Settleable v bunch stack.now (store_of starts.old cuts.old members.old s) s }
    ensures { ChildSettled h v bunch stack.now
        (store_of starts.old cuts.old members.old s)
        (store_of starts.new cuts.new members.new result) s result }
{
    if reaches(h, s.weight) {
        return put_piece(v, bunch.end, bunch.weight, s, stack, starts, cuts, members);
    }
    let sum = bunch.weight + s.weight;
    if reaches(h, sum) {
        return put_piece(v, bunch.base, 0, s, stack, starts, cuts, members);
    }
    Progress {
        pieces: s.pieces,
        used: s.used,
        top: s.top,
        weight: sum,
    }
}
