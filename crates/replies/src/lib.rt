// What a trial or a best-limit question is answered, by cause, with document 01's number and values of each answer; and
// what is known besides after some trials.
#![tactic(auto)]

ghost use Rattle.std.specs.Prelude.{◌≡◌};
ghost use Rattle.replies.specs.Replies.{says, bit_of};

use admit::refusal::Refusal;

// The reply. What is written besides, the cover or the parts, stands in the buffer.
#[derive(Clone, Copy)]
pub enum Reply {
    // The question is refused.
    Refused(Refusal),
    // Accepted: the limit, the weight of the heaviest tree, and how many trees.
    Cover(u64, u64, usize),
    // Too low: a vertex ("stop") that is joined to no root, the lowest.
    Stop(usize),
    // Too low: so many parts ("T"), and so few roots near them ("D").
    Parts(usize, usize),
    // Too low: the components need so many trees ("C").
    Needs(u64),
    // No cover exists at all.
    NoCover,
}

// What is known after some trials of a search: how many were made; a floor, below which no cover's heaviest tree is; and
// whether they are spent while limits are left to try.
#[derive(Clone, Copy)]
pub struct Known {
    pub trials: usize,
    pub floor: u64,
    pub spent: bool,
}

// Before any trial.
pub const UNTRIED: Known = Known {
    trials: 0,
    floor: 0,
    spent: false,
};

// A reply, and what is known besides it.
#[derive(Clone, Copy)]
pub struct Told {
    pub reply: Reply,
    pub known: Known,
}

// Document 01's number of a refusal; the other cases are numbered from 0.
pub fn number_of(reply: Reply) -> u32
    ensures { result ≡ (says reply).number }
{
    match reply {
        Reply::Refused(f) => admit::refusal::number(f),
        Reply::Cover(_, _, _) => 0,
        Reply::Stop(_) => 1,
        Reply::Parts(_, _) => 2,
        Reply::Needs(_) => 3,
        Reply::NoCover => 4,
    }
}

// 1 for true, 0 for false.
pub fn bit(is: bool) -> u64
    ensures { result ≡ bit_of is }
{
    u64::from(is)
}
