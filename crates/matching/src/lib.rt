// The assignment of parts to roots, alone, and the set of parts that admits none (document 01, step 5).
//
// `assign` is all that another program calls. Its promise stands in `specs/Promise.antt`, its words in
// `specs/Assignment.antt`, `Assignable.antt` and `Input.antt`, and in `Put` of `lists`. The method is that of
// augmenting paths, one part after the other: `path` finds a path and exchanges along it, and `deficient` marks the
// parts that were reached where there is none. No more than y + 1 parts are
// tried, since no more than y can have a root, each by a search of at most (y + 1) · (y + 1) turns.
#![tactic(auto)]

mod deficient;
mod input;
mod path;

ghost use Rattle.std.specs.Prelude.{◌≡◌, false, length};
ghost use Rattle.matching.specs.Promise.{Assigns};
ghost use Rattle.matching.specs.Input.{refused_of};
ghost use Rattle.matching.specs.State.{Ready, Placed, Solved};

// What `assign` answers: the input is refused, or the buffer's first bytes are the assignment, or a deficient set.
#[derive(Clone, Copy)]
pub enum Answer {
    Refused,
    Assigned,
    Deficient,
}

// Finds a root for part i beside the parts before it, by an augmenting path; or else marks a deficient set.
fn place(
    p: usize,
    y: usize,
    i: usize,
    allowed: &[u8],
    owner: &mut [usize; 32],
    out: &mut [u8],
) -> bool
    requires { Ready p y i allowed.now owner.old out.old }
    ensures { Placed p y i allowed.now result owner.old owner.new out.old
        out.new }
{
    let mut parts = [0usize; 33];
    let mut via = [0usize; 33];
    let mut from = [path::NONE; 32];
    match path::find(y, i, allowed, owner, &mut parts, &mut via, &mut from) {
        Ok(j) => {
            path::exchange(i, j, &parts, &via, &from, owner, out);
            true
        }
        Err(t) => {
            deficient::mark(p, &parts, t, out);
            false
        }
    }
}

// Places the parts one after the other, until one finds no root.
fn solve(p: usize, y: usize, allowed: &[u8], out: &mut [u8]) -> Answer
    requires { refused_of p y allowed.now (length out.old) ≡ false }
    ensures { Solved p y allowed.now out.old result out.new }
{
    let mut owner = [path::NONE; 32];
    for i in 0..p {
        if !place(p, y, i, allowed, &mut owner, out) {
            return Answer::Deficient;
        }
    }
    Answer::Assigned
}

// Gives each of p parts a root ("yard") of its own among y, by p × y bytes, part by part: 1 where a root is allowed, 0
// where not. Any input is answered.
pub fn assign(p: usize, y: usize, allowed: &[u8], out: &mut [u8]) -> Answer
    ensures { Assigns p y allowed.now out.old result out.new }
{
    if input::refused(p, y, allowed, out.len()) {
        return Answer::Refused;
    }
    solve(p, y, allowed, out)
}
