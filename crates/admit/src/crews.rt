// The crews that a question is for: with a root each, or without.
ghost use Rattle.admit.specs.Brought.{lent};
ghost use Rattle.admit.specs.Crews.{CrewsTested};

// Whether the crews have a root each ("yard"), or none ("roving").
#[derive(Clone, Copy)]
pub enum Kind {
    Rooted,
    Unrooted,
}

// Says whether there are 1 to 32 crews, and no more than the n vertices where they have roots and no list says which.
pub(crate) fn crews_right(kind: Kind, k: usize, n: usize, vans: Option<&[u8]>) -> bool
    ensures { CrewsTested kind k n (lent vans.entry) result }
{
    if k < 1 {
        return false;
    }
    if 32 < k {
        return false;
    }
    match vans {
        Some(_) => true,
        None => match kind {
            Kind::Rooted => k <= n,
            Kind::Unrooted => true,
        },
    }
}
