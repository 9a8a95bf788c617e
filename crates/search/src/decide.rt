// Whether a limit is accepted, by crews of either kind: all that a trial inside the search does.
ghost use Rattle.std.specs.Prelude.{◌≡◌};
ghost use Rattle.rules.specs.Search.{accepts};
ghost use Rattle.prepare.specs.Crews.{the_crews};
ghost use Rattle.search.specs.Decision.{DecisionAsked};

use graph::Graph;
use prepare::crews::{Crews, Prepared};
use rooted_decide::accepts_rooted;
use unrooted::answer::accepts_unrooted;

// Whether the crews' trial at the limit accepts.
pub(crate) fn accepts_at(g: &Graph, prepared: Prepared, limit: u64, steps: &[u64]) -> bool
    requires { DecisionAsked g.now prepared limit steps.now }
    ensures { result ≡ accepts g.now (the_crews prepared.entry.crews) limit }
{
    let kept = prepared.kept;
    match prepared.crews {
        Crews::Rooted { roots, table, .. } => {
            accepts_rooted(g, roots, limit, kept, table.distances, steps)
        }
        Crews::Unrooted { k, merges } => accepts_unrooted(g, k, limit, kept, merges),
    }
}
