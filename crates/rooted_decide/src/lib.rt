// Whether there is a cover at all by crews with roots, and whether a limit is accepted (document 01, a "yard" trial,
// steps 2 to 5), over what is prepared once a question. Where the whole graph joins every vertex to a root, all are
// joined within the limit exactly where no edge of the whole forest is above it.
// The words of the contracts stand in specs/ and in the definitions of the crate `rules`.
#![tactic(auto)]

ghost use Rattle.std.specs.Prelude.{◌≡◌};
ghost use Rattle.graph.specs.Bytes.{graph_of};
ghost use Rattle.rules.specs.Cover.{rooted};
ghost use Rattle.rules.specs.RootedTrial.{is_assignable};
ghost use Rattle.rules.specs.Search.{accepts, no_cover_exists};
ghost use Rattle.rooted_parts.specs.Near.{PartsNearPut};
ghost use Rattle.rooted_decide.specs.Decide.{NoCoverAsked, RootedDecisionAsked, CountReady, FewReady, NearReady};

use graph::Graph;
use near::parts::near_parts;
use near::rows::put_rows;
use pieces::whole::{light_forest, stop_at};
use rooted_parts::parts::assign_roots;
use rooted_parts::within::roots_within;
use steps::count::count_parts;

// Whether some vertex is joined to no root by any edge ("no cover"). The whole forest joins what all edges join.
pub fn no_cover_rooted(g: &Graph, roots: &[u16], kept: &[u16]) -> bool
    requires { NoCoverAsked g.now roots.now kept.now }
    ensures { result ≡ no_cover_exists g.now (rooted roots.now) }
{
    let mut label = [0u16; 256];
    stop_at(g, roots, kept, &mut label).is_some()
}

// For each part of the trial a word, whose bit j says whether the part may go to root j. Says how many parts there are.
// No tree is split for them: the steps pass the vertices of each part.
fn parts_near(
    g: &Graph,
    roots: &[u16],
    limit: u64,
    distances: &[u32],
    steps: &[u64],
    parts: &mut [u32],
) -> usize
    requires { NearReady g.now roots.now limit distances.now steps.now parts.old }
    ensures { PartsNearPut g.now roots.now limit
        parts.old parts.new result }
{
    let mut near = [0u32; 256];
    roots_within(g, roots, limit, distances, &mut near);
    near_parts(steps, limit, &near, parts)
}

// Whether each part of the trial gets a root of its own, where there are some parts and no more than roots. So few have
// rows of at most 32 times 32 bytes.
fn few_assigned(g: &Graph, roots: &[u16], limit: u64, distances: &[u32], steps: &[u64]) -> bool
    requires { FewReady g.now roots.now limit distances.now steps.now }
    ensures { result ≡ is_assignable g.now roots.now limit }
{
    let k = roots.len();
    let mut parts = [0u32; 32];
    let p = parts_near(g, roots, limit, distances, steps, &mut parts);
    let mut rows = [0u8; 1024];
    put_rows(&parts[..p], k, &mut rows);
    let size = p * k;
    let mut assignment = [0u8; 32];
    assign_roots(p, k, &rows[..size], &mut assignment)
}

// Whether each part of the trial gets a root of its own, where every vertex is joined to a root. The parts are counted
// first: more than there are roots never do, and where there is none nothing is needed, so that no distance is looked
// at for them.
fn parts_assigned(g: &Graph, roots: &[u16], limit: u64, distances: &[u32], steps: &[u64]) -> bool
    requires { CountReady g.now roots.now limit distances.now steps.now }
    ensures { result ≡ is_assignable g.now roots.now limit }
{
    let parts = count_parts(steps, limit);
    if roots.len() < parts {
        return false;
    }
    if parts == 0 {
        return true;
    }
    few_assigned(g, roots, limit, distances, steps)
}

// Whether the limit is accepted, where the whole graph joins every vertex to a root.
pub fn accepts_rooted(
    g: &Graph,
    roots: &[u16],
    limit: u64,
    kept: &[u16],
    distances: &[u32],
    steps: &[u64],
) -> bool
    requires { RootedDecisionAsked g.now roots.now limit kept.now distances.now
        steps.now }
    ensures { result ≡ accepts g.now (rooted roots.now) limit }
{
    if light_forest(g, kept, limit) < kept.len() {
        return false;
    }
    parts_assigned(g, roots, limit, distances, steps)
}
