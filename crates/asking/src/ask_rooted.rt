// A question by crews with roots: prepared in arrays, and answered. The arrays are small where that is enough, since
// setting them to zero is much of what a question about a small graph costs.
ghost use Rattle.std.specs.Prelude.{length};
ghost use Rattle.rules.specs.Cover.{rooted};
ghost use Rattle.asking.specs.Asking.{Answered, RootedAsked, RootedLent, RootedAnswered, RootedSmall};
ghost use Rattle.prepare.specs.Preparing.{SizeTold};

use crate::ask::{Asked, answer_asked};
use distance_table::table::Table;
use edges::around::Around;
use graph::Graph;
use prepare::crews::with_roots;
use prepare::prepare_rooted;
use replies::Told;

// Prepares the question in the arrays that are lent, and answers it. What the answer reads of them is lent for one time.
fn ask_rooted_in<'a>(
    g: &Graph,
    roots: &'a [u16],
    asked: Asked,
    order: &'a mut [u16],
    kept: &'a mut [u16],
    bounds: &'a mut [u16],
    all: &mut [u64],
    arcs: &'a mut [u64],
    distances: &'a mut [u32],
    lasts: &'a mut [u32],
    buf: &mut [u8],
) -> Told
    requires { RootedLent g.now roots.now asked order.old kept.old bounds.old
        all.old arcs.old distances.old lasts.old (length buf.old) }
    ensures { RootedAnswered asked g.now roots.now
        order.old order.new kept.old kept.new bounds.old
        bounds.new all.old all.new arcs.old arcs.new
        distances.old distances.new lasts.old lasts.new buf.old
        buf.new result }
{
    let ready = prepare_rooted(g, roots, order, kept, bounds, all, arcs, distances, lasts);
    let prepared = with_roots(
        &order[..ready.edges],
        &kept[..ready.forest],
        roots,
        Around { bounds, arcs },
        Table { distances, lasts },
    );
    answer_asked(g, prepared, asked, buf)
}

// Lends arrays that a small graph and few crews fit in. This and the next stay two functions, since one of both by const
// parameters would take five bare lengths at each call.
fn ask_rooted_small(g: &Graph, roots: &[u16], asked: Asked, buf: &mut [u8]) -> Told
    requires { RootedSmall g.now roots.now asked (length buf.old) }
    ensures { Answered asked g.now (rooted roots.now)
        buf.old buf.new result }
{
    let mut order = [0u16; 512];
    let mut kept = [0u16; 64];
    let mut bounds = [0u16; 65];
    let mut all = [0u64; 1024];
    let mut arcs = [0u64; 512];
    let mut distances = [0u32; 512];
    let mut lasts = [0u32; 512];
    ask_rooted_in(
        g,
        roots,
        asked,
        &mut order,
        &mut kept,
        &mut bounds,
        &mut all,
        &mut arcs,
        &mut distances,
        &mut lasts,
        buf,
    )
}

// Lends arrays that every graph and all crews fit in.
fn ask_rooted_full(g: &Graph, roots: &[u16], asked: Asked, buf: &mut [u8]) -> Told
    requires { RootedAsked g.now roots.now asked (length buf.old) }
    ensures { Answered asked g.now (rooted roots.now)
        buf.old buf.new result }
{
    let mut order = [0u16; 2048];
    let mut kept = [0u16; 256];
    let mut bounds = [0u16; 257];
    let mut all = [0u64; 4096];
    let mut arcs = [0u64; 2048];
    let mut distances = [0u32; 8192];
    let mut lasts = [0u32; 8192];
    ask_rooted_in(
        g,
        roots,
        asked,
        &mut order,
        &mut kept,
        &mut bounds,
        &mut all,
        &mut arcs,
        &mut distances,
        &mut lasts,
        buf,
    )
}

// Whether the small arrays are enough.
fn is_small(g: &Graph, k: usize) -> bool
    ensures { SizeTold g.now k result }
{
    if 64 < g.vertex_count() {
        return false;
    }
    if 512 < g.edge_count() {
        return false;
    }
    k <= 8
}

// The answer to a question by crews with roots. The roots are a list of vertices, one for each crew.
pub(crate) fn ask_rooted(g: &Graph, roots: &[u16], asked: Asked, buf: &mut [u8]) -> Told
    requires { RootedAsked g.now roots.now asked (length buf.old) }
    ensures { Answered asked g.now (rooted roots.now)
        buf.old buf.new result }
{
    if is_small(g, roots.len()) {
        return ask_rooted_small(g, roots, asked, buf);
    }
    ask_rooted_full(g, roots, asked, buf)
}
