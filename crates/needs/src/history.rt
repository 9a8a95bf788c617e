// The history of merges of the whole forest's edges, recorded once a question: at any limit one pass over it tells how
// many trees the components need (document 01, step 7), so that no edge is read or merged again for this.
// Merges are numbered from 1 in the order of the edges. Of merge i, total[i] is the weight of the tree that it
// completes, and until[i] the number of the merge that takes this tree up, or 256 where none does. Number 0 stands for
// "no merge yet": a tree without edges, which weighs 0.
ghost use Rattle.std.specs.Prelude.{◌≡◌, cond, ◌*◌, ◌/◌, ltb};
ghost use Rattle.graph.specs.Bytes.{graph_of};
ghost use Rattle.needs.specs.History.{needed_by, HistoryWritten, HistoryAsked, MergesAsked, AllMerged, NoteAsked, MergeNoted, EdgeAsked, EdgeMerged, ReadAsked};

use edges::index::wide;
use forest::keep::join_ends;
use forest::labels::start_labels;
use graph::Graph;

// The history: of each merge the weight of the tree that it completes, and the merge that takes this tree up.
#[derive(Clone, Copy)]
pub struct Merges<'a> {
    pub total: &'a [u64],
    pub until: &'a [u16],
}

// Notes a merge: of the components whose labels are a and c, by an edge of that weight. a stays the label.
fn note_merge(
    a: usize,
    c: usize,
    weight: u64,
    number: usize,
    made: &mut [u16],
    total: &mut [u64],
    until: &mut [u16],
)
    requires { NoteAsked a c weight number made.old total.old until.old }
    ensures { MergeNoted a c weight number made.old made.new total.old
        total.new until.old until.new }
{
    let one = wide(made[a]);
    let other = wide(made[c]);
    total[number] = weight + (total[one] + total[other]);
    until[one] = number as u16;
    until[other] = number as u16;
    until[number] = 256;
    made[a] = number as u16;
}

// Merges the components of an edge's ends, and notes it.
fn merge_edge(
    g: &Graph,
    e: usize,
    number: usize,
    label: &mut [u16],
    made: &mut [u16],
    total: &mut [u64],
    until: &mut [u16],
)
    requires { EdgeAsked g.now e number label.old made.old total.old until.old }
    ensures { EdgeMerged g.now e number label.old
        label.new made.old made.new total.old total.new
        until.old until.new }
{
    let a = wide(label[g.one_end(e)]);
    let c = wide(label[g.other_end(e)]);
    note_merge(a, c, g.weight(e), number, made, total, until);
    join_ends(g, e, label);
}

// Merges along each edge of the whole forest, one after the other.
fn merge_all(
    g: &Graph,
    kept: &[u16],
    label: &mut [u16],
    made: &mut [u16],
    total: &mut [u64],
    until: &mut [u16],
)
    requires { MergesAsked g.now kept.now label.old made.old total.old until.old }
    ensures { AllMerged g.now kept.now
        label.old label.new made.old made.new total.old
        total.new until.old until.new }
{
    for (i, e) in kept.iter().enumerate() {
        merge_edge(g, wide(*e), i + 1, label, made, total, until);
    }
}

// The history of the whole forest, where no vertex is a root.
pub fn record_merges(g: &Graph, kept: &[u16], total: &mut [u64], until: &mut [u16])
    requires { HistoryAsked g.now kept.now total.old until.old }
    ensures { HistoryWritten g.now kept.now
        total.old total.new until.old until.new }
{
    let mut label = [0u16; 256];
    let mut made = [0u16; 256];
    start_labels(&[], g.vertex_count(), &mut label);
    total[0] = 0;
    merge_all(g, kept, &mut label, &mut made, total, until);
}

// What the tree of a merge needs besides its component's first tree, where it is there after `light` merges: one for
// each 2 B that it weighs. Halving last, so that no limit is too large.
fn more_needs(weight: u64, until: u16, light: usize, limit: u64) -> u64
    ensures { result ≡ cond (ltb light until) (weight / (2 * limit)) 0 }
{
    if wide(until) <= light {
        return 0;
    }
    if limit == 0 {
        return 0;
    }
    weight / limit / 2
}

// "The sum C" at a limit within which the first `light` edges of the whole forest are: each of them left one component
// fewer.
pub fn needed_by_history(n: usize, merges: Merges, light: usize, limit: u64) -> u64
    requires { ReadAsked n merges.total.now merges.until.now light }
    ensures { result ≡ needed_by n merges.entry.total.now merges.entry.until.now light limit }
{
    let mut sum = (n - light) as u64;
    for i in 0..=light {
        sum += more_needs(merges.total[i], merges.until[i], light, limit);
    }
    sum
}
