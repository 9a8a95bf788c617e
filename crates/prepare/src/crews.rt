// What was prepared for a question, as one value: crews of each kind hold just what they read.
ghost use Rattle.std.specs.Prelude.{◌≡◌};

use distance_table::table::Table;
use edges::around::Around;
use needs::history::Merges;

// The crews, and what they alone read at every limit.
#[derive(Clone, Copy)]
pub enum Crews<'a> {
    // With a root each: the roots, the arcs around each vertex over the whole forest, the distances from all roots and
    // their last edges.
    Rooted {
        roots: &'a [u16],
        around: Around<'a>,
        table: Table<'a>,
    },
    // k crews without roots: the history of the whole forest's merges.
    Unrooted {
        k: usize,
        merges: Merges<'a>,
    },
}

// The edges in order, the whole forest by weight, and the crews.
#[derive(Clone, Copy)]
pub struct Prepared<'a> {
    pub order: &'a [u16],
    pub kept: &'a [u16],
    pub crews: Crews<'a>,
}

// What is prepared for crews with roots, as one value: parts that are lent for times of their own, lent for one.
pub fn with_roots<'a>(
    order: &'a [u16],
    kept: &'a [u16],
    roots: &'a [u16],
    around: Around<'a>,
    table: Table<'a>,
) -> Prepared<'a>
    ensures { result ≡ record {
      order = order.entry;
      kept = kept.entry;
      crews = Crews.Rooted roots.entry around.entry table.entry;
    } }
{
    let crews = Crews::Rooted {
        roots,
        around,
        table,
    };
    Prepared { order, kept, crews }
}

// The same for k crews without roots.
pub fn without_roots<'a>(
    order: &'a [u16],
    kept: &'a [u16],
    k: usize,
    merges: Merges<'a>,
) -> Prepared<'a>
    ensures { result ≡ record {
      order = order.entry;
      kept = kept.entry;
      crews = Crews.Unrooted k merges.entry;
    } }
{
    let crews = Crews::Unrooted { k, merges };
    Prepared { order, kept, crews }
}
