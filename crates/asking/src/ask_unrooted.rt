// A question by crews without roots: prepared in arrays, and answered. The arrays for the order are small where that is
// enough.
ghost use Rattle.std.specs.Prelude.{length};
ghost use Rattle.rules.specs.Cover.{unrooted};
ghost use Rattle.asking.specs.Asking.{Answered, UnrootedAsked, UnrootedLent, UnrootedAnswered, UnrootedFits};

use crate::ask::{Asked, answer_asked};
use graph::Graph;
use needs::history::Merges;
use prepare::crews::without_roots;
use prepare::prepare_unrooted;
use replies::Told;

// Prepares the question, with the edges put in order in the arrays that are lent, and answers it.
fn ask_unrooted_in(
    k: usize,
    g: &Graph,
    asked: Asked,
    keys: &mut [u64],
    spare: &mut [u64],
    order: &mut [u16],
    buf: &mut [u8],
) -> Told
    requires { UnrootedLent k g.now asked (length keys.old) (length spare.old)
        (length order.old) (length buf.old) }
    ensures { UnrootedAnswered asked k g.now keys.old
        keys.new spare.old spare.new order.old order.new
        buf.old buf.new result }
{
    let mut kept = [0u16; 256];
    let mut total = [0u64; 256];
    let mut until = [0u16; 256];
    let ready = prepare_unrooted(g, keys, spare, order, &mut kept, &mut total, &mut until);
    let merges = Merges {
        total: &total,
        until: &until,
    };
    let prepared = without_roots(&order[..ready.edges], &kept[..ready.forest], k, merges);
    answer_asked(g, prepared, asked, buf)
}

// Lends arrays of a length that the edges fit in.
fn ask_unrooted_sized<const LENGTH: usize>(
    k: usize,
    g: &Graph,
    asked: Asked,
    buf: &mut [u8],
) -> Told
    requires { UnrootedFits k g.now asked LENGTH (length buf.old) }
    ensures { Answered asked g.now (unrooted k) buf.old
        buf.new result }
{
    let mut keys = [0u64; LENGTH];
    let mut spare = [0u64; LENGTH];
    let mut order = [0u16; LENGTH];
    ask_unrooted_in(k, g, asked, &mut keys, &mut spare, &mut order, buf)
}

// The answer to a question by k crews without roots.
pub(crate) fn ask_unrooted(k: usize, g: &Graph, asked: Asked, buf: &mut [u8]) -> Told
    requires { UnrootedAsked k g.now asked (length buf.old) }
    ensures { Answered asked g.now (unrooted k) buf.old
        buf.new result }
{
    if g.edge_count() <= 512 {
        return ask_unrooted_sized::<512>(k, g, asked, buf);
    }
    ask_unrooted_sized::<2048>(k, g, asked, buf)
}
