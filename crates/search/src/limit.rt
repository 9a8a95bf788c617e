// The search for the best limit (document 01, "The best limit"), which may be stopped after some trials (document 02,
// A.6): each trial in it only decides.
ghost use Rattle.std.specs.Prelude.{◌≡◌};
ghost use Rattle.prepare.specs.Crews.{the_crews};
ghost use Rattle.search.specs.Searching.{SearchEnded, found_after, SearchAsked, FindAsked, SteppedAsked, StepsGiven, StepsFor};

use crate::decide::accepts_at;
use cover::heaviest::edges_weight;
use graph::Graph;
use prepare::crews::{Crews, Prepared};
use replies::Known;
use steps::put_steps;

// Where a search stands: low was not accepted, high was, and so many limits between them were tried.
#[derive(Clone, Copy)]
pub struct Standing {
    pub low: u64,
    pub high: u64,
    pub turns: usize,
}

// What a search found: the least limit that it saw accepted, and what is known besides.
#[derive(Clone, Copy)]
pub struct Found {
    pub high: u64,
    pub known: Known,
}

// Halves what lies between low, which was not accepted, and high, which was, until they are neighbours or the trials
// are used up.
fn search(g: &Graph, prepared: Prepared, steps: &[u64], sum: u64, budget: usize) -> Standing
    requires { SearchAsked g.now prepared steps.now sum }
    ensures { SearchEnded g.now (the_crews prepared.entry.crews) sum budget result }
{
    let mut low = 0;
    let mut high = sum;
    let mut left = budget;
    while 0 < left && 1 < high - low {
        left -= 1;
        let middle = (low + high) / 2;
        if accepts_at(g, prepared, middle, steps) {
            high = middle;
            continue;
        }
        low = middle;
    }
    Standing {
        low: low,
        high: high,
        turns: budget - left,
    }
}

// The search by the steps, with at most so many trials: 0 comes first, where that is accepted it is the limit; the sum
// of all weights counts as the second, but is not run, since it is accepted wherever there is a cover.
fn search_limit(g: &Graph, prepared: Prepared, steps: &[u64], trials: usize) -> Found
    requires { SteppedAsked g.now prepared steps.now trials }
    ensures { result ≡ found_after g.now (the_crews prepared.entry.crews) trials }
{
    if accepts_at(g, prepared, 0, steps) {
        return Found {
            high: 0,
            known: Known {
                trials: 1,
                floor: 0,
                spent: false,
            },
        };
    }
    let sum = edges_weight(g, prepared.order);
    let end = search(g, prepared, steps, sum, trials - 2);
    Found {
        high: end.high,
        known: Known {
            trials: end.turns + 2,
            floor: end.low + 1,
            spent: 1 < end.high - end.low,
        },
    }
}

// Writes the steps of the whole forest's trees, by which crews with roots decide. Says how many they are.
fn write_steps(g: &Graph, crews: Crews, steps: &mut [u64]) -> usize
    requires { StepsGiven g.now crews steps.old }
    ensures { StepsFor g.now crews.entry steps.old steps.new result }
{
    match crews {
        Crews::Rooted { roots, around, .. } => put_steps(g.vertex_count(), around, roots, steps),
        Crews::Unrooted { .. } => 0,
    }
}

// The search, with at most so many trials. The steps of the whole forest's trees are written once, for all of them.
pub fn find_limit(g: &Graph, prepared: Prepared, trials: usize) -> Found
    requires { FindAsked g.now prepared trials }
    ensures { result ≡ found_after g.now (the_crews prepared.entry.crews) trials }
{
    let mut steps = [0u64; 256];
    let count = write_steps(g, prepared.crews, &mut steps);
    search_limit(g, prepared, &steps[..count], trials)
}
