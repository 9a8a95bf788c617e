// The planner as a library that a C or a Rust program links: `include/planner.h` declares it. Four functions take a
// question without lists; beside them four general ones take what a question may bring beside its graph.
#![tactic(auto)]

pub mod said;

ghost use Rattle.admit.specs.Crews.{asks};
ghost use Rattle.planner_c.specs.Numbers.{kind_of, lists_of, asks_with};
ghost use Rattle.planner_c.specs.Promise.{AskExported, TrialExported, BestExported, WithinExported, CheckExported, WalkExported};

use crate::said::{
    asked_of, kind_of, number_told, put_heaviest, put_told, put_values, put_walk, question_of,
};
use admit::question::Question;
use asking::ask::Asked;
use closed_walk::walk::walk;
use filed::check::check;
use planner::question::ask;
use replies::number_of;

// A trial at a limit, with its reply as a number and values.
#[unsafe(no_mangle)]
pub extern "C" fn planner_trial(
    kind: u32,
    k: usize,
    limit: u64,
    graph: &[u8],
    values: &mut [u64; 3],
    buffer: &mut [u8],
) -> u32
    ensures { TrialExported (asks (kind_of kind) k graph.now) limit values.old
        values.new buffer.old buffer.new result }
{
    let reply = planner::question::trial(kind_of(kind), k, limit, graph, buffer);
    put_values(reply, values);
    number_of(reply)
}

// The best limit, with its reply as a number and values.
#[unsafe(no_mangle)]
pub extern "C" fn planner_best(
    kind: u32,
    k: usize,
    graph: &[u8],
    values: &mut [u64; 3],
    buffer: &mut [u8],
) -> u32
    ensures { BestExported (asks (kind_of kind) k graph.now) values.old values.new
        buffer.old buffer.new result }
{
    let reply = planner::question::best(kind_of(kind), k, graph, buffer);
    put_values(reply, values);
    number_of(reply)
}

// The check of a filed cover, with its verdict as a number and a value.
#[unsafe(no_mangle)]
pub extern "C" fn planner_check(
    kind: u32,
    k: usize,
    graph: &[u8],
    cover: &[u8],
    values: &mut [u64; 3],
) -> u32
    ensures { CheckExported (asks (kind_of kind) k graph.now) cover.now
        values.old values.new result }
{
    let verdict = filed::check::check_cover(kind_of(kind), k, graph, cover);
    put_heaviest(verdict, values);
    filed::check::number_of(verdict)
}

// The walk along a tree of a filed cover, with its answer as a number and two values.
#[unsafe(no_mangle)]
pub extern "C" fn planner_walk(
    kind: u32,
    k: usize,
    graph: &[u8],
    cover: &[u8],
    tree: usize,
    values: &mut [u64; 2],
    buffer: &mut [u8],
) -> u32
    ensures { WalkExported (asks (kind_of kind) k graph.now) cover.now tree
        values.old values.new buffer.old buffer.new result }
{
    let question = Question::new(kind_of(kind), k, graph);
    let walked = walk(&question, cover, tree, buffer);
    put_walk(walked, values);
    closed_walk::walk::number_of(walked)
}

// A trial at a limit or the best limit, by what is asked, with the lists that are brought.
#[unsafe(no_mangle)]
pub extern "C" fn planner_ask(
    asked: u32,
    limit: u64,
    kind: u32,
    k: usize,
    graph: &[u8],
    brought: u32,
    classes: &[u8],
    vans: &[u8],
    values: &mut [u64; 3],
    buffer: &mut [u8],
) -> u32
    ensures { AskExported asked limit (asks_with (kind_of kind) k graph.now (lists_of brought)
        classes.now vans.now) values.old values.new buffer.old
        buffer.new result }
{
    let question = question_of(kind, k, graph, brought, classes, vans);
    let told = ask(asked_of(asked, limit), &question, buffer);
    let reply = told.reply;
    put_values(reply, values);
    number_of(reply)
}

// The best limit's question with a number of trials, with the lists that are brought: its reply as a number and values,
// six of a cover.
#[unsafe(no_mangle)]
pub extern "C" fn planner_within(
    trials: usize,
    kind: u32,
    k: usize,
    graph: &[u8],
    brought: u32,
    classes: &[u8],
    vans: &[u8],
    values: &mut [u64; 6],
    buffer: &mut [u8],
) -> u32
    ensures { WithinExported (asks_with (kind_of kind) k graph.now (lists_of brought)
        classes.now vans.now) trials values.old values.new
        buffer.old buffer.new result }
{
    let question = question_of(kind, k, graph, brought, classes, vans);
    let told = ask(Asked::Within(trials), &question, buffer);
    put_told(told, values);
    number_told(told)
}

// The check of a filed cover, with the lists that are brought.
#[unsafe(no_mangle)]
pub extern "C" fn planner_verify(
    kind: u32,
    k: usize,
    graph: &[u8],
    brought: u32,
    classes: &[u8],
    vans: &[u8],
    cover: &[u8],
    values: &mut [u64; 3],
) -> u32
    ensures { CheckExported (asks_with (kind_of kind) k graph.now (lists_of brought)
        classes.now vans.now) cover.now values.old values.new
        result }
{
    let question = question_of(kind, k, graph, brought, classes, vans);
    let verdict = check(&question, cover);
    put_heaviest(verdict, values);
    filed::check::number_of(verdict)
}

// The walk along a tree of a filed cover, with the lists that are brought.
#[unsafe(no_mangle)]
pub extern "C" fn planner_route(
    kind: u32,
    k: usize,
    graph: &[u8],
    brought: u32,
    classes: &[u8],
    vans: &[u8],
    cover: &[u8],
    tree: usize,
    values: &mut [u64; 2],
    buffer: &mut [u8],
) -> u32
    ensures { WalkExported (asks_with (kind_of kind) k graph.now (lists_of brought)
        classes.now vans.now) cover.now tree values.old
        values.new buffer.old buffer.new result }
{
    let question = question_of(kind, k, graph, brought, classes, vans);
    let walked = walk(&question, cover, tree, buffer);
    put_walk(walked, values);
    closed_walk::walk::number_of(walked)
}
