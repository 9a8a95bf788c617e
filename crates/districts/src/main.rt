// Puts document 01's small districts and made graphs to the planner and to the check, and prints what the rules fix of
// the answers. Standard input holds records, one behind the other: the question (2 bytes: 1 rooted trial, 2 unrooted
// trial, 3 rooted best, 4 unrooted best, 5 rooted check, 6 unrooted check, 7 rooted and 8 unrooted best with a number of
// trials), k (2), the limit or the number of trials (4), how long the lent buffer is (2), whether the reply is printed
// whole (2: 1 if it is), the length of the graph's bytes (2) and of the filed cover's (2), which lists are brought (2, a
// bit for each: 1 the class bytes, 2 the vans), the length of the class list (2), of the list of vans (2) and of a list
// to come (2, zeros), all lowest byte first, then these bytes: the graph's, the cover's, the class list, the list of
// vans.
// What it must print was printed by an unrelated implementation. The replies in full go to standard error, as bytes,
// for a judge that knows which choices are free.
#![tactic(auto)]

mod text;

ghost use Rattle.std.specs.Prelude.{◌^◌, ◌≤◌, ◌<◌, length};
ghost use Rattle.rules.specs.Questions.{graph_in};
ghost use Rattle.reply_text.specs.Replies.{TextAsked};

use admit::crews::Kind;
use admit::question::Question;
use admit::refusal::MOST_TRIALS;
use asking::ask::Asked;
use gate_replies::full::{filled, room, write_full};
use reading::read_full;
use replies::{Known, Reply, Told};
use std::io::Print;
use text::{write_known, write_text, write_verdict};

// Prints a reply: all of it, or what the rules fix.
fn print_reply(rt: &HostRuntime, whole: bool, question: &Question, reply: Reply, buf: &[u8])
    requires { TextAsked (graph_in question.now) reply buf.now 65536 }
{
    let mut out = room();
    let end = write_text(whole, question, reply, buf, &mut out);
    let _ = rt.stdout().write_all(&out[..end]);
}

// Writes a reply in full to standard error, for a judge, so that standard output is what the gate compares.
fn file_reply(rt: &HostRuntime, reply: Reply, buf: &[u8])
    requires { length buf.now ≤ 65536 }
{
    let mut out = room();
    let end = write_full(reply, buf, &mut out);
    let _ = rt.stderr().write_all(&out[..end]);
}

// Prints what is known besides a reply.
fn print_known(rt: &HostRuntime, known: Known) {
    let mut out = room();
    let end = write_known(known.trials as u64, known.floor, known.spent, &mut out);
    let _ = rt.stdout().write_all(&out[..end]);
}

// What the planner tells of a trial, or of the search for the best limit. Its reply can be printed.
fn told_to(asked: Asked, question: &Question, buf: &mut [u8]) -> Told
    ensures { TextAsked (graph_in question.now) result.reply buf.new 65536 }
{
    planner::question::ask(asked, question, buf)
}

// Asks the planner, and prints and files the reply; prints what is known besides, where that is asked for.
fn answer(
    rt: &HostRuntime,
    asked: Asked,
    besides: bool,
    whole: bool,
    question: &Question,
    buf: &mut [u8],
)
    requires { length buf.old ≤ 65536 }
{
    let told = told_to(asked, question, buf);
    let reply = told.reply;
    print_reply(rt, whole, question, reply, buf);
    file_reply(rt, reply, buf);
    if besides {
        let known = told.known;
        print_known(rt, known);
    }
}

// Has the planner asked with a filled buffer of the length that the record names.
fn ask(rt: &HostRuntime, asked: Asked, besides: bool, whole: bool, lent: usize, question: &Question)
    requires { lent < 2 ^ 16 }
{
    let mut buf = filled();
    answer(rt, asked, besides, whole, question, &mut buf[..lent]);
}

// Asks the check, and prints its answer.
fn check(rt: &HostRuntime, question: &Question, filed: &[u8]) {
    let mut out = room();
    let verdict = filed::check::check(question, filed);
    let end = write_verdict(verdict, &mut out);
    let _ = rt.stdout().write_all(&out[..end]);
}

// Answers a record by what it asks.
fn answer_record(
    rt: &HostRuntime,
    asked: usize,
    limit: u64,
    lent: usize,
    whole: bool,
    question: &Question,
    filed: &[u8],
)
    requires { (lent < 2 ^ 16) × (asked < 2 ^ 16) }
{
    let at = Asked::At(limit);
    let best = Asked::Within(MOST_TRIALS);
    let within = Asked::Within(limit as usize);
    match (asked + 1) / 2 {
        1 => ask(rt, at, false, whole, lent, question),
        2 => ask(rt, best, false, whole, lent, question),
        3 => check(rt, question, filed),
        _ => ask(rt, within, true, whole, lent, question),
    }
}

// The kind of a question by its number: odd ones are rooted.
fn kind_of(asked: usize) -> Kind {
    match asked % 2 {
        1 => Kind::Rooted,
        _ => Kind::Unrooted,
    }
}

// Reads the bytes behind a record's head.
fn read_bytes(
    rt: &HostRuntime,
    sheet: &mut [u8],
    filed: &mut [u8],
    classes: &mut [u8],
    vans: &mut [u8],
) {
    let mut stdin = rt.stdin();
    let _ = read_full(&mut stdin, sheet);
    let _ = read_full(&mut stdin, filed);
    let _ = read_full(&mut stdin, classes);
    let _ = read_full(&mut stdin, vans);
}

// The question of a record, of which the head names the lists that are brought.
fn question_of<'a>(
    head: &[u8],
    sheet: &'a [u8],
    classes: &'a [u8],
    vans: &'a [u8],
) -> Question<'a> {
    let kind = kind_of(graph::u16_at(head, 0));
    let brought = graph::u16_at(head, 16);
    let plain = Question::new(kind, graph::u16_at(head, 2), sheet);
    let surfaces = (brought % 2 == 1).then_some(classes);
    let starts = (brought / 2 % 2 == 1).then_some(vans);
    plain.with_lists(surfaces, starts)
}

// Reads the rest of a record, of which the head was read, and answers it.
fn read_rest(
    rt: &HostRuntime,
    head: &[u8],
    sheet: &mut [u8],
    filed: &mut [u8],
    classes: &mut [u8],
    vans: &mut [u8],
) {
    read_bytes(rt, sheet, filed, classes, vans);
    let question = question_of(head, sheet, classes, vans);
    answer_record(
        rt,
        graph::u16_at(head, 0),
        graph::u32_at(head, 4),
        graph::u16_at(head, 8),
        graph::u16_at(head, 10) == 1,
        &question,
        filed,
    );
}

// Reads what stands behind a record's head, and answers the record. The arrays stand first, so that each is set to zero
// once.
fn answer_behind(rt: &HostRuntime, head: &[u8]) {
    let mut sheet = [0u8; 65536];
    let mut filed = [0u8; 65536];
    let mut classes = [0u8; 65536];
    let mut vans = [0u8; 65536];
    let sheet_length = graph::u16_at(head, 12);
    let cover_length = graph::u16_at(head, 14);
    let class_length = graph::u16_at(head, 18);
    let van_length = graph::u16_at(head, 20);
    read_rest(
        rt,
        head,
        &mut sheet[..sheet_length],
        &mut filed[..cover_length],
        &mut classes[..class_length],
        &mut vans[..van_length],
    );
}

// Reads one record and answers it; says whether there was one.
fn answer_one(rt: &HostRuntime) -> bool {
    let mut head = [0u8; 24];
    let (read, _) = read_full(&mut rt.stdin(), &mut head);
    if read < 24 {
        return false;
    }
    answer_behind(rt, &head);
    true
}

// Answers records until there is none left. Nothing says that the input ends, so the turns are counted, up to a number
// that no input uses up.
fn main(rt: HostRuntime) {
    for _ in 0..u64::MAX {
        if !answer_one(&rt) {
            break;
        }
    }
}
