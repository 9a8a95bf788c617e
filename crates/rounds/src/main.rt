// The program `rounds` (document 01, "The program `rounds`"): a question on standard input, its answer as text on
// standard output.
#![tactic(auto)]

use question::question::answer;
use reading::read_full;
use std::io::{Eprint, Print};

// Reads to the input's end, or one byte past the longest question; answers; writes. A read that fails ends the input
// there. There is no exit status to say that the output is closed or full, so that standard error says it.
fn main(rt: HostRuntime) {
    let mut input = [0u8; 16397];
    let (n, _) = read_full(&mut rt.stdin(), &mut input);
    let mut out = [0u8; 65536];
    let end = answer(&input[..n], &mut out);
    if rt.write_all(&out[..end]).is_err() {
        let _ = rt.eprintln("rounds: the reply could not be written");
    }
}
