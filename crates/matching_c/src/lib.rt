// The assignment as a library that a C or a Rust program links: `include/matching.h` declares it.
#![tactic(auto)]

ghost use Rattle.matching_c.specs.Promise.{Numbered};

use matching::Answer;

// `assign`, with its answer as a number: 0 assigned, 1 deficient, 24 refused.
#[unsafe(no_mangle)]
pub extern "C" fn matching_assign(p: usize, y: usize, allowed: &[u8], buffer: &mut [u8]) -> u32
    ensures { Numbered p y allowed.now buffer.old result buffer.new }
{
    let answer = matching::assign(p, y, allowed, buffer);
    match answer {
        Answer::Refused => 24,
        Answer::Assigned => 0,
        Answer::Deficient => 1,
    }
}
