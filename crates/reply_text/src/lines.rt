// Words and decimal numbers, written one behind the other. Each function answers with the place behind what it wrote.
ghost use Rattle.std.specs.Prelude.{◌+◌, ◌≤◌, [], ◌∷◌, ◌++◌, length};
ghost use Rattle.lists.specs.Put.{PutTo};
ghost use Rattle.reply_text.specs.Lines.{digits, spaced, ended};

// The bytes of a word, from a place on.
pub fn put_word(word: &[u8], out: &mut [u8], at: usize) -> usize
    requires { at + length word.now ≤ length out.old }
    ensures { PutTo at word.now out.old out.new result }
{
    let end = at + word.len();
    out[at..end].copy_from_slice(word);
    end
}

// The decimal digits of a number, from a place on: those of its tenth, then the last. It calls itself once for each
// digit, 20 times at most.
pub(crate) fn put_number(x: u64, out: &mut [u8], at: usize) -> usize
    requires { at + length (digits x) ≤ length out.old }
    ensures { PutTo at (digits x) out.old out.new result }
{
    if x < 10 {
        out[at] = 48 + x as u8;
        return at + 1;
    }
    let next = put_number(x / 10, out, at);
    out[next] = 48 + (x % 10) as u8;
    next + 1
}

// A space and a number.
pub fn put_spaced(x: u64, out: &mut [u8], at: usize) -> usize
    requires { at + length (spaced x) ≤ length out.old }
    ensures { PutTo at (spaced x) out.old out.new result }
{
    let behind_space = put_word(b" ", out, at);
    put_number(x, out, behind_space)
}

// A space, a number and the end of the line.
pub fn put_last(x: u64, out: &mut [u8], at: usize) -> usize
    requires { at + length (ended (x ∷ [])) ≤ length out.old }
    ensures { PutTo at (ended (x ∷ [])) out.old out.new result }
{
    let behind_number = put_spaced(x, out, at);
    put_word(b"\n", out, behind_number)
}

// A line of a word and a number.
pub fn put_line(word: &[u8], x: u64, out: &mut [u8], at: usize) -> usize
    requires { at + length (word.now ++ ended (x ∷ [])) ≤ length out.old }
    ensures { PutTo at (word.now ++ ended (x ∷ [])) out.old out.new result }
{
    let behind_word = put_word(word, out, at);
    put_last(x, out, behind_word)
}
