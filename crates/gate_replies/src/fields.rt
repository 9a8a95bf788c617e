// Fields of several bytes, lowest byte first, written one behind the other. Each function answers with the place behind
// what it wrote.
ghost use Rattle.std.specs.Prelude.{◌+◌, ◌*◌, ◌≤◌, length};
ghost use Rattle.lists.specs.Put.{PutTo};
ghost use Rattle.gate_replies.specs.Fields.{field, fields};

// A number in so many bytes, from a place on.
pub(crate) fn put_field(width: usize, x: u64, out: &mut [u8], at: usize) -> usize
    requires { at + width ≤ length out.old }
    ensures { PutTo at (field width x) out.old out.new result }
{
    let end = at + width;
    let mut rest = x;
    for byte in out[at..end].iter_mut() {
        *byte = (rest % 256) as u8;
        rest /= 256;
    }
    end
}

// Numbers in eight bytes each, from a place on.
pub(crate) fn put_values(values: &[u64], out: &mut [u8], at: usize) -> usize
    requires { at + 8 * length values.now ≤ length out.old }
    ensures { PutTo at (fields 8 values.now) out.old out.new result }
{
    let mut next = at;
    for value in values {
        next = put_field(8, *value, out, next);
    }
    next
}
