// The set of the parts reached, written as marks.
ghost use Rattle.matching.specs.Marks.{Markable, Marks};

// Writes 1 for each of the first t of `parts`, and 0 for the others of p.
pub fn mark(p: usize, parts: &[usize; 33], t: usize, out: &mut [u8])
    requires { Markable p t parts.now out.old }
    ensures { Marks p t parts.now out.old out.new }
{
    out[..p].fill(0);
    for part in &parts[..t] {
        out[*part] = 1;
    }
}
