// The caller's bytes: which input is refused, and whether a root is allowed to a part.
ghost use Rattle.std.specs.Prelude.{◌≡◌, ◌+◌, ◌*◌, ◌<◌, length};
ghost use Rattle.matching.specs.Input.{allowed_at, refused_of};

// Root j is allowed to part i.
pub fn allows(y: usize, bytes: &[u8], i: usize, j: usize) -> bool
    requires { i * y + j < length bytes.now }
    ensures { result ≡ allowed_at bytes.now y i j }
{
    bytes[i * y + j] == 1
}

// The input is refused, with 24.
pub fn refused(p: usize, y: usize, bytes: &[u8], room: usize) -> bool
    ensures { result ≡ refused_of p y bytes.now room }
{
    if 255 < p {
        return true;
    }
    if y < 1 {
        return true;
    }
    if 32 < y {
        return true;
    }
    if bytes.len() != p * y {
        return true;
    }
    if bytes.iter().any(|b| 1 < *b) {
        return true;
    }
    room < p
}
