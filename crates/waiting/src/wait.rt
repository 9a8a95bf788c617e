// Who waits: the vertices that are reached and not settled. A vertex that waits has a key, its distance and its number
// in one number, so that the least key is the nearest's. The keys stand in sixteen blocks of sixteen, and the least key
// of each block is kept beside them: whoever comes nearer or is settled changes one block, and the nearest is the least
// of sixteen.
ghost use Rattle.std.specs.Prelude.{◌≡◌, ◌+◌, ◌<◌, ◌≤◌, length};
ghost use Rattle.waiting.specs.Waiting.{key_of, vertex_of, nobody, LeastFrom, Blocks, KeyGiven, KeyPut};

// What stands for a vertex that does not wait. Every key is below it.
pub const NOBODY: u64 = 18446744073709551615;

// The key of vertex v at a distance.
pub fn key_of(distance: u32, v: usize) -> u64
    requires { v < 65536 }
    ensures { result ≡ key_of distance v }
{
    65536 * distance as u64 + v as u64
}

// The vertex that has the key.
pub fn vertex_of(key: u64) -> usize
    ensures { result ≡ vertex_of key }
{
    (key % 65536) as usize
}

// The least of sixteen keys from a place on. The two halves are looked through side by side, so that neither waits for
// the other.
pub fn least_from(keys: &[u64], from: usize) -> u64
    requires { from + 16 ≤ length keys.now }
    ensures { LeastFrom keys.now from 16 result }
{
    let half = from + 8;
    let mut one = keys[from];
    let mut other = keys[half];
    for i in 1..8 {
        one = one.min(keys[from + i]);
        other = other.min(keys[half + i]);
    }
    one.min(other)
}

// Vertex v waits with this key, no higher than what stood for it.
pub fn put_key(v: usize, key: u64, wait: &mut [u64], low: &mut [u64])
    requires { KeyGiven v key wait.old low.old }
    ensures { KeyPut v key wait.old wait.new low.old low.new }
{
    wait[v] = key;
    low[v / 16] = low[v / 16].min(key);
}

// Vertex v waits no longer.
pub fn take_key(v: usize, wait: &mut [u64], low: &mut [u64])
    requires { (v < 256) × Blocks wait.old low.old }
    ensures { KeyPut v nobody wait.old wait.new low.old low.new }
{
    wait[v] = NOBODY;
    low[v / 16] = least_from(wait, v / 16 * 16);
}
