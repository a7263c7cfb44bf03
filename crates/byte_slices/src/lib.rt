// Bytes of one slice into another, and the place of a byte in a slice.
#![tactic(auto)]

ghost use Rattle.std.specs.Prelude.{◌≡◌, ℕ, ◌<◌, ◌≤◌, ◌≢◌, ◌++◌, length, drop, slice_index};

// Copies all bytes of a slice to the start of another, and answers how many there are.
pub fn copy(from: &[u8], to: &mut [u8]) -> usize
    requires { length from.now ≤ length to.old }
    ensures count { result ≡ length from.now }
    ensures bytes { to.new ≡ from.now ++ drop (length from.now) to.old }
{
    let n = from.len();
    to[..n].copy_from_slice(from);
    n
}

// The first place of a byte from `from` on and before `to`, or `to`.
pub fn find(s: &[u8], from: usize, to: usize, b: u8) -> usize
    requires order { from ≤ to }
    requires inside { to ≤ length s.now }
    ensures low { from ≤ result }
    ensures high { result ≤ to }
    ensures before { (k : ℕ) → from ≤ k → k < result → slice_index s.now k ≢ b }
    ensures found { result < to → slice_index s.now result ≡ b }
{
    match s[from..to].iter().position(|x| *x == b) {
        Some(n) => from + n,
        None => to,
    }
}
