// Writers into a lent output: each writes bytes at a position and returns the position after them.

#![tactic(auto)]

ghost use Rattle.std.specs.Prelude.{[], ◌∷◌, ◌+◌, ◌-◌, ◌≤◌, length, take, drop};
ghost use Rattle.writing.specs.Writing.{Writes};

use codes::{CLOSES, OPENS, TREE_END};

// Writes 30 t, which opens an element of type t.
pub fn put_open(out: &mut [u8], at: usize, t: u8) -> usize
    requires { at + 2 ≤ length out.old }
    ensures { Writes out.old out.new at (0x30 ∷ t ∷ []) result }
{
    out[at] = OPENS;
    let second = at + 1;
    out[second] = t;
    at + 2
}

// Writes 32, which closes the innermost open element.
pub fn put_close(out: &mut [u8], at: usize) -> usize
    requires { at + 1 ≤ length out.old }
    ensures { Writes out.old out.new at (0x32 ∷ []) result }
{
    out[at] = CLOSES;
    at + 1
}

// Writes 3F, which ends a document.
pub fn put_end(out: &mut [u8], at: usize) -> usize
    requires { at + 1 ≤ length out.old }
    ensures { Writes out.old out.new at (0x3F ∷ []) result }
{
    out[at] = TREE_END;
    at + 1
}

// Writes the bytes of `from` at a, a + 1, .., e - 1. What the loop has yet to write gives the whole.
// It stays a loop by hand: `copy_from_slice` calls memmove, and README says that the archive needs memcpy and memset alone.
pub fn copy(from: &[u8], a: usize, e: usize, out: &mut [u8], at: usize) -> usize
    requires { (a ≤ e) × (e ≤ length from.now) × (at + (e - a) ≤ length out.old) }
    ensures { Writes out.old out.new at (take (e - a) (drop a from.now)) result }
{
    let mut i = a;
    let mut to = at;
    while i < e {
        out[to] = from[i];
        to += 1;
        i += 1;
    }
    to
}
