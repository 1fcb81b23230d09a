// The byte length of a filler element of each type of a loaded table, held at 60,001. The lengths are found in place, by
// rounds until one changes nothing; what stood there before does not matter. specs/Fill.antt says what the section holds.

#![tactic(auto)]

ghost use Rattle.std.specs.Prelude.{◌≡◌, ◌+◌, ◌<◌, get_or};
ghost use Rattle.loaded_table.specs.Loaded.{types_in, heights_of, fill_of, table_by, Bounded, fill_start, held_length};
ghost use Rattle.model.proofs.Theorems.Facts.{SoundTable};
ghost use Rattle.table_heights.specs.Sections.{members_at, Elsewhere};
ghost use Rattle.table_heights.specs.Heights.{HoldsHeights};
ghost use Rattle.table_fill.specs.Fill.{fill_sum, next_fill, HoldsFillRound, FillFound};
ghost use Rattle.model.specs.Definitions.TableChecks.{max_types};

use codes::{ELEMENT_BYTES, MAX_TYPES, OVER_BYTES};
use loaded_table::{CHOICE, SEQUENCE, TABLE, count, fill, kind, member, set_fill, types};
use table_heights::least_member;

// The bytes of an element that holds nothing.
const OWN_BYTES: u16 = ELEMENT_BYTES as u16;

// ---- one type

// The sum of two lengths, held at 60,001.
fn held_sum(a: u16, b: u16) -> u16
    ensures { result ≡ held_length (a + b) }
{
    let sum = usize::from(a) + usize::from(b);
    sum.min(OVER_BYTES) as u16
}

// The filler length kept for a type, 0 for a number beyond them.
fn fill_at(table: &[u16; TABLE], t: usize) -> u16
    ensures { result ≡ get_or (fill_of table.now) t 0 }
{
    if t < MAX_TYPES {
        fill(table, t) as u16
    } else {
        0
    }
}

// 3 more than the filler lengths of the members of type t, held at 60,001.
fn fill_sum(table: &[u16; TABLE], t: usize) -> u16
    requires { Bounded table.now × (t < types_in table.now) }
    ensures { result ≡ held_length (3 + fill_sum (fill_of table.now) (members_at table.now t)) }
{
    let mut total = OWN_BYTES;
    for i in 0..count(table, t) {
        total = held_sum(total, fill_at(table, member(table, t, i)));
    }
    total
}

// The filler length of type t from those of its members, held at 60,001.
pub fn fill_of(table: &[u16; TABLE], t: usize) -> u16
    requires { Bounded table.now × (t < types_in table.now) }
    ensures { result ≡ next_fill (table_by table.now) (heights_of table.now) (fill_of table.now) t }
{
    let code = kind(table, t);
    match code {
        SEQUENCE => fill_sum(table, t),
        CHOICE => held_sum(OWN_BYTES, fill_at(table, least_member(table, t))),
        _ => OWN_BYTES,
    }
}

// ---- all types

// A round of lengths in place, from the last type to the first, and whether it changed one. The loop has still to do the
// types below t.
fn fill_round(table: &mut [u16; TABLE]) -> bool
    requires { Bounded table.old × HoldsHeights (table_by table.old) (heights_of table.old) }
    ensures { Elsewhere fill_start max_types table.old table.new × (SoundTable (table_by table.old) → HoldsFillRound (table_by table.old) (fill_of table.old) (fill_of table.new) result) }
{
    let all = types(table);
    let mut changed = false;
    let mut t = all;
    while 0 < t {
        t -= 1;
        let length = fill_of(table, t);
        if fill_at(table, t) != length {
            set_fill(table, t, length);
            changed = true;
        }
    }
    changed
}

// Finds the filler lengths of a table whose heights are found. After n rounds those of the types of height at most n are
// right.
pub fn find_fill(table: &mut [u16; TABLE])
    requires { Bounded table.old × HoldsHeights (table_by table.old) (heights_of table.old) }
    ensures { FillFound table.old table.new }
{
    let all = types(table);
    let mut n = 0;
    while n < all {
        if fill_round(table) {
            n += 1;
        } else {
            n = all;
        }
    }
}
