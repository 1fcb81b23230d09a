// What is kept with each type of a loaded table: its height, and whether it has a finite instance. The heights are found in
// place, by rounds until one changes nothing. specs/Heights.antt says what the section holds.

#![tactic(auto)]

ghost use Rattle.std.specs.Prelude.{◌≡◌, ℕ, ◌+◌, ◌≤◌, ◌<◌, min, length, take, get_or};
ghost use Rattle.answers.specs.Answers.{verdict};
ghost use Rattle.loaded_table.specs.Loaded.{types_in, heights_of, table_by, Bounded, heights_start};
ghost use Rattle.model.specs.Definitions.Table.{kind_of};
ghost use Rattle.model.specs.Definitions.Heights as model;
ghost use Rattle.table_heights.specs.Sections.{members_at, Elsewhere};
ghost use Rattle.table_heights.specs.Heights.{HoldsHeights, HoldsRound, HeightsFound, NowhereBelow, first_height, next_height, word, finite_bits};
ghost use Rattle.model.specs.Definitions.TableChecks.{max_types};

use codes::MAX_TYPES;
use loaded_table::{CHOICE, SEQUENCE, TABLE, count, height, kind, member, set_height, types};

// ---- one type

// The height kept for a type, 0 for a number beyond them.
fn height_at(table: &[u16; TABLE], t: usize) -> usize
    ensures { (result ≡ model.height_in (heights_of table.now) t) × (result < 65536) }
{
    if t < MAX_TYPES { height(table, t) } else { 0 }
}

// The highest height of the members of type t.
fn highest(table: &[u16; TABLE], t: usize) -> usize
    requires { Bounded table.now × (t < types_in table.now) }
    ensures { (result ≡ model.highest (heights_of table.now) (members_at table.now t)) × (result < 65536) }
{
    let mut best = 0;
    for i in 0..count(table, t) {
        best = height_at(table, member(table, t, i)).max(best);
    }
    best
}

// The member of least height of type t, the earliest of equals, 0 where there are none.
pub fn least_member(table: &[u16; TABLE], t: usize) -> usize
    requires { Bounded table.now × (t < types_in table.now) }
    ensures { result ≡ model.least_member (heights_of table.now) (members_at table.now t) }
{
    let many = count(table, t);
    if many == 0 {
        return 0;
    }
    let mut best = member(table, t, 0);
    for i in 1..many {
        let m = member(table, t, i);
        if height_at(table, m) < height_at(table, best) {
            best = m;
        }
    }
    best
}

// The lowest height of the members of type t: that of the least member, 0 where there are none.
fn lowest(table: &[u16; TABLE], t: usize) -> usize
    requires { Bounded table.now × (t < types_in table.now) }
    ensures { (result ≡ model.lowest (heights_of table.now) (members_at table.now t)) × (result < 65536) }
{
    if count(table, t) == 0 {
        return 0;
    }
    height_at(table, least_member(table, t))
}

// The height of type t from the heights of its members.
fn height_of(table: &[u16; TABLE], t: usize) -> usize
    requires { Bounded table.now × (t < types_in table.now) }
    ensures { result ≡ model.height_of_kind (heights_of table.now) (kind_of (table_by table.now) t) }
{
    let code = kind(table, t);
    match code {
        SEQUENCE => highest(table, t) + 1,
        CHOICE => lowest(table, t) + 1,
        _ => 1,
    }
}

// ---- all types

// A height, held at one more than the number of types.
fn held_height(all: usize, h: usize) -> usize
    requires { all ≤ max_types }
    ensures { result ≡ min (all + 1) h }
{
    h.min(all + 1)
}

// The number with which rounds begin for type t of so many.
fn first_height(all: usize, t: usize) -> u16
    requires { all ≤ max_types }
    ensures { result ≡ first_height all t }
{
    if all <= t { 0 } else { all as u16 + 1 }
}

// The next height of type t by the heights kept, held at one more than the number of types.
pub fn next_height(table: &[u16; TABLE], t: usize) -> usize
    requires { Bounded table.now × (t < types_in table.now) }
    ensures { result ≡ next_height (table_by table.now) (heights_of table.now) t }
{
    held_height(types(table), height_of(table, t))
}

// Where rounds begin: for each type one more than the number of types, behind them 0.
fn begin_heights(table: &mut [u16; TABLE])
    requires { Bounded table.old }
    ensures { Elsewhere heights_start max_types table.old table.new × ((t : ℕ) → t < max_types → get_or (heights_of table.new) t 0 ≡ first_height (types_in table.old) t) }
{
    let all = types(table);
    for t in 0..MAX_TYPES {
        set_height(table, t, first_height(all, t));
    }
}

// A round of heights in place, from the last type to the first, and whether it changed one. Most types come before their
// members, and then one round finds all heights. The loop has still to do the types below t.
fn height_round(table: &mut [u16; TABLE]) -> bool
    requires { Bounded table.old }
    ensures { Elsewhere heights_start max_types table.old table.new × HoldsRound (table_by table.old) (heights_of table.old) (heights_of table.new) result }
{
    let all = types(table);
    let mut changed = false;
    let mut t = all;
    while 0 < t {
        t -= 1;
        let h = next_height(table, t);
        if height(table, t) != h {
            set_height(table, t, h as u16);
            changed = true;
        }
    }
    changed
}

// The heights of all types, from numbers that are nowhere below them, by rounds until one changes nothing. After n rounds
// those of height at most n are right.
pub fn settle_heights(table: &mut [u16; TABLE])
    requires { Bounded table.old × NowhereBelow (table_by table.old) (heights_of table.old) }
    ensures { HeightsFound table.old table.new }
{
    let all = types(table);
    let mut n = 0;
    while n < all {
        if height_round(table) {
            n += 1;
        } else {
            n = all;
        }
    }
}

// The heights of all types of a table.
pub fn find_heights(table: &mut [u16; TABLE])
    requires { Bounded table.old }
    ensures { HeightsFound table.old table.new }
{
    begin_heights(table);
    settle_heights(table);
}

// ---- types without a finite instance

// The types with a finite instance as bits: those whose height is at most the number of types.
fn finite_bits(table: &[u16; TABLE], all: usize) -> u64
    requires { (all ≤ max_types) × (length (heights_of table.now) ≡ max_types) }
    ensures { result ≡ word (finite_bits all (take all (heights_of table.now))) }
{
    let mut bits = 0u64;
    for t in 0..all {
        let h = height(table, t);
        if h <= all {
            bits |= 1u64 << t;
        }
    }
    bits
}

// The lowest type without a finite instance of a table whose heights are found: the lowest bit that is not set, if that is
// a type's.
pub fn first_endless(table: &[u16; TABLE]) -> Result<(), usize>
    requires { Bounded table.now × HoldsHeights (table_by table.now) (heights_of table.now) }
    ensures { verdict result ≡ model.endless_type (table_by table.now) }
{
    let all = types(table);
    let bits = finite_bits(table, all);
    let t = u64::trailing_zeros(!bits) as usize;
    if t < all { Err(t) } else { Ok(()) }
}
