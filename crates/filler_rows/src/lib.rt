// Rows of filler: what filler of each target type holds, and where it stands in the pool.

#![tactic(auto)]

ghost use Rattle.std.specs.Prelude.{ℕ, ◌+◌, ◌*◌, ◌≤◌, ◌<◌, length};
ghost use Rattle.model.specs.Definitions.Templates.{filler_row};
ghost use Rattle.loaded_table.specs.Loaded.{table_by, types_in};
ghost use Rattle.growing.specs.Growing.{Puts};
ghost use Rattle.rows.specs.Rows.{to_of, HasRow, HasRows, IsWord};
ghost use Rattle.filler_rows.specs.Storing.{Sound, PlacedRow, FillersStored};
ghost use Rattle.model.specs.Definitions.TableChecks.{max_members};

use growing::put;
use loaded_table::{CHOICE, SEQUENCE, TABLE};
use rows::FILLER;
use table_heights::least_member;

// Writes the row of what filler of type t holds: a filler element for each member of a sequence, one for the least of a choice.
fn hollow(target: &[u16; TABLE], t: usize, pool: &mut [u8], at: usize) -> usize
    requires sound { Sound target.now }
    requires t_bound { (t < types_in target.now) × (at + max_members ≤ length pool.old) }
    ensures { Puts pool.old pool.new at (filler_row (table_by target.now) t) result × (result ≤ at + max_members) }
{
    let kind = loaded_table::kind(target, t);
    if kind == CHOICE {
        let m = least_member(target, t);
        return put(pool, at, FILLER, m);
    }
    if kind != SEQUENCE {
        return at;
    }
    let count = loaded_table::count(target, t);
    let mut place = at;
    for i in 0..count {
        let m = loaded_table::member(target, t, i);
        place = put(pool, place, FILLER, m);
    }
    place
}

// Stores that row `row` stands from one place up to another, with `depth` elements open around it.
pub fn place(places: &mut [u32], row: usize, from: usize, to: usize, depth: usize)
    requires { HasRow places.old row × IsWord from × IsWord to × IsWord depth }
    ensures { PlacedRow places.old places.new row from to depth }
{
    rows::place_row(places, row, from as u32, to as u32, depth as u32);
}

// Writes and places the rows of filler of all types, from the pool's start, and returns the place after them.
pub fn filler_rows(target: &[u16; TABLE], pool: &mut [u8], places: &mut [u32]) -> usize
    requires sound { Sound target.now }
    requires room { (max_members * types_in target.now ≤ length pool.old) × IsWord (length pool.old) × HasRows places.old 0 }
    requires within { (row : ℕ) → to_of places.old row ≤ length pool.old }
    ensures { FillersStored target.now pool.old places.old (types_in target.now) pool.new places.new result }
{
    let types = loaded_table::types(target);
    let mut at = 0;
    for t in 0..types {
        let end = hollow(target, t, pool, at);
        place(places, t, at, end, 0);
        at = end;
    }
    at
}
