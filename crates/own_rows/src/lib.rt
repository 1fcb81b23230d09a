// Rows of source types: what all of them share, and the row of a type that is a text, empty or a sequence.

#![tactic(auto)]

ghost use Rattle.std.specs.Prelude.{◌≡◌, ℕ, ◌+◌, ◌≤◌, ◌<◌, length, get_or};
ghost use Rattle.model.specs.Definitions.Templates.{filler_row};
ghost use Rattle.loaded_table.specs.Loaded.{table_by, kinds_of, counts_of, choice_kind};
ghost use Rattle.loaded_embedding.specs.Loaded.{starts_of, lengths_of, edge_places};
ghost use Rattle.growing.specs.Growing.{push, Task, element_row, step_bound};
ghost use Rattle.filler_rows.specs.Storing.{Stored, RowMade};
ghost use Rattle.own_rows.specs.Making.{EdgeSmall, EdgesFrom, OwnEdges, held_row};
ghost use Rattle.own_rows.specs.OnePath.{one_path};
ghost use Rattle.own_rows.specs.Progress.{Progress, NextToMake};
ghost use Rattle.rows.specs.Rows.{HasRow, IsWord, child_symbol, closing_symbol};
ghost use Rattle.model.specs.Definitions.TableChecks.{max_members, max_types};

use codes::{MAX_MEMBERS, MAX_STEPS, MAX_TYPES};
use filler_rows::place;
use growing::{Edges, element, no_edges, pushed};
use loaded_embedding::MAP;
use loaded_table::{EMPTY, TABLE, TEXT};
use rows::{CHARACTERS, CHILD, TYPE_ROWS};

// One path more: that of the edge at a place of the embedding, to a hole.
fn with_edge(map: &[u16; MAP], e: Edges, edge: usize, hole: u8) -> Edges
    requires { (e.count < max_members) × (edge < edge_places) × EdgeSmall map.now edge }
    ensures { result ≡ push e (get_or (starts_of map.now) edge 0 + 2) (get_or (lengths_of map.now) edge 0) hole }
{
    let start = loaded_embedding::start(map, edge);
    let steps = loaded_embedding::steps(map, edge);
    pushed(e, (start + 2) as u16, steps as u8, hole)
}

// The paths of `count` edges from a place on, to the holes from a number on.
pub fn edges(map: &[u16; MAP], first: usize, hole: u8, count: usize) -> Edges
    requires count_le_max_members { (count ≤ max_members) × (first + count ≤ edge_places) × (hole + count ≤ closing_symbol) × (child_symbol ≤ hole) }
    requires small { (i : ℕ) → EdgeSmall map.now i }
    ensures { EdgesFrom map.now first hole count result }
{
    let mut e = no_edges();
    for i in 0..count {
        e = with_edge(map, e, first + i, hole + (i as u8));
    }
    e
}

// The one path of some steps from an offset on, to a hole.
pub fn one_path(next: usize, steps: usize, hole: u8) -> Edges
    requires { (next < 65536) × (steps < 256) }
    ensures { result ≡ one_path next steps hole }
{
    let none = no_edges();
    pushed(none, next as u16, steps as u8, hole)
}

// Writes and places the row of what an element of type t holds, given the paths below it; where there is none, the row of its
// filler is placed again.
pub fn own_row(
    target: &[u16; TABLE],
    em: &[u8],
    e: Edges,
    t: usize,
    pool: &mut [u8],
    places: &mut [u32],
    row: usize,
    at: usize,
) -> usize
    requires task { Task target.now em.now e step_bound t }
    requires stored { Stored pool.old places.old at t (filler_row (table_by target.now) t) 0 }
    requires room { (at + length (element_row target.now em.now e step_bound t) ≤ length pool.old) × IsWord (length pool.old) × HasRow places.old row × HasRow places.old t }
    ensures { RowMade pool.old places.old at row (held_row target.now em.now e t) 0 pool.new places.new result × (result ≤ at + length (element_row target.now em.now e step_bound t)) }
{
    let count = e.count;
    if count == 0 {
        let from = rows::from(places, t);
        let to = rows::to(places, t);
        place(places, row, from, to, 0);
        return at;
    }
    let end = element(target, em, e, MAX_STEPS + 1, t, pool, at);
    place(places, row, at + 1, end - 1, 0);
    end
}

// The paths of the edges of a source type that is a text, empty or a sequence.
fn own_edges(source: &[u16; TABLE], map: &[u16; MAP], s: usize) -> Edges
    requires s_lt_max_types { (s < max_types) × (get_or (counts_of source.now) s 0 ≤ max_members) }
    requires small { (i : ℕ) → EdgeSmall map.now i }
    ensures { OwnEdges source.now map.now s result }
{
    let first = s * MAX_MEMBERS;
    let kind = loaded_table::kind(source, s);
    if kind == TEXT {
        return edges(map, first, CHARACTERS, 1);
    }
    if kind == EMPTY {
        return edges(map, first, CHILD, 0);
    }
    let count = loaded_table::count(source, s);
    edges(map, first, CHILD, count)
}

// Makes the row of a source type that is a text, empty or a sequence.
pub fn one_row(
    source: &[u16; TABLE],
    target: &[u16; TABLE],
    map: &[u16; MAP],
    em: &[u8],
    s: usize,
    pool: &mut [u8],
    places: &mut [u32],
    at: usize,
) -> usize
    requires next { NextToMake source.now target.now map.now em.now pool.old places.old s at }
    requires s_bound { get_or (kinds_of source.now) s 0 < choice_kind }
    ensures { Progress source.now target.now map.now em.now pool.old places.old (s + 1) pool.new places.new result }
{
    let e = own_edges(source, map, s);
    let t = loaded_embedding::target(map, s);
    own_row(
        target,
        em,
        e,
        t,
        pool,
        places,
        MAX_TYPES + s * TYPE_ROWS,
        at,
    )
}
