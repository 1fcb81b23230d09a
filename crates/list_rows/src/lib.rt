// The rows of a source list: its own, up to the first list on its path, and that of an item.

#![tactic(auto)]

ghost use Rattle.std.specs.Prelude.{◌≡◌, ◌+◌, ◌-◌, ◌*◌, ◌≤◌, ◌<◌, length, get_or};
ghost use Rattle.std.proofs.Math.Option.{none};
ghost use Rattle.model.specs.Definitions.Templates.{template, item_template, divided_of};
ghost use Rattle.loaded_table.specs.Loaded.{types_in, kinds_of, list_kind};
ghost use Rattle.loaded_embedding.specs.Loaded.{starts_of, lengths_of};
ghost use Rattle.loaded_setting.specs.Ready.{setting_in, Ready};
ghost use Rattle.filler_rows.specs.Storing.{RowMade};
ghost use Rattle.own_rows.specs.Progress.{Progress, Makeable, NextToMake};
ghost use Rattle.list_rows.specs.Lists.{before_path, rest_path, CutAt, before_room, rest_room};
ghost use Rattle.rows.specs.Rows.{type_row, rows_before};
ghost use Rattle.model.specs.Definitions.TableChecks.{max_members, max_types};

use codes::{MAX_MEMBERS, MAX_STEPS, MAX_TYPES};
use filler_rows::place;
use growing::{Edges, element};
use loaded_embedding::MAP;
use loaded_table::TABLE;
use own_rows::{one_path, own_row};
use paths::{Cut, list_depth};
use rows::{CHILD, ITEMS, TYPE_ROWS};

// Where the path of the source list s is divided.
fn list_cut(
    source: &[u16; TABLE],
    target: &[u16; TABLE],
    map: &[u16; MAP],
    em: &[u8],
    s: usize,
) -> Cut
    requires ready { Ready source.now target.now map.now em.now }
    requires list { (s < types_in source.now) × (list_kind ≤ get_or (kinds_of source.now) s 0) }
    ensures { CutAt target.now map.now em.now s result }
{
    let start = loaded_embedding::start(map, s * MAX_MEMBERS);
    let steps = loaded_embedding::steps(map, s * MAX_MEMBERS);
    let t = loaded_embedding::target(map, s);
    list_depth(target, em, start, steps, t)
}

// The path of the source list s up to the first list on it, to the hole of the items.
fn before_path(map: &[u16; MAP], s: usize, cut: Cut) -> Edges
    requires { (s < max_types) × (cut.depth < 256) × (get_or (starts_of map.now) (s * max_members) 0 + 2 < 65536) }
    ensures { result ≡ before_path map.now s cut }
{
    let start = loaded_embedding::start(map, s * MAX_MEMBERS);
    let depth = cut.depth;
    one_path(start + 2, depth, ITEMS)
}

// The path from an item on, to the hole of its child.
fn rest_path(map: &[u16; MAP], s: usize, cut: Cut) -> Edges
    requires s_lt_max_types { (s < max_types) × (cut.depth < get_or (lengths_of map.now) (s * max_members) 0) × (get_or (lengths_of map.now) (s * max_members) 0 < 256) }
    requires small { get_or (starts_of map.now) (s * max_members) 0 + 2 * get_or (lengths_of map.now) (s * max_members) 0 + 2 < 65536 }
    ensures { result ≡ rest_path map.now s cut }
{
    let start = loaded_embedding::start(map, s * MAX_MEMBERS);
    let steps = loaded_embedding::steps(map, s * MAX_MEMBERS);
    let taken = cut.depth + 1;
    one_path(start + 2 * taken + 2, steps - taken, CHILD)
}

// Writes and places the own row of the source list s.
fn before_row(
    source: &[u16; TABLE],
    target: &[u16; TABLE],
    map: &[u16; MAP],
    em: &[u8],
    s: usize,
    pool: &mut [u8],
    places: &mut [u32],
    at: usize,
) -> usize
    requires next { NextToMake source.now target.now map.now em.now pool.old places.old s at }
    requires list { list_kind ≤ get_or (kinds_of source.now) s 0 }
    ensures made { RowMade pool.old places.old at (rows_before s) (template (setting_in source.now target.now map.now em.now) s none) 0 pool.new places.new result }
    ensures short { result ≤ at + before_room (setting_in source.now target.now map.now em.now) s }
{
    let cut = list_cut(source, target, map, em, s);
    let path = before_path(map, s, cut);
    let t = loaded_embedding::target(map, s);
    own_row(
        target,
        em,
        path,
        t,
        pool,
        places,
        MAX_TYPES + s * TYPE_ROWS,
        at,
    )
}

// Writes and places the row of an item of the source list s.
fn rest_row(
    source: &[u16; TABLE],
    target: &[u16; TABLE],
    map: &[u16; MAP],
    em: &[u8],
    s: usize,
    pool: &mut [u8],
    places: &mut [u32],
    at: usize,
) -> usize
    requires makeable { Makeable source.now target.now map.now em.now pool.old places.old s }
    requires list { list_kind ≤ get_or (kinds_of source.now) s 0 }
    requires room { at + rest_room map.now (setting_in source.now target.now map.now em.now) s ≤ length pool.old }
    ensures made { RowMade pool.old places.old at (type_row s max_members) (item_template (setting_in source.now target.now map.now em.now) s) (length (divided_of (setting_in source.now target.now map.now em.now) s).before) pool.new places.new result }
    ensures short { result ≤ at + rest_room map.now (setting_in source.now target.now map.now em.now) s }
{
    let cut = list_cut(source, target, map, em, s);
    let path = rest_path(map, s, cut);
    let depth = cut.depth;
    let item = cut.item;
    let end = element(target, em, path, MAX_STEPS + 1, item, pool, at);
    place(
        places,
        MAX_TYPES + (s * TYPE_ROWS + MAX_MEMBERS),
        at,
        end,
        depth,
    );
    end
}

// Writes and places both rows of the source list s, and returns the place after them.
pub fn list_rows(
    source: &[u16; TABLE],
    target: &[u16; TABLE],
    map: &[u16; MAP],
    em: &[u8],
    s: usize,
    pool: &mut [u8],
    places: &mut [u32],
    at: usize,
) -> usize
    requires next { NextToMake source.now target.now map.now em.now pool.old places.old s at }
    requires list { list_kind ≤ get_or (kinds_of source.now) s 0 }
    ensures { Progress source.now target.now map.now em.now pool.old places.old (s + 1) pool.new places.new result }
{
    let end = before_row(source, target, map, em, s, pool, places, at);
    rest_row(source, target, map, em, s, pool, places, end)
}
