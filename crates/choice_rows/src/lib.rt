// The rows of a source choice: one for each member, and behind them that of an optional choice that holds nothing.

#![tactic(auto)]

ghost use Rattle.std.specs.Prelude.{◌≡◌, true, ◌+◌, get_or};
ghost use Rattle.loaded_table.specs.Kinds.{choice_code};
ghost use Rattle.loaded_table.specs.Loaded.{kinds_of, optional_kind};
ghost use Rattle.own_rows.specs.Progress.{Progress, NextToMake};
ghost use Rattle.choice_rows.specs.Choices.{MadeMembers, NothingToMake};

use codes::{MAX_MEMBERS, MAX_TYPES};
use loaded_embedding::MAP;
use loaded_table::{OPTIONAL, TABLE};
use own_rows::{edges, one_path, own_row};
use paths::choice_depth;
use rows::{CHARACTERS, CHILD, TYPE_ROWS};

// Makes the rows of the members of the source choice s. The loop makes one a turn.
fn member_rows(
    source: &[u16; TABLE],
    target: &[u16; TABLE],
    map: &[u16; MAP],
    em: &[u8],
    s: usize,
    pool: &mut [u8],
    places: &mut [u32],
    at: usize,
) -> usize
    requires next { NextToMake source.now target.now map.now em.now pool.old places.old s at }
    requires s_value { choice_code (get_or (kinds_of source.now) s 0) ≡ true }
    ensures { MadeMembers source.now target.now map.now em.now pool.old places.old s pool.new places.new result }
{
    let t = loaded_embedding::target(map, s);
    let count = loaded_table::count(source, s);
    let mut end = at;
    for j in 0..count {
        let e = edges(map, s * MAX_MEMBERS + j, CHILD, 1);
        end = own_row(
            target,
            em,
            e,
            t,
            pool,
            places,
            MAX_TYPES + (s * TYPE_ROWS + j),
            end,
        );
    }
    end
}

// Makes the row of the optional source choice s that holds nothing, behind those of its members: the steps that its paths share, to a
// hole of characters, of which there are none.
fn nothing_row(
    source: &[u16; TABLE],
    target: &[u16; TABLE],
    map: &[u16; MAP],
    em: &[u8],
    s: usize,
    pool: &mut [u8],
    places: &mut [u32],
    at: usize,
) -> usize
    requires next { NothingToMake source.now target.now map.now em.now pool.old places.old s at }
    requires optional { get_or (kinds_of source.now) s 0 ≡ optional_kind }
    ensures { Progress source.now target.now map.now em.now pool.old places.old (s + 1) pool.new places.new result }
{
    let start = loaded_embedding::start(map, s * MAX_MEMBERS);
    let steps = loaded_embedding::steps(map, s * MAX_MEMBERS);
    let t = loaded_embedding::target(map, s);
    let shared = choice_depth(target, em, start, steps, t);
    let path = one_path(start + 2, shared, CHARACTERS);
    let count = loaded_table::count(source, s);
    own_row(
        target,
        em,
        path,
        t,
        pool,
        places,
        MAX_TYPES + (s * TYPE_ROWS + count),
        at,
    )
}

// Makes the rows of the source choice s, and returns the place after them.
pub fn choice_rows(
    source: &[u16; TABLE],
    target: &[u16; TABLE],
    map: &[u16; MAP],
    em: &[u8],
    s: usize,
    pool: &mut [u8],
    places: &mut [u32],
    at: usize,
) -> usize
    requires next { NextToMake source.now target.now map.now em.now pool.old places.old s at }
    requires s_value { choice_code (get_or (kinds_of source.now) s 0) ≡ true }
    ensures { Progress source.now target.now map.now em.now pool.old places.old (s + 1) pool.new places.new result }
{
    let end = member_rows(source, target, map, em, s, pool, places, at);
    if loaded_table::kind(source, s) == OPTIONAL {
        return nothing_row(source, target, map, em, s, pool, places, end);
    }
    end
}
