// Prepares the templates of a setting: for each target type the row of its filler, for each source type the rows of its image.

#![tactic(auto)]

ghost use Rattle.std.specs.Prelude.{◌+◌};
ghost use Rattle.preparing.specs.Using.{TakesRows, ReturnsByRows};
ghost use Rattle.loaded_setting.specs.Ready.{setting_in, Ready};
ghost use Rattle.rows.specs.Rows.{Rows};
ghost use Rattle.pools.specs.Pools.{Arrays, HasRoom, IsSmall};
ghost use Rattle.own_rows.specs.Progress.{Progress, NextToMake};

use choice_rows::choice_rows;
use filler_rows::filler_rows;
use list_rows::list_rows;
use loaded_embedding::MAP;
use loaded_table::{CHOICE, LIST, TABLE};
use own_rows::one_row;
use pools::{MIDDLE_POOL, PLACES, SMALL_PLACES, SMALL_POOL, is_small, largest_pool, room};

// Makes the rows of a source type.
fn type_rows(
    source: &[u16; TABLE],
    target: &[u16; TABLE],
    map: &[u16; MAP],
    em: &[u8],
    s: usize,
    pool: &mut [u8],
    places: &mut [u32],
    at: usize,
) -> usize
    requires next { NextToMake source.now target.now map.now em.now pool.old places.old s at }
    ensures { Progress source.now target.now map.now em.now pool.old places.old (s + 1) pool.new places.new result }
{
    let kind = loaded_table::kind(source, s);
    if kind < CHOICE {
        return one_row(source, target, map, em, s, pool, places, at);
    }
    if kind < LIST {
        return choice_rows(source, target, map, em, s, pool, places, at);
    }
    list_rows(source, target, map, em, s, pool, places, at)
}

// Makes the rows of a setting: those of filler of all target types, then those of all source types.
pub fn prepare(
    source: &[u16; TABLE],
    target: &[u16; TABLE],
    map: &[u16; MAP],
    em: &[u8],
    pool: &mut [u8],
    places: &mut [u32],
)
    requires ready { Ready source.now target.now map.now em.now }
    requires arrays { Arrays source.now target.now map.now pool.old places.old }
    ensures { Rows (setting_in source.now target.now map.now em.now) pool.new places.new }
{
    let types = loaded_table::types(source);
    let mut at = filler_rows(target, pool, places);
    for s in 0..types {
        at = type_rows(source, target, map, em, s, pool, places, at);
    }
}

// What `then` gives for the rows of a setting, which are made in these arrays.
fn with_arrays<R, F: FnOnce(&[u8], &[u32], &mut [u8]) -> R>(
    source: &[u16; TABLE],
    target: &[u16; TABLE],
    map: &[u16; MAP],
    em: &[u8],
    pool: &mut [u8],
    places: &mut [u32],
    out: &mut [u8],
    then: F,
) -> R
    requires ready { Ready source.now target.now map.now em.now }
    requires arrays { Arrays source.now target.now map.now pool.old places.old }
    requires takes { TakesRows F.FnOnce then (setting_in source.now target.now map.now em.now) out.old }
    ensures { ReturnsByRows F.FnOnce then (setting_in source.now target.now map.now em.now) out.old out.new result }
{
    prepare(source, target, map, em, pool, places);
    then(pool, places, out)
}

// What `then` gives for the rows of a setting. Clearing the arrays that hold them is what a small document pays, so there are three sizes.
pub fn with_rows<R, F: FnOnce(&[u8], &[u32], &mut [u8]) -> R>(
    source: &[u16; TABLE],
    target: &[u16; TABLE],
    map: &[u16; MAP],
    em: &[u8],
    out: &mut [u8],
    then: F,
) -> R
    requires ready { Ready source.now target.now map.now em.now }
    requires takes { TakesRows F.FnOnce then (setting_in source.now target.now map.now em.now) out.old }
    ensures { ReturnsByRows F.FnOnce then (setting_in source.now target.now map.now em.now) out.old out.new result }
{
    let long = room(source, target, map);
    if is_small(loaded_table::types(source), long) {
        let mut pool = [0u8; SMALL_POOL];
        let mut places = [0u32; SMALL_PLACES];
        return with_arrays(source, target, map, em, &mut pool, &mut places, out, then);
    }
    let mut places = [0u32; PLACES];
    if long <= MIDDLE_POOL {
        let mut pool = [0u8; MIDDLE_POOL];
        return with_arrays(source, target, map, em, &mut pool, &mut places, out, then);
    }
    let mut pool = largest_pool();
    with_arrays(source, target, map, em, &mut pool, &mut places, out, then)
}
