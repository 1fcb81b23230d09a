// Carrying a source document by loaded tables and a loaded embedding: the templates of its types are prepared in arrays that are
// long enough, and the document is carried by them.

#![tactic(auto)]

ghost use Rattle.loaded_table.specs.Loaded.{table_by, types_in};
ghost use Rattle.loaded_setting.specs.Ready.{setting_in, Ready};
ghost use Rattle.loaded_setting.specs.Trees.{SoundTree};
ghost use Rattle.rows.specs.Rows.{HasRows};
ghost use Rattle.carrying.specs.Sizing.{Sizable, CarriesByRows};
ghost use Rattle.carry_prepared.specs.Carrying.{Carries};

use answers::{Refusal, Written};
use carry_prepared::carry_prepared;
use loaded_embedding::MAP;
use loaded_table::TABLE;
use pools::{PLACES, SMALL_PLACES};
use preparing::with_rows;
use row_sizes::size_rows;

// Carries the document `tr` by rows, whose sizes are found first and go to an array that is long enough.
fn carry_sized<'a>(
    source: &'a [u16; TABLE],
    target: &[u16; TABLE],
    map: &'a [u16; MAP],
    pool: &'a [u8],
    places: &'a [u32],
    sizes: &mut [u16],
    tr: &'a [u8],
    out: &mut [u8],
) -> Result<Written, Refusal>
    requires rows { Sizable source.now target.now map.now pool.now places.now tr.now }
    requires long { HasRows sizes.old (types_in source.now) }
    ensures { CarriesByRows source.now target.now map.now pool.now places.now tr.now out.old out.new result }
{
    size_rows(source, target, pool, places, sizes);
    carry_prepared(source, map, pool, places, &sizes[..], tr, out)
}

// Carries the document `tr` by rows. For few of them a short array of sizes does, and need not be cleared at length.
fn carry_by_rows<'a>(
    source: &'a [u16; TABLE],
    target: &[u16; TABLE],
    map: &'a [u16; MAP],
    pool: &'a [u8],
    places: &'a [u32],
    tr: &'a [u8],
    out: &mut [u8],
) -> Result<Written, Refusal>
    requires { Sizable source.now target.now map.now pool.now places.now tr.now }
    ensures { CarriesByRows source.now target.now map.now pool.now places.now tr.now out.old out.new result }
{
    if places.len() <= SMALL_PLACES {
        let mut sizes = [0u16; SMALL_PLACES];
        return carry_sized(source, target, map, pool, places, &mut sizes, tr, out);
    }
    let mut sizes = [0u16; PLACES];
    carry_sized(source, target, map, pool, places, &mut sizes, tr, out)
}

// Carries the document `tr`, which conforms to the source table.
pub fn carry<'a>(
    source: &'a [u16; TABLE],
    target: &[u16; TABLE],
    map: &'a [u16; MAP],
    em: &[u8],
    tr: &'a [u8],
    out: &mut [u8],
) -> Result<Written, Refusal>
    requires ready { Ready source.now target.now map.now em.now }
    requires tree { SoundTree (table_by source.now) tr.now }
    ensures { Carries (setting_in source.now target.now map.now em.now) tr.now out.old out.new result }
{
    with_rows(
        source,
        target,
        map,
        em,
        out,
        |pool: &[u8], places: &[u32], out: &mut [u8]|
            requires { Sizable source.now target.now map.now pool.now places.now tr.now }
            ensures { CarriesByRows source.entry.now target.entry.now map.entry.now pool.entry.now places.entry.now tr.entry.now out.entry.now out.exit.now result }
        { carry_by_rows(source, target, map, pool, places, tr, out) },
    )
}
