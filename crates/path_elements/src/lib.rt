// The number of elements that paths build in the image of a source document, by prepared rows, in one pass over the source
// document: the elements of the image without its root and its filler. Nothing is built.

#![tactic(auto)]

ghost use Rattle.std.specs.Prelude.{◌≡◌, ◌+◌, ◌≤◌, ◌<◌, min, length};
ghost use Rattle.model.specs.Definitions.Table.{kind_of};
ghost use Rattle.model.specs.Definitions.Content.{bytes, content_of};
ghost use Rattle.model.specs.Definitions.Image.{image_by};
ghost use Rattle.model.specs.Definitions.Templates.{around};
ghost use Rattle.model.proofs.Theorems.WithoutFiller.{built_of};
ghost use Rattle.model.proofs.Theorems.BuiltElements.{row_built};
ghost use Rattle.loaded_table.specs.Loaded.{Bounded, table_by, types_in, held_length};
ghost use Rattle.loaded_setting.specs.Ready.{setting_in};
ghost use Rattle.rows.specs.Rows.{HasRow, row_in, row_at, to_of, item_row};
ghost use Rattle.path_elements.specs.PathElements.{Given, Built, Countable};

use codes::{CHARACTER, CLOSES, OVER_BYTES};
use loaded_table::{LIST, TABLE};
use measuring::type_ahead;
use rows::FILLER;

// How many symbols of the row from one place of the pool up to another open an element. A slice would ask that the first place is not
// behind the other.
fn openings(pool: &[u8], from: usize, to: usize) -> usize
    requires { to ≤ length pool.now }
    ensures { result ≡ row_built (row_in pool.now from to) }
{
    let mut n: usize = 0;
    for i in from..to {
        if pool[i] < FILLER {
            n += 1;
        }
    }
    n
}

// The same of row r, held at 60,001.
fn row_openings<'a>(pool: &'a [u8], places: &'a [u32], r: usize) -> usize
    requires { HasRow places.now r × (to_of places.now r ≤ length pool.now) }
    ensures { result ≡ held_length (row_built (row_at pool.now places.now r)) }
{
    let from = rows::from(places, r);
    let to = rows::to(places, r);
    openings(pool, from, to).min(OVER_BYTES)
}

// The same of the row of an item of source type s; 0 where s is no list.
fn item_openings<'a>(source: &'a [u16; TABLE], pool: &'a [u8], places: &'a [u32], s: usize) -> usize
    requires { (s < types_in source.now) × Bounded source.now × HasRow places.now (item_row s) × (to_of places.now (item_row s) ≤ length pool.now) }
    ensures { result ≡ around (kind_of (table_by source.now) s) (held_length (row_built (row_at pool.now places.now (item_row s)))) }
{
    if loaded_table::kind(source, s) < LIST {
        return 0;
    }
    row_openings(pool, places, rows::item_row(s))
}

// How many elements paths build in what the image of an element holds, and where the source element's content ends.
#[derive(Drop)]
struct Counted {
    count: usize,
    end: usize,
}

// The same for an element of type s whose content begins at `from`. The loop goes over the characters and children, which have
// different lengths; a character adds nothing.
fn element<'a>(
    source: &'a [u16; TABLE],
    pool: &'a [u8],
    places: &'a [u32],
    tr: &'a [u8],
    s: usize,
    from: usize,
) -> Counted
    requires { Given source.now pool.now places.now tr.now s from }
    ensures { (g : Given source.now pool.now places.now tr.now s from) → Built (setting_in source.now g.target g.map g.em) s g.held result.count × (result.end ≡ from + length (bytes g.held)) }
{
    let first = type_ahead(tr, from);
    let around = item_openings(source, pool, places, s);
    let mut count = row_openings(pool, places, rows::source_row(source, s, first));
    let mut o = from;
    while tr[o] != CLOSES {
        if tr[o] == CHARACTER {
            o += 2;
        } else {
            let t = usize::from(tr[o + 1]);
            let inner = element(source, pool, places, tr, t, o + 2);
            count = (count + around + inner.count).min(OVER_BYTES);
            o = inner.end + 1;
        }
    }
    Counted { count, end: o }
}

// The number of elements that paths build in the image of a conforming document, held at 60,001.
pub fn path_elements<'a>(
    source: &'a [u16; TABLE],
    pool: &'a [u8],
    places: &'a [u32],
    tr: &'a [u8],
) -> usize
    requires { Countable source.now pool.now places.now tr.now }
    ensures { (c : Countable source.now pool.now places.now tr.now) → result ≡ min 60001 (image_by built_of (setting_in source.now c.target c.map c.em) (content_of tr.now)) }
{
    let root = element(source, pool, places, tr, 0, 2);
    root.count
}
