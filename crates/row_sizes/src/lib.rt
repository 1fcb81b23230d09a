// The sizes of prepared rows: levels, bytes and bytes of filler, each held at 60,001, found by one loop along each row.

#![tactic(auto)]

ghost use Rattle.std.specs.Prelude.{◌≡◌, List, ℕ, ◌+◌, ◌*◌, ◌≤◌, ◌<◌, length};
ghost use Rattle.std.proofs.Math.Option.{Option};
ghost use Rattle.model.specs.Definitions.Table.{kind_of};
ghost use Rattle.loaded_table.specs.Loaded.{Bounded, types_in, table_by};
ghost use Rattle.loaded_setting.specs.Ready.{setting_in, Ready};
ghost use Rattle.rows.specs.Rows.{type_rows, to_of, row_in, row_index, FirstChild, Rows, Sizes, HasRow, HasRows, IsWord};
ghost use Rattle.row_sizes.specs.Sizing.{Small, AddsSymbol, Measures, Sized, Keeps, TypeSized};

use codes::{ELEMENT_BYTES, MAX_TYPES, OVER_BYTES};
use loaded_table::{CHOICE, OPTIONAL, TABLE};
use rows::{CHILD, FILLER, ITEMS, Size, TYPE_ROWS, item_row};

// What a part of a row comes to, and how many elements are open behind it.
#[derive(Drop)]
pub struct Sums {
    pub depth: usize,
    pub levels: usize,
    pub bytes: usize,
    pub filler: usize,
}

// One symbol more.
fn with_symbol(target: &[u16; TABLE], s: Sums, x: u8) -> Sums
    requires { Small s }
    ensures { AddsSymbol target.now x s result }
{
    let depth = s.depth;
    let levels = s.levels;
    if x < FILLER {
        return Sums {
            depth: depth + 1,
            levels: levels.max(depth + 1).min(OVER_BYTES),
            bytes: (s.bytes + ELEMENT_BYTES).min(OVER_BYTES),
            filler: s.filler,
        };
    }
    if x < CHILD {
        let t = usize::from(x - FILLER);
        let height = loaded_table::height(target, t);
        let fill = loaded_table::fill(target, t);
        return Sums {
            depth,
            levels: levels.max(depth + height).min(OVER_BYTES),
            bytes: (s.bytes + fill).min(OVER_BYTES),
            filler: (s.filler + fill).min(OVER_BYTES),
        };
    }
    if x <= ITEMS {
        return s;
    }
    Sums {
        depth: depth.saturating_sub(1),
        ..s
    }
}

// The size of the row that stands in the pool from one place up to another, `depth` elements being open around it. A slice would ask
// that the first place is not behind the other.
fn row_size(target: &[u16; TABLE], pool: &[u8], from: usize, to: usize, depth: usize) -> Size
    requires { (to ≤ length pool.now) × IsWord depth }
    ensures { Measures target.now (row_in pool.now from to) depth result }
{
    let mut sums = Sums {
        depth,
        levels: 0,
        bytes: 0,
        filler: 0,
    };
    for i in from..to {
        sums = with_symbol(target, sums, pool[i]);
    }
    Size {
        levels: sums.levels,
        bytes: sums.bytes,
        filler: sums.filler,
    }
}

// Finds and stores the sizes of the rows that source types use.
pub fn size_rows(
    source: &[u16; TABLE],
    target: &[u16; TABLE],
    pool: &[u8],
    places: &[u32],
    sizes: &mut [u16],
)
    requires bounded { Bounded source.now }
    requires long { HasRows places.now (types_in source.now) × HasRows sizes.old (types_in source.now) }
    requires within { (row : ℕ) → to_of places.now row ≤ length pool.now }
    ensures { (map em : List ℕ) → Ready source.now target.now map em → Rows (setting_in source.now target.now map em) pool.now places.now → Sizes (setting_in source.now target.now map em) sizes.new }
{
    let types = loaded_table::types(source);
    for s in 0..types {
        size_type(source, target, pool, places, sizes, s);
    }
}

// Finds and stores the sizes of the rows of a source type.
fn size_type(
    source: &[u16; TABLE],
    target: &[u16; TABLE],
    pool: &[u8],
    places: &[u32],
    sizes: &mut [u16],
    s: usize,
)
    requires s_bound { s < types_in source.now }
    requires bounded { Bounded source.now }
    requires long { HasRows places.now (types_in source.now) × HasRows sizes.old (types_in source.now) }
    requires within { (row : ℕ) → to_of places.now row ≤ length pool.now }
    ensures { Keeps target.now pool.now places.now sizes.old sizes.new × TypeSized source.now target.now pool.now places.now sizes.new s }
{
    let rows = rows_of(source, s);
    for j in 0..rows {
        size_row(target, pool, places, sizes, MAX_TYPES + (s * TYPE_ROWS + j));
    }
    size_row(target, pool, places, sizes, item_row(s));
}

// How many rows type s has, besides that of an item: a choice has one for each member, an optional choice also that of nothing.
fn rows_of(source: &[u16; TABLE], s: usize) -> usize
    requires s_bound { s < types_in source.now }
    requires bounded { Bounded source.now }
    ensures { (result ≤ type_rows) × ((t : Option ℕ) → FirstChild t (kind_of (table_by source.now) s) → row_index (kind_of (table_by source.now) s) t < result) }
{
    let kind = loaded_table::kind(source, s);
    match kind {
        CHOICE => loaded_table::count(source, s),
        OPTIONAL => loaded_table::count(source, s) + 1,
        _ => 1,
    }
}

// Finds and stores the size of a row.
fn size_row(target: &[u16; TABLE], pool: &[u8], places: &[u32], sizes: &mut [u16], row: usize)
    requires { HasRow places.now row × HasRow sizes.old row × (to_of places.now row ≤ length pool.now) }
    ensures { Keeps target.now pool.now places.now sizes.old sizes.new × Sized target.now pool.now places.now sizes.new row }
{
    let from = rows::from(places, row);
    let to = rows::to(places, row);
    let depth = rows::depth(places, row);
    let size = row_size(target, pool, from, to, depth);
    let levels = size.levels;
    let bytes = size.bytes;
    let filler = size.filler;
    rows::store_size(sizes, row, levels as u16, bytes as u16, filler as u16);
}
