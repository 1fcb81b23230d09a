// Prepared templates: a pool of symbols, the places of rows in it, and the sizes of rows. specs/Rows.antt says which templates
// of the model they hold.

#![tactic(auto)]

ghost use Rattle.std.specs.Prelude.{◌≡◌, ◌+◌, ◌*◌, ◌≤◌, ◌<◌, take, drop};
ghost use Rattle.loaded_table.specs.Loaded.{Bounded, table_by, types_in, members_in};
ghost use Rattle.rows.specs.Rows.{from_of, to_of, depth_in, levels_in, bytes_in, filler_in, index_in, member_index, first_from, source_row, item_row, HasRow, set_row};
ghost use Rattle.model.specs.Definitions.TableChecks.{max_members, max_types};

use codes::{MAX_MEMBERS, MAX_TYPES};
use loaded_table::TABLE;

// The symbols of a row as numbers: with the type's number added, an element that opens and a filler element; with a child's
// number added, that child's image; the characters of a text; the items of a list; the end of an element.
pub const OPENING: u8 = 0;

pub const FILLER: u8 = 64;

pub const CHILD: u8 = 128;

pub const CHARACTERS: u8 = 144;

pub const ITEMS: u8 = 145;

pub const CLOSING: u8 = 146;

// Numbers of a row among places and among sizes.
pub const NUMBERS: usize = 3;

// Rows of a source type: one, or one for each member of a choice, and behind them that of an optional choice that holds nothing; the
// last is that of an item of a list.
pub const TYPE_ROWS: usize = 17;

// Where row r begins in the pool.
pub fn from(places: &[u32], r: usize) -> usize
    requires { HasRow places.now r }
    ensures { result ≡ from_of places.now r }
{
    places[NUMBERS * r] as usize
}

// Where it ends.
pub fn to(places: &[u32], r: usize) -> usize
    requires { HasRow places.now r }
    ensures { result ≡ to_of places.now r }
{
    places[NUMBERS * r + 1] as usize
}

// How many elements are open around it.
pub fn depth(places: &[u32], r: usize) -> usize
    requires { HasRow places.now r }
    ensures { result ≡ depth_in places.now r }
{
    places[NUMBERS * r + 2] as usize
}

// The place of t among the first `count` members of type s; where it is not there the place behind them, `count`, as `index_in` says.
fn index_of(source: &[u16; TABLE], s: usize, count: usize, t: usize) -> usize
    requires s_lt_max_types { (s < max_types) × (count ≤ max_members) }
    requires bounded { Bounded source.now }
    ensures { (result ≡ index_in t (take count (drop (s * max_members) (members_in source.now)))) × (result ≤ max_members) }
{
    for i in 0..count {
        if loaded_table::member(source, s, i) == t {
            return i;
        }
    }
    count
}

// Which of the rows of the choice s with `count` members is that of a member of type t; without a type the one behind them.
fn choice_index(source: &[u16; TABLE], s: usize, count: usize, t: Option<usize>) -> usize
    requires s_lt_max_types { (s < max_types) × (count ≤ max_members) }
    requires bounded { Bounded source.now }
    ensures { (result ≡ member_index (first_from t) (take count (drop (s * max_members) (members_in source.now)))) × (result ≤ max_members) }
{
    match t {
        Some(t) => index_of(source, s, count, t),
        None => count,
    }
}

// The row of an element of source type s whose first child, if it has one, has type t.
pub fn source_row(source: &[u16; TABLE], s: usize, t: Option<usize>) -> usize
    requires bounded { Bounded source.now }
    requires s_bound { s < types_in source.now }
    ensures { (result ≡ source_row (table_by source.now) s (first_from t)) × (result ≤ item_row s) }
{
    let base = MAX_TYPES + s * TYPE_ROWS;
    if loaded_table::is_choice(loaded_table::kind(source, s)) {
        let count = loaded_table::count(source, s);
        return base + choice_index(source, s, count, t);
    }
    base
}

// The row of an item of source list s.
pub fn item_row(s: usize) -> usize
    requires { s < max_types }
    ensures { result ≡ item_row s }
{
    MAX_TYPES + (s * TYPE_ROWS + MAX_MEMBERS)
}

// Stores where row r begins and ends, and how many elements are open around it.
pub fn place_row(places: &mut [u32], r: usize, from: u32, to: u32, depth: u32)
    requires { HasRow places.old r }
    ensures { places.new ≡ set_row places.old r from to depth }
{
    let i = NUMBERS * r;
    places[i] = from;
    places[i + 1] = to;
    places[i + 2] = depth;
}

// A size of a row: levels, bytes and bytes of filler.
#[derive(Clone, Copy)]
pub struct Size {
    pub levels: usize,
    pub bytes: usize,
    pub filler: usize,
}

// The size of row r.
pub fn size_of(sizes: &[u16], r: usize) -> Size
    requires { HasRow sizes.now r }
    ensures { (result.levels ≡ levels_in sizes.now r) × (result.bytes ≡ bytes_in sizes.now r) × (result.filler ≡ filler_in sizes.now r) }
{
    let i = NUMBERS * r;
    Size {
        levels: usize::from(sizes[i]),
        bytes: usize::from(sizes[i + 1]),
        filler: usize::from(sizes[i + 2]),
    }
}

// Stores the size of row r.
pub fn store_size(sizes: &mut [u16], r: usize, levels: u16, bytes: u16, filler: u16)
    requires { HasRow sizes.old r }
    ensures { sizes.new ≡ set_row sizes.old r levels bytes filler }
{
    let i = NUMBERS * r;
    sizes[i] = levels;
    sizes[i + 1] = bytes;
    sizes[i + 2] = filler;
}
