// The loaded form of a table (a normalised DTD): one array of numbers, in sections. specs/Loaded.antt says which table of the
// model such an array stands for.

#![tactic(auto)]

ghost use Rattle.std.specs.Prelude.{◌≡◌, ◌<◌, ◌+◌, ◌*◌, get_or, set};
ghost use Rattle.loaded_table.specs.Kinds.{choice_code};
ghost use Rattle.loaded_table.specs.Loaded.{types_in, kinds_of, counts_of, heights_of, fill_of, members_in, counts_start, fill_start, heights_start, member_place, members_start, table_size, types_place};
ghost use Rattle.model.specs.Definitions.TableChecks.{max_members, max_types};

use codes::MAX_MEMBERS;

// How many numbers a loaded table has.
pub const TABLE: usize = 1281;

// Where the sections begin: for each type its kind, its number of members, its height, and the byte length of a filler element
// of it, held at 60,001; then 16 members a type, a list's one member being its item type; last the number of types.
pub const KINDS: usize = 0;

pub const COUNTS: usize = 64;

pub const HEIGHTS: usize = 128;

pub const FILL: usize = 192;

pub const MEMBERS: usize = 256;

pub const TYPES: usize = 1280;

// The kinds of content model. An optional choice is a choice that may hold nothing; what is above is read as a list.
pub const TEXT: usize = 0;

pub const EMPTY: usize = 1;

pub const SEQUENCE: usize = 2;

pub const CHOICE: usize = 3;

pub const OPTIONAL: usize = 4;

pub const LIST: usize = 5;

// Whether a kind is a choice, of either kind.
pub fn is_choice(kind: usize) -> bool
    ensures { result ≡ choice_code kind }
{
    match kind {
        CHOICE | OPTIONAL => true,
        _ => false,
    }
}

// A number of a table.
fn number(table: &[u16; TABLE], i: usize) -> usize
    requires { i < table_size }
    ensures { (result ≡ get_or table.now i 0) × (result < 65536) }
{
    usize::from(table[i])
}

// The number of types.
pub fn types(table: &[u16; TABLE]) -> usize
    ensures { (result ≡ types_in table.now) × (result < 65536) }
{
    number(table, TYPES)
}

// The kind of type t.
pub fn kind(table: &[u16; TABLE], t: usize) -> usize
    requires { t < max_types }
    ensures { (result ≡ get_or (kinds_of table.now) t 0) × (result < 65536) }
{
    number(table, KINDS + t)
}

// Its number of members.
pub fn count(table: &[u16; TABLE], t: usize) -> usize
    requires { t < max_types }
    ensures { (result ≡ get_or (counts_of table.now) t 0) × (result < 65536) }
{
    number(table, COUNTS + t)
}

// Its height.
pub fn height(table: &[u16; TABLE], t: usize) -> usize
    requires { t < max_types }
    ensures { (result ≡ get_or (heights_of table.now) t 0) × (result < 65536) }
{
    number(table, HEIGHTS + t)
}

// The byte length of a filler element of it, held at 60,001.
pub fn fill(table: &[u16; TABLE], t: usize) -> usize
    requires { t < max_types }
    ensures { (result ≡ get_or (fill_of table.now) t 0) × (result < 65536) }
{
    number(table, FILL + t)
}

// Its member i, counted from 0.
pub fn member(table: &[u16; TABLE], t: usize, i: usize) -> usize
    requires { (t < max_types) × (i < max_members) }
    ensures { (result ≡ get_or (members_in table.now) (member_place t i) 0) × (result < 65536) }
{
    number(table, MEMBERS + (t * MAX_MEMBERS + i))
}

// Stores the number of types.
pub fn set_types(table: &mut [u16; TABLE], types: u16)
    ensures { table.new ≡ set table.old types_place types }
{
    table[TYPES] = types;
}

// Stores a kind.
pub fn set_kind(table: &mut [u16; TABLE], t: usize, kind: u16)
    requires { t < max_types }
    ensures { table.new ≡ set table.old t kind }
{
    let i = KINDS + t;
    table[i] = kind;
}

// Stores a number of members.
pub fn set_count(table: &mut [u16; TABLE], t: usize, count: u16)
    requires { t < max_types }
    ensures { table.new ≡ set table.old (counts_start + t) count }
{
    let i = COUNTS + t;
    table[i] = count;
}

// Stores a height.
pub fn set_height(table: &mut [u16; TABLE], t: usize, height: u16)
    requires { t < max_types }
    ensures { table.new ≡ set table.old (heights_start + t) height }
{
    let i = HEIGHTS + t;
    table[i] = height;
}

// Stores a filler length.
pub fn set_fill(table: &mut [u16; TABLE], t: usize, fill: u16)
    requires { t < max_types }
    ensures { table.new ≡ set table.old (fill_start + t) fill }
{
    let i = FILL + t;
    table[i] = fill;
}

// Stores member i, counted from 0.
pub fn set_member(table: &mut [u16; TABLE], t: usize, i: usize, member: u16)
    requires { (t < max_types) × (i < max_members) }
    ensures { table.new ≡ set table.old (members_start + member_place t i) member }
{
    let place = MEMBERS + (t * MAX_MEMBERS + i);
    table[place] = member;
}
