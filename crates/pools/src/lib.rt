// How long the arrays for prepared templates are. Clearing them is what a small document pays, so there are three sizes.

#![tactic(auto)]

ghost use Rattle.std.specs.Prelude.{◌≡◌, true, ◌*◌, ◌≤◌, ◌<◌, length};
ghost use Rattle.loaded_embedding.specs.Loaded.{edge_places};
ghost use Rattle.loaded_table.specs.Loaded.{types_in};
ghost use Rattle.model.specs.Definitions.TableChecks.{max_types};
ghost use Rattle.pools.specs.Room.{edge_room, nothing_of, nothing_room, room_of, most_of_edge};
ghost use Rattle.pools.specs.Pools.{largest_pool};

use codes::MAX_MEMBERS;
use loaded_embedding::MAP;
use loaded_table::{OPTIONAL, TABLE};

// The symbols that the rows of any setting have at most, and the numbers of their places.
pub const POOL: usize = 240384;

pub const PLACES: usize = 3456;

// Enough for most settings.
pub const MIDDLE_POOL: usize = 16384;

// Enough for small ones, with few source types.
pub const SMALL_POOL: usize = 2048;

pub const SMALL_TYPES: usize = 8;

pub const SMALL_PLACES: usize = 600;

// Places of the pool that a step of a path, and an edge itself, take at most.
pub const STEP_ROOM: usize = 18;

pub const EDGE_ROOM: usize = 4;

// How long a pool has to be for the rows of a setting: 16 places for each target type, the room of all edges, and that of the rows of
// optional choices that hold nothing.
pub fn room(source: &[u16; TABLE], target: &[u16; TABLE], map: &[u16; MAP]) -> usize
    requires { types_in source.now ≤ max_types }
    ensures { result ≡ room_of source.now target.now map.now }
{
    let types = loaded_table::types(source);
    let edges = edges_room(map, types * MAX_MEMBERS);
    let nothing = nothing_room(source, map, types);
    loaded_table::types(target) * MAX_MEMBERS + edges + nothing
}

// The room of the rows of the first `all` places of edges: for each 18 times its steps and 4. The loop adds one a turn.
fn edges_room(map: &[u16; MAP], all: usize) -> usize
    requires { all ≤ edge_places }
    ensures { (result ≡ edge_room map.now 0 all) × (result ≤ all * most_of_edge) }
{
    let mut total = 0;
    for i in 0..all {
        total += STEP_ROOM * loaded_embedding::steps(map, i) + EDGE_ROOM;
    }
    total
}

// The room of the row of source type s where it is an optional choice that holds nothing: that of its first edge.
fn nothing_of(source: &[u16; TABLE], map: &[u16; MAP], s: usize) -> usize
    requires { s < max_types }
    ensures { (result ≡ nothing_of source.now map.now s) × (result ≤ most_of_edge) }
{
    if loaded_table::kind(source, s) == OPTIONAL {
        return STEP_ROOM * loaded_embedding::steps(map, s * MAX_MEMBERS) + EDGE_ROOM;
    }
    0
}

// The room of these rows of the first `types` source types. The loop adds one a turn.
fn nothing_room(source: &[u16; TABLE], map: &[u16; MAP], types: usize) -> usize
    requires { types ≤ max_types }
    ensures { (result ≡ nothing_room source.now map.now 0 types) × (result ≤ types * most_of_edge) }
{
    let mut total = 0;
    for s in 0..types {
        total += nothing_of(source, map, s);
    }
    total
}

// Whether the smallest arrays do for so many source types whose rows have so many symbols.
pub fn is_small(types: usize, long: usize) -> bool
    ensures { result ≡ true → (types ≤ 8) × (long ≤ 2048) }
{
    if SMALL_TYPES < types {
        return false;
    }
    long <= SMALL_POOL
}

// The largest pool, cleared. Made here, its numbers are known to a caller by their count alone, and the caller's proof is quick.
pub fn largest_pool() -> [u8; POOL]
    ensures { length result ≡ largest_pool }
{
    [0u8; POOL]
}
