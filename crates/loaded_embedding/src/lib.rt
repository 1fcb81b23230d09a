// The loaded form of an embedding: one array of numbers, in sections: the map of types, and where in the document each edge's
// path stands. Steps are read from the document itself, so nothing is copied. specs/Loaded.antt says which embedding of the
// model this is.

#![tactic(auto)]

ghost use Rattle.std.specs.Prelude.{◌≡◌, ◌<◌, ◌+◌, get_or, set};
ghost use Rattle.loaded_embedding.specs.Loaded.{targets_of, starts_of, lengths_of, edge_places, lengths_start, map_size, starts_start};
ghost use Rattle.model.specs.Definitions.TableChecks.{max_types};

// How many numbers a loaded embedding has.
pub const MAP: usize = 2112;

// Where the sections begin: the target type of each source type; for each edge the offset of its path's 21; its number of
// steps. Edge i of source type s has place s * 16 + i.
pub const TARGETS: usize = 0;

pub const STARTS: usize = 64;

pub const LENGTHS: usize = 1088;

// A number of an embedding.
fn number(map: &[u16; MAP], i: usize) -> usize
    requires { i < map_size }
    ensures { (result ≡ get_or map.now i 0) × (result < 65536) }
{
    usize::from(map[i])
}

// The type that source type s is mapped to.
pub fn target(map: &[u16; MAP], s: usize) -> usize
    requires { s < max_types }
    ensures { (result ≡ get_or (targets_of map.now) s 0) × (result < 65536) }
{
    number(map, TARGETS + s)
}

// The offset of the 21 of an edge's path, by the edge's place.
pub fn start(map: &[u16; MAP], edge: usize) -> usize
    requires { edge < edge_places }
    ensures { (result ≡ get_or (starts_of map.now) edge 0) × (result < 65536) }
{
    number(map, STARTS + edge)
}

// The number of steps of an edge's path.
pub fn steps(map: &[u16; MAP], edge: usize) -> usize
    requires { edge < edge_places }
    ensures { (result ≡ get_or (lengths_of map.now) edge 0) × (result < 65536) }
{
    number(map, LENGTHS + edge)
}

// Stores the target of a source type.
pub fn set_target(map: &mut [u16; MAP], s: usize, target: u16)
    requires { s < max_types }
    ensures { map.new ≡ set map.old s target }
{
    let i = TARGETS + s;
    map[i] = target;
}

// Stores where an edge's path stands.
pub fn set_start(map: &mut [u16; MAP], edge: usize, start: u16)
    requires { edge < edge_places }
    ensures { map.new ≡ set map.old (starts_start + edge) start }
{
    let i = STARTS + edge;
    map[i] = start;
}

// Stores the number of steps of an edge's path.
pub fn set_steps(map: &mut [u16; MAP], edge: usize, steps: u16)
    requires { edge < edge_places }
    ensures { map.new ≡ set map.old (lengths_start + edge) steps }
{
    let i = LENGTHS + edge;
    map[i] = steps;
}
