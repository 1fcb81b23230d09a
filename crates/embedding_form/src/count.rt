// The number of edges of a loaded table.
ghost use Rattle.std.specs.Prelude.{◌≡◌};
ghost use Rattle.loaded_table.specs.Loaded.{table_by, Bounded};
ghost use Rattle.model.specs.Definitions.Entries.{edge_count};

use super::edges::edges_of;
use loaded_table::TABLE;

// The number of edges of all types together. The loop adds up the types in order: the sum so far, and the edges of the
// types to come, make the whole.
pub fn edge_count(source: &[u16; TABLE]) -> usize
    requires { Bounded source.now }
    ensures { result ≡ edge_count (table_by source.now) }
{
    let types = loaded_table::types(source);
    let mut sum: usize = 0;
    for t in 0..types {
        sum += edges_of(source, t);
    }
    sum
}
