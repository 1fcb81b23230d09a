// The edges of one type of a loaded table.
ghost use Rattle.std.specs.Prelude.{◌≡◌, ◌<◌, ◌≤◌};
ghost use Rattle.loaded_table.specs.Loaded.{table_by, types_in, Bounded};
ghost use Rattle.model.specs.Definitions.Table.{kind_of, edges_of};
ghost use Rattle.model.specs.Definitions.TableChecks.{max_members};

use loaded_table::{CHOICE, EMPTY, OPTIONAL, SEQUENCE, TABLE, TEXT};

// The number of edges of type t: one for text, none for an empty type, one a member for a sequence or a choice of
// either kind, one for a list.
pub fn edges_of(table: &[u16; TABLE], t: usize) -> usize
    requires bounded { Bounded table.now }
    requires t_bound { t < types_in table.now }
    ensures same { result ≡ edges_of (kind_of (table_by table.now) t) }
    ensures few { result ≤ max_members }
{
    let kind = loaded_table::kind(table, t);
    match kind {
        TEXT => 1,
        EMPTY => 0,
        SEQUENCE | CHOICE | OPTIONAL => loaded_table::count(table, t),
        _ => 1,
    }
}
