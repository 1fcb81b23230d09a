// A step of a path in a loaded table.
ghost use Rattle.std.specs.Prelude.{◌≡◌, ◌<◌, ◌*◌, get_or, take, drop};
ghost use Rattle.loaded_table.specs.Loaded.{table_by, types_in, counts_of, members_in, Bounded};
ghost use Rattle.embedding_operands.specs.States.{stepped};
ghost use Rattle.model.specs.Definitions.Basics.{entry};
ghost use Rattle.model.specs.Definitions.Table.{kind_of, step_from};
ghost use Rattle.model.specs.Definitions.TableChecks.{max_members, max_types};

use loaded_table::{CHOICE, EMPTY, OPTIONAL, SEQUENCE, TABLE, TEXT};

// Member p of type t, counted from 1, if it has as many.
fn member_at(table: &[u16; TABLE], t: usize, p: usize) -> Option<usize>
    requires bounded { Bounded table.now }
    requires t_lt_max_types { t < max_types }
    ensures { stepped result ≡ entry p (take (get_or (counts_of table.now) t 0) (drop (t * max_members) (members_in table.now))) }
{
    if p == 0 {
        return None;
    }
    if p <= loaded_table::count(table, t) {
        return Some(loaded_table::member(table, t, p - 1));
    }
    None
}

// The type that step p goes to from type t, if there is such a step: to member p of a sequence or a choice, by 1 to the item type of a list.
pub fn step_from(table: &[u16; TABLE], t: usize, p: usize) -> Option<usize>
    requires bounded { Bounded table.now }
    requires t_bound { t < types_in table.now }
    ensures { stepped result ≡ step_from (kind_of (table_by table.now) t) p }
{
    let kind = loaded_table::kind(table, t);
    match kind {
        TEXT | EMPTY => None,
        SEQUENCE | CHOICE | OPTIONAL => member_at(table, t, p),
        _ => {
            if p == 1 {
                Some(loaded_table::member(table, t, 0))
            } else {
                None
            }
        }
    }
}
