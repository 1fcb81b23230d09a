// Loading a table document into one array, one command at a time. specs/Loading.antt says what a command does to the array,
// and proves that what is loaded, continued by what the rest of the document says, is the document's table.

#![tactic(auto)]

ghost use Rattle.std.specs.Prelude.{◌≡◌, ◌+◌, ◌≤◌, ◌<◌, length, get_or, set};
ghost use Rattle.loaded_table.specs.Loaded.{list_kind, counts_of, counts_start, member_place, members_start, table_size};
ghost use Rattle.model.specs.Definitions.Basics.{passes};
ghost use Rattle.model.specs.Definitions.TableChecks.{table_form, table_limits, max_members, max_types};
ghost use Rattle.table_form.specs.Read.{command};
ghost use Rattle.table_load.specs.Loading.{loaded_in, CountsCleared, TableRoom, TablePut, TableLoaded};

use codes::MAX_TYPES;
use loaded_table::{
    CHOICE, EMPTY, LIST, OPTIONAL, SEQUENCE, TABLE, TEXT, count, set_count, set_kind, set_member,
    set_types,
};
use table_form::command::{TableCommand, command_at};

// Stores that no type has members.
fn clear_counts(table: &mut [u16; TABLE])
    requires { length table.old ≡ table_size }
    ensures { CountsCleared max_types table.new }
{
    for t in 0..MAX_TYPES {
        set_count(table, t, 0);
    }
}

// One type more, of a kind, behind so many: how many types there are then.
fn begin(table: &mut [u16; TABLE], types: usize, kind: usize) -> usize
    requires { (types < max_types) × (kind ≤ list_kind) }
    ensures { (result ≡ types + 1) × (table.new ≡ set table.old types kind) }
{
    set_kind(table, types, kind as u16);
    types + 1
}

// One member more of type t.
pub fn join(table: &mut [u16; TABLE], t: usize, member: u8)
    requires { (t < max_types) × (get_or (counts_of table.old) t 0 < max_members) }
    ensures { table.new ≡ set (set table.old (members_start + member_place t (get_or (counts_of table.old) t 0)) member) (counts_start + t) (get_or (counts_of table.old) t 0 + 1) }
{
    let i = count(table, t);
    set_member(table, t, i, member as u16);
    set_count(table, t, i as u16 + 1);
}

// What a command does to the array with so many types: how many there are then.
fn put(table: &mut [u16; TABLE], types: usize, c: TableCommand) -> usize
    requires { TableRoom (loaded_in types table.old) (command c) }
    ensures { TablePut types table.old (command c) result table.new }
{
    match c {
        TableCommand::Text => begin(table, types, TEXT),
        TableCommand::Empty => begin(table, types, EMPTY),
        TableCommand::Sequence => begin(table, types, SEQUENCE),
        TableCommand::Choice => begin(table, types, CHOICE),
        TableCommand::Optional => begin(table, types, OPTIONAL),
        TableCommand::List(m) => {
            let more = begin(table, types, LIST);
            join(table, types, m);
            more
        }
        TableCommand::Member(m) => {
            join(table, types - 1, m);
            types
        }
        TableCommand::End => types,
    }
}

// Loads the table that a document of the right form and within the limits writes. Each turn of the loop puts one command:
// what is loaded, continued by what the commands from `at` on say, stays the document's table.
pub fn load(t: &[u8], table: &mut [u16; TABLE])
    requires table_len { length table.old ≡ table_size }
    requires t_value { table_form t.now ≡ passes }
    requires t_value_2 { table_limits t.now ≡ passes }
    ensures { TableLoaded t.now table.new }
{
    clear_counts(table);
    let mut types = 0;
    let mut at = 0;
    while at < t.len() {
        // Check 2 has read each command.
        let Some(c) = command_at(t, at) else { break };
        types = put(table, types, c);
        at += c.width();
    }
    set_types(table, types as u16);
}
