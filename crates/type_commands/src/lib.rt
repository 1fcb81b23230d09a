// One type's own commands (paper 02, N8): whether bytes are exactly that, and how the type that they write is stored.
// specs/Types.antt says what an array then holds.

#![tactic(auto)]

ghost use Rattle.std.specs.Prelude.{◌≡◌, true, ◌≤◌, ◌<◌, ◌/◌, length, drop};
ghost use Rattle.loaded_table.specs.Loaded.{table_size};
ghost use Rattle.model.specs.Definitions.Basics.{is_there};
ghost use Rattle.model.specs.Definitions.Operations.{members_written};
ghost use Rattle.model.specs.Definitions.Table.{members_of};
ghost use Rattle.model.specs.Definitions.TableChecks.{max_members, max_types};
ghost use Rattle.type_commands.specs.Types.{is_one_type, type_written, MembersThere, code_begun, first_operand, OperandsPut, TypePut};

use codes::{CHOICE_TYPE, EMPTY_TYPE, LIST_TYPE, MEMBER, OPTIONAL_TYPE, SEQUENCE_TYPE, TEXT_TYPE};
use loaded_table::{
    CHOICE, EMPTY, LIST, OPTIONAL, SEQUENCE, TABLE, TEXT, set_count, set_kind, set_member,
};

// ---- exactly one type

// Whether the bytes from offset 1 on are commands 15 t. The loop asks two bytes a turn.
fn members_only(cs: &[u8]) -> bool
    ensures { result ≡ is_there (members_written (drop 1 cs.now)) }
{
    let mut at = 1;
    while at < cs.len() {
        if cs[at] != MEMBER {
            return false;
        }
        at += 2;
        if cs.len() < at {
            return false;
        }
    }
    true
}

// Whether the bytes from offset 1 on are so many commands 15 t, or more.
fn members_at_least(cs: &[u8], least: usize) -> bool
    ensures { MembersThere least cs.now result }
{
    if cs.len() / 2 < least {
        return false;
    }
    members_only(cs)
}

// Whether bytes are exactly one type's own commands.
pub fn one_type(cs: &[u8]) -> bool
    ensures { result ≡ is_one_type cs.now }
{
    if cs.len() == 0 {
        return false;
    }
    let b = cs[0];
    match b {
        TEXT_TYPE | EMPTY_TYPE => cs.len() == 1,
        LIST_TYPE => cs.len() == 2,
        SEQUENCE_TYPE | OPTIONAL_TYPE => members_at_least(cs, 1),
        CHOICE_TYPE => members_at_least(cs, 2),
        _ => false,
    }
}

// ---- the type stored

// The kind that a type's first byte begins.
fn kind_begun(b: u8) -> u16
    ensures { result ≡ code_begun b }
{
    match b {
        TEXT_TYPE => TEXT as u16,
        EMPTY_TYPE => EMPTY as u16,
        SEQUENCE_TYPE => SEQUENCE as u16,
        CHOICE_TYPE => CHOICE as u16,
        OPTIONAL_TYPE => OPTIONAL as u16,
        _ => LIST as u16,
    }
}

// The offset of a type's first operand: behind 14, or behind the first 15.
fn first_operand(b: u8) -> usize
    ensures { result ≡ first_operand b }
{
    if b == LIST_TYPE { 1 } else { 2 }
}

// A byte at the width of a table's numbers.
fn wide(b: u8) -> u16
    ensures { result ≡ b }
{
    b as u16
}

// Stores the operands of a type as the members of type t. The loop has stored the first i.
fn put_operands(table: &mut [u16; TABLE], t: usize, cs: &[u8])
    requires { (length table.old ≡ table_size) × (t < max_types) × (is_one_type cs.now ≡ true) × (length cs.now / 2 ≤ max_members) }
    ensures { OperandsPut t (members_of (type_written cs.now)) table.old table.new }
{
    let many = cs.len() / 2;
    let first = first_operand(cs[0]);
    let mut i = 0;
    while i < many {
        set_member(table, t, i, wide(cs[first + 2 * i]));
        i += 1;
    }
    set_count(table, t, many as u16);
}

// Stores the type that its own commands write as type t.
pub fn put_type(table: &mut [u16; TABLE], t: usize, cs: &[u8])
    requires { (length table.old ≡ table_size) × (t < max_types) × (is_one_type cs.now ≡ true) × (length cs.now / 2 ≤ max_members) }
    ensures { TypePut t (type_written cs.now) table.old table.new }
{
    set_kind(table, t, kind_begun(cs[0]));
    put_operands(table, t, cs);
}
