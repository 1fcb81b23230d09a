// The two operations of paper 02, N8 on a loaded table's numbers: one type more, and one member more of a choice of either kind. What is
// kept with each type is true again afterwards. specs/Growth.antt says what each answers and leaves.

#![tactic(auto)]

ghost use Rattle.std.specs.Prelude.{◌≡◌, true, ◌≤◌, ◌<◌, get_or, eqb};
ghost use Rattle.loaded_table.specs.Loaded.{types_in, counts_of, table_by, Bounded};
ghost use Rattle.model.specs.Definitions.Basics.{member_of};
ghost use Rattle.model.specs.Definitions.Operations.{append_type, append_member, extended_at};
ghost use Rattle.model.specs.Definitions.Table.{is_choice, kind_of};
ghost use Rattle.model.specs.Definitions.TableChecks.{max_members, max_types};
ghost use Rattle.table_heights.specs.Sections.{members_at};
ghost use Rattle.answers.specs.declared.Document.TheVariants.{SourceTable};
ghost use Rattle.answers.specs.declared.Refusal.TheVariants.{Faulty};
ghost use Rattle.table_growth.specs.Growth.{Loaded, IsLoaded, Grown, TypeChecked, KeptBefore, LastKept, MayJoin, StaysUnless};

use answers::{Document, Fault, Refusal};
use codes::{MAX_MEMBERS, MAX_TYPES};
use loaded_table::{
    CHOICE, TABLE, count, height, is_choice, kind, member, set_fill, set_height, set_types, types,
};
use table_fill::{fill_of, find_fill};
use table_heights::{next_height, settle_heights};
use table_load::join;
use table_operands::operands::operands;
use table_operands::repeats::repeats;
use type_commands::{one_type, put_type};

// ---- a type

// The refusal for a fault of the table.
fn faulty(f: Fault) -> Refusal
    ensures { result ≡ Faulty SourceTable f }
{
    Refusal::Faulty(Document::SourceTable, f)
}

// Checks 2 to 5 of the type that its own commands write, behind so many types.
fn check_type(all: usize, cs: &[u8]) -> Result<(), Refusal>
    requires { all ≤ max_types }
    ensures { TypeChecked all cs.now result }
{
    if !one_type(cs) {
        return Err(faulty(Fault::BadForm(0)));
    }
    if all == MAX_TYPES {
        return Err(faulty(Fault::OverLimit(0)));
    }
    if MAX_MEMBERS < cs.len() / 2 {
        return Err(faulty(Fault::OverLimit(0)));
    }
    if operands(cs, all + 1).is_err() {
        return Err(faulty(Fault::BadOperand(0)));
    }
    if repeats(cs).is_err() {
        return Err(faulty(Fault::RepeatedMember(0)));
    }
    Ok(())
}

// Finds what is kept with the last type, t, of a table in which that of the others is right: whether the type has a finite instance.
fn keep_last(table: &mut [u16; TABLE], t: usize) -> bool
    requires { (t < max_types) × KeptBefore table.old t }
    ensures { LastKept table.old t result table.new }
{
    set_height(table, t, t as u16 + 2);
    let h = next_height(table, t);
    set_height(table, t, h as u16);
    let length = fill_of(table, t);
    set_fill(table, t, length);
    h <= t + 1
}

// One type more, by its own commands: how many types there are then. Where it is refused, the array may hold anything.
pub fn grow_type(table: &mut [u16; TABLE], cs: &[u8]) -> Result<usize, Refusal>
    requires { IsLoaded table.old }
    ensures { Grown (append_type cs.now) table.old result table.new }
{
    let all = types(table);
    check_type(all, cs)?;
    put_type(table, all, cs);
    set_types(table, all as u16 + 1);
    if keep_last(table, all) {
        Ok(all + 1)
    } else {
        Err(faulty(Fault::NoFiniteInstance(0)))
    }
}

// ---- a member

// Whether type t names m.
fn names(table: &[u16; TABLE], t: usize, m: usize) -> bool
    requires { Bounded table.now × (t < types_in table.now) }
    ensures { result ≡ member_of m (members_at table.now t) }
{
    for i in 0..count(table, t) {
        if member(table, t, i) == m {
            return true;
        }
    }
    false
}

// Whether numbers move where type t gets member m: t is a choice that needs a member, and m is lower than all it has.
fn moves(table: &[u16; TABLE], t: usize, m: usize) -> bool
    requires { MayJoin table.now t m }
    ensures { StaysUnless table.now t m result }
{
    kind(table, t) == CHOICE && height(table, m) + 1 < height(table, t)
}

// One member more of type t, which is a choice with room for it. Only where numbers can move are they found again, from those kept.
fn add_member(table: &mut [u16; TABLE], t: usize, m: usize)
    requires { MayJoin table.old t m }
    ensures { Loaded table.new (extended_at (table_by table.old) t m) }
{
    let lower = moves(table, t, m);
    join(table, t, m as u8);
    if lower {
        settle_heights(table);
        find_fill(table);
    }
}

// Whether type t is there and is a choice of either kind.
fn extends(table: &[u16; TABLE], t: usize) -> bool
    requires { Bounded table.now }
    ensures { (result ≡ is_choice (kind_of (table_by table.now) t)) × (result ≡ true → t < types_in table.now) }
{
    if types(table) <= t {
        return false;
    }
    is_choice(kind(table, t))
}

// Whether type t, if it is there, has as many members as it may.
fn is_full(table: &[u16; TABLE], t: usize) -> bool
    ensures { result ≡ eqb (get_or (counts_of table.now) t 0) max_members }
{
    if MAX_TYPES <= t {
        return false;
    }
    count(table, t) == MAX_MEMBERS
}

// One member more of type t: how many types there are. Where it is refused, the array may hold anything.
pub fn grow_member(table: &mut [u16; TABLE], t: usize, m: usize) -> Result<usize, Refusal>
    requires { IsLoaded table.old }
    ensures { Grown (append_member t m) table.old result table.new }
{
    let missing = !extends(table, t);
    let full = is_full(table, t);
    if missing {
        return Err(Refusal::NoChoice);
    }
    if full {
        return Err(faulty(Fault::OverLimit(0)));
    }
    let all = types(table);
    if all <= m {
        return Err(faulty(Fault::BadOperand(0)));
    }
    if names(table, t, m) {
        return Err(faulty(Fault::RepeatedMember(0)));
    }
    add_member(table, t, m);
    Ok(all)
}
