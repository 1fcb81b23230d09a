// Check 11 of a tree document: the first command that no conforming document has after the same beginning.
// What may still follow in an open element is kept as its type and how many elements it has had.

#![tactic(auto)]

ghost use Rattle.std.specs.Prelude.{◌≡◌, ◌*◌, ◌<◌, length, take, drop, get_or};
ghost use Rattle.model.specs.Definitions.Basics.{member_of};
ghost use Rattle.model.specs.Definitions.Conformance as model;
ghost use Rattle.model.specs.Definitions.TreeChecks.{tree_expected};
ghost use Rattle.answers.specs.Answers.{verdict};
ghost use Rattle.loaded_table.specs.Loaded.{table_by, counts_of, members_in};
ghost use Rattle.tree_expected.specs.Expected.{Passed, InRoot, TypeReadable, Opening, SaysText, Does, rest_of};
ghost use Rattle.model.specs.Definitions.TableChecks.{max_members};

use codes::MAX_LEVELS;
use loaded_table::{CHOICE, EMPTY, OPTIONAL, SEQUENCE, TABLE, TEXT, count, kind, member};
use tree_form::command::{TreeCommand, command_at};

// What a command does in the innermost element: it opens an element of a type in it, which has had so many elements with that;
// it is a character; or it closes it.
#[derive(Clone, Copy, Debug, PartialEq, Eq)]
pub enum Turn {
    Opened(u8, usize),
    Character(u8),
    Closed,
}

// An open element: its type, and how many elements it has had.
#[derive(Clone, Copy, Debug, PartialEq, Eq)]
pub struct Open {
    pub kind: usize,
    pub had: usize,
}

// The verdict of what is expected in a document that has passed the checks before, by a loaded table. The root is to have
// type 0; `inside` judges the rest.
pub fn expected(table: &[u16; TABLE], t: &[u8]) -> Result<(), usize>
    requires { Passed table.now t.now }
    ensures { verdict result ≡ tree_expected (table_by table.now) t.now }
{
    if command_at(t, 0) == Some(TreeCommand::Opens(0)) {
        inside(table, t)
    } else {
        Err(0)
    }
}

// The verdict of a document whose root element has type 0. The loop keeps the innermost element, and those around it, the
// outermost first. It is no `Check`: that there is room for them, and that types exist, is said by the checks before, and the
// trait lets a step assume nothing of the document.
fn inside(table: &[u16; TABLE], t: &[u8]) -> Result<(), usize>
    requires { InRoot table.now t.now }
    ensures { verdict result ≡ tree_expected (table_by table.now) t.now }
{
    let mut here = Open { kind: 0, had: 0 };
    // An array and a length, as there is no heap.
    let mut around = [here; MAX_LEVELS];
    let mut top: usize = 0;
    let mut at = 2;
    while let Some(turn) = turn_at(table, t, at, here.kind, here.had) {
        match turn {
            Turn::Opened(x, had) => {
                around[top] = Open { had, ..here };
                top += 1;
                here = Open {
                    kind: usize::from(x),
                    had: 0,
                };
                at += 2;
            }
            Turn::Character(_) => at += 2,
            Turn::Closed => {
                if top == 0 {
                    return Ok(());
                }
                top -= 1;
                here = around[top];
                at += 1;
            }
        }
    }
    Err(at)
}

// What the command at an offset does in an element of type m that has had h elements; none where it may not come.
fn turn_at(table: &[u16; TABLE], t: &[u8], at: usize, m: usize, h: usize) -> Option<Turn>
    requires { TypeReadable table.now m × (at < length t.now) }
    ensures { Does table.now t.now m h at result }
{
    match command_at(t, at)? {
        TreeCommand::Opens(x) => Some(Turn::Opened(x, opening(table, m, h, usize::from(x))?)),
        TreeCommand::Character(b) => {
            if is_text(table, m) {
                Some(Turn::Character(b))
            } else {
                None
            }
        }
        TreeCommand::Closes => {
            if complete(table, m, h) {
                Some(Turn::Closed)
            } else {
                None
            }
        }
        TreeCommand::End => None,
    }
}

// How many elements one of type m has had with one of type x that comes behind h others; none where that may not come. Of a
// choice and of a list only whether there was one is kept.
pub fn opening(table: &[u16; TABLE], m: usize, h: usize, x: usize) -> Option<usize>
    requires { TypeReadable table.now m }
    ensures { Opening table.now m h x result }
{
    match kind(table, m) {
        TEXT | EMPTY => None,
        SEQUENCE => {
            if h < count(table, m) && x == member(table, m, h) {
                Some(h + 1)
            } else {
                None
            }
        }
        CHOICE | OPTIONAL => {
            if h == 0 && member_of(table, m, x) {
                Some(1)
            } else {
                None
            }
        }
        _ => if x == member(table, m, 0) {
            Some(1)
        } else {
            None
        },
    }
}

// Whether x is among the members of type m. The loop passes members that are not x.
fn member_of(table: &[u16; TABLE], m: usize, x: usize) -> bool
    requires { TypeReadable table.now m }
    ensures { result ≡ member_of x (take (get_or (counts_of table.now) m 0) (drop (m * max_members) (members_in table.now))) }
{
    for i in 0..count(table, m) {
        if x == member(table, m, i) {
            return true;
        }
    }
    false
}

// Whether an element of type m holds text.
pub fn is_text(table: &[u16; TABLE], m: usize) -> bool
    requires { TypeReadable table.now m }
    ensures { SaysText table.now m result }
{
    kind(table, m) == TEXT
}

// Whether an element of type m that has had h elements may be closed.
pub fn complete(table: &[u16; TABLE], m: usize, h: usize) -> bool
    requires { TypeReadable table.now m }
    ensures { result ≡ model.complete (rest_of table.now m h) }
{
    match kind(table, m) {
        SEQUENCE => count(table, m) <= h,
        CHOICE => h != 0,
        _ => true,
    }
}
