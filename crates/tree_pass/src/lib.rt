// All checks of a tree document in one pass, for documents that are accepted.

#![tactic(auto)]

ghost use Rattle.std.specs.Prelude.{◌≡◌, true, ◌<◌, length, IfSome};
ghost use Rattle.loaded_table.specs.Loaded.{Bounded};
ghost use Rattle.tree_expected.specs.Expected.{TypeReadable};
ghost use Rattle.tree_pass.specs.Passing.{Begun, RootEntered, Accepted, Innermost, Enters, Textual, Checked, Ends};
ghost use Rattle.model.specs.Definitions.TreeChecks.{max_levels};

use characters::allowed;
use codes::{CHARACTER, CLOSES, MAX_BYTES, MAX_LEVELS, OPENS, TREE_END};
use loaded_table::{TABLE, types};
use tree_expected::{Open, Turn, complete, is_text, opening};

// The number of elements of a document that all checks pass by a loaded table; none says only that some check may fail.
pub fn elements(table: &[u16; TABLE], t: &[u8]) -> Option<usize>
    requires { Bounded table.now }
    ensures { IfSome result (λ n. Accepted table.now t.now n) }
{
    if !begins(t) {
        return None;
    }
    if types(table) == 0 {
        return None;
    }
    inside(table, t)
}

// Whether a document is not too long and begins with an element of type 0.
fn begins(t: &[u8]) -> bool
    ensures { result ≡ true → Begun t.now }
{
    if t.len() < 2 {
        return false;
    }
    if MAX_BYTES < t.len() {
        return false;
    }
    t[0] == OPENS && t[1] == 0
}

// The same of a document that begins with an element of type 0. The loop keeps the innermost element, those around it, the
// outermost first, and the number of elements that were opened.
fn inside(table: &[u16; TABLE], t: &[u8]) -> Option<usize>
    requires { RootEntered table.now t.now }
    ensures { IfSome result (λ n. Accepted table.now t.now n) }
{
    let mut here = Open { kind: 0, had: 0 };
    // An array and a length, as there is no heap.
    let mut around = [here; MAX_LEVELS];
    let mut top: usize = 0;
    let mut n: usize = 1;
    let mut at = 2;
    while at + 1 < t.len() {
        match checked_at(table, t, at, top, here.kind, here.had)? {
            Turn::Opened(x, had) => {
                around[top] = Open { had, ..here };
                top += 1;
                here = Open {
                    kind: usize::from(x),
                    had: 0,
                };
                n += 1;
                at += 2;
            }
            Turn::Character(_) => at += 2,
            Turn::Closed => {
                at += 1;
                if top == 0 {
                    return ended(t, at, n);
                }
                top -= 1;
                here = around[top];
            }
        }
    }
    None
}

// What the command at an offset does in an element of type m that has had h elements and has `top` elements around it; none
// where some check refuses it.
fn checked_at(
    table: &[u16; TABLE],
    t: &[u8],
    at: usize,
    top: usize,
    m: usize,
    h: usize,
) -> Option<Turn>
    requires { Innermost table.now t.now top m at }
    ensures { Checked table.now t.now top m h at result }
{
    match t[at] {
        OPENS => {
            let x = t[at + 1];
            Some(Turn::Opened(x, entering(table, top, m, h, x)?))
        }
        CHARACTER => {
            let c = t[at + 1];
            if holds(table, m, c) {
                Some(Turn::Character(c))
            } else {
                None
            }
        }
        CLOSES => {
            if complete(table, m, h) {
                Some(Turn::Closed)
            } else {
                None
            }
        }
        _ => None,
    }
}

// How many elements one of type m with `top` elements around it has had with one of type x that comes behind h others; none
// where that may not come, where there is no such type, or where it would stand too deep.
fn entering(table: &[u16; TABLE], top: usize, m: usize, h: usize, x: u8) -> Option<usize>
    requires { TypeReadable table.now m × (top < max_levels) }
    ensures { IfSome result (λ next. Enters table.now top m h x next) }
{
    let x = usize::from(x);
    if types(table) <= x {
        return None;
    }
    if MAX_LEVELS <= top + 1 {
        return None;
    }
    opening(table, m, h, x)
}

// Whether a byte is a character that an element of type m may hold.
fn holds(table: &[u16; TABLE], m: usize, c: u8) -> bool
    requires { TypeReadable table.now m }
    ensures { result ≡ true → Textual table.now m c }
{
    is_text(table, m) && allowed(c)
}

// The number n, where the document's last byte stands at an offset and ends it.
fn ended(t: &[u8], at: usize, n: usize) -> Option<usize>
    requires { at < length t.now }
    ensures { IfSome result (λ r. Ends t.now at n r) }
{
    if t.len() <= at + 1 && t[at] == TREE_END {
        Some(n)
    } else {
        None
    }
}
