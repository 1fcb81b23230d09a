// The row of a target element with what stands along some paths below it, as symbols in a pool of bytes. Steps are read from the
// embedding's document.

#![tactic(auto)]

ghost use Rattle.std.specs.Prelude.{◌≡◌, [], ◌∷◌, ◌+◌, ◌≤◌, ◌<◌, length, MatchOption};
ghost use Rattle.model.specs.Definitions.Image.{under};
ghost use Rattle.loaded_embedding.specs.Loaded.{steps_from};
ghost use Rattle.rows.specs.Rows.{symbol_of};
ghost use Rattle.growing.specs.Growing.{first_of, placements_of, PathsReadable, push, no_edges, MemberRange, Puts, Task, element_row};
ghost use Rattle.model.specs.Definitions.TableChecks.{max_members, max_types};
ghost use Rattle.model.specs.Definitions.Refusals.{max_length};

use codes::MAX_MEMBERS;
use loaded_table::{SEQUENCE, TABLE};
use rows::{CLOSING, FILLER, OPENING};
use std::ops::Range;

// The paths still to be followed below a target element: path j goes on with left[j] steps, the first at offset next[j] of the
// embedding's document, to the hole with the number hole[j].
#[derive(Clone, Copy)]
pub struct Edges {
    pub count: usize,
    pub next: [u16; MAX_MEMBERS],
    pub left: [u8; MAX_MEMBERS],
    pub hole: [u8; MAX_MEMBERS],
}

// No paths.
pub fn no_edges() -> Edges
    ensures { result ≡ no_edges }
{
    let next = [0u16; MAX_MEMBERS];
    let left = [0u8; MAX_MEMBERS];
    let hole = [0u8; MAX_MEMBERS];
    Edges {
        count: 0,
        next,
        left,
        hole,
    }
}

// One path more, behind the others.
pub fn pushed(e: Edges, next: u16, left: u8, hole: u8) -> Edges
    requires { e.count < max_members }
    ensures { result ≡ push e next left hole }
{
    let at = e.count;
    let mut out = e;
    out.next[at] = next;
    out.left[at] = left;
    out.hole[at] = hole;
    out.count = at + 1;
    out
}

// The first of `left` steps that begin at offset o, if there is one.
fn first_step(em: &[u8], o: u16, left: u8) -> Option<usize>
    requires { 0 < left → o < length em.now }
    ensures { MatchOption result (left ≡ 0) (λ q. (0 < left) × (q ≡ first_of (steps_from em.now o left)) × (q < 256)) }
{
    if left == 0 {
        return None;
    }
    Some(usize::from(em[usize::from(o)]))
}

// The paths whose first step is q, that step taken.
fn beyond(em: &[u8], e: Edges, q: usize) -> Edges
    requires q_nonzero { (0 < q) × (length em.now ≤ max_length) }
    requires paths { PathsReadable em.now e }
    ensures { PathsReadable em.now result × (placements_of em.now result ≡ under q (placements_of em.now e)) }
{
    let count = e.count;
    let next = e.next;
    let left = e.left;
    let hole = e.hole;
    let mut sub = no_edges();
    for i in 0..count {
        if first_step(em, next[i], left[i]) == Some(q) {
            sub = pushed(sub, next[i] + 2, left[i] - 1, hole[i]);
        }
    }
    sub
}

// Writes one symbol.
pub fn put(pool: &mut [u8], at: usize, base: u8, number: usize) -> usize
    requires { (at < length pool.old) × (base + number < 256) }
    ensures { Puts pool.old pool.new at (symbol_of (base + number) ∷ []) result }
{
    pool[at] = base + (number as u8);
    at + 1
}

// The members of type t, counted from 1, that are built below it, where the first path takes step q: all of a sequence, else the
// one that q names.
fn members_below(target: &[u16; TABLE], t: usize, q: usize) -> Range<usize>
    requires { (t < max_types) × (q < 256) }
    ensures { MemberRange target.now t q result }
{
    if loaded_table::kind(target, t) == SEQUENCE {
        return 1..loaded_table::count(target, t) + 1;
    }
    q..q + 1
}

// Writes an element of type t with what stands along the paths below it, which all have less than n steps; filler where there is
// no path. The loop writes a member a turn.
pub fn element(
    target: &[u16; TABLE],
    em: &[u8],
    e: Edges,
    n: usize,
    t: usize,
    pool: &mut [u8],
    at: usize,
) -> usize
    requires task { Task target.now em.now e n t }
    requires room { at + length (element_row target.now em.now e n t) ≤ length pool.old }
    ensures { Puts pool.old pool.new at (element_row target.now em.now e n t) result }
{
    let count = e.count;
    if count == 0 {
        return put(pool, at, FILLER, t);
    }
    let next = e.next;
    let left = e.left;
    let hole = e.hole;
    let inside = put(pool, at, OPENING, t);
    let Some(q) = first_step(em, next[0], left[0]) else {
        let end = put(pool, inside, hole[0], 0);
        return put(pool, end, CLOSING, 0);
    };
    let members = members_below(target, t, q);
    let mut place = inside;
    for j in members {
        let m = loaded_table::member(target, t, j - 1);
        let sub = beyond(em, e, j);
        place = element(target, em, sub, n - 1, m, pool, place);
    }
    put(pool, place, CLOSING, 0)
}
