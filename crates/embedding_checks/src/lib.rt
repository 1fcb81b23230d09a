// Checks 8 to 10 of an embedding in loaded form: each edge of each source type, in order. specs/Tests.antt says what is asked of
// an edge.

#![tactic(auto)]

ghost use Rattle.std.specs.Prelude.{◌≡◌, ◌<◌};
ghost use Rattle.answers.specs.Answers.{verdict};
ghost use Rattle.loaded_table.specs.Loaded.{table_by, types_in};
ghost use Rattle.loaded_embedding.specs.Loaded.{embedding_by};
ghost use Rattle.model.specs.Definitions.Table.{kind_of};
ghost use Rattle.embedding_clash.specs.Ready.{map_of, Checkable, CheckableAt};
ghost use Rattle.embedding_checks.specs.declared.EdgeCheck.TheVariants as check;
ghost use Rattle.embedding_checks.specs.Tests.{edge_right, type_fault, first_fault};

use codes::{MAX_MEMBERS, MAX_STEPS};
use embedding_clash::clash::clashes_before;
use embedding_clash::path::paths_of;
use embedding_clash::walk::end_of;
use embedding_ends::agreement::agree;
use embedding_ends::ends::right_end;
use embedding_ends::steps::{kinds_left, right_kinds};
use embedding_form::edges::edges_of;
use loaded_embedding::MAP;
use loaded_table::{OPTIONAL, TABLE};

// What is asked of each edge: where its path ends, which kinds its steps leave, that it clashes with no earlier one; or all three,
// which says whether every check passes, but not which one fails first.
#[derive(Clone, Copy)]
pub enum EdgeCheck {
    Ends,
    Steps,
    Clashes,
    All,
}

// The first path that a check refuses.
pub fn first_fault(
    check: EdgeCheck,
    source: &[u16; TABLE],
    target: &[u16; TABLE],
    em: &[u8],
    map: &[u16; MAP],
) -> Result<(), usize>
    requires { Checkable source.now target.now em.now map.now }
    ensures { verdict result ≡ first_fault check (table_by source.now) (table_by target.now) (embedding_by em.now (table_by source.now) map.now) }
{
    let types = loaded_table::types(source);
    for s in 0..types {
        type_fault(check, source, target, em, map, s)?;
    }
    Ok(())
}

// The first path of source type `s` that a check refuses.
fn type_fault(
    check: EdgeCheck,
    source: &[u16; TABLE],
    target: &[u16; TABLE],
    em: &[u8],
    map: &[u16; MAP],
    s: usize,
) -> Result<(), usize>
    requires checkable { Checkable source.now target.now em.now map.now }
    requires s_bound { s < types_in source.now }
    ensures { verdict result ≡ type_fault check (embedding_by em.now (table_by source.now) map.now) (table_by target.now) (kind_of (table_by source.now) s) (map_of source.now em.now map.now s) }
{
    let n = edges_of(source, s);
    let paths = paths_of(em, map, s * MAX_MEMBERS, n);
    for i in 0..n {
        if !edge_right(check, source, target, em, map, s, i, &paths) {
            return Err(loaded_embedding::start(map, s * MAX_MEMBERS + i));
        }
    }
    Ok(())
}

// Whether the path of edge `i` of source type `s` ends at the right type, given the paths of the type's edges.
fn ends_right(
    source: &[u16; TABLE],
    target: &[u16; TABLE],
    em: &[u8],
    map: &[u16; MAP],
    s: usize,
    i: usize,
    paths: &[[u8; MAX_STEPS]; MAX_MEMBERS],
) -> bool
    requires { CheckableAt source.now target.now em.now map.now s i paths.now }
    ensures { result ≡ edge_right check.Ends (embedding_by em.now (table_by source.now) map.now) (table_by target.now) (kind_of (table_by source.now) s) (map_of source.now em.now map.now s) i }
{
    let path = paths[i];
    let count = loaded_embedding::steps(map, s * MAX_MEMBERS + i);
    let from = loaded_embedding::target(map, s);
    let end = end_of(target, from, path, count);
    right_end(source, target, em, map, s, i, end)
}

// Whether its steps are of the right kinds, and those of an optional choice before its first choice step are the first path's.
fn steps_right(
    source: &[u16; TABLE],
    target: &[u16; TABLE],
    em: &[u8],
    map: &[u16; MAP],
    s: usize,
    i: usize,
    paths: &[[u8; MAX_STEPS]; MAX_MEMBERS],
) -> bool
    requires { CheckableAt source.now target.now em.now map.now s i paths.now }
    ensures { result ≡ edge_right check.Steps (embedding_by em.now (table_by source.now) map.now) (table_by target.now) (kind_of (table_by source.now) s) (map_of source.now em.now map.now s) i }
{
    let path = paths[i];
    let count = loaded_embedding::steps(map, s * MAX_MEMBERS + i);
    let from = loaded_embedding::target(map, s);
    let left = kinds_left(target, from, path, count);
    let kind = loaded_table::kind(source, s);
    if !right_kinds(kind, left, count) {
        return false;
    }
    if kind != OPTIONAL {
        return true;
    }
    let first = paths[0];
    let steps = loaded_embedding::steps(map, s * MAX_MEMBERS);
    agree(target, from, first, steps, path, count)
}

// Whether edge `i` of source type `s` is as a check asks.
fn edge_right(
    check: EdgeCheck,
    source: &[u16; TABLE],
    target: &[u16; TABLE],
    em: &[u8],
    map: &[u16; MAP],
    s: usize,
    i: usize,
    paths: &[[u8; MAX_STEPS]; MAX_MEMBERS],
) -> bool
    requires { CheckableAt source.now target.now em.now map.now s i paths.now }
    ensures { result ≡ edge_right check (embedding_by em.now (table_by source.now) map.now) (table_by target.now) (kind_of (table_by source.now) s) (map_of source.now em.now map.now s) i }
{
    match check {
        EdgeCheck::Ends => ends_right(source, target, em, map, s, i, paths),
        EdgeCheck::Steps => steps_right(source, target, em, map, s, i, paths),
        EdgeCheck::Clashes => !clashes_before(source, target, em, map, s, i, paths),
        EdgeCheck::All => {
            if !ends_right(source, target, em, map, s, i, paths) {
                return false;
            }
            if !steps_right(source, target, em, map, s, i, paths) {
                return false;
            }
            !clashes_before(source, target, em, map, s, i, paths)
        }
    }
}
