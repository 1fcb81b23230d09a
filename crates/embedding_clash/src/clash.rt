// Check 10 for one edge: whether its path clashes with an earlier one of its source type, with which first, and why.
ghost use Rattle.std.specs.Prelude.{◌≡◌, [], ◌+◌, ◌*◌, ◌≤◌, ◌<◌, min, take};
ghost use Rattle.answers.specs.Answers.{reason, search};
ghost use Rattle.loaded_table.specs.Loaded.{table_by, kind_from};
ghost use Rattle.loaded_embedding.specs.Loaded.{edge_places};
ghost use Rattle.model.specs.Definitions.TableChecks.{max_members};
ghost use Rattle.model.specs.Definitions.Table.{kind_of};
ghost use Rattle.model.specs.Definitions.Embedding as model;
ghost use Rattle.model.specs.Definitions.EmbeddingChecks.{where_one_ends, where_paths_part, clash_reason, max_steps};
ghost use Rattle.model.specs.Definitions.Explanation.{clash_before};
ghost use Rattle.embedding_clash.specs.Edges.{clashes_at};
ghost use Rattle.embedding_clash.specs.Comparing.{behind_by, reason_by, EndsBy, SameParting, ClashOf};
ghost use Rattle.embedding_clash.specs.Paths.{Walkable};
ghost use Rattle.embedding_clash.specs.Ready.{map_of, CheckableAt};

use super::walk::next_type;
use answers::{Clash, Reason};
use codes::{MAX_MEMBERS, MAX_STEPS};
use loaded_embedding::MAP;
use loaded_table::{CHOICE, OPTIONAL, SEQUENCE, TABLE, is_choice};

// What stands behind the steps with which two paths begin: both end; the first ends; the second ends; or they part, at a step that
// leaves a type of this kind.
#[derive(Drop)]
pub enum Behind {
    BothEnd,
    FirstEnds,
    SecondEnds,
    Apart(usize),
}

// How many steps two paths share, and what stands behind them.
#[derive(Drop)]
pub struct Parting {
    pub shared: usize,
    pub behind: Behind,
}

// Whether the path of edge `i` of source type `s` clashes with an earlier one.
pub fn clashes_before(
    source: &[u16; TABLE],
    target: &[u16; TABLE],
    em: &[u8],
    map: &[u16; MAP],
    s: usize,
    i: usize,
    paths: &[[u8; MAX_STEPS]; MAX_MEMBERS],
) -> bool
    requires { CheckableAt source.now target.now em.now map.now s i paths.now }
    ensures { result ≡ clashes_at (table_by target.now) (kind_of (table_by source.now) s) (map_of source.now em.now map.now s) i }
{
    first_clash(source, target, em, map, s, i, paths).is_some()
}

// The first earlier edge of source type `s` whose path the path of edge `i` clashes with. The loop compares with one a turn.
pub fn first_clash(
    source: &[u16; TABLE],
    target: &[u16; TABLE],
    em: &[u8],
    map: &[u16; MAP],
    s: usize,
    i: usize,
    paths: &[[u8; MAX_STEPS]; MAX_MEMBERS],
) -> Option<Clash>
    requires { CheckableAt source.now target.now em.now map.now s i paths.now }
    ensures { search result ≡ clash_before (table_by target.now) (kind_of (table_by source.now) s) (map_of source.now em.now map.now s) s i }
{
    let kind = loaded_table::kind(source, s);
    let from = loaded_embedding::target(map, s);
    let b = paths[i];
    let lb = loaded_embedding::steps(map, s * MAX_MEMBERS + i);
    for j in 0..i {
        let a = paths[j];
        let la = loaded_embedding::steps(map, s * MAX_MEMBERS + j);
        let parting = compare(target, from, a, la, b, lb);
        if let Some(reason) = why(kind, parting.behind) {
            return Some(clash_at(map, s, j, i, parting.shared, reason));
        }
    }
    None
}

// The clash of edges `j` and `i` of source type `s`, whose paths share so many steps, for a reason.
fn clash_at(map: &[u16; MAP], s: usize, j: usize, i: usize, shared: usize, because: Reason) -> Clash
    requires { (s * 16 + i < edge_places) × (j < max_members) }
    ensures { ClashOf map.now s j i shared because result }
{
    Clash {
        source: s,
        earlier: j + 1,
        later: i + 1,
        shared,
        reason: because,
        mark: loaded_embedding::start(map, s * MAX_MEMBERS + i),
    }
}

// How two paths from one type compare. The loop goes along both.
fn compare(
    target: &[u16; TABLE],
    from: usize,
    a: [u8; MAX_STEPS],
    la: usize,
    b: [u8; MAX_STEPS],
    lb: usize,
) -> Parting
    requires walkable { Walkable target.now from a la }
    requires lb_le_max_steps { lb ≤ max_steps }
    ensures { SameParting result (model.parting (table_by target.now) from (take la a) (take lb b)) }
{
    let n = la.min(lb);
    let mut t = from;
    for i in 0..n {
        let p = a[i];
        if p != b[i] {
            return Parting {
                shared: i,
                behind: Behind::Apart(loaded_table::kind(target, t)),
            };
        }
        t = next_type(target, t, p);
    }
    Parting {
        shared: n,
        behind: ended(la, lb),
    }
}

// What stands behind the steps that two paths share, by their numbers of steps, where one is a beginning of the other.
fn ended(la: usize, lb: usize) -> Behind
    ensures { EndsBy la lb result }
{
    if la < lb {
        return Behind::FirstEnds;
    }
    if lb < la {
        return Behind::SecondEnds;
    }
    Behind::BothEnd
}

// Why two paths of members of a source type of a kind clash, if they do.
fn why(kind: usize, behind: Behind) -> Option<Reason>
    ensures { reason_by result ≡ clash_reason (kind_from kind 0 []) (behind_by behind) }
{
    match behind {
        Behind::BothEnd => joined(kind, Reason::EqualPaths),
        Behind::FirstEnds => joined(kind, Reason::EarlierBegins),
        Behind::SecondEnds => joined(kind, Reason::LaterBegins),
        Behind::Apart(left) => parted(kind, left),
    }
}

// Where one path is a beginning of the other: in sequences and choices they clash, for this reason.
fn joined(kind: usize, because: Reason) -> Option<Reason>
    ensures { reason_by result ≡ where_one_ends (kind_from kind 0 []) (reason because) }
{
    match kind {
        SEQUENCE | CHOICE | OPTIONAL => Some(because),
        _ => None,
    }
}

// Where two paths part at a step that leaves a type of kind `left`: in choices they clash unless that is a choice.
fn parted(kind: usize, left: usize) -> Option<Reason>
    ensures { reason_by result ≡ where_paths_part (kind_from kind 0 []) (kind_from left 0 []) }
{
    if !is_choice(kind) {
        return None;
    }
    if is_choice(left) {
        return None;
    }
    Some(Reason::PartAtSequence)
}
