// Following a path of an embedding in a target document.

#![tactic(auto)]

ghost use Rattle.std.specs.Prelude.{◌+◌, ◌<◌};
ghost use Rattle.loaded_table.specs.Loaded.{table_by, kind_from};
ghost use Rattle.loaded_embedding.specs.Loaded.{steps_from};
ghost use Rattle.paths.specs.Following.{Followable};
ghost use Rattle.model.specs.Definitions.Content.{Content};
ghost use Rattle.model.specs.Definitions.Inverse as model;
ghost use Rattle.model.specs.Definitions.Inverse.{located};
ghost use Rattle.scanning.specs.Finding.{Finds};
ghost use Rattle.scanning.specs.Scanning.{ContentAt};
ghost use Rattle.scanning.specs.Spanning.{Spans};
ghost use Rattle.model.specs.Definitions.TableChecks.{max_types};

use loaded_table::{CHOICE, EMPTY, OPTIONAL, SEQUENCE, TABLE, TEXT, member};
use paths::step;
use scanning::{child, child_of_type};

// Where step p leads from the element whose content begins at `at`, if it leads anywhere, by the code of its kind; `next` is the
// type that the step goes to.
fn enter<'a>(
    kind: usize,
    p: usize,
    next: usize,
    tr: &'a [u8],
    sp: &'a [u16],
    at: usize,
) -> Option<usize>
    requires spans { Spans tr.now sp.now }
    requires small { next < max_types }
    requires content { (k : Content) × ContentAt tr.now at k }
    ensures { (k : Content) → ContentAt tr.now at k → (count : _) (row : _) → Finds tr.now result (model.enter_at (kind_from kind count row) p next (located at k)) }
{
    match kind {
        TEXT | EMPTY => None,
        SEQUENCE => child(tr, sp, at, p),
        CHOICE | OPTIONAL => child_of_type(tr, at, next as u8),
        _ => child(tr, sp, at, 1),
    }
}

// Where the content begins that stands at the end of a path, followed from an element of type tau whose content begins at
// `at`, if each step leads on. The loop takes one step a turn.
pub fn follow<'a>(
    target: &[u16; TABLE],
    em: &[u8],
    start: usize,
    steps: usize,
    tau: usize,
    tr: &'a [u8],
    sp: &'a [u16],
    at: usize,
) -> Option<usize>
    requires spans { Spans tr.now sp.now }
    requires path { Followable target.now em.now start steps tau }
    requires content { (k : Content) × ContentAt tr.now at k }
    ensures { (k : Content) → ContentAt tr.now at k → Finds tr.now result (model.follow_at (table_by target.now) tau (steps_from em.now (start + 2) steps) (located at k)) }
{
    let mut here = at;
    let mut t = tau;
    for i in 0..steps {
        let p = step(em, start, i);
        let next = member(target, t, p - 1);
        here = enter(loaded_table::kind(target, t), p, next, tr, sp, here)?;
        t = next;
    }
    Some(here)
}
