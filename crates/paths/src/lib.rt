// A path of an embedding, read from the embedding's document and followed through the types of the target table. A path is
// given by `start`, the offset two bytes before its first step, where its 21 stands, and by its number of steps.

#![tactic(auto)]

ghost use Rattle.std.specs.Prelude.{◌≡◌, ◌+◌, ◌*◌, ◌≤◌, ◌<◌, length, get_or};
ghost use Rattle.loaded_table.specs.Loaded.{table_by};
ghost use Rattle.loaded_embedding.specs.Loaded.{steps_from};
ghost use Rattle.model.specs.Definitions.Embedding.{before_choice, divide};
ghost use Rattle.paths.specs.Following.{Followable, Cuts};

use loaded_table::{LIST, TABLE, is_choice, kind, member};

// The number of steps before the first step of a path that leaves a list, and the item type of that list; without a list the item is
// 0, as `divide` of the model has it.
#[derive(Clone, Copy)]
pub struct Cut {
    pub depth: usize,
    pub item: usize,
}

// Step d of a path, counted from 0.
pub fn step(em: &[u8], start: usize, d: usize) -> usize
    requires { start + 2 + 2 * d < length em.now }
    ensures { (result ≡ get_or em.now (start + 2 + 2 * d) 0) × (result < 256) }
{
    let place = start + 2 + 2 * d;
    usize::from(em[place])
}

// Where a path from type t is divided at its first list; without a list, after its last step. The loop takes one step a turn.
pub fn list_depth(target: &[u16; TABLE], em: &[u8], start: usize, steps: usize, t: usize) -> Cut
    requires { Followable target.now em.now start steps t }
    ensures { Cuts em.now start steps (divide (table_by target.now) t (steps_from em.now (start + 2) steps)) result }
{
    let mut here = t;
    for d in 0..steps {
        let p = step(em, start, d);
        let next = member(target, here, p - 1);
        if LIST <= kind(target, here) {
            return Cut {
                depth: d,
                item: next,
            };
        }
        here = next;
    }
    Cut {
        depth: steps,
        item: 0,
    }
}

// The number of steps before the first step of a path from type t that leaves a choice of either kind; without one, all. The loop
// takes one step a turn.
pub fn choice_depth(target: &[u16; TABLE], em: &[u8], start: usize, steps: usize, t: usize) -> usize
    requires { Followable target.now em.now start steps t }
    ensures { (result ≤ steps) × (steps_from em.now (start + 2) result ≡ before_choice (table_by target.now) t (steps_from em.now (start + 2) steps)) }
{
    let mut here = t;
    for d in 0..steps {
        if is_choice(kind(target, here)) {
            return d;
        }
        let p = step(em, start, d);
        here = member(target, here, p - 1);
    }
    steps
}
