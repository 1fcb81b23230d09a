// Check 9 for one edge: its path takes steps of the right kinds.
ghost use Rattle.std.specs.Prelude.{◌≡◌, true, take};
ghost use Rattle.loaded_table.specs.Loaded.{table_by};
ghost use Rattle.embedding_clash.specs.Paths.{Walkable};
ghost use Rattle.model.specs.Definitions.Basics.{pick};
ghost use Rattle.embedding_ends.specs.Kinds.{with_kind, right_by, LeftAll};

use codes::MAX_STEPS;
use embedding_clash::walk::next_type;
use loaded_table::{CHOICE, EMPTY, OPTIONAL, SEQUENCE, TABLE, TEXT};

// Whether a path leaves a choice of either kind, whether the first choice that it leaves is an optional one, and whether it leaves
// a list.
#[derive(Clone, Copy)]
pub struct Left {
    pub choice: bool,
    pub optional: bool,
    pub list: bool,
}

// Which of choices and lists the steps of a path leave.
pub fn kinds_left(target: &[u16; TABLE], from: usize, path: [u8; MAX_STEPS], count: usize) -> Left
    requires { Walkable target.now from path count }
    ensures { LeftAll result (table_by target.now) from (take count path) }
{
    let mut left = Left {
        choice: false,
        optional: false,
        list: false,
    };
    let mut t = from;
    for i in 0..count {
        left = with_kind(left, loaded_table::kind(target, t));
        t = next_type(target, t, path[i]);
    }
    left
}

// The kinds left by one step more, which leaves a type of this kind.
fn with_kind(left: Left, kind: usize) -> Left
    ensures { result ≡ with_kind left kind }
{
    match kind {
        TEXT => left,
        EMPTY => left,
        SEQUENCE => left,
        CHOICE => Left {
            choice: true,
            ..left
        },
        OPTIONAL => Left {
            choice: true,
            optional: optional_first(left),
            ..left
        },
        _ => Left { list: true, ..left },
    }
}

// Whether the first choice left is an optional one, where one step more leaves an optional choice.
fn optional_first(left: Left) -> bool
    ensures { result ≡ pick left.choice left.optional true }
{
    if left.choice { left.optional } else { true }
}

// Whether a path of `count` steps that leaves these kinds is right for a source type of a kind: from a text type no
// choices; from a sequence no choices and some step; from a choice some choice; from an optional choice the same, the
// first of them an optional one; from a list some list and no choice.
pub fn right_kinds(kind: usize, left: Left, count: usize) -> bool
    ensures { result ≡ right_by kind left count }
{
    match kind {
        TEXT => !left.choice,
        EMPTY => true,
        SEQUENCE => {
            if left.choice {
                return false;
            }
            0 < count
        }
        CHOICE => left.choice,
        OPTIONAL => left.optional,
        _ => {
            if left.choice {
                return false;
            }
            left.list
        }
    }
}
