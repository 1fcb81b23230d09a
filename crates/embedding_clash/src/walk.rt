// Following a path through the types of a target table.
ghost use Rattle.std.specs.Prelude.{◌≡◌, take};
ghost use Rattle.loaded_table.specs.Loaded.{table_by};
ghost use Rattle.model.specs.Definitions.Embedding.{next, end_of};
ghost use Rattle.embedding_clash.specs.Paths.{StepExists, Walkable};

use codes::MAX_STEPS;
use loaded_table::TABLE;

// The type that step `p` goes to from type `t`, where there is such a step.
pub fn next_type(target: &[u16; TABLE], t: usize, p: u8) -> usize
    requires { StepExists target.now t p }
    ensures { result ≡ next (table_by target.now) t p }
{
    loaded_table::member(target, t, usize::from(p) - 1)
}

// The type at which a path ends, where its steps exist.
pub fn end_of(target: &[u16; TABLE], from: usize, path: [u8; MAX_STEPS], count: usize) -> usize
    requires { Walkable target.now from path count }
    ensures { result ≡ end_of (table_by target.now) from (take count path) }
{
    let mut t = from;
    for i in 0..count {
        t = next_type(target, t, path[i]);
    }
    t
}
