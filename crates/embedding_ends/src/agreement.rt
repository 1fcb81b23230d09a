// Check 9 for two paths of an optional choice: they agree up to their first choice step.
ghost use Rattle.std.specs.Prelude.{◌≡◌, take};
ghost use Rattle.loaded_table.specs.Loaded.{table_by};
ghost use Rattle.embedding_clash.specs.Paths.{Walkable};
ghost use Rattle.model.specs.Definitions.Embedding.{before_choice, same_steps};

use codes::MAX_STEPS;
use embedding_clash::walk::next_type;
use loaded_table::{TABLE, is_choice};

// Whether two paths from one type have the same steps before their first choice step.
pub fn agree(
    target: &[u16; TABLE],
    from: usize,
    a: [u8; MAX_STEPS],
    la: usize,
    b: [u8; MAX_STEPS],
    lb: usize,
) -> bool
    requires walkable { Walkable target.now from a la }
    requires walkable_2 { Walkable target.now from b lb }
    ensures { result ≡ same_steps (before_choice (table_by target.now) from (take la a)) (before_choice (table_by target.now) from (take lb b)) }
{
    let mut t = from;
    for i in 0..la {
        if is_choice(loaded_table::kind(target, t)) {
            return true;
        }
        if i == lb {
            return false;
        }
        let p = a[i];
        if p != b[i] {
            return false;
        }
        t = next_type(target, t, p);
    }
    if la == lb {
        return true;
    }
    is_choice(loaded_table::kind(target, t))
}
