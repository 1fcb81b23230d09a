// Going along prepared rows: where the children that a row stands for are, and their rows.

#![tactic(auto)]

ghost use Rattle.std.specs.Prelude.{◌≡◌, ◌-◌, ◌≤◌, ◌<◌, MatchOption};
ghost use Rattle.model.specs.Definitions.Templates.{first_in};
ghost use Rattle.model.specs.Definitions.TableChecks.{max_members};
ghost use Rattle.loaded_table.specs.Loaded.{Bounded, table_by};
ghost use Rattle.rows.specs.Rows.{first_from, child_symbol, characters_symbol};
ghost use Rattle.scanning.specs.Spanning.{Spans};
ghost use Rattle.row_traversal.specs.Contents.{ChildThere, Behind, Conforms, FirstThere, RowIs};

use codes::OPENS;
use loaded_table::TABLE;
use rows::{CHARACTERS, CHILD};
use scanning::spans::close_of;

// The offset of element number i of the content at the start of tr, where element number `seen` stands at `near`. The loop passes
// over one element a turn.
pub fn element_from<'a>(tr: &'a [u8], sp: &'a [u16], i: usize, seen: usize, near: usize) -> usize
    requires spans { Spans tr.now sp.now }
    requires content { ChildThere tr.now i }
    requires near { Behind tr.now seen near }
    ensures { Behind tr.now i result }
{
    let mut o: usize = 0;
    let mut left = i;
    if seen <= i {
        o = near;
        left = i - seen;
    }
    for _passed in 0..left {
        let close = close_of(tr, sp, o + 2);
        o = close + 1;
    }
    o
}

// The type of the first child of the content at offset o, if it has one.
fn first_type(tr: &[u8], o: usize) -> Option<usize>
    requires { Conforms tr.now o }
    ensures { (c : Conforms tr.now o) → first_from result ≡ first_in c.inside }
{
    if tr[o] == OPENS {
        let second = o + 1;
        return Some(usize::from(tr[second]));
    }
    None
}

// The row of the source element that opens at offset o.
pub fn row_of<'a>(source: &'a [u16; TABLE], tr: &'a [u8], o: usize) -> usize
    requires bounded { Bounded source.now }
    requires element { FirstThere (table_by source.now) tr.now o }
    ensures { RowIs (table_by source.now) tr.now o result }
{
    let second = o + 1;
    let s = usize::from(tr[second]);
    let t = first_type(tr, o + 2);
    rows::source_row(source, s, t)
}

// The number of the child that symbol x stands for, if it stands for one.
pub fn child_of(x: u8) -> Option<usize>
    ensures { MatchOption result (child_symbol ≤ x → x < characters_symbol → ⊥) (λ n. (n ≡ x - child_symbol) × (child_symbol ≤ x) × (x < characters_symbol) × (n < max_members)) }
{
    if CHILD <= x && x < CHARACTERS {
        return Some(usize::from(x - CHILD));
    }
    None
}
