// Finding one's way in a tree document, on its bytes.

#![tactic(auto)]

ghost use Rattle.model.specs.Definitions.Content.{Content};
ghost use Rattle.std.specs.Prelude.{◌+◌};
ghost use Rattle.model.specs.Definitions.Inverse.{child_at, child_of_type, found_at, bytes_before};
ghost use Rattle.scanning.specs.Scanning.{ContentAt};
ghost use Rattle.scanning.specs.Finding.{Finds};
ghost use Rattle.scanning.specs.Spanning.{Spans};

use codes::OPENS;
use spans::close_of;

pub mod spans;

// Where the p-th child element's content begins, counted from 1, among the siblings that begin at `from`, if there is one. The
// loop skips one element a turn.
pub fn child<'a>(tr: &'a [u8], sp: &'a [u16], from: usize, p: usize) -> Option<usize>
    requires spans { Spans tr.now sp.now }
    requires content { (k : Content) × ContentAt tr.now from k }
    ensures { (k : Content) → ContentAt tr.now from k → Finds tr.now result (found_at (from + bytes_before k p + 2) (child_at k p)) }
{
    if p == 0 {
        return None;
    }
    let mut at = from;
    for _ in 1..p {
        if tr[at] != OPENS {
            return None;
        }
        let close = close_of(tr, sp, at + 2);
        at = close + 1;
    }
    if tr[at] == OPENS { Some(at + 2) } else { None }
}

// Where the content of the first element of the siblings that begin at `from` begins, if that element has type t.
pub fn child_of_type(tr: &[u8], from: usize, t: u8) -> Option<usize>
    requires { (k : Content) × ContentAt tr.now from k }
    ensures { (k : Content) → ContentAt tr.now from k → Finds tr.now result (found_at (from + 2) (child_of_type k t)) }
{
    if tr[from] == OPENS && tr[from + 1] == t {
        Some(from + 2)
    } else {
        None
    }
}
