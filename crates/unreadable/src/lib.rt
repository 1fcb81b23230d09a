// Where reading a target document along the paths fails: the first source element, in document order, whose own paths can't be
// followed. specs/ says what is found by the model's definition of reading.

#![tactic(auto)]

ghost use Rattle.std.specs.Prelude.{◌≡◌, not, ◌+◌, ◌-◌, ◌*◌, ◌<◌, get_or};
ghost use Rattle.children.specs.Cursors.{ImageThere};
ghost use Rattle.loaded_table.specs.Loaded.{table_by};
ghost use Rattle.loaded_embedding.specs.Loaded.{targets_of, starts_of, lengths_of};
ghost use Rattle.loaded_setting.specs.Ready.{setting_in};
ghost use Rattle.paths.specs.Following.{Followable, path_at};
ghost use Rattle.model.specs.Definitions.Basics.{is_there};
ghost use Rattle.model.specs.Definitions.TableChecks.{max_members, max_types};
ghost use Rattle.model.specs.Definitions.Content.{Content};
ghost use Rattle.model.specs.Definitions.Inverse.{located, follow_at, unbroken, child_parts, read_to};
ghost use Rattle.scanning.specs.Scanning.{ContentAt};
ghost use Rattle.scanning.specs.Spanning.{Spans};
ghost use Rattle.unreadable.specs.Losing.{Loses, OwnPaths};

use children::{Image, Missing, along, begin, next};
use loaded_embedding::MAP;
use loaded_table::{TABLE, TEXT};

// Whether a path of an element that is no text can't be followed. The loop goes over its children.
fn is_broken<'a>(
    source: &[u16; TABLE],
    target: &[u16; TABLE],
    map: &[u16; MAP],
    em: &[u8],
    tr: &'a [u8],
    sp: &'a [u16],
    image: Image,
) -> bool
    requires image { ImageThere source.now target.now map.now em.now tr.now sp.now image }
    ensures { (k : Content) → ContentAt tr.now image.from k → unbroken (child_parts (setting_in source.now target.now map.now em.now) image.sigma (located image.from k)) ≡ not result }
{
    let Ok(mut cursor) = begin(source, target, map, em, tr, sp, image) else {
        return true;
    };
    loop {
        match next(source, target, map, em, tr, sp, image, cursor) {
            Ok(Some(child)) => cursor = child.then,
            Ok(None) => return false,
            Err(Missing) => return true,
        }
    }
}

// Whether an own path of an element can't be followed: a text has one to its characters, other elements have those to their children.
fn is_missing<'a>(
    source: &[u16; TABLE],
    target: &[u16; TABLE],
    map: &[u16; MAP],
    em: &[u8],
    tr: &'a [u8],
    sp: &'a [u16],
    image: Image,
) -> bool
    requires image { ImageThere source.now target.now map.now em.now tr.now sp.now image }
    ensures { (k : Content) → ContentAt tr.now image.from k → OwnPaths (setting_in source.now target.now map.now em.now) image.sigma (located image.from k) result }
{
    if loaded_table::kind(source, image.sigma) == TEXT {
        return along(target, map, em, tr, sp, image, 0).is_none();
    }
    is_broken(source, target, map, em, tr, sp, image)
}

// The offset of the target element that stands for the source element at which reading an element fails: itself, if an own path is
// missing, else the first of its children that fails; none where all paths can be followed. `depth` bounds its levels. The loop goes
// over the children.
pub fn find_lost<'a>(
    source: &[u16; TABLE],
    target: &[u16; TABLE],
    map: &[u16; MAP],
    em: &[u8],
    tr: &'a [u8],
    sp: &'a [u16],
    image: Image,
    depth: usize,
) -> Option<usize>
    requires image { ImageThere source.now target.now map.now em.now tr.now sp.now image }
    ensures { (k : Content) → ContentAt tr.now image.from k → Loses result (read_to (setting_in source.now target.now map.now em.now) depth image.sigma (located image.from k)) }
{
    let own = image.from.saturating_sub(2);
    if depth == 0 || is_missing(source, target, map, em, tr, sp, image) {
        return Some(own);
    }
    let Ok(mut cursor) = begin(source, target, map, em, tr, sp, image) else {
        return Some(own);
    };
    loop {
        match next(source, target, map, em, tr, sp, image, cursor) {
            Ok(Some(child)) => {
                let inside = child.image;
                if let Some(at) = find_lost(source, target, map, em, tr, sp, inside, depth - 1) {
                    return Some(at);
                }
                cursor = child.then;
            }
            Ok(None) => return None,
            Err(Missing) => return Some(own),
        }
    }
}
