// The children of a source element, one after another, each found in a target document at the end of its path. specs/ says
// what is found by the model's definitions.

#![tactic(auto)]

ghost use Rattle.std.specs.Prelude.{◌≡◌, List, ℕ, ◌+◌, ◌-◌, ◌*◌, ◌≤◌, ◌<◌, get_or, length};
ghost use Rattle.loaded_table.specs.Loaded.{kinds_of, table_by, optional_kind, list_kind};
ghost use Rattle.loaded_embedding.specs.Loaded.{targets_of, starts_of, lengths_of};
ghost use Rattle.paths.specs.Following.{Followable, path_at};
ghost use Rattle.children.specs.Cursors.{ImageThere, LeftEdges, LeftChoice, LeftItems, Shows, ShowsAll, cursor_weight, Gives};
ghost use Rattle.model.specs.Definitions.Content.{Content};
ghost use Rattle.model.specs.Definitions.Inverse as model;
ghost use Rattle.model.specs.Definitions.Inverse.{Located, located, Parts};
ghost use Rattle.scanning.specs.Finding.{Finds};
ghost use Rattle.scanning.specs.Scanning.{ContentAt};
ghost use Rattle.scanning.specs.Spanning.{Spans};
ghost use Rattle.model.specs.Definitions.TableChecks.{max_members, max_types};

use codes::{CHARACTER, CLOSES, MAX_MEMBERS, OPENS};
use following::follow;
use loaded_embedding::MAP;
use loaded_table::{CHOICE, EMPTY, OPTIONAL, SEQUENCE, TABLE, TEXT, count, member};
use paths::{choice_depth, list_depth};
use scanning::spans::close_of;

// A source type, and where the content of an image of an element of that type begins.
#[derive(Clone, Copy)]
pub struct Image {
    pub sigma: usize,
    pub from: usize,
}

// The items of a target list that are left, from the offset `at` on; each is followed from its type `item` along the path
// at `start`, and what stands at the end is read as an element of source type `child`.
#[derive(Clone, Copy)]
pub struct Rest {
    pub at: usize,
    pub item: usize,
    pub start: usize,
    pub steps: usize,
    pub child: usize,
}

// Which children of an element are still to be read: of a sequence those from an edge on; of a choice its member; of a
// list its items; or none.
#[derive(Clone, Copy)]
pub enum Cursor {
    Edges(usize),
    Choice,
    Items(Rest),
    Last,
}

// A child that was found: its image, and the cursor after it.
#[derive(Clone, Copy)]
pub struct Child {
    pub image: Image,
    pub then: Cursor,
}

// What has to stand at the end of a path is missing.
#[derive(Clone, Copy, Debug, PartialEq, Eq)]
pub struct Missing;

// Where the path of edge i leads in an image, if it can be followed.
pub fn along<'a>(
    target: &[u16; TABLE],
    map: &[u16; MAP],
    em: &[u8],
    tr: &'a [u8],
    sp: &'a [u16],
    image: Image,
    i: usize,
) -> Option<usize>
    requires spans { Spans tr.now sp.now }
    requires place { (image.sigma < max_types) × (i < max_members) }
    requires path { Followable target.now em.now (get_or (starts_of map.now) (image.sigma * max_members + i) 0) (get_or (lengths_of map.now) (image.sigma * max_members + i) 0) (get_or (targets_of map.now) image.sigma 0) }
    requires content { (k : Content) × ContentAt tr.now image.from k }
    ensures { (k : Content) → ContentAt tr.now image.from k → Finds tr.now result (model.follow_at (table_by target.now) (get_or (targets_of map.now) image.sigma 0) (path_at em.now map.now (image.sigma * max_members + i)) (located image.from k)) }
{
    let sigma = image.sigma;
    let edge = sigma * MAX_MEMBERS + i;
    let start = loaded_embedding::start(map, edge);
    let steps = loaded_embedding::steps(map, edge);
    let tau = loaded_embedding::target(map, sigma);
    follow(target, em, start, steps, tau, tr, sp, image.from)
}

// The next child of a sequence, that of edge i.
fn next_member<'a>(
    source: &[u16; TABLE],
    target: &[u16; TABLE],
    map: &[u16; MAP],
    em: &[u8],
    tr: &'a [u8],
    sp: &'a [u16],
    image: Image,
    i: usize,
) -> Result<Option<Child>, Missing>
    requires image { ImageThere source.now target.now map.now em.now tr.now sp.now image }
    requires left { (k : Content) × (parts : Parts) × ContentAt tr.now image.from k × LeftEdges source.now target.now map.now em.now image.sigma (located image.from k) i parts }
    ensures { (k : Content) (parts : Parts) → ContentAt tr.now image.from k → LeftEdges source.now target.now map.now em.now image.sigma (located image.from k) i parts → Gives source.now target.now map.now em.now image.sigma tr.now (located image.from k) (17 - i) result parts }
{
    let sigma = image.sigma;
    if i == count(source, sigma) {
        return Ok(None);
    }
    let from = along(target, map, em, tr, sp, image, i).ok_or(Missing)?;
    let sigma = member(source, sigma, i);
    Ok(Some(Child {
        image: Image { sigma, from },
        then: Cursor::Edges(i + 1),
    }))
}

// The member of a choice, the first whose path is there. The loop goes over the edges.
fn next_choice<'a>(
    source: &[u16; TABLE],
    target: &[u16; TABLE],
    map: &[u16; MAP],
    em: &[u8],
    tr: &'a [u8],
    sp: &'a [u16],
    image: Image,
) -> Result<Option<Child>, Missing>
    requires image { ImageThere source.now target.now map.now em.now tr.now sp.now image }
    requires left { (k : Content) × (parts : Parts) × ContentAt tr.now image.from k × LeftChoice source.now target.now map.now em.now image.sigma (located image.from k) parts }
    ensures { (k : Content) (parts : Parts) → ContentAt tr.now image.from k → LeftChoice source.now target.now map.now em.now image.sigma (located image.from k) parts → Gives source.now target.now map.now em.now image.sigma tr.now (located image.from k) 1 result parts }
{
    let sigma = image.sigma;
    for i in 0..count(source, sigma) {
        if let Some(from) = along(target, map, em, tr, sp, image, i) {
            let sigma = member(source, sigma, i);
            return Ok(Some(Child {
                image: Image { sigma, from },
                then: Cursor::Last,
            }));
        }
    }
    Err(Missing)
}

// The next item of a list.
fn next_item<'a>(
    target: &[u16; TABLE],
    em: &[u8],
    tr: &'a [u8],
    sp: &'a [u16],
    rest: Rest,
) -> Result<Option<Child>, Missing>
    requires spans { Spans tr.now sp.now }
    requires left { (source : List ℕ) × (parts : Parts) × LeftItems source target.now em.now tr.now rest parts }
    ensures { (source map : List ℕ) (σ : ℕ) (l : Located) (parts : Parts) → LeftItems source target.now em.now tr.now rest parts → Gives source target.now map em.now σ tr.now l (1 + (length tr.now - rest.at)) result parts }
{
    let at = rest.at;
    match tr[at] {
        OPENS => {
            let inside = at + 2;
            let close = close_of(tr, sp, inside);
            let from = follow(
                target, em, rest.start, rest.steps, rest.item, tr, sp, inside,
            )
            .ok_or(Missing)?;
            let sigma = rest.child;
            let after = Rest {
                at: close + 1,
                ..rest
            };
            Ok(Some(Child {
                image: Image { sigma, from },
                then: Cursor::Items(after),
            }))
        }
        CHARACTER => Err(Missing),
        _ => Ok(None),
    }
}

// The next child by the cursor, if one is left.
pub fn next<'a>(
    source: &[u16; TABLE],
    target: &[u16; TABLE],
    map: &[u16; MAP],
    em: &[u8],
    tr: &'a [u8],
    sp: &'a [u16],
    image: Image,
    cursor: Cursor,
) -> Result<Option<Child>, Missing>
    requires image { ImageThere source.now target.now map.now em.now tr.now sp.now image }
    requires left { (k : Content) × (parts : Parts) × ContentAt tr.now image.from k × Shows source.now target.now map.now em.now image.sigma tr.now (located image.from k) cursor parts }
    ensures { (k : Content) (parts : Parts) → ContentAt tr.now image.from k → Shows source.now target.now map.now em.now image.sigma tr.now (located image.from k) cursor parts → Gives source.now target.now map.now em.now image.sigma tr.now (located image.from k) (cursor_weight tr.now cursor) result parts }
{
    match cursor {
        Cursor::Edges(i) => next_member(source, target, map, em, tr, sp, image, i),
        Cursor::Choice => next_choice(source, target, map, em, tr, sp, image),
        Cursor::Items(rest) => next_item(target, em, tr, sp, rest),
        Cursor::Last => Ok(None),
    }
}

// The cursor before the first item of a list: the path leads to its first list.
fn begin_list<'a>(
    source: &[u16; TABLE],
    target: &[u16; TABLE],
    map: &[u16; MAP],
    em: &[u8],
    tr: &'a [u8],
    sp: &'a [u16],
    image: Image,
) -> Result<Cursor, Missing>
    requires image { ImageThere source.now target.now map.now em.now tr.now sp.now image }
    requires list { list_kind ≤ get_or (kinds_of source.now) image.sigma 0 }
    ensures { ShowsAll source.now target.now map.now em.now tr.now image result }
{
    let sigma = image.sigma;
    let edge = sigma * MAX_MEMBERS;
    let start = loaded_embedding::start(map, edge);
    let steps = loaded_embedding::steps(map, edge);
    let tau = loaded_embedding::target(map, sigma);
    let cut = list_depth(target, em, start, steps, tau);
    let depth = cut.depth;
    let at = follow(target, em, start, depth, tau, tr, sp, image.from).ok_or(Missing)?;
    let before = depth + 1;
    let rest = Rest {
        at,
        item: cut.item,
        start: start + 2 * before,
        steps: steps - before,
        child: member(source, sigma, 0),
    };
    Ok(Cursor::Items(rest))
}

// The cursor before the member of an optional choice: none where the optional choice that its paths agree on is there and empty.
fn begin_optional<'a>(
    source: &[u16; TABLE],
    target: &[u16; TABLE],
    map: &[u16; MAP],
    em: &[u8],
    tr: &'a [u8],
    sp: &'a [u16],
    image: Image,
) -> Cursor
    requires image { ImageThere source.now target.now map.now em.now tr.now sp.now image }
    requires optional { get_or (kinds_of source.now) image.sigma 0 ≡ optional_kind }
    ensures { ShowsAll source.now target.now map.now em.now tr.now image (Ok result) }
{
    let sigma = image.sigma;
    let edge = sigma * MAX_MEMBERS;
    let start = loaded_embedding::start(map, edge);
    let steps = loaded_embedding::steps(map, edge);
    let tau = loaded_embedding::target(map, sigma);
    let depth = choice_depth(target, em, start, steps, tau);
    match follow(target, em, start, depth, tau, tr, sp, image.from) {
        Some(at) if tr[at] == CLOSES => Cursor::Last,
        _ => Cursor::Choice,
    }
}

// The cursor before the first child of an element.
pub fn begin<'a>(
    source: &[u16; TABLE],
    target: &[u16; TABLE],
    map: &[u16; MAP],
    em: &[u8],
    tr: &'a [u8],
    sp: &'a [u16],
    image: Image,
) -> Result<Cursor, Missing>
    requires image { ImageThere source.now target.now map.now em.now tr.now sp.now image }
    ensures { ShowsAll source.now target.now map.now em.now tr.now image result }
{
    let kind = loaded_table::kind(source, image.sigma);
    match kind {
        TEXT | EMPTY => Ok(Cursor::Last),
        SEQUENCE => Ok(Cursor::Edges(0)),
        CHOICE => Ok(Cursor::Choice),
        OPTIONAL => Ok(begin_optional(source, target, map, em, tr, sp, image)),
        _ => begin_list(source, target, map, em, tr, sp, image),
    }
}
