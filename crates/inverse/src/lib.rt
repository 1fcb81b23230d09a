// Reading a target document along the paths of an embedding, into a buffer: what the source document holds of which it
// would be the image. specs/ says what each function reads by the model's definitions.

#![tactic(auto)]

ghost use Rattle.std.specs.Prelude.{◌≡◌, ◌+◌, ◌*◌, ◌≤◌, ◌<◌, get_or, length};
ghost use Rattle.loaded_table.specs.Loaded.{table_by};
ghost use Rattle.loaded_embedding.specs.Loaded.{targets_of, starts_of, lengths_of};
ghost use Rattle.children.specs.Cursors.{ImageThere};
ghost use Rattle.paths.specs.Following.{Followable, path_at};
ghost use Rattle.inverse.specs.Reading.{read_as, element_of, ReadsInto, BringsRead};
ghost use Rattle.model.specs.Definitions.Content.{Content, document};
ghost use Rattle.model.specs.Definitions.Inverse as model;
ghost use Rattle.model.specs.Definitions.Inverse.{located};
ghost use Rattle.model.proofs.Theorems.ReadsPlain.{held_at};
ghost use Rattle.scanning.specs.Scanning.{ContentAt};
ghost use Rattle.scanning.specs.Spanning.{Spans};
ghost use Rattle.loaded_setting.specs.Ready.{setting_in, Ready};
ghost use Rattle.model.specs.Definitions.TableChecks.{max_members, max_types};

use children::{Image, along, begin, next};
use codes::ELEMENT_BYTES;
use loaded_embedding::MAP;
use loaded_table::{TABLE, TEXT};
use scanning::spans::close_of;
use writing::{copy, put_close, put_end, put_open};

// An element to be read: its image, a bound of its levels, and where it is written.
#[derive(Clone, Copy)]
pub struct ToRead {
    pub image: Image,
    pub depth: usize,
    pub at: usize,
}

// Reads a text: writes the characters that stand at the end of its path. The answer, here and below, is the offset after what was
// written; there is none where something is missing or the buffer is too short.
fn read_text<'a>(
    target: &[u16; TABLE],
    map: &[u16; MAP],
    em: &[u8],
    tr: &'a [u8],
    sp: &'a [u16],
    out: &mut [u8],
    task: ToRead,
) -> Option<usize>
    requires spans { Spans tr.now sp.now }
    requires place { task.image.sigma < max_types }
    requires path { Followable target.now em.now (get_or (starts_of map.now) (task.image.sigma * max_members + 0) 0) (get_or (lengths_of map.now) (task.image.sigma * max_members + 0) 0) (get_or (targets_of map.now) task.image.sigma 0) }
    requires content { (k : Content) × ContentAt tr.now task.image.from k }
    requires room { task.at ≤ length out.old }
    ensures { (k : Content) → ContentAt tr.now task.image.from k → ReadsInto out.old out.new task.at result (held_at (model.follow_at (table_by target.now) (get_or (targets_of map.now) task.image.sigma 0) (path_at em.now map.now (task.image.sigma * max_members + 0)) (located task.image.from k))) }
{
    let at = task.at;
    let from = along(target, map, em, tr, sp, task.image, 0)?;
    let close = close_of(tr, sp, from);
    if out.len() - at < close - from {
        return None;
    }
    Some(copy(tr, from, close, out, at))
}

// Reads what a source element holds from what its image holds, and writes it. The loop reads one child a turn.
#[cycle(read_element_read_to)]
fn read_to<'a>(
    source: &[u16; TABLE],
    target: &[u16; TABLE],
    map: &[u16; MAP],
    em: &[u8],
    tr: &'a [u8],
    sp: &'a [u16],
    out: &mut [u8],
    task: ToRead,
) -> Option<usize>
    requires image { ImageThere source.now target.now map.now em.now tr.now sp.now task.image }
    requires room { task.at ≤ length out.old }
    ensures { (k : Content) → ContentAt tr.now task.image.from k → ReadsInto out.old out.new task.at result (read_as (setting_in source.now target.now map.now em.now) task.depth task.image.sigma (located task.image.from k)) }
{
    let image = task.image;
    let depth = task.depth;
    if depth == 0 {
        return None;
    }
    if loaded_table::kind(source, image.sigma) == TEXT {
        return read_text(target, map, em, tr, sp, out, task);
    }
    let mut cursor = begin(source, target, map, em, tr, sp, image).ok()?;
    let mut to = task.at;
    while let Some(child) = next(source, target, map, em, tr, sp, image, cursor).ok()? {
        let below = ToRead {
            image: child.image,
            depth: depth - 1,
            at: to,
        };
        to = read_element(source, target, map, em, tr, sp, out, below)?;
        cursor = child.then;
    }
    Some(to)
}

// Reads a source element from its image, and writes it with the bytes that open and close it.
#[cycle(read_element_read_to)]
fn read_element<'a>(
    source: &[u16; TABLE],
    target: &[u16; TABLE],
    map: &[u16; MAP],
    em: &[u8],
    tr: &'a [u8],
    sp: &'a [u16],
    out: &mut [u8],
    task: ToRead,
) -> Option<usize>
    requires image { ImageThere source.now target.now map.now em.now tr.now sp.now task.image }
    requires room { task.at ≤ length out.old }
    ensures { (k : Content) → ContentAt tr.now task.image.from k → ReadsInto out.old out.new task.at result (element_of task.image.sigma (read_as (setting_in source.now target.now map.now em.now) task.depth task.image.sigma (located task.image.from k))) }
{
    let at = task.at;
    if out.len() - at < ELEMENT_BYTES {
        return None;
    }
    let inside = put_open(out, at, task.image.sigma as u8);
    let content = ToRead { at: inside, ..task };
    let end = read_to(source, target, map, em, tr, sp, out, content)?;
    if end == out.len() {
        return None;
    }
    Some(put_close(out, end))
}

// Reads a whole target document: writes the source document that is read from it at the start of `out`. The document has
// fewer levels than bytes.
pub fn read_back<'a>(
    source: &[u16; TABLE],
    target: &[u16; TABLE],
    map: &[u16; MAP],
    em: &[u8],
    tr: &'a [u8],
    sp: &'a [u16],
    out: &mut [u8],
) -> Option<usize>
    requires spans { Spans tr.now sp.now }
    requires setting { Ready source.now target.now map.now em.now }
    requires document { (k : Content) × (tr.now ≡ document 0 k) }
    ensures { (k : Content) → tr.now ≡ document 0 k → BringsRead out.old out.new result (model.read_back (setting_in source.now target.now map.now em.now) k) }
{
    let whole = ToRead {
        image: Image { sigma: 0, from: 2 },
        depth: tr.len(),
        at: 0,
    };
    let end = read_element(source, target, map, em, tr, sp, out, whole)?;
    if end == out.len() {
        return None;
    }
    Some(put_end(out, end))
}
