// Reading a target document along the paths by loaded tables and a loaded embedding: the source is read into a local buffer, the
// elements on followed paths are counted by it, and only then is it written to the lent output.

#![tactic(auto)]

ghost use Rattle.std.specs.Prelude.{◌≡◌, List, ℕ, ◌+◌, ◌≤◌, ◌<◌, length};
ghost use Rattle.model.specs.Definitions.Content.{Content, content_of};
ghost use Rattle.model.specs.Definitions.Inverse.{yields, missing, reading};
ghost use Rattle.model.specs.Definitions.Refusals.{max_length};
ghost use Rattle.loaded_table.specs.Loaded.{table_by};
ghost use Rattle.loaded_setting.specs.Ready.{setting_in, Ready};
ghost use Rattle.loaded_setting.specs.Trees.{SoundTree};
ghost use Rattle.scanning.specs.Spanning.{Spans};
ghost use Rattle.inverse.specs.Sources.{ReadFrom};
ghost use Rattle.reading_along.specs.Along.{SourceIn, Counted, Reads};

use answers::{Refusal, Written};
use children::Image;
use codes::MAX_BYTES;
use inverse::read_back;
use loaded_embedding::MAP;
use loaded_table::TABLE;
use path_counts::count_path_elements;
use scanning::spans::{SHORT, fill_spans};
use unreadable::find_lost;
use writing::copy;

// Where reading fails, where it is known to.
fn lost_at<'a>(
    from: &'a [u16; TABLE],
    to: &'a [u16; TABLE],
    map: &'a [u16; MAP],
    em: &'a [u8],
    tr: &'a [u8],
    spans: &'a [u16],
) -> usize
    requires setting { Ready from.now to.now map.now em.now }
    requires target { SoundTree (table_by to.now) tr.now }
    requires spans { Spans tr.now spans.now }
    requires fails { (j : Content) → reading (setting_in from.now to.now map.now em.now) (content_of tr.now) ≡ yields j → ⊥ }
    ensures { reading (setting_in from.now to.now map.now em.now) (content_of tr.now) ≡ missing result }
{
    let root = Image { sigma: 0, from: 2 };
    match find_lost(from, to, map, em, tr, spans, root, tr.len()) {
        Some(at) => at,
        None => 0,
    }
}

// Reads `tr` by way of two buffers that are at least as long: what is read goes to the first, the lengths of what elements hold to the
// second. What was read ends at an offset of the buffer; or the first source element whose paths can't be followed stands at this
// offset.
fn read_source<'a>(
    from: &'a [u16; TABLE],
    to: &'a [u16; TABLE],
    map: &'a [u16; MAP],
    em: &'a [u8],
    tr: &'a [u8],
    buffer: &mut [u8],
    spans: &mut [u16],
) -> Result<usize, usize>
    requires setting { Ready from.now to.now map.now em.now }
    requires target { SoundTree (table_by to.now) tr.now }
    requires within { (length tr.now ≤ length buffer.old) × (length buffer.old ≤ max_length) × (length buffer.old ≤ length spans.old) }
    ensures { SourceIn result (setting_in from.now to.now map.now em.now) tr.now buffer.new }
{
    fill_spans(tr, spans);
    match read_back(from, to, map, em, tr, &spans[..], buffer) {
        Some(n) => Ok(n),
        None => Err(lost_at(from, to, map, em, tr, &spans[..])),
    }
}

// How many of a document's elements, the root aside, are on no followed path, where paths lead to `built` of them.
fn left_out(elements: usize, built: usize) -> usize
    requires { built < elements }
    ensures { 1 + built + result ≡ elements }
{
    elements - 1 - built
}

// Writes the source document `source`, which was read from a document of so many elements, if there is room for it.
fn give<'a>(
    from: &'a [u16; TABLE],
    to: &'a [u16; TABLE],
    map: &'a [u16; MAP],
    em: &'a [u8],
    source: &'a [u8],
    elements: usize,
    out: &mut [u8],
) -> Result<Written, Refusal>
    requires setting { Ready from.now to.now map.now em.now }
    requires reading { (tr : List ℕ) × Counted (setting_in from.now to.now map.now em.now) tr elements × ReadFrom (setting_in from.now to.now map.now em.now) tr source.now }
    ensures { (tr : List ℕ) → Counted (setting_in from.now to.now map.now em.now) tr elements → ReadFrom (setting_in from.now to.now map.now em.now) tr source.now → Reads (setting_in from.now to.now map.now em.now) tr out.old out.new result }
{
    let n = source.len();
    if out.len() < n {
        return Err(Refusal::OutputTooShort);
    }
    let built = count_path_elements(from, to, map, em, source);
    let filler = left_out(elements, built);
    let length = copy(source, 0, n, out, 0);
    Ok(Written { length, filler })
}

// What was read into the buffer, written; or where reading failed.
fn finish<'a>(
    from: &'a [u16; TABLE],
    to: &'a [u16; TABLE],
    map: &'a [u16; MAP],
    em: &'a [u8],
    read: Result<usize, usize>,
    buffer: &'a [u8],
    elements: usize,
    out: &mut [u8],
) -> Result<Written, Refusal>
    requires setting { Ready from.now to.now map.now em.now }
    requires reading { (tr : List ℕ) × Counted (setting_in from.now to.now map.now em.now) tr elements × SourceIn read (setting_in from.now to.now map.now em.now) tr buffer.now }
    ensures { (tr : List ℕ) → Counted (setting_in from.now to.now map.now em.now) tr elements → SourceIn read (setting_in from.now to.now map.now em.now) tr buffer.now → Reads (setting_in from.now to.now map.now em.now) tr out.old out.new result }
{
    match read {
        Ok(n) => give(from, to, map, em, &buffer[..n], elements, out),
        Err(at) => Err(Refusal::Unreadable(at)),
    }
}

// Reads the document `tr`, which conforms to the target table and has so many elements, along the paths. For a short one short buffers
// do, and need not be cleared at length.
pub fn read_along<'a>(
    from: &'a [u16; TABLE],
    to: &'a [u16; TABLE],
    map: &'a [u16; MAP],
    em: &'a [u8],
    tr: &'a [u8],
    elements: usize,
    out: &mut [u8],
) -> Result<Written, Refusal>
    requires setting { Ready from.now to.now map.now em.now }
    requires target { Counted (setting_in from.now to.now map.now em.now) tr.now elements }
    ensures { Reads (setting_in from.now to.now map.now em.now) tr.now out.old out.new result }
{
    if tr.len() <= SHORT {
        let mut buffer = [0u8; SHORT];
        let mut spans = [0u16; SHORT];
        let read = read_source(from, to, map, em, tr, &mut buffer, &mut spans);
        return finish(from, to, map, em, read, &buffer, elements, out);
    }
    let mut buffer = [0u8; MAX_BYTES];
    let mut spans = [0u16; MAX_BYTES];
    let read = read_source(from, to, map, em, tr, &mut buffer, &mut spans);
    finish(from, to, map, em, read, &buffer, elements, out)
}
