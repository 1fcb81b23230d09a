// Bringing an image back by loaded tables and a loaded embedding: the source is read along the paths into a local buffer, the
// given document is compared with its image along the templates, and only then is the source written to the lent output.

#![tactic(auto)]

ghost use Rattle.std.specs.Prelude.{◌≤◌, length};
ghost use Rattle.loaded_table.specs.Loaded.{table_by};
ghost use Rattle.loaded_setting.specs.Ready.{setting_in, Ready};
ghost use Rattle.loaded_setting.specs.Trees.{SoundTree};
ghost use Rattle.inverse.specs.Sources.{ReadFrom};
ghost use Rattle.bringing.specs.Bringing.{Brings};
ghost use Rattle.model.specs.Definitions.Refusals.{max_length};

use answers::Refusal;
use codes::MAX_BYTES;
use comparing::is_image;
use inverse::read_back;
use loaded_embedding::MAP;
use loaded_table::TABLE;
use scanning::spans::{SHORT, fill_spans};
use writing::copy;

// Writes the source document `source`, which was read from `tr`, if `tr` is its image and there is room for it. Its spans go to a
// buffer that is at least as long.
fn give<'a>(
    from: &'a [u16; TABLE],
    to: &'a [u16; TABLE],
    map: &'a [u16; MAP],
    em: &'a [u8],
    source: &'a [u8],
    tr: &'a [u8],
    spans: &mut [u16],
    out: &mut [u8],
) -> Result<usize, Refusal>
    requires setting { Ready from.now to.now map.now em.now }
    requires target { SoundTree (table_by to.now) tr.now }
    requires reading { ReadFrom (setting_in from.now to.now map.now em.now) tr.now source.now }
    requires room { length source.now ≤ length spans.old }
    ensures { Brings (setting_in from.now to.now map.now em.now) tr.now out.old out.new result }
{
    fill_spans(source, spans);
    if !is_image(from, to, map, em, source, &spans[..], tr) {
        return Err(Refusal::NoImage);
    }
    let n = source.len();
    if out.len() < n {
        return Err(Refusal::OutputTooShort);
    }
    Ok(copy(source, 0, n, out, 0))
}

// Brings back `tr` by way of two buffers that are at least as long: what is read goes to the first; the lengths of what elements
// hold, of `tr` and then of the source, to the second.
fn bring_through<'a>(
    from: &'a [u16; TABLE],
    to: &'a [u16; TABLE],
    map: &'a [u16; MAP],
    em: &'a [u8],
    tr: &'a [u8],
    buffer: &mut [u8],
    spans: &mut [u16],
    out: &mut [u8],
) -> Result<usize, Refusal>
    requires setting { Ready from.now to.now map.now em.now }
    requires target { SoundTree (table_by to.now) tr.now }
    requires within { (length tr.now ≤ length buffer.old) × (length buffer.old ≤ max_length) × (length buffer.old ≤ length spans.old) }
    ensures { Brings (setting_in from.now to.now map.now em.now) tr.now out.old out.new result }
{
    fill_spans(tr, spans);
    let Some(n) = read_back(from, to, map, em, tr, &spans[..], buffer) else {
        return Err(Refusal::NoImage);
    };
    give(from, to, map, em, &buffer[..n], tr, spans, out)
}

// Brings back the document `tr`, which conforms to the target table. For a short one short buffers do, and need not be cleared at
// length.
pub fn bring_back<'a>(
    from: &'a [u16; TABLE],
    to: &'a [u16; TABLE],
    map: &'a [u16; MAP],
    em: &'a [u8],
    tr: &'a [u8],
    out: &mut [u8],
) -> Result<usize, Refusal>
    requires setting { Ready from.now to.now map.now em.now }
    requires target { SoundTree (table_by to.now) tr.now }
    ensures { Brings (setting_in from.now to.now map.now em.now) tr.now out.old out.new result }
{
    if tr.len() <= SHORT {
        let mut buffer = [0u8; SHORT];
        let mut spans = [0u16; SHORT];
        return bring_through(from, to, map, em, tr, &mut buffer, &mut spans, out);
    }
    let mut buffer = [0u8; MAX_BYTES];
    let mut spans = [0u16; MAX_BYTES];
    bring_through(from, to, map, em, tr, &mut buffer, &mut spans, out)
}
