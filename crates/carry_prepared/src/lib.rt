// Carrying a source document by prepared templates: its image is measured by them, refused where it is beyond the limits or has no
// room, and only then written, straight into the lent output.

#![tactic(auto)]

ghost use Rattle.std.specs.Prelude.{List, ℕ, ◌≤◌, length};
ghost use Rattle.loaded_setting.specs.Ready.{setting_in};
ghost use Rattle.writing.specs.Writing.{Writes};
ghost use Rattle.row_traversal.specs.Asked.{ImageAsked};
ghost use Rattle.filling.specs.Room.{ImageFits};
ghost use Rattle.carry_prepared.specs.Carrying.{Carriable, Carries};
ghost use Rattle.model.specs.Definitions.Refusals.{max_length};

use answers::{Refusal, Written};
use codes::{ELEMENT_BYTES, MAX_BYTES, MAX_LEVELS};
use filling::write_image;
use loaded_embedding::MAP;
use loaded_table::TABLE;
use measuring::measure;
use scanning::spans::{SHORT, fill_spans};

// Writes the image of the document `tr`, whose spans go to a buffer that is at least as long.
fn write_with<'a>(
    source: &'a [u16; TABLE],
    pool: &'a [u8],
    places: &'a [u32],
    tr: &'a [u8],
    spans: &mut [u16],
    out: &mut [u8],
) -> usize
    requires task { ImageFits (ImageAsked source.now pool.now places.now tr.now) 0 (length out.old) }
    requires short { (length tr.now ≤ max_length) × (length tr.now ≤ length spans.old) }
    ensures { (bs : List ℕ) → ImageAsked source.now pool.now places.now tr.now bs → Writes out.old out.new 0 bs result }
{
    fill_spans(tr, spans);
    write_image(source, pool, places, tr, &spans[..], out)
}

// Writes the image of the document `tr`. For a short one a short buffer of spans does, and need not be cleared at length.
fn write<'a>(
    source: &'a [u16; TABLE],
    pool: &'a [u8],
    places: &'a [u32],
    tr: &'a [u8],
    out: &mut [u8],
) -> usize
    requires task { ImageFits (ImageAsked source.now pool.now places.now tr.now) 0 (length out.old) }
    requires short { length tr.now ≤ max_length }
    ensures { (bs : List ℕ) → ImageAsked source.now pool.now places.now tr.now bs → Writes out.old out.new 0 bs result }
{
    if tr.len() <= SHORT {
        let mut spans = [0u16; SHORT];
        return write_with(source, pool, places, tr, &mut spans, out);
    }
    let mut spans = [0u16; MAX_BYTES];
    write_with(source, pool, places, tr, &mut spans, out)
}

// Carries by prepared templates: measures, then writes.
pub fn carry_prepared<'a>(
    source: &'a [u16; TABLE],
    map: &'a [u16; MAP],
    pool: &'a [u8],
    places: &'a [u32],
    sizes: &'a [u16],
    tr: &'a [u8],
    out: &mut [u8],
) -> Result<Written, Refusal>
    requires { Carriable source.now map.now pool.now places.now sizes.now tr.now }
    ensures { (g : Carriable source.now map.now pool.now places.now sizes.now tr.now) → Carries (setting_in source.now g.target map.now g.em) tr.now out.old out.new result }
{
    let size = measure(source, map, sizes, tr);
    if MAX_LEVELS < size.levels {
        return Err(Refusal::ImageTooDeep);
    }
    if MAX_BYTES < size.bytes {
        return Err(Refusal::ImageTooLong);
    }
    if out.len() < size.bytes {
        return Err(Refusal::OutputTooShort);
    }
    let length = write(source, pool, places, tr, out);
    Ok(Written {
        length,
        filler: size.filler / ELEMENT_BYTES,
    })
}
