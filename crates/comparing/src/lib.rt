// Whether a document is the image of a source document: it is compared along the templates of the setting.

#![tactic(auto)]

ghost use Rattle.std.specs.Prelude.{◌≡◌, List, ℕ, true, ◌↔◌};
ghost use Rattle.row_traversal.specs.Asked.{ImageAsked};
ghost use Rattle.model.specs.Definitions.Content.{content_of, document};
ghost use Rattle.model.specs.Definitions.Image.{image};
ghost use Rattle.loaded_table.specs.Loaded.{table_by};
ghost use Rattle.loaded_setting.specs.Ready.{setting_in, Ready};
ghost use Rattle.loaded_setting.specs.Trees.{SoundTree};
ghost use Rattle.scanning.specs.Spanning.{Spans};

use loaded_embedding::MAP;
use loaded_table::TABLE;
use preparing::with_rows;

// Whether `tr` is the image of `source`, whose spans are given.
pub fn is_image<'a>(
    from: &'a [u16; TABLE],
    to: &'a [u16; TABLE],
    map: &'a [u16; MAP],
    em: &'a [u8],
    source: &'a [u8],
    spans: &'a [u16],
    tr: &'a [u8],
) -> bool
    requires setting { Ready from.now to.now map.now em.now }
    requires conforming { SoundTree (table_by from.now) source.now }
    requires spans { Spans source.now spans.now }
    ensures { (result ≡ true) ↔ (document 0 (image (setting_in from.now to.now map.now em.now) (content_of source.now)) ≡ tr.now) }
{
    with_rows(
        from,
        to,
        map,
        em,
        &mut [],
        |pool: &[u8], places: &[u32], _out: &mut [u8]|
            requires spans { Spans source.now spans.now }
            requires task { (bs : List ℕ) × ImageAsked from.now pool.now places.now source.now bs }
            ensures { (bs : List ℕ) → ImageAsked from.entry.now pool.entry.now places.entry.now source.entry.now bs → (result ≡ true) ↔ (bs ≡ tr.entry.now) }
        { matching::is_image(from, pool, places, source, spans, tr) },
    )
}
