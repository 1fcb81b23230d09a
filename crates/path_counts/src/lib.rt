// The number of elements that paths build in the image of a source document: the elements of the templates of the
// setting are counted along the document.

#![tactic(auto)]

ghost use Rattle.std.specs.Prelude.{◌≡◌, min};
ghost use Rattle.model.specs.Definitions.Content.{content_of};
ghost use Rattle.model.specs.Definitions.Image.{image_by};
ghost use Rattle.model.proofs.Theorems.WithoutFiller.{built_of};
ghost use Rattle.loaded_table.specs.Loaded.{table_by};
ghost use Rattle.loaded_setting.specs.Ready.{setting_in, Ready};
ghost use Rattle.loaded_setting.specs.Trees.{SoundTree};
ghost use Rattle.path_elements.specs.PathElements.{Countable};

use loaded_embedding::MAP;
use loaded_table::TABLE;
use path_elements::path_elements;
use preparing::with_rows;

// Counts the elements that paths build in the image of a conforming source document.
pub fn count_path_elements<'a>(
    from: &'a [u16; TABLE],
    to: &'a [u16; TABLE],
    map: &'a [u16; MAP],
    em: &'a [u8],
    source: &'a [u8],
) -> usize
    requires setting { Ready from.now to.now map.now em.now }
    requires conforming { SoundTree (table_by from.now) source.now }
    ensures { result ≡ min 60001 (image_by built_of (setting_in from.now to.now map.now em.now) (content_of source.now)) }
{
    with_rows(
        from,
        to,
        map,
        em,
        &mut [],
        |pool: &[u8], places: &[u32], _out: &mut [u8]|
            requires { Countable from.now pool.now places.now source.now }
            ensures { (c : Countable from.entry.now pool.entry.now places.entry.now source.entry.now) → result ≡ min 60001 (image_by built_of (setting_in from.entry.now c.target c.map c.em) (content_of source.entry.now)) }
        { path_elements(from, pool, places, source) },
    )
}
