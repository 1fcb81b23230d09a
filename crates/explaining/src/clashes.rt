// The first path of a loaded embedding that clashes with an earlier one of its source type.
ghost use Rattle.std.specs.Prelude.{◌≡◌, ◌<◌};
ghost use Rattle.answers.specs.Answers.{search};
ghost use Rattle.loaded_table.specs.Loaded.{table_by, types_in};
ghost use Rattle.loaded_embedding.specs.Loaded.{embedding_by};
ghost use Rattle.embedding_clash.specs.Ready.{map_of, Checkable};
ghost use Rattle.model.specs.Definitions.Table.{kind_of};
ghost use Rattle.model.specs.Definitions.Explanation.{clash_of_type, clash_of};

use answers::Clash;
use codes::MAX_MEMBERS;
use embedding_clash::clash::first_clash;
use embedding_clash::path::paths_of;
use embedding_form::edges::edges_of;
use loaded_embedding::MAP;
use loaded_table::TABLE;

// The first clash of an embedding.
pub fn clash_of(
    source: &[u16; TABLE],
    target: &[u16; TABLE],
    em: &[u8],
    map: &[u16; MAP],
) -> Option<Clash>
    requires { Checkable source.now target.now em.now map.now }
    ensures { search result ≡ clash_of (table_by source.now) (table_by target.now) (embedding_by em.now (table_by source.now) map.now) }
{
    let types = loaded_table::types(source);
    for s in 0..types {
        if let Some(clash) = clash_of_type(source, target, em, map, s) {
            return Some(clash);
        }
    }
    None
}

// The first clash of source type `s`.
fn clash_of_type(
    source: &[u16; TABLE],
    target: &[u16; TABLE],
    em: &[u8],
    map: &[u16; MAP],
    s: usize,
) -> Option<Clash>
    requires checkable { Checkable source.now target.now em.now map.now }
    requires s_bound { s < types_in source.now }
    ensures { search result ≡ clash_of_type (table_by target.now) (kind_of (table_by source.now) s) (map_of source.now em.now map.now s) s }
{
    let n = edges_of(source, s);
    let paths = paths_of(em, map, s * MAX_MEMBERS, n);
    for i in 0..n {
        if let Some(clash) = first_clash(source, target, em, map, s, i, &paths) {
            return Some(clash);
        }
    }
    None
}
