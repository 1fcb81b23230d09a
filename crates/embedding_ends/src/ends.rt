// Check 8 for one edge: its path ends at the right type.
ghost use Rattle.std.specs.Prelude.{◌≡◌, ◌<◌};
ghost use Rattle.loaded_table.specs.Loaded.{table_by, types_in};
ghost use Rattle.loaded_embedding.specs.Loaded.{embedding_by};
ghost use Rattle.model.specs.Definitions.Table.{kind_of, edges_of};
ghost use Rattle.model.specs.Definitions.Embedding.{edge_of, end_of};
ghost use Rattle.embedding_clash.specs.Ready.{map_of, Checkable};
ghost use Rattle.embedding_ends.specs.Ends.{end_right};

use loaded_embedding::MAP;
use loaded_table::{TABLE, TEXT};

// Whether the path of edge `i` of source type `s` may end where it does, at type `end`: characters at a text type, a member
// or an item at the type that it is mapped to.
pub fn right_end(
    source: &[u16; TABLE],
    target: &[u16; TABLE],
    em: &[u8],
    map: &[u16; MAP],
    s: usize,
    i: usize,
    end: usize,
) -> bool
    requires checkable { Checkable source.now target.now em.now map.now }
    requires s_bound { s < types_in source.now }
    requires i_bound { i < edges_of (kind_of (table_by source.now) s) }
    requires end_value { end ≡ end_of (table_by target.now) (map_of source.now em.now map.now s).target (edge_of (map_of source.now em.now map.now s) i).steps }
    ensures { result ≡ end_right (embedding_by em.now (table_by source.now) map.now) (table_by target.now) (kind_of (table_by source.now) s) (map_of source.now em.now map.now s) i }
{
    if loaded_table::kind(source, s) == TEXT {
        loaded_table::kind(target, end) == TEXT
    } else {
        end == loaded_embedding::target(map, loaded_table::member(source, s, i))
    }
}
