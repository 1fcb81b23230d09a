// Check 7: the root is mapped to the root.
ghost use Rattle.std.specs.Prelude.{◌≡◌, List, ℕ, ◌<◌, length};
ghost use Rattle.loaded_embedding.specs.Loaded.{embedding_by};
ghost use Rattle.model.specs.Definitions.Table.{Table};
ghost use Rattle.model.specs.Definitions.EmbeddingChecks.{root_to_root};

use loaded_embedding::MAP;

// Whether source type 0 is mapped to target type 0, in every embedding of a source table with a type that this array
// stands for.
pub fn root_to_root(map: &[u16; MAP]) -> bool
    ensures { (em : List ℕ) (S : Table) → 0 < length S → result ≡ root_to_root (embedding_by em S map.now) }
{
    loaded_embedding::target(map, 0) == 0
}
