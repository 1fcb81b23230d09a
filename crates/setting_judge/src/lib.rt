// Judging two tables and an embedding between them, in paper 01's order, and loading all three where none is refused.

#![tactic(auto)]

ghost use Rattle.std.specs.Prelude.{◌≡◌, length};
ghost use Rattle.loaded_embedding.specs.Loaded.{Cleared};
ghost use Rattle.setting_judge.specs.Judging.{ByVerdict};
ghost use Rattle.loaded_table.specs.Loaded.{table_size};

use answers::{Document, Refusal};
use loaded_embedding::MAP;
use loaded_table::TABLE;

// Judges the three documents' bytes, each by all its checks before the next. Where all are accepted they are loaded; else
// nothing is said of the arrays. A fault is handed up by an `if`: the closure that `map_err` would need gets no proof that serves.
pub fn judge(
    source: &[u8],
    target: &[u8],
    embedding: &[u8],
    from: &mut [u16; TABLE],
    to: &mut [u16; TABLE],
    map: &mut [u16; MAP],
) -> Result<(), Refusal>
    requires { (length from.old ≡ table_size) × (length to.old ≡ table_size) × Cleared map.old }
    ensures { ByVerdict source.now target.now embedding.now from.new to.new map.new result }
{
    if let Err(f) = table_judge::judge(source, from) {
        return Err(Refusal::Faulty(Document::SourceTable, f));
    }
    if let Err(f) = table_judge::judge(target, to) {
        return Err(Refusal::Faulty(Document::TargetTable, f));
    }
    if let Err(f) = embedding_judge::judge(from, to, embedding, map) {
        return Err(Refusal::Faulty(Document::Embedding, f));
    }
    Ok(())
}
