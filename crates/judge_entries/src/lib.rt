// What the three entries that judge answer, for any bytes. Crate lafindry offers them to C.

#![tactic(auto)]

ghost use Rattle.std.specs.Prelude.{◌≡◌};
ghost use Rattle.answers.specs.Answers.{counted_result};
ghost use Rattle.answer_numbers.specs.Numbers.{numbers};
ghost use Rattle.model.specs.Definitions.Entries.{answer_of, judge_table, judge_embedding, judge_tree};

use answer_numbers::Answer;
use answers::{Document, Refusal};
use embedding_form::count::edge_count;
use loaded_embedding::MAP;
use loaded_table::{TABLE, types};

// The number of types of a table, or why it is refused.
fn table_types(table: &[u8]) -> Result<usize, Refusal>
    ensures { counted_result result ≡ judge_table table.now }
{
    let mut loaded = [0u16; TABLE];
    match table_judge::judge(table, &mut loaded) {
        Ok(()) => Ok(types(&loaded)),
        Err(f) => Err(Refusal::Faulty(Document::SourceTable, f)),
    }
}

// Judges a table: number of types.
pub fn judge_table(table: &[u8]) -> Answer
    ensures { numbers result ≡ answer_of (judge_table table.now) }
{
    Answer::from(table_types(table))
}

// The number of elements of a tree, after its table, or why one of them is refused.
fn tree_elements(table: &[u8], tree: &[u8]) -> Result<usize, Refusal>
    ensures { counted_result result ≡ judge_tree table.now tree.now }
{
    let mut loaded = [0u16; TABLE];
    if let Err(f) = table_judge::judge(table, &mut loaded) {
        return Err(Refusal::Faulty(Document::SourceTable, f));
    }
    match tree_judge::judge::judge(&loaded, tree) {
        Ok(n) => Ok(n),
        Err(f) => Err(Refusal::Faulty(Document::Tree, f)),
    }
}

// Judges a tree, after its table: number of elements.
pub fn judge_tree(table: &[u8], tree: &[u8]) -> Answer
    ensures { numbers result ≡ answer_of (judge_tree table.now tree.now) }
{
    Answer::from(tree_elements(table, tree))
}

// The number of edges of an embedding, after both tables, or why one of the three is refused.
fn embedding_edges(source: &[u8], target: &[u8], embedding: &[u8]) -> Result<usize, Refusal>
    ensures { counted_result result ≡ judge_embedding source.now target.now embedding.now }
{
    let mut from = [0u16; TABLE];
    let mut to = [0u16; TABLE];
    let mut map = [0u16; MAP];
    setting_judge::judge(source, target, embedding, &mut from, &mut to, &mut map)?;
    Ok(edge_count(&from))
}

// Judges an embedding, after both tables: number of edges.
pub fn judge_embedding(source: &[u8], target: &[u8], embedding: &[u8]) -> Answer
    ensures { numbers result ≡ answer_of (judge_embedding source.now target.now embedding.now) }
{
    Answer::from(embedding_edges(source, target, embedding))
}
