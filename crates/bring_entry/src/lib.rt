// What the entry that brings back answers and writes, for any bytes. Crate lafindry offers it to C.

#![tactic(auto)]

ghost use Rattle.model.specs.Definitions.Entries as model;
ghost use Rattle.answer_numbers.specs.Numbers.{Answers};
ghost use Rattle.outcomes.specs.Outcomes.{Counts};

use answer_numbers::Answer;
use answers::{Document, Refusal};
use loaded_embedding::MAP;
use loaded_table::TABLE;

// The source document of an image, after all documents are judged; or why one is refused.
fn brought<'a>(
    source: &[u8],
    target: &[u8],
    embedding: &'a [u8],
    tree: &'a [u8],
    output: &mut [u8],
) -> Result<usize, Refusal>
    ensures { Counts (model.bring_back source.now target.now embedding.now tree.now output.old) output.new result }
{
    let mut from = [0u16; TABLE];
    let mut to = [0u16; TABLE];
    let mut map = [0u16; MAP];
    setting_judge::judge(source, target, embedding, &mut from, &mut to, &mut map)?;
    match tree_judge::judge::judge(&to, tree) {
        Ok(_) => bringing::bring_back(&from, &to, &map, embedding, tree, output),
        Err(f) => Err(Refusal::Faulty(Document::Tree, f)),
    }
}

// Brings a document back, after all documents are judged: length of the source document.
pub fn bring_back<'a>(
    source: &[u8],
    target: &[u8],
    embedding: &'a [u8],
    tree: &'a [u8],
    output: &mut [u8],
) -> Answer
    ensures { Answers (model.bring_back source.now target.now embedding.now tree.now output.old) output.new result }
{
    Answer::from(brought(source, target, embedding, tree, output))
}
