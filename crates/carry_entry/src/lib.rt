// What the entry `carry` answers and writes, for any bytes. Crate lafindry offers it to C.

#![tactic(auto)]

ghost use Rattle.model.specs.Definitions.Entries as model;
ghost use Rattle.answer_numbers.specs.Numbers.{Answers};
ghost use Rattle.outcomes.specs.Outcomes.{Writes};

use answer_numbers::Answer;
use answers::{Document, Refusal, Written};
use loaded_embedding::MAP;
use loaded_table::TABLE;

// The image of a document, after all documents are judged; or why one is refused, or the image.
fn carried<'a>(
    source: &[u8],
    target: &[u8],
    embedding: &'a [u8],
    tree: &'a [u8],
    output: &mut [u8],
) -> Result<Written, Refusal>
    ensures { Writes (model.carry source.now target.now embedding.now tree.now output.old) output.new result }
{
    let mut from = [0u16; TABLE];
    let mut to = [0u16; TABLE];
    let mut map = [0u16; MAP];
    setting_judge::judge(source, target, embedding, &mut from, &mut to, &mut map)?;
    match tree_judge::judge::judge(&from, tree) {
        Ok(_) => carrying::carry(&from, &to, &map, embedding, tree, output),
        Err(f) => Err(Refusal::Faulty(Document::Tree, f)),
    }
}

// Carries a document, after all documents are judged: length of the image and number of filler elements.
pub fn carry<'a>(
    source: &[u8],
    target: &[u8],
    embedding: &'a [u8],
    tree: &'a [u8],
    output: &mut [u8],
) -> Answer
    ensures { Answers (model.carry source.now target.now embedding.now tree.now output.old) output.new result }
{
    Answer::from(carried(source, target, embedding, tree, output))
}
