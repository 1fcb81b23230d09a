// What the entry that reads along the paths answers and writes, for any bytes. Crate lafindry offers it to C.

#![tactic(auto)]

ghost use Rattle.model.specs.Definitions.Entries as model;
ghost use Rattle.answer_numbers.specs.Numbers.{Answers};
ghost use Rattle.outcomes.specs.Outcomes.{Writes};

use answer_numbers::Answer;
use answers::{Document, Refusal, Written};
use loaded_embedding::MAP;
use loaded_table::TABLE;

// The source document that is read along the paths, after all documents are judged; or why one is refused, or reading fails.
fn read<'a>(
    source: &[u8],
    target: &[u8],
    embedding: &'a [u8],
    tree: &'a [u8],
    output: &mut [u8],
) -> Result<Written, Refusal>
    ensures { Writes (model.read_along source.now target.now embedding.now tree.now output.old) output.new result }
{
    let mut from = [0u16; TABLE];
    let mut to = [0u16; TABLE];
    let mut map = [0u16; MAP];
    setting_judge::judge(source, target, embedding, &mut from, &mut to, &mut map)?;
    match tree_judge::judge::judge(&to, tree) {
        Ok(elements) => reading_along::read_along(
            &from, &to, &map, embedding, tree, elements, output,
        ),
        Err(f) => Err(Refusal::Faulty(Document::Tree, f)),
    }
}

// Reads a document along the paths, after all documents are judged: length of the source document, and number of target elements, the
// root aside, on no followed path.
pub fn read_along<'a>(
    source: &[u8],
    target: &[u8],
    embedding: &'a [u8],
    tree: &'a [u8],
    output: &mut [u8],
) -> Answer
    ensures { Answers (model.read_along source.now target.now embedding.now tree.now output.old) output.new result }
{
    Answer::from(read(source, target, embedding, tree, output))
}
