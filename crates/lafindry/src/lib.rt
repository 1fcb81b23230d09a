// The entries that a C program calls, each on any bytes. include/lafindry.h declares them.

#![tactic(auto)]

ghost use Rattle.model.specs.Definitions.Decimal.{DecimalWritten};
ghost use Rattle.lafindry.specs.Calls.{JudgeTableCall, JudgeEmbeddingCall, ExplainClashCall, ExtendTableCall, JudgeTreeCall, CarryCall, BringBackCall, ReadAlongCall};

use answer_numbers::{Answer, ExplanationNumbers};

// Judges a table: number of types.
#[unsafe(no_mangle)]
pub extern "C" fn lafindry_judge_table(table: &[u8]) -> Answer
    ensures { JudgeTableCall table.now result }
{
    judge_entries::judge_table(table)
}

// Judges an embedding, after both tables: number of edges.
#[unsafe(no_mangle)]
pub extern "C" fn lafindry_judge_embedding(source: &[u8], target: &[u8], embedding: &[u8]) -> Answer
    ensures { JudgeEmbeddingCall source.now target.now embedding.now result }
{
    judge_entries::judge_embedding(source, target, embedding)
}

// Judges an embedding, after both tables, and explains the answer where two paths clash.
#[unsafe(no_mangle)]
pub extern "C" fn lafindry_explain_clash(
    source: &[u8],
    target: &[u8],
    embedding: &[u8],
) -> ExplanationNumbers
    ensures { ExplainClashCall source.now target.now embedding.now result }
{
    ExplanationNumbers::from(explaining::explain(source, target, embedding))
}

// Judges a tree, after its table: number of elements.
#[unsafe(no_mangle)]
pub extern "C" fn lafindry_judge_tree(table: &[u8], tree: &[u8]) -> Answer
    ensures { JudgeTreeCall table.now tree.now result }
{
    judge_entries::judge_tree(table, tree)
}

// Carries a document, after all documents are judged: length of the image and number of filler elements.
#[unsafe(no_mangle)]
pub extern "C" fn lafindry_carry<'a>(
    source: &[u8],
    target: &[u8],
    embedding: &'a [u8],
    tree: &'a [u8],
    output: &mut [u8],
) -> Answer
    ensures { CarryCall source.now target.now embedding.now tree.now output.old output.new result }
{
    carry_entry::carry(source, target, embedding, tree, output)
}

// Brings a document back, after all documents are judged: length of the source document.
#[unsafe(no_mangle)]
pub extern "C" fn lafindry_bring_back<'a>(
    source: &[u8],
    target: &[u8],
    embedding: &'a [u8],
    tree: &'a [u8],
    output: &mut [u8],
) -> Answer
    ensures { BringBackCall source.now target.now embedding.now tree.now output.old output.new result }
{
    bring_entry::bring_back(source, target, embedding, tree, output)
}

// Reads a document along the paths, after all documents are judged: length of the source document, and number of target elements, the
// root aside, on no followed path.
#[unsafe(no_mangle)]
pub extern "C" fn lafindry_read_along<'a>(
    source: &[u8],
    target: &[u8],
    embedding: &'a [u8],
    tree: &'a [u8],
    output: &mut [u8],
) -> Answer
    ensures { ReadAlongCall source.now target.now embedding.now tree.now output.old output.new result }
{
    read_entry::read_along(source, target, embedding, tree, output)
}

// Extends a table by the operations of a document: length of the report that is written.
#[unsafe(no_mangle)]
pub extern "C" fn lafindry_extend_table(
    table: &[u8],
    operations: &[u8],
    output: &mut [u8],
) -> Answer
    ensures { ExtendTableCall table.now operations.now output.old output.new result }
{
    extending::extend(table, operations, output)
}

// Writes a number in decimal at the start of the output: number of digits, or 0 where there is no room for them.
#[unsafe(no_mangle)]
pub extern "C" fn lafindry_decimal(number: u64, output: &mut [u8]) -> usize
    ensures { DecimalWritten number output.old output.new result }
{
    decimal::write_decimal(number, output)
}
