// The judge of a tree document: paper 01's checks 1 to 4 and 11 in order, and the number of elements.
ghost use Rattle.std.specs.Prelude.{◌≡◌};
ghost use Rattle.answers.specs.Answers.{judged};
ghost use Rattle.loaded_table.specs.Loaded.{table_by, Bounded};
ghost use Rattle.tree_judge.specs.Judging.{judged_before, TreeJudged};

use answers::Fault;
use codes::MAX_BYTES;
use loaded_table::TABLE;
use tree_expected::expected;
use tree_form::form::form;
use tree_levels::count::count;
use tree_levels::levels::levels;
use tree_operands::operands::operands;
use tree_pass::elements;

// The number of a document's elements, or its fault, by a loaded table. A document that the one pass accepts is sound; else the
// checks say which of them fails first, and where.
pub fn judge(table: &[u16; TABLE], t: &[u8]) -> Result<usize, Fault>
    requires { Bounded table.now }
    ensures { TreeJudged (table_by table.now) t.now result }
{
    match elements(table, t) {
        Some(n) => Ok(n),
        None => by_checks(table, t),
    }
}

// The same by one check after the other: the first that fails gives the fault.
fn by_checks(table: &[u16; TABLE], t: &[u8]) -> Result<usize, Fault>
    requires { Bounded table.now }
    ensures { TreeJudged (table_by table.now) t.now result }
{
    checks(t, loaded_table::types(table))?;
    expected(table, t).map_err(Fault::Unexpected)?;
    Ok(count(t))
}

// The judgement by checks 1 to 4: length, form, levels and operands.
fn checks(t: &[u8], types: usize) -> Result<(), Fault>
    ensures { judged result ≡ judged_before types t.now }
{
    if MAX_BYTES < t.len() {
        return Err(Fault::TooLong);
    }
    form(t).map_err(Fault::BadForm)?;
    levels(t).map_err(Fault::OverLimit)?;
    operands(t, types).map_err(Fault::BadOperand)
}
