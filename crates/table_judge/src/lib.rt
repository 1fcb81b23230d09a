// Judging a table: all its checks in paper 01's order, and the loaded table where none refuses it.

#![tactic(auto)]

ghost use Rattle.std.specs.Prelude.{◌≡◌, length};
ghost use Rattle.model.specs.Definitions.Basics.{passes};
ghost use Rattle.model.specs.Definitions.TableChecks.{table_form, table_limits};
ghost use Rattle.table_judge.specs.Judging.{TableJudged, AfterLimits};
ghost use Rattle.loaded_table.specs.Loaded.{table_size};

use answers::Fault;
use codes::MAX_BYTES;
use loaded_table::{TABLE, types};

// Judges a table whose form and limits are right: loads it, then makes checks 4, 5 and 6.
fn judge_loaded(t: &[u8], table: &mut [u16; TABLE]) -> Result<(), Fault>
    requires { (length table.old ≡ table_size) × (table_form t.now ≡ passes) × (table_limits t.now ≡ passes) }
    ensures { AfterLimits t.now result table.new }
{
    table_load::load(t, table);
    table_operands::operands::operands(t, types(table)).map_err(Fault::BadOperand)?;
    if let Err(at) = table_operands::repeats::repeats(t) {
        return Err(Fault::RepeatedMember(at));
    }
    table_heights::find_heights(table);
    table_heights::first_endless(table).map_err(Fault::NoFiniteInstance)?;
    table_fill::find_fill(table);
    Ok(())
}

// Judges a table's bytes. Where they are accepted, the array then holds the table; where they are refused, anything.
pub fn judge(t: &[u8], table: &mut [u16; TABLE]) -> Result<(), Fault>
    requires { length table.old ≡ table_size }
    ensures { TableJudged t.now result table.new }
{
    if MAX_BYTES < t.len() {
        return Err(Fault::TooLong);
    }
    // Where a table is right, one pass shows it; the single checks say which fails where.
    if !table_limits::formed::formed(t) {
        table_form::form::form(t).map_err(Fault::BadForm)?;
        table_limits::limits::limits(t).map_err(Fault::OverLimit)?;
    }
    judge_loaded(t, table)
}
