// Judging an embedding between accepted tables: all its checks in paper 01's order, and the embedding loaded where none
// refuses it.

#![tactic(auto)]

ghost use Rattle.std.specs.Prelude.{◌≡◌};
ghost use Rattle.answers.specs.Answers.{judged};
ghost use Rattle.loaded_table.specs.Loaded.{table_by};
ghost use Rattle.loaded_embedding.specs.Loaded.{embedding_by, Cleared};
ghost use Rattle.embedding_clash.specs.Ready.{Checkable};
ghost use Rattle.embedding_judge.specs.Judging.{edge_checks, path_checks, Judgeable, EmbeddingJudged};

use answers::Fault;
use codes::MAX_BYTES;
use embedding_checks::{EdgeCheck, first_fault};
use embedding_ends::root::root_to_root;
use embedding_form::form::form;
use embedding_load::load;
use embedding_operands::limits::limits;
use embedding_operands::operands::operands;
use loaded_embedding::MAP;
use loaded_table::TABLE;

// Checks 8 to 10 of a loaded embedding, one after the other.
fn judge_each(
    source: &[u16; TABLE],
    target: &[u16; TABLE],
    em: &[u8],
    map: &[u16; MAP],
) -> Result<(), Fault>
    requires { Checkable source.now target.now em.now map.now }
    ensures { judged result ≡ edge_checks (table_by source.now) (table_by target.now) (embedding_by em.now (table_by source.now) map.now) }
{
    first_fault(EdgeCheck::Ends, source, target, em, map).map_err(Fault::WrongEnd)?;
    first_fault(EdgeCheck::Steps, source, target, em, map).map_err(Fault::WrongSteps)?;
    first_fault(EdgeCheck::Clashes, source, target, em, map).map_err(Fault::PathClash)
}

// Checks 7 to 10 of a loaded embedding. Where nothing is wrong one pass over the edges shows it; else the checks are made one
// after the other.
fn judge_paths(
    source: &[u16; TABLE],
    target: &[u16; TABLE],
    em: &[u8],
    map: &[u16; MAP],
) -> Result<(), Fault>
    requires { Checkable source.now target.now em.now map.now }
    ensures { judged result ≡ path_checks (table_by source.now) (table_by target.now) (embedding_by em.now (table_by source.now) map.now) }
{
    if !root_to_root(map) {
        return Err(Fault::RootMoved);
    }
    if first_fault(EdgeCheck::All, source, target, em, map).is_ok() {
        return Ok(());
    }
    judge_each(source, target, em, map)
}

// Judges an embedding's bytes, given the loaded source and target tables, and loads it into a cleared array where it is accepted.
pub fn judge(
    source: &[u16; TABLE],
    target: &[u16; TABLE],
    em: &[u8],
    map: &mut [u16; MAP],
) -> Result<(), Fault>
    requires judgeable { Judgeable source.now target.now }
    requires cleared { Cleared map.old }
    ensures { EmbeddingJudged (table_by source.now) (table_by target.now) em.now result map.new }
{
    if MAX_BYTES < em.len() {
        return Err(Fault::TooLong);
    }
    form(source, em).map_err(Fault::BadForm)?;
    limits(em).map_err(Fault::OverLimit)?;
    operands(target, em).map_err(Fault::BadOperand)?;
    load(source, em, map);
    judge_paths(source, target, em, map)
}
