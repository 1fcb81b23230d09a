// Explaining why an embedding's paths clash, after judging it: which two members of which source type, and why. For any other embedding
// the judging answer.

#![tactic(auto)]

pub mod clashes;

ghost use Rattle.std.specs.Prelude.{◌≡◌, eqb, Err};
ghost use Rattle.answers.specs.Answers as answers;
ghost use Rattle.model.specs.Definitions.Refusals.{fault_number};
ghost use Rattle.model.specs.Definitions.Entries.{answer_of};
ghost use Rattle.model.specs.Definitions.Explanation as model;

use answers::{Explanation, Fault, Refusal};
use clashes::clash_of;
use embedding_form::count::edge_count;
use loaded_embedding::MAP;
use loaded_table::TABLE;

// Whether a fault is a clash, refusal 10.
fn is_clash(f: Fault) -> bool
    ensures { result ≡ eqb (fault_number (answers.fault f)) 10 }
{
    match f {
        Fault::PathClash(_) => true,
        _ => false,
    }
}

// Whether a refusal is one for a clash.
fn for_clash(why: Refusal) -> bool
    ensures { result ≡ eqb (answer_of (answers.counted_result (Err why))).refusal 10 }
{
    match why {
        Refusal::Faulty(_, f) => is_clash(f),
        _ => false,
    }
}

// The explanation of a refusal that has none: the refusal itself.
fn unexplained(why: Refusal) -> Explanation
    ensures { answers.explanation result ≡ model.unexplained (answers.counted_result (Err why)) }
{
    Explanation::Unexplained(Err(why))
}

// Judges the three documents, and explains the answer where two paths clash.
pub fn explain(source: &[u8], target: &[u8], embedding: &[u8]) -> Explanation
    ensures { answers.explanation result ≡ model.explain source.now target.now embedding.now }
{
    let mut from = [0u16; TABLE];
    let mut to = [0u16; TABLE];
    let mut map = [0u16; MAP];
    match setting_judge::judge(source, target, embedding, &mut from, &mut to, &mut map) {
        Ok(()) => Explanation::Unexplained(Ok(edge_count(&from))),
        Err(why) => {
            if !for_clash(why) {
                return unexplained(why);
            }
            match clash_of(&from, &to, embedding, &map) {
                Some(clash) => Explanation::Explained(clash),
                None => unexplained(why),
            }
        }
    }
}
