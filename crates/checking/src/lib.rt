// A check of a document, command by command. Each check of a table, an embedding or a tree is a state with two methods; the loop over
// the commands is here, once.

#![tactic(auto)]

ghost use Rattle.std.specs.Prelude.{◌≡◌, ℕ, List, ◌<◌, length};
ghost use Rattle.model.specs.Definitions.Basics.{Verdict};
ghost use Rattle.answers.specs.Answers.{verdict};
ghost use Rattle.checking.specs.Checks.{Turn, Ending};

// The state of a check among the commands of a document.
pub trait Check: Drop {
    // What may be assumed of a state at an offset.
    ghost fits: { Self → ℕ → Type 0 };

    // The verdict on what is left of a document, in a state at an offset.
    ghost rest: { List ℕ → Self → ℕ → Verdict };

    // Takes the command at an offset: its width, or none where it is refused.
    fn step(&mut self, document: &[u8], at: usize) -> Option<usize>
        requires inside { at < length document.now }
        requires fit { fits self.old at }
        ensures { Turn fits rest document.now at self.old self.new result };

    // Whether a document may end in this state.
    fn may_end(&self) -> bool
        ensures { Ending rest self.now result };
}

// The lowest place at which a check refuses a document. Each turn takes one command off what is left, and keeps the verdict.
pub fn run<C: Check>(begin: C, document: &[u8]) -> Result<(), usize>
    requires { C.fits begin 0 }
    ensures { verdict result ≡ C.rest document.now begin 0 }
{
    let mut state = begin;
    let mut at = 0;
    while at < document.len() {
        let Some(width) = state.step(document, at) else {
            return Err(at);
        };
        at += width;
    }
    if state.may_end() { Ok(()) } else { Err(at) }
}
