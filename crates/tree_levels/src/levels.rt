// Check 3 of a tree document: at most 128 levels.
ghost use Rattle.std.specs.Prelude.{◌≡◌, ◌≤◌};
ghost use Rattle.answers.specs.Answers.{verdict};
ghost use Rattle.model.specs.Definitions.TreeChecks.{tree_levels, level_step, max_levels};
ghost use Rattle.tree_form.specs.Commands.{command};
ghost use Rattle.tree_levels.specs.Levels.{next, levels_left};

use checking::Check;
use codes::MAX_LEVELS;
use tree_form::command::{TreeCommand, command_at};

// The number of open elements.
#[derive(Clone, Copy, Debug, PartialEq, Eq)]
pub struct Depth {
    pub open: usize,
}

impl Depth {
    // The number behind a command; none where that opens a 129th level.
    fn after(self, c: TreeCommand) -> Option<Depth>
        requires { self.open ≤ max_levels }
        ensures { next result ≡ level_step self.open (command c) }
    {
        match c {
            TreeCommand::Opens(_) => {
                if MAX_LEVELS <= self.open {
                    return None;
                }
                Some(Depth {
                    open: self.open + 1,
                })
            }
            TreeCommand::Closes => Some(Depth {
                open: self.open.saturating_sub(1),
            }),
            TreeCommand::Character(_) | TreeCommand::End => Some(self),
        }
    }
}

impl Check for Depth {
    ghost fits = { λ s at. s.open ≤ max_levels };

    ghost rest = { λ bs s at. levels_left bs s.open at };

    fn step(&mut self, document: &[u8], at: usize) -> Option<usize> {
        let c = command_at(document, at)?;
        *self = self.after(c)?;
        Some(c.width())
    }

    fn may_end(&self) -> bool {
        true
    }
}

// The verdict of a document's levels.
pub fn levels(t: &[u8]) -> Result<(), usize>
    ensures { verdict result ≡ tree_levels t.now }
{
    checking::run(Depth { open: 0 }, t)
}
