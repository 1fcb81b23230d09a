// Check 2 of a tree document, its form: one root element and then 3F.
ghost use Rattle.std.specs.Prelude.{◌≡◌, ◌^◌};
ghost use Rattle.answers.specs.Answers.{verdict};
ghost use Rattle.model.specs.Definitions.TreeChecks.{tree_form, tree_step, closed};
ghost use Rattle.tree_form.specs.Commands.{command};
ghost use Rattle.tree_form.specs.Form.{state, next, form_left, Shallow};

use crate::command::{TreeCommand, command_at};
use checking::Check;

// In an element with so many around it; before the root; behind the root; behind 3F. The first is the state at nearly every command, and
// the compiled loop asks for it first.
#[derive(Clone, Copy, Debug, PartialEq, Eq)]
pub enum TreeState {
    Inside(usize),
    NoRoot,
    RootClosed,
    Ended,
}

// The state behind a close in an element with so many around it.
fn closed(around: usize) -> TreeState
    ensures { state result ≡ closed around }
{
    if around == 0 {
        TreeState::RootClosed
    } else {
        TreeState::Inside(around - 1)
    }
}

impl TreeState {
    // The state behind a command; none where the command is refused. The command is asked for first, for the compiled loop.
    #[tactic(auto, unfolding(model::specs::Definitions::TreeChecks::tree_step))]
    fn after(self, c: TreeCommand) -> Option<TreeState>
        requires { Shallow (state self) (2 ^ 63) }
        ensures { next result ≡ tree_step (state self) (command c) }
    {
        match c {
            TreeCommand::Opens(_) => match self {
                TreeState::Inside(around) => Some(TreeState::Inside(around + 1)),
                TreeState::NoRoot => Some(TreeState::Inside(0)),
                TreeState::RootClosed | TreeState::Ended => None,
            },
            TreeCommand::Character(_) => match self {
                TreeState::Inside(_) => Some(self),
                _ => None,
            },
            TreeCommand::Closes => match self {
                TreeState::Inside(around) => Some(closed(around)),
                _ => None,
            },
            TreeCommand::End => match self {
                TreeState::RootClosed => Some(TreeState::Ended),
                _ => None,
            },
        }
    }
}

impl Check for TreeState {
    ghost fits = { λ s at. Shallow (state s) at };

    ghost rest = { λ bs s at. form_left bs (state s) at };

    fn step(&mut self, document: &[u8], at: usize) -> Option<usize> {
        let c = command_at(document, at)?;
        *self = self.after(c)?;
        Some(c.width())
    }

    fn may_end(&self) -> bool {
        match self {
            TreeState::Ended => true,
            _ => false,
        }
    }
}

// The verdict of the form of a document.
pub fn form(t: &[u8]) -> Result<(), usize>
    ensures { verdict result ≡ tree_form t.now }
{
    checking::run(TreeState::NoRoot, t)
}
