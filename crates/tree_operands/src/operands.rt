// Check 4 of a tree document: elements of types that exist, and characters that are allowed.
ghost use Rattle.std.specs.Prelude.{◌≡◌, ⊤};
ghost use Rattle.answers.specs.Answers.{verdict};
ghost use Rattle.model.specs.Definitions.Basics.{goes_if};
ghost use Rattle.model.specs.Definitions.TreeChecks.{tree_operands, operand_step};
ghost use Rattle.tree_form.specs.Commands.{command};
ghost use Rattle.tree_operands.specs.Operands.{operands_left};

use characters::allowed;
use checking::Check;
use tree_form::command::{TreeCommand, command_at};

// The check by a table of so many types.
#[derive(Clone, Copy, Debug, PartialEq, Eq)]
pub struct Operand {
    pub types: usize,
}

impl Operand {
    // Whether a command's operand is right.
    fn is_right(self, c: TreeCommand) -> bool
        ensures { goes_if result tt ≡ operand_step self.types tt (command c) }
    {
        match c {
            TreeCommand::Opens(m) => usize::from(m) < self.types,
            TreeCommand::Character(b) => allowed(b),
            TreeCommand::Closes | TreeCommand::End => true,
        }
    }
}

impl Check for Operand {
    ghost fits = { λ s at. ⊤ };

    ghost rest = { λ bs s at. operands_left s.types bs tt at };

    fn step(&mut self, document: &[u8], at: usize) -> Option<usize> {
        let c = command_at(document, at)?;
        if self.is_right(c) {
            Some(c.width())
        } else {
            None
        }
    }

    fn may_end(&self) -> bool {
        true
    }
}

// The verdict of a document's operands, by a table of so many types.
pub fn operands(t: &[u8], types: usize) -> Result<(), usize>
    ensures { verdict result ≡ tree_operands types t.now }
{
    checking::run(Operand { types }, t)
}
