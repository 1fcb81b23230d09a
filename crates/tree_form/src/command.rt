// The command that stands at an offset of a tree document.
ghost use Rattle.std.specs.Prelude.{◌≡◌, ◌<◌, length};
ghost use Rattle.model.specs.Definitions.Commands.{tree_command, tree_width};
ghost use Rattle.model.proofs.Theorems.Reading.{raw_at};
ghost use Rattle.tree_form.specs.Commands as said;

use codes::{CHARACTER, CLOSES, OPENS, TREE_END};

// A command of a tree document, with its operand.
#[derive(Clone, Copy, Debug, PartialEq, Eq)]
pub enum TreeCommand {
    Opens(u8),
    Character(u8),
    Closes,
    End,
}

// The command at an offset within the document; none where its byte begins none, or its operand is missing.
pub fn command_at(t: &[u8], at: usize) -> Option<TreeCommand>
    requires { at < length t.now }
    ensures { said.read result ≡ tree_command (raw_at t.now at) }
{
    match t[at] {
        OPENS => Some(TreeCommand::Opens(*t.get(at + 1)?)),
        CHARACTER => Some(TreeCommand::Character(*t.get(at + 1)?)),
        CLOSES => Some(TreeCommand::Closes),
        TREE_END => Some(TreeCommand::End),
        _ => None,
    }
}

impl TreeCommand {
    // The number of bytes of a command.
    pub fn width(self) -> usize
        ensures { result ≡ tree_width (said.command self) }
    {
        match self {
            TreeCommand::Opens(_) | TreeCommand::Character(_) => 2,
            TreeCommand::Closes | TreeCommand::End => 1,
        }
    }
}
