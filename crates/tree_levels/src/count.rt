// The number of elements of a tree document, by its commands.
ghost use Rattle.std.specs.Prelude.{◌≡◌};
ghost use Rattle.model.specs.Definitions.Commands.{tree_commands};
ghost use Rattle.tree_form.specs.Commands.{command};
ghost use Rattle.tree_levels.specs.Elements.{opened, opens_in};

use tree_form::command::{TreeCommand, command_at};

// The number of elements that a command opens.
fn opened(c: TreeCommand) -> usize
    ensures { result ≡ opened (command c) }
{
    match c {
        TreeCommand::Opens(_) => 1,
        TreeCommand::Character(_) | TreeCommand::Closes | TreeCommand::End => 0,
    }
}

// The number of commands that open an element, up to the first byte that begins none. The loop counts those passed.
pub fn count(t: &[u8]) -> usize
    ensures { result ≡ opens_in (tree_commands t.now) }
{
    let mut at = 0;
    let mut n: usize = 0;
    while at < t.len() {
        let Some(c) = command_at(t, at) else {
            return n;
        };
        n += opened(c);
        at += c.width();
    }
    n
}
