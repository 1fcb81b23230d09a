// The commands of a table document.
ghost use Rattle.std.specs.Prelude.{◌≡◌, ◌<◌, length};
ghost use Rattle.model.specs.Definitions.Commands.{table_command, table_width};
ghost use Rattle.model.proofs.Theorems.Reading.{raw_at};
ghost use Rattle.table_form.specs.Read.{command, read};

use codes::{
    CHOICE_TYPE, EMPTY_TYPE, LIST_TYPE, MEMBER, OPTIONAL_TYPE, SEQUENCE_TYPE, TABLE_END, TEXT_TYPE,
};

// A command, with its operand. `Optional` stands last, as its arm in `State::after` does: elsewhere the compiled loop of check 2 is up
// to a third slower.
#[derive(Clone, Copy, Debug, PartialEq, Eq)]
pub enum TableCommand {
    Text,
    Empty,
    Sequence,
    Choice,
    List(u8),
    Member(u8),
    End,
    Optional,
}

impl TableCommand {
    // The number of bytes of a command.
    #[tactic(auto, unfolding(model::specs::Definitions::Commands::table_width))]
    pub fn width(self) -> usize
        ensures { result ≡ table_width (command self) }
    {
        match self {
            TableCommand::List(_) | TableCommand::Member(_) => 2,
            _ => 1,
        }
    }
}

// The command that stands at an offset, with the byte behind it as its operand where it takes one; none where the byte is no command of
// a table, or its operand is missing.
pub fn command_at(t: &[u8], at: usize) -> Option<TableCommand>
    requires { at < length t.now }
    ensures { read result ≡ table_command (raw_at t.now at) }
{
    let command = match t[at] {
        TEXT_TYPE => TableCommand::Text,
        EMPTY_TYPE => TableCommand::Empty,
        SEQUENCE_TYPE => TableCommand::Sequence,
        CHOICE_TYPE => TableCommand::Choice,
        OPTIONAL_TYPE => TableCommand::Optional,
        LIST_TYPE => TableCommand::List(*t.get(at + 1)?),
        MEMBER => TableCommand::Member(*t.get(at + 1)?),
        TABLE_END => TableCommand::End,
        _ => return None,
    };
    Some(command)
}
