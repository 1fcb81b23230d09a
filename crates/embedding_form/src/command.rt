// The commands of an embedding document.
ghost use Rattle.std.specs.Prelude.{◌≡◌};
ghost use Rattle.embedding_form.specs.Commands.{command, read};
ghost use Rattle.model.specs.Definitions.Commands.{embedding_command, embedding_width};
ghost use Rattle.model.proofs.Theorems.Reading.{raw_at};

use codes::{EMBEDDING_END, MAPS_TO, PATH, STEP};

// A command of an embedding, with its operand.
#[derive(Clone, Copy, Debug, PartialEq, Eq)]
pub enum EmbeddingCommand {
    MapsTo(u8),
    Path,
    Step(u8),
    End,
}

impl EmbeddingCommand {
    // The number of bytes of a command.
    #[tactic(auto, unfolding(model::specs::Definitions::Commands::embedding_width))]
    pub fn width(self) -> usize
        ensures { result ≡ embedding_width (command self) }
    {
        match self {
            EmbeddingCommand::MapsTo(_) | EmbeddingCommand::Step(_) => 2,
            EmbeddingCommand::Path | EmbeddingCommand::End => 1,
        }
    }
}

// The command that stands at an offset of a document, with the byte behind it as its operand where it takes one; none where the byte is
// no command of an embedding, or its operand is missing, or the document ends before.
pub fn command_at(t: &[u8], at: usize) -> Option<EmbeddingCommand>
    ensures { read result ≡ embedding_command (raw_at t.now at) }
{
    let command = match *t.get(at)? {
        MAPS_TO => EmbeddingCommand::MapsTo(*t.get(at + 1)?),
        PATH => EmbeddingCommand::Path,
        STEP => EmbeddingCommand::Step(*t.get(at + 1)?),
        EMBEDDING_END => EmbeddingCommand::End,
        _ => return None,
    };
    Some(command)
}
