// Check 2, form: a command that can't stand where it does, or bytes that run out before 1F.
ghost use Rattle.std.specs.Prelude.{◌≡◌, ⊤};
ghost use Rattle.answers.specs.Answers.{verdict};
ghost use Rattle.model.specs.Definitions.TableChecks.{table_form, table_step, table_move, begins, joins, finishes, table_complete};
ghost use Rattle.table_form.specs.Read.{command, read};
ghost use Rattle.table_form.specs.Forms.{state, next, form_left};

use crate::command::{TableCommand, command_at};
use checking::Check;

// Before the first type; after a whole type; among members, of which two, one or none are still needed; after 1F.
#[derive(Clone, Copy, Debug, PartialEq, Eq)]
pub enum State {
    NoType,
    Whole,
    NeedsTwo,
    NeedsOne,
    Enough,
    Ended,
}

impl State {
    // What a command that begins a type makes of the state; `first` is the state after it, where it may stand.
    #[tactic(auto, unfolding(model::specs::Definitions::TableChecks::table_move))]
    fn begin(self, first: State) -> Option<State>
        ensures { next result ≡ table_move (state self) (begins (state first)) }
    {
        match self {
            State::NoType | State::Whole | State::Enough => Some(first),
            State::NeedsTwo | State::NeedsOne | State::Ended => None,
        }
    }

    // What a member makes of the state: one member less is needed.
    #[tactic(auto, unfolding(model::specs::Definitions::TableChecks::table_move))]
    fn join(self) -> Option<State>
        ensures { next result ≡ table_move (state self) joins }
    {
        match self {
            State::NeedsTwo => Some(State::NeedsOne),
            State::NeedsOne | State::Enough => Some(State::Enough),
            State::NoType | State::Whole | State::Ended => None,
        }
    }

    // What 1F makes of the state: it may stand behind a type that has all its members.
    #[tactic(auto, unfolding(model::specs::Definitions::TableChecks::table_move))]
    fn finish(self) -> Option<State>
        ensures { next result ≡ table_move (state self) finishes }
    {
        match self {
            State::Whole | State::Enough => Some(State::Ended),
            _ => None,
        }
    }

    // What a command makes of the state, by its role; none where it is refused. Two arms stand apart, for the compiled loop: with
    // `List` joined to the one above it, it is several times slower, and up to a third slower with `Optional` joined to `Sequence`.
    #[tactic(auto, unfolding(model::specs::Definitions::TableChecks::table_step, model::specs::Definitions::TableChecks::table_role))]
    pub fn after(self, c: TableCommand) -> Option<State>
        ensures { next result ≡ table_step (state self) (command c) }
    {
        match c {
            TableCommand::Text | TableCommand::Empty => self.begin(State::Whole),
            TableCommand::List(_) => self.begin(State::Whole),
            TableCommand::Sequence => self.begin(State::NeedsOne),
            TableCommand::Choice => self.begin(State::NeedsTwo),
            TableCommand::Member(_) => self.join(),
            TableCommand::End => self.finish(),
            TableCommand::Optional => self.begin(State::NeedsOne),
        }
    }

    // Whether the commands may end in a state: only behind 1F.
    #[tactic(auto, unfolding(model::specs::Definitions::TableChecks::table_complete))]
    pub fn complete(self) -> bool
        ensures { result ≡ table_complete (state self) }
    {
        matches!(self, State::Ended)
    }
}

// What is read at an offset makes of the state: a command as `State::after` says; what is none is refused.
pub fn step(s: State, found: Option<TableCommand>) -> Option<State>
    ensures { next result ≡ table_step (state s) (read found) }
{
    match found {
        Some(c) => s.after(c),
        None => None,
    }
}

impl Check for State {
    ghost fits = { λ s at. ⊤ };

    ghost rest = { form_left };

    fn step(&mut self, document: &[u8], at: usize) -> Option<usize> {
        let command = command_at(document, at)?;
        *self = self.after(command)?;
        Some(command.width())
    }

    fn may_end(&self) -> bool {
        self.complete()
    }
}

// The lowest place at which check 2 refuses a table document.
pub fn form(t: &[u8]) -> Result<(), usize>
    ensures { verdict result ≡ table_form t.now }
{
    checking::run(State::NoType, t)
}
