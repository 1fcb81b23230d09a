// A loaded table by value (paper 02, N8): it is made by loading a document, and its two operations hand it back, with all that is kept
// of its types true. specs/Operations.antt says what each promises.

#![tactic(auto)]

ghost use Rattle.std.specs.Prelude.{◌≡◌};
ghost use Rattle.model.specs.Definitions.Operations.{append_type, append_member};
ghost use Rattle.table_operations.specs.Operations.{held, StandsFor, LoadedFrom, Operated};

use answers::{Fault, Refusal};
use loaded_table::TABLE;
use table_growth::{grow_member, grow_type};

// A table's numbers, in the sections of crate loaded_table.
#[derive(Drop)]
pub struct Table {
    pub numbers: [u16; TABLE],
}

// What an operation answers, the number of types where it is done, and the table then: as it was where the operation is refused. The
// operations take the table by value and hand it back, as docs/DECISIONS.md says under the forms that paper 01 names.
#[derive(Drop)]
pub struct Extended {
    pub answer: Result<usize, Refusal>,
    pub table: Table,
}

impl Table {
    // Loads a table document.
    pub fn load(document: &[u8]) -> Result<Table, Fault>
        ensures { LoadedFrom document.now result }
    {
        let mut numbers = [0u16; TABLE];
        table_judge::judge(document, &mut numbers)?;
        Ok(Table { numbers })
    }

    // Appends the type that its own commands write.
    pub fn append_type(mut self, commands: &[u8]) -> Extended
        requires { StandsFor self (held self) }
        ensures { Operated (append_type commands.now) self result }
    {
        let mut numbers = self.numbers;
        let answer = grow_type(&mut numbers, commands);
        if answer.is_ok() {
            self.numbers = numbers;
        }
        Extended {
            answer,
            table: self,
        }
    }

    // Appends member m to the choice t, of either kind.
    pub fn append_member(mut self, t: usize, m: usize) -> Extended
        requires { StandsFor self (held self) }
        ensures { Operated (append_member t m) self result }
    {
        let mut numbers = self.numbers;
        let answer = grow_member(&mut numbers, t, m);
        if answer.is_ok() {
            self.numbers = numbers;
        }
        Extended {
            answer,
            table: self,
        }
    }
}
