// Loading an embedding document into one array: the map of types, and where each edge's path stands. specs/Loading.antt
// says what a command does to the array, and proofs/ shows that what is loaded, continued by what the rest of the document
// says, is the document's embedding.

#![tactic(auto)]

ghost use Rattle.std.specs.Prelude.{◌≡◌, ◌≤◌, length};
ghost use Rattle.loaded_table.specs.Loaded.{table_by, Bounded};
ghost use Rattle.loaded_embedding.specs.Loaded.{Cleared};
ghost use Rattle.embedding_form.specs.Commands.{command};
ghost use Rattle.model.specs.Definitions.Basics.{passes};
ghost use Rattle.model.specs.Definitions.EmbeddingChecks.{embedding_form, embedding_limits};
ghost use Rattle.embedding_load.specs.Loading.{loaded_at, MapRoom, MapPut, EmbeddingLoaded};
ghost use Rattle.model.specs.Definitions.Refusals.{max_length};

use codes::MAX_MEMBERS;
use embedding_form::command::{EmbeddingCommand, command_at};
use loaded_embedding::{MAP, set_start, set_steps, set_target, steps};
use loaded_table::TABLE;

// How many types are loaded so far, and how many paths of the last of them.
#[derive(Clone, Copy, Debug, PartialEq, Eq)]
pub struct Place {
    pub types: usize,
    pub edges: usize,
}

// What the command at an offset does to the array and the place reached.
fn put(map: &mut [u16; MAP], p: Place, at: usize, c: EmbeddingCommand) -> Place
    requires { MapRoom (loaded_at p map.old) at (command c) }
    ensures { MapPut p map.old at (command c) result map.new }
{
    let Place { types, edges } = p;
    match c {
        EmbeddingCommand::MapsTo(t) => {
            set_target(map, types, u16::from(t));
            Place {
                types: types + 1,
                edges: 0,
            }
        }
        EmbeddingCommand::Path => {
            let edge = (types - 1) * MAX_MEMBERS + edges;
            set_start(map, edge, at as u16);
            set_steps(map, edge, 0);
            Place {
                types,
                edges: edges + 1,
            }
        }
        EmbeddingCommand::Step(_) => {
            let edge = (types - 1) * MAX_MEMBERS + (edges - 1);
            let count = steps(map, edge);
            set_steps(map, edge, (count + 1) as u16);
            p
        }
        EmbeddingCommand::End => p,
    }
}

// Loads the embedding that a document of the right form and within the limits writes, for a loaded source table, into an
// array that is cleared. Each turn of the loop puts one command: what is loaded, continued by what the commands from `at` on say, stays
// the document's embedding.
pub fn load(source: &[u16; TABLE], em: &[u8], map: &mut [u16; MAP])
    requires bounded { Bounded source.now }
    requires em_value { embedding_form (table_by source.now) em.now ≡ passes }
    requires em_value_2 { embedding_limits em.now ≡ passes }
    requires em_len_bound { length em.now ≤ max_length }
    requires cleared { Cleared map.old }
    ensures { EmbeddingLoaded em.now (table_by source.now) map.new }
{
    let mut at: usize = 0;
    let mut place = Place { types: 0, edges: 0 };
    while let Some(c) = command_at(em, at) {
        place = put(map, place, at, c);
        at += c.width();
    }
}
