// Compares a document with the image of a source document by prepared rows, up to the first difference.

#![tactic(auto)]

ghost use Rattle.std.specs.Prelude.{◌≡◌, true, List, ◌↔◌, ℕ};
ghost use Rattle.scanning.specs.Spanning.{Spans};
ghost use Rattle.row_traversal.specs.Asked.{ImageAsked};
ghost use Rattle.matching.specs.Compared.{Begins, Other, anyway, bytes_left, compared_laws};

use codes::OPENS;
use filling::{Differs, Sink, image};
use loaded_table::TABLE;

// What is left of a document, to be compared with bytes.
#[derive(Drop)]
struct Compared<'b> {
    left: &'b [u8],
}

impl<'b> Sink for Compared<'b> {
    ghost takes = { Begins };

    ghost refuses = { Other };

    ghost fits = { anyway };

    ghost left = { bytes_left };

    ghost laws = { compared_laws };

    fn open(&mut self, t: u8) -> Result<(), Differs> {
        self.put(OPENS)?;
        self.put(t)
    }

    fn put(&mut self, b: u8) -> Result<(), Differs> {
        match self.left.split_first() {
            Some((first, rest)) if *first == b => {
                self.left = rest;
                Ok(())
            }
            _ => Err(Differs),
        }
    }

    fn copy(&mut self, from: &[u8]) -> Result<(), Differs> {
        match self.left.strip_prefix(from) {
            Some(rest) => {
                self.left = rest;
                Ok(())
            }
            None => Err(Differs),
        }
    }
}

// Whether doc is the image of the source document tr.
pub fn is_image<'a>(
    source: &'a [u16; TABLE],
    pool: &'a [u8],
    places: &'a [u32],
    tr: &'a [u8],
    sp: &'a [u16],
    doc: &'a [u8],
) -> bool
    requires spans { Spans tr.now sp.now }
    requires task { (bs : List ℕ) × ImageAsked source.now pool.now places.now tr.now bs }
    ensures { (bs : List ℕ) → ImageAsked source.now pool.now places.now tr.now bs → (result ≡ true) ↔ (bs ≡ doc.now) }
{
    let mut compared = Compared { left: doc };
    let found = image(source, pool, places, tr, sp, &mut compared);
    found.is_ok() && compared.left.is_empty()
}
