// Gives the image of a source document, by prepared rows, to what takes its bytes, and writes it.

#![tactic(auto)]

ghost use Rattle.std.specs.Prelude.{List, [], ◌∷◌, ℕ, length, OnOk, OnErr};
ghost use Rattle.scanning.specs.Spanning.{Spans};
ghost use Rattle.writing.specs.Writing.{Writes};
ghost use Rattle.row_traversal.specs.Asked.{SomeAsked, FillerAsked, PlainAsked, ElementAsked, ItemsAsked, RowAsked, ImageAsked};
ghost use Rattle.filling.specs.Room.{ImageFits};
ghost use Rattle.filling.specs.Sinks.{SinkLaws};
ghost use Rattle.filling.specs.Written.{WritesOn, RoomLeft, never, bytes_left, writer_laws};

use codes::{CLOSES, MAX_MEMBERS, OPENS, TREE_END};
use loaded_table::TABLE;
use row_traversal::{child_of, element_from, row_of};
use rows::{CHARACTERS, CHILD, FILLER, ITEMS};
use scanning::spans::close_of;
use writing::{copy, put_open};

// A sink holds other bytes than those that it is given.
#[derive(Clone, Copy, Debug, PartialEq, Eq)]
pub struct Differs;

// What takes the bytes of an image, part by part.
pub trait Sink {
    // from one state to another, bytes are taken
    ghost takes: { Self → List ℕ → Self → Type 0 };

    // they are not, as other bytes are held
    ghost refuses: { Self → List ℕ → Type 0 };

    // there is room for them
    ghost fits: { Self → List ℕ → Type 0 };

    // how many can be taken at most
    ghost left: { Self → ℕ };

    ghost laws: { SinkLaws takes refuses fits left };

    // Takes 30 t, which opens an element of type t.
    fn open(&mut self, t: u8) -> Result<(), Differs>
        requires { fits self.old (0x30 ∷ t ∷ []) }
        ensures taken { OnOk result (takes self.old (0x30 ∷ t ∷ []) self.new) }
        ensures refused { OnErr result (refuses self.old (0x30 ∷ t ∷ [])) };

    // Takes one byte.
    fn put(&mut self, b: u8) -> Result<(), Differs>
        requires { fits self.old (b ∷ []) }
        ensures taken { OnOk result (takes self.old (b ∷ []) self.new) }
        ensures refused { OnErr result (refuses self.old (b ∷ [])) };

    // Takes the bytes of `from`.
    fn copy(&mut self, from: &[u8]) -> Result<(), Differs>
        requires { fits self.old from.now }
        ensures taken { OnOk result (takes self.old from.now self.new) }
        ensures refused { OnErr result (refuses self.old from.now) };
}

// Gives a filler element of target type t: one for each symbol of its row.
fn filler<S: Sink>(pool: &[u8], places: &[u32], t: u8, sink: &mut S) -> Result<(), Differs>
    requires { SomeAsked (FillerAsked pool.now places.now t) (S.fits sink.old) }
    ensures taken { OnOk result ((bs : List ℕ) → FillerAsked pool.now places.now t bs → S.takes sink.old bs sink.new) }
    ensures refused { OnErr result ((bs : List ℕ) → FillerAsked pool.now places.now t bs → S.refuses sink.old bs) }
{
    let row = usize::from(t);
    let from = rows::from(places, row);
    let to = rows::to(places, row);
    sink.open(t)?;
    for i in from..to {
        filler(pool, places, pool[i] - FILLER, sink)?;
    }
    sink.put(CLOSES)
}

// Gives a filler element of target type t. Most rows of filler are empty, and these elements are given without recursion.
fn filler_element<S: Sink>(pool: &[u8], places: &[u32], t: u8, sink: &mut S) -> Result<(), Differs>
    requires { SomeAsked (FillerAsked pool.now places.now t) (S.fits sink.old) }
    ensures taken { OnOk result ((bs : List ℕ) → FillerAsked pool.now places.now t bs → S.takes sink.old bs sink.new) }
    ensures refused { OnErr result ((bs : List ℕ) → FillerAsked pool.now places.now t bs → S.refuses sink.old bs) }
{
    let row = usize::from(t);
    let to = rows::to(places, row);
    if rows::from(places, row) == to {
        sink.open(t)?;
        return sink.put(CLOSES);
    }
    filler(pool, places, t, sink)
}

// Gives what symbol x stands for, where it is no child and no items.
fn plain<'a, S: Sink>(
    pool: &'a [u8],
    places: &'a [u32],
    tr: &'a [u8],
    sp: &'a [u16],
    x: u8,
    sink: &mut S,
) -> Result<(), Differs>
    requires spans { Spans tr.now sp.now }
    requires task { SomeAsked (PlainAsked pool.now places.now tr.now x) (S.fits sink.old) }
    ensures taken { OnOk result ((bs : List ℕ) → PlainAsked pool.now places.now tr.now x bs → S.takes sink.old bs sink.new) }
    ensures refused { OnErr result ((bs : List ℕ) → PlainAsked pool.now places.now tr.now x bs → S.refuses sink.old bs) }
{
    if x < FILLER {
        return sink.open(x);
    }
    if x < CHILD {
        return filler_element(pool, places, x - FILLER, sink);
    }
    if x == CHARACTERS {
        let close = close_of(tr, sp, 0);
        return sink.copy(&tr[..close]);
    }
    sink.put(CLOSES)
}

// Gives row r of the source content at the start of tr: what each of its symbols stands for. Child number `seen` stands at `near`.
#[cycle(child_items_run)]
fn run<'a, S: Sink>(
    source: &'a [u16; TABLE],
    pool: &'a [u8],
    places: &'a [u32],
    tr: &'a [u8],
    sp: &'a [u16],
    r: usize,
    sink: &mut S,
) -> Result<(), Differs>
    requires spans { Spans tr.now sp.now }
    requires task { SomeAsked (RowAsked source.now pool.now places.now tr.now r) (S.fits sink.old) }
    ensures taken { OnOk result ((bs : List ℕ) → RowAsked source.now pool.now places.now tr.now r bs → S.takes sink.old bs sink.new) }
    ensures refused { OnErr result ((bs : List ℕ) → RowAsked source.now pool.now places.now tr.now r bs → S.refuses sink.old bs) }
{
    let from = rows::from(places, r);
    let to = rows::to(places, r);
    let mut seen = 0;
    let mut near = 0;
    for i in from..to {
        let x = pool[i];
        if x == ITEMS {
            items(source, pool, places, tr, sp, r + MAX_MEMBERS, sink)?;
        } else if let Some(number) = child_of(x) {
            near = element_from(tr, sp, number, seen, near);
            seen = number;
            child(source, pool, places, tr, sp, near, sink)?;
        } else {
            plain(pool, places, tr, sp, x, sink)?;
        }
    }
    Ok(())
}

// Gives what the image of the source element that opens at offset o holds.
#[cycle(child_items_run)]
fn child<'a, S: Sink>(
    source: &'a [u16; TABLE],
    pool: &'a [u8],
    places: &'a [u32],
    tr: &'a [u8],
    sp: &'a [u16],
    o: usize,
    sink: &mut S,
) -> Result<(), Differs>
    requires spans { Spans tr.now sp.now }
    requires task { SomeAsked (ElementAsked source.now pool.now places.now tr.now o) (S.fits sink.old) }
    ensures taken { OnOk result ((bs : List ℕ) → ElementAsked source.now pool.now places.now tr.now o bs → S.takes sink.old bs sink.new) }
    ensures refused { OnErr result ((bs : List ℕ) → ElementAsked source.now pool.now places.now tr.now o bs → S.refuses sink.old bs) }
{
    let row = row_of(source, tr, o);
    let inside = o + 2;
    run(
        source,
        pool,
        places,
        &tr[inside..],
        &sp[inside..],
        row,
        sink,
    )
}

// Gives an item for each item of the source list at the start of tr; r is the row of an item. An item is handed on as the part
// of the document that starts at it, and the loop goes on behind it.
#[cycle(child_items_run)]
fn items<'a, S: Sink>(
    source: &'a [u16; TABLE],
    pool: &'a [u8],
    places: &'a [u32],
    tr: &'a [u8],
    sp: &'a [u16],
    r: usize,
    sink: &mut S,
) -> Result<(), Differs>
    requires spans { Spans tr.now sp.now }
    requires task { SomeAsked (ItemsAsked source.now pool.now places.now tr.now r) (S.fits sink.old) }
    ensures taken { OnOk result ((bs : List ℕ) → ItemsAsked source.now pool.now places.now tr.now r bs → S.takes sink.old bs sink.new) }
    ensures refused { OnErr result ((bs : List ℕ) → ItemsAsked source.now pool.now places.now tr.now r bs → S.refuses sink.old bs) }
{
    let mut o = 0;
    while tr[o] == OPENS {
        run(source, pool, places, &tr[o..], &sp[o..], r, sink)?;
        let close = close_of(tr, sp, o + 2);
        o = close + 1;
    }
    Ok(())
}

// Gives the image of the source document tr.
pub fn image<'a, S: Sink>(
    source: &'a [u16; TABLE],
    pool: &'a [u8],
    places: &'a [u32],
    tr: &'a [u8],
    sp: &'a [u16],
    sink: &mut S,
) -> Result<(), Differs>
    requires spans { Spans tr.now sp.now }
    requires task { SomeAsked (ImageAsked source.now pool.now places.now tr.now) (S.fits sink.old) }
    ensures taken { OnOk result ((bs : List ℕ) → ImageAsked source.now pool.now places.now tr.now bs → S.takes sink.old bs sink.new) }
    ensures refused { OnErr result ((bs : List ℕ) → ImageAsked source.now pool.now places.now tr.now bs → S.refuses sink.old bs) }
{
    let row = row_of(source, tr, 0);
    sink.open(0)?;
    run(source, pool, places, &tr[2..], &sp[2..], row, sink)?;
    sink.put(CLOSES)?;
    sink.put(TREE_END)
}

// An output that bytes are written to, one after the other.
#[derive(Drop)]
struct Writer<'b> {
    out: &'b mut [u8],
    at: usize,
}

impl<'b> Sink for Writer<'b> {
    ghost takes = { WritesOn };

    ghost refuses = { never };

    ghost fits = { RoomLeft };

    ghost left = { bytes_left };

    ghost laws = { writer_laws };

    fn open(&mut self, t: u8) -> Result<(), Differs> {
        let at = self.at;
        let out = &mut *self.out;
        self.at = put_open(out, at, t);
        Ok(())
    }

    fn put(&mut self, b: u8) -> Result<(), Differs> {
        let at = self.at;
        let out = &mut *self.out;
        out[at] = b;
        self.at = at + 1;
        Ok(())
    }

    fn copy(&mut self, from: &[u8]) -> Result<(), Differs> {
        let at = self.at;
        let out = &mut *self.out;
        self.at = copy(from, 0, from.len(), out, at);
        Ok(())
    }
}

// Writes the image of the source document tr.
pub fn write_image<'a>(
    source: &'a [u16; TABLE],
    pool: &'a [u8],
    places: &'a [u32],
    tr: &'a [u8],
    sp: &'a [u16],
    out: &mut [u8],
) -> usize
    requires spans { Spans tr.now sp.now }
    requires task { ImageFits (ImageAsked source.now pool.now places.now tr.now) 0 (length out.old) }
    ensures { (bs : List ℕ) → ImageAsked source.now pool.now places.now tr.now bs → Writes out.old out.new 0 bs result }
{
    let mut writer = Writer { out, at: 0 };
    image(source, pool, places, tr, sp, &mut writer).unwrap();
    writer.at
}
