// Lengths of contents, found once for a document, so that an element is passed over in one step.
ghost use Rattle.std.specs.Prelude.{◌≡◌, ◌+◌, ◌≤◌, ◌<◌, length, get_or, set};
ghost use Rattle.model.specs.Definitions.Content.{Content, bytes};
ghost use Rattle.scanning.specs.Scanning.{ContentAt};
ghost use Rattle.scanning.specs.Spanning.{Spans, SpansWithin, SpanAt, SpansRoom, span_in, FilledFrom};
ghost use Rattle.model.specs.Definitions.Refusals.{max_length};

use codes::{CHARACTER, OPENS};

// A document of at most this length has short buffers, which need not be cleared at length.
pub const SHORT: usize = 2048;

// How far it is from offset o, where the byte b stands, to the 32 that closes the element around it, by how far it is from the
// offsets behind o, `behind` from the second of them. Where the document ends too soon it is 0, as at a 32: it goes into an array of
// two bytes an offset, and nobody asks for it.
fn span_at(b: u8, spans: &[u16], o: usize, behind: usize) -> usize
    requires o_in_bounds { (o < length spans.now) × (length spans.now ≤ max_length) × SpansWithin spans.now o }
    requires behind { behind ≡ get_or spans.now (o + 2) 0 }
    ensures { SpanAt spans.now b o result }
{
    match b {
        OPENS => {
            let next = o + 2 + behind + 1;
            if spans.len() <= next {
                return 0;
            }
            next - o + usize::from(spans[next])
        }
        CHARACTER => 2 + behind,
        _ => 0,
    }
}

// Fills the span of offset o, where those of the offsets behind it are filled, `behind` for the second of them.
fn fill_span(tr: &[u8], spans: &mut [u16], o: usize, behind: usize) -> usize
    requires spans_room { SpansRoom tr.now spans.old × (o < length tr.now) × FilledFrom tr.now (o + 1) spans.old }
    requires behind { behind ≡ span_in tr.now spans.old (o + 2) }
    ensures { (spans.new ≡ set spans.old o result) × FilledFrom tr.now o spans.new }
{
    let far = span_at(tr[o], &spans[..tr.len()], o, behind);
    spans[o] = far as u16;
    far
}

// Fills `spans`: for content that begins at an offset of the document, its length. The loop goes from the last offset to the
// first, so that what is behind an offset is known, and takes two offsets a turn. `near` and `behind` are the spans of the offsets
// o and o + 1: reading them from where they were just stored would take longer than all else, and a `for` over one offset a turn would
// pass each from one to the other, which was measured to take a tenth longer.
pub fn fill_spans(tr: &[u8], spans: &mut [u16])
    requires { SpansRoom tr.now spans.old }
    ensures { Spans tr.now spans.new }
{
    let mut o = tr.len();
    let mut near = 0;
    let mut behind = 0;
    while 1 < o {
        behind = fill_span(tr, spans, o - 1, behind);
        near = fill_span(tr, spans, o - 2, near);
        o -= 2;
    }
    if 0 < o {
        fill_span(tr, spans, 0, behind);
    }
}

// The offset of the 32 that closes the element whose content begins at `from`.
pub fn close_of<'a>(tr: &'a [u8], spans: &'a [u16], from: usize) -> usize
    requires spans { Spans tr.now spans.now }
    requires content { (k : Content) × ContentAt tr.now from k }
    ensures { (k : Content) → ContentAt tr.now from k → result ≡ from + length (bytes k) }
{
    from + usize::from(spans[from])
}
