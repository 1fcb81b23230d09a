// The measure of an image by the sizes of prepared templates: levels, bytes and bytes of filler, in one pass over the source
// document. No path is looked at, and nothing is built.

#![tactic(auto)]

ghost use Rattle.std.specs.Prelude.{◌≡◌, ◌+◌, ◌*◌, ◌<◌, max, length, get_or};
ghost use Rattle.model.specs.Definitions.Table.{kind_of};
ghost use Rattle.model.specs.Definitions.Content.{Content, bytes, content_of};
ghost use Rattle.model.specs.Definitions.Templates.{around};
ghost use Rattle.loaded_table.specs.Loaded.{Bounded, table_by, types_in, held_length};
ghost use Rattle.loaded_embedding.specs.Loaded.{lengths_of};
ghost use Rattle.loaded_setting.specs.Ready.{setting_in};
ghost use Rattle.scanning.specs.Scanning.{ContentAt};
ghost use Rattle.rows.specs.Rows.{levels_in, bytes_in, filler_in, first_from, item_row};
ghost use Rattle.measuring.specs.Measured.{edge_number, type_ahead, Held, Given, Measured, Measurable, ImageSize};
ghost use Rattle.model.specs.Definitions.TableChecks.{max_members};

use codes::{CHARACTER, CLOSES, MAX_MEMBERS, MAX_TYPES, OPENS, OVER_BYTES, ROOT_BYTES};
use loaded_embedding::MAP;
use loaded_table::{LIST, SEQUENCE, TABLE};
use rows::{Size, TYPE_ROWS};

// A size with one character more.
fn with_character(size: Size) -> Size
    requires { Held size.levels size.bytes size.filler }
    ensures { (result.levels ≡ size.levels) × (result.bytes ≡ held_length (size.bytes + 2)) × (result.filler ≡ size.filler) }
{
    Size {
        bytes: (size.bytes + 2).min(OVER_BYTES),
        ..size
    }
}

// A size with one child more: the size of what the child's image holds, which stands `depth` levels below, and that of what
// stands around it.
fn with_child(size: Size, around: Size, depth: usize, inner: Size) -> Size
    requires { Held size.levels size.bytes size.filler × Held around.levels around.bytes around.filler × Held inner.levels inner.bytes inner.filler × (depth < 65536) }
    ensures levels { result.levels ≡ max size.levels (max around.levels (held_length (depth + inner.levels))) }
    ensures bytes { result.bytes ≡ held_length (size.bytes + around.bytes + inner.bytes) }
    ensures filler { result.filler ≡ held_length (size.filler + around.filler + inner.filler) }
{
    let below = (depth + inner.levels).min(OVER_BYTES);
    Size {
        levels: size.levels.max(around.levels.max(below)),
        bytes: (size.bytes + around.bytes + inner.bytes).min(OVER_BYTES),
        filler: (size.filler + around.filler + inner.filler).min(OVER_BYTES),
    }
}

// The type of the element that content begins with at `from`, if it begins with one.
pub fn type_ahead(tr: &[u8], from: usize) -> Option<usize>
    requires { (k : Content) × ContentAt tr.now from k }
    ensures { (k : Content) → ContentAt tr.now from k → first_from result ≡ type_ahead k }
{
    if tr[from] == OPENS {
        return Some(usize::from(tr[from + 1]));
    }
    None
}

// The size of what stands around each item of source type s; zeros where s is no list.
fn item_size<'a>(source: &'a [u16; TABLE], sizes: &'a [u16], s: usize) -> Size
    requires bounded { Bounded source.now }
    requires s_bound { (s < types_in source.now) × (3 * item_row s + 2 < length sizes.now) }
    ensures levels { result.levels ≡ around (kind_of (table_by source.now) s) (levels_in sizes.now (item_row s)) }
    ensures bytes { result.bytes ≡ around (kind_of (table_by source.now) s) (bytes_in sizes.now (item_row s)) }
    ensures filler { result.filler ≡ around (kind_of (table_by source.now) s) (filler_in sizes.now (item_row s)) }
{
    if loaded_table::kind(source, s) < LIST {
        return Size {
            levels: 0,
            bytes: 0,
            filler: 0,
        };
    }
    rows::size_of(sizes, rows::item_row(s))
}

// The number of the edge of child number i, of type t, of an element of type s.
fn edge_of(source: &[u16; TABLE], s: usize, i: usize, t: usize) -> usize
    requires bounded { Bounded source.now }
    requires s_bound { s < types_in source.now }
    ensures { result ≡ edge_number (kind_of (table_by source.now) s) i t }
{
    if loaded_table::kind(source, s) == SEQUENCE {
        return i;
    }
    let base = MAX_TYPES + s * TYPE_ROWS;
    rows::source_row(source, s, Some(t)) - base
}

// The steps that lead to that child's image.
fn child_depth<'a>(
    source: &'a [u16; TABLE],
    map: &'a [u16; MAP],
    s: usize,
    i: usize,
    t: usize,
) -> usize
    requires bounded { Bounded source.now }
    requires s_bound { (s < types_in source.now) × (edge_number (kind_of (table_by source.now) s) i t < max_members) }
    ensures { (result ≡ get_or (lengths_of map.now) (s * max_members + edge_number (kind_of (table_by source.now) s) i t) 0) × (result < 65536) }
{
    let edge = edge_of(source, s, i, t);
    loaded_embedding::steps(map, s * MAX_MEMBERS + edge)
}

// The size of what the image of an element holds, and where the source element's content ends.
#[derive(Drop)]
struct ElementSize {
    size: Size,
    end: usize,
}

// The size of what the image of an element of type s holds, whose content begins at `from`. The loop goes over the
// characters and children, which have different lengths.
fn element<'a>(
    source: &'a [u16; TABLE],
    map: &'a [u16; MAP],
    sizes: &'a [u16],
    tr: &'a [u8],
    s: usize,
    from: usize,
) -> ElementSize
    requires { Given source.now map.now sizes.now tr.now s from }
    ensures { (g : Given source.now map.now sizes.now tr.now s from) → Measured (setting_in source.now g.target map.now g.em) s g.held result.size.levels result.size.bytes result.size.filler × (result.end ≡ from + length (bytes g.held)) }
{
    let first = type_ahead(tr, from);
    let around = item_size(source, sizes, s);
    let mut size = rows::size_of(sizes, rows::source_row(source, s, first));
    let mut o = from;
    let mut i = 0;
    while tr[o] != CLOSES {
        if tr[o] == CHARACTER {
            size = with_character(size);
            o += 2;
        } else {
            let t = usize::from(tr[o + 1]);
            let depth = child_depth(source, map, s, i, t);
            let p = element(source, map, sizes, tr, t, o + 2);
            let inner = p.size;
            size = with_child(size, around, depth, inner);
            o = p.end + 1;
            i += 1;
        }
    }
    ElementSize { size, end: o }
}

// The levels, the bytes and the bytes of filler of the image of a conforming document. The root element and the end of the
// document are added: one level, four bytes.
pub fn measure<'a>(
    source: &'a [u16; TABLE],
    map: &'a [u16; MAP],
    sizes: &'a [u16],
    tr: &'a [u8],
) -> Size
    requires { Measurable source.now map.now sizes.now tr.now }
    ensures { (m : Measurable source.now map.now sizes.now tr.now) → ImageSize (setting_in source.now m.target map.now m.em) (content_of tr.now) result.levels result.bytes result.filler }
{
    let root = element(source, map, sizes, tr, 0, 2);
    let size = root.size;
    Size {
        levels: (size.levels + 1).min(OVER_BYTES),
        bytes: (size.bytes + ROOT_BYTES).min(OVER_BYTES),
        filler: size.filler,
    }
}
