// Layouts: which bytes are a term (specs/Layout.antt), and where the children of a term that is known to be one lie.
//
// It knows no reader: what reading accepts is held against it in `accepts`. What writes the tape and what walks over a map's entries stand
// over it: they know that their input is good, so that they look at a term's tag and counts and at nothing else.

#![tactic(auto)]

ghost use Rattle.std.specs.Prelude.{◌≡◌, false, MatchOption};
ghost use Rattle.layouts.specs.Inner.Shape.{ends, inner, inside, IsTagAt, shape_at, short_at};

// The first child's place, or the end of a term without children; how many children; the bytes behind them.
#[derive(Clone, Copy)]
pub struct Shape {
    pub from: usize,
    pub kids: usize,
    pub back: usize,
}

// The shape of the term at a place. Where no term stands there, it says nothing of use.
pub fn shape_at(b: &[u8], at: usize) -> Shape
    ensures { result ≡ shape_at b.now at }
{
    let Some(tag) = tag_at(b, at) else {
        return ends(at);
    };
    match tag {
        97 => ends(at + 2),
        98 => ends(at + 5),
        99 => ends(at + 32),
        70 => ends(at + 9),
        100 | 107 | 118 => ends(at + 3 + fields::u16_at(b, at + 1) as usize),
        119 => ends(at + 2 + fields::u8_at(b, at + 1) as usize),
        106 => ends(at + 1),
        109 => ends(at + 5 + fields::u32_at(b, at + 1) as usize),
        77 | 111 => ends(at + 6 + fields::u32_at(b, at + 1) as usize),
        110 => ends(at + 3 + fields::u8_at(b, at + 1) as usize),
        104 => inner(at + 2, fields::u8_at(b, at + 1) as usize, 0),
        105 => inner(at + 5, fields::u32_at(b, at + 1) as usize, 0),
        108 => inner(at + 5, fields::u32_at(b, at + 1) as usize + 1, 0),
        116 => inner(at + 5, 2 * fields::u32_at(b, at + 1) as usize, 0),
        88 | 120 => inner(at + 1, 1, 12),
        90 => inner(at + 3, 1, 4 + 4 * fields::u16_at(b, at + 1) as usize),
        113 => inner(at + 1, 3, 0),
        112 => inner(at + 30, fields::u32_at(b, at + 26) as usize + 4, 0),
        82 => ends(at + 2),
        _ => ends(at),
    }
}

// The same, the commonest terms with children first: for a loop over terms that aren't short, which took longer where each went by the whole
// match (docs/DECISIONS.md, "The tape's short way").
pub fn inner_at(b: &[u8], at: usize) -> Shape
    ensures { result ≡ shape_at b.now at }
{
    let Some(tag) = tag_at(b, at) else {
        return ends(at);
    };
    if tag == 104 {
        return inner(at + 2, fields::u8_at(b, at + 1) as usize, 0);
    }
    if tag == 108 {
        return inner(at + 5, fields::u32_at(b, at + 1) as usize + 1, 0);
    }
    if tag == 116 {
        return inner(at + 5, 2 * fields::u32_at(b, at + 1) as usize, 0);
    }
    shape_at(b, at)
}

// The end of one of the commonest terms without children, for a loop over children: None says nothing.
pub fn short_at(b: &[u8], at: usize) -> Option<usize>
    ensures { result ≡ short_at b.now at }
{
    match tag_at(b, at)? {
        97 => Some(at + 2),
        98 => Some(at + 5),
        70 => Some(at + 9),
        106 => Some(at + 1),
        119 => Some(at + 2 + fields::u8_at(b, at + 1) as usize),
        109 => Some(at + 5 + fields::u32_at(b, at + 1) as usize),
        82 => Some(at + 2),
        _ => None,
    }
}

// The tag at a place: none past the end, and none in an input longer than reading takes, so that no sum is too large.
fn tag_at(b: &[u8], at: usize) -> Option<u8>
    ensures { MatchOption result (inside b.now at ≡ false) (IsTagAt b.now at) }
{
    if b.len() <= numbers::INPUT {
        b.get(at).copied()
    } else {
        None
    }
}

// A term without children, that ends at e; one with n children from p on, and m bytes behind them.
fn ends(e: usize) -> Shape
    ensures { result ≡ ends e }
{
    inner(e, 0, 0)
}

fn inner(p: usize, n: usize, m: usize) -> Shape
    ensures { result ≡ inner p n m }
{
    Shape {
        from: p,
        kids: n,
        back: m,
    }
}
