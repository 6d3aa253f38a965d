// Rows of items: which of them are one term, and how many bytes that takes. The first of the writer's two passes; it writes nothing.
//
// A row is a run of numbers, three to an item: its kind and two fields. It is gone through once, from the front, with what is open in a
// fixed run of numbers: no call nests.

#![tactic(auto)]

ghost use Rattle.std.specs.Prelude.{◌≡◌, ◌+◌, ◌<◌, ◌≤◌, length, if◌then◌else◌, nat_le, Some, None, IfSome};
ghost use Rattle.fields.specs.Be.{digits_of};
ghost use Rattle.measure.specs.Item.{signed64, text_at, item_of, items_of};
ghost use Rattle.measure.specs.Item as item;
ghost use Rattle.measure.specs.Term as term;
ghost use Rattle.measure.specs.Inner.Own.{own_of, Alone, Around, twos_of, owes_of};

// The numbers of an item.
pub const ITEM: usize = 3;

// The kinds of items. Their fields: an integer's 64 bits in two's complement, a double's bits, the place and the length of an atom's name and of a
// binary in the texts, the number of a tuple's children, of a list's elements, of a map's pairs; a field that isn't named is ignored. Any other
// number is no kind, 0 too, so that an item that was never filled is refused. They are numbers and no enum since a C caller's row is words
// (`sill_item` in jig/sillthread.h).
pub const INTEGER: u64 = 1;

pub const DOUBLE: u64 = 2;

pub const ATOM: u64 = 3;

pub const BINARY: u64 = 4;

pub const TUPLE: u64 = 5;

pub const LIST: u64 = 6;

pub const MAP: u64 = 7;

pub const NIL: u64 = 8;

// The bytes that a row needs as a term, byte 131 among them; None where it is refused: it isn't one term, a text lies outside the lent ones or is no
// name, a cap, the nesting or the bytes of an input are passed. `left` counts the children of the innermost open item that are still to come, by
// twos, and one for a tail, which no item is; `open` has the same of those around it, in a fixed run, as there is no heap, of which `depth` are used.
// The place `i` is counted by hand: with what is left of the row taken apart by `[kind, x, y, behind @ ..]`, here and in the writer, a small
// integer takes an instruction more.
pub fn needed(row: &[u64], texts: &[u8]) -> Option<usize>
    ensures { result ≡ term.needed (items_of texts.now row.now) }
{
    if row.len() % ITEM != 0 {
        return None;
    }
    let mut open = [0usize; numbers::NESTING];
    let mut depth = 0;
    let mut left = 2;
    let mut size = 1;
    let mut i = 0;
    loop {
        if left < 2 {
            if depth == 0 {
                if i == row.len() {
                    return Some(size);
                }
                return None;
            }
            depth -= 1;
            left = open[depth];
            continue;
        }
        if i == row.len() {
            return None;
        }
        left -= 2;
        let kind = row[i];
        let x = row[i + 1];
        let y = row[i + 2];
        i += ITEM;
        if let Some(alone) = leaf(texts, kind, x, y) {
            size += alone;
            if numbers::INPUT < size {
                return None;
            }
            continue;
        }
        let Some(own) = parent(kind, x) else {
            return None;
        };
        size += own;
        if numbers::INPUT < size {
            return None;
        }
        let kids = owes(kind, x);
        if kids != 0 {
            if numbers::NESTING - 2 < depth {
                return None;
            }
            open[depth] = left;
            depth += 1;
            left = kids;
        }
    }
}

// The bytes of an item without children; None where it isn't allowed, or is another. Kinds are told by ranges: a table of jumps takes longer.
fn leaf(texts: &[u8], kind: u64, x: u64, y: u64) -> Option<usize>
    ensures { Alone (item_of texts.now kind x y) kind result }
{
    if kind < DOUBLE {
        if kind < INTEGER {
            return None;
        }
        return Some(integer(x));
    }
    if kind < ATOM {
        return Some(9);
    }
    if kind < BINARY {
        return name(texts, x, y);
    }
    if kind < TUPLE {
        return binary(texts, x, y);
    }
    if kind == NIL {
        return Some(1);
    }
    None
}

// The bytes of an item with children, its tail among them; None where it isn't allowed, or is another.
fn parent(kind: u64, x: u64) -> Option<usize>
    ensures { Around kind x result }
{
    if kind == TUPLE {
        return tuple(x);
    }
    if kind == LIST {
        return within(x, numbers::ELEMENTS, 6);
    }
    if kind == MAP {
        return within(x, numbers::PAIRS, 5);
    }
    None
}

// What is still to come behind an item's first bytes: its children by twos, and one for a tail. Above the caps, where it is asked of no item, it counts
// no child.
pub fn owes(kind: u64, x: u64) -> usize
    ensures { result ≡ owes_of kind x }
{
    if kind == TUPLE {
        return twos(x);
    }
    if kind == LIST {
        return twos(x) + 1;
    }
    if kind == MAP {
        return 2 * twos(x);
    }
    0
}

// The cap is asked behind the kind, and not once for all: so each kind's way through the passes runs straight.
fn twos(x: u64) -> usize
    ensures { (result ≡ twos_of x) × (result ≤ 20000000) }
{
    if numbers::ELEMENTS < x {
        return 0;
    }
    2 * x as usize
}

// An integer takes the first that holds it of 97, 98 and 110.
fn integer(x: u64) -> usize
    ensures { (Some result ≡ own_of (item.integer (signed64 x))) × (result ≤ 11) }
{
    if x < 256 {
        return 2;
    }
    if x.wrapping_add(2147483648) < 4294967296 {
        return 5;
    }
    3 + digits(x.cast_signed().unsigned_abs())
}

// How many digits a number has.
fn digits(n: u64) -> usize
    requires { 0 < n }
    ensures { (result ≡ length (digits_of 8 n)) × (result ≤ 8) }
{
    n.ilog2() as usize / 8 + 1
}

// An atom, by its name's place. Most names are ASCII, and short: sixteen bytes of ASCII from the place on make any name of up to sixteen good, with
// no branch on its length.
fn name(texts: &[u8], at: u64, n: u64) -> Option<usize>
    ensures { (result ≡ own_of (text_at item.atom texts.now at n)) × IfSome result (λ r. r ≤ 65538) }
{
    let from = at as usize;
    let len = n as usize;
    if len <= 16 && utf8::ascii(texts, from, 16) {
        return Some(named(len));
    }
    if 65535 < n || !fields::has(texts, from, len) {
        return None;
    }
    if utf8::ascii(texts, from, len) || utf8::good(&texts[from..from + len]) == len {
        return Some(named(len));
    }
    None
}

// The bytes of an atom whose name has n: 119 takes two more, 118 three.
fn named(n: usize) -> usize
    requires { n ≤ 65535 }
    ensures { (result ≡ (if nat_le n 255 then 2 + n else 3 + n)) × (result ≤ 3 + n) }
{
    if n <= 255 { 2 + n } else { 3 + n }
}

// A binary, by its bytes' place.
fn binary(texts: &[u8], at: u64, n: u64) -> Option<usize>
    ensures { (result ≡ own_of (text_at item.binary texts.now at n)) × IfSome result (λ r. r ≤ 100000005) }
{
    let len = n as usize;
    if n <= numbers::BINARY && fields::has(texts, at as usize, len) {
        return Some(5 + len);
    }
    None
}

// A tuple, by its children: 104 takes two bytes, 105 five.
fn tuple(x: u64) -> Option<usize>
    ensures { (result ≡ own_of (item.tuple x)) × IfSome result (λ r. r ≤ 5) }
{
    if x < 256 {
        return Some(2);
    }
    within(x, numbers::ELEMENTS, 5)
}

// So many bytes, where a count is within its cap.
fn within(x: u64, most: u64, bytes: usize) -> Option<usize>
    ensures { (result ≡ (if nat_le x most then Some bytes else None)) × IfSome result (λ r. r ≤ bytes) }
{
    (x <= most).then_some(bytes)
}
