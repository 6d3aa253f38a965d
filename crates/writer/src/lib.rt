// The writer: a row of items as one term, byte 131 and its bytes, in lent bytes.
//
// It stands over measure, which judges the row and says how many bytes it needs. So the bytes are put in a second pass, when it is known that the
// row is good and that there is room for it: nothing is judged twice, and a refused write has written nothing.

#![tactic(auto)]

ghost use Rattle.std.specs.Prelude.{◌≡◌, ◌+◌, ◌<◌, ◌≤◌, [], ◌∷◌, ◌++◌, length, take, drop};
ghost use Rattle.fields.specs.Be.{digits_of};
ghost use Rattle.measure.specs.Item as item;
ghost use Rattle.measure.specs.Term as term;
ghost use Rattle.measure.specs.Inner.Own.{head_in, head_of};
ghost use Rattle.measure.proofs.Frames.{tail_by};
ghost use Rattle.writer.specs.Write.{write_over};
ghost use Rattle.writer.specs.Inner.Put.{Wrote, TextFits, HeadFits, LeafFits, ParentFits, Fits};

use numbers::Refusal;

// Writes a row of items, three numbers to each, as one term behind byte 131; the texts of atoms and binaries lie in `texts`. Answers how many bytes
// were written. Refused: Items, where the row is refused whatever room is lent; then Room with the bytes needed. Only a Done write writes, and bytes
// behind the term stay.
pub fn write(row: &[u64], texts: &[u8], out: &mut [u8]) -> Result<usize, Refusal>
    ensures answer { result ≡ (write_over (item.items_of texts.now row.now) out.old).answer }
    ensures bytes { out.new ≡ (write_over (item.items_of texts.now row.now) out.old).bytes }
{
    let Some(need) = measure::needed(row, texts) else {
        return Err(Refusal::Items);
    };
    if out.len() < need {
        return Err(Refusal::Room(need));
    }
    put(row, texts, out, need);
    Ok(need)
}

// The bytes of a row that is accepted, where there is room for them. `left` counts the children of the innermost open item that are still to come,
// by twos, and one for a tail; `open` has the same of those around it, and `i` is counted by hand, as in measure.
fn put(row: &[u64], texts: &[u8], out: &mut [u8], end: usize)
    requires { Fits (item.items_of texts.now row.now) end (length out.old) }
    ensures { out.new ≡ term.written (item.items_of texts.now row.now) ++ drop end out.old }
{
    let mut open = [0usize; numbers::NESTING];
    let mut depth = 0;
    let mut left = 2;
    let mut i = 0;
    let mut p = 1;
    out[0] = 131;
    loop {
        if left < 2 {
            p = tail(out, p, left);
            if depth == 0 {
                return;
            }
            depth -= 1;
            left = open[depth];
            continue;
        }
        left -= 2;
        let kind = row[i];
        let x = row[i + 1];
        let y = row[i + 2];
        i += measure::ITEM;
        if kind < measure::TUPLE {
            p = leaf(out, p, texts, kind, x, y, end);
            continue;
        }
        p = parent(out, p, kind, x);
        let kids = measure::owes(kind, x);
        if kids != 0 {
            open[depth] = left;
            depth += 1;
            left = kids;
        }
    }
}

// A list's tail, where one is left.
fn tail(out: &mut [u8], p: usize, left: usize) -> usize
    requires { (left < 2) × (p + length (tail_by left) ≤ length out.old) }
    ensures { Wrote out.old out.new p result result (tail_by left) }
{
    if left == 1 {
        return nil(out, p);
    }
    p
}

// The bytes of an item without children, but for Nil. They end where the answer says; behind that, up to `end`, anything may be left. Kinds are told
// by ranges: a table of jumps takes longer.
fn leaf(out: &mut [u8], p: usize, texts: &[u8], kind: u64, x: u64, y: u64, end: usize) -> usize
    requires { LeafFits (item.item_of texts.now kind x y) kind p end (length out.old) }
    ensures { Wrote out.old out.new p result end (head_of (item.item_of texts.now kind x y)) }
{
    if kind < measure::DOUBLE {
        return integer(out, p, x);
    }
    if kind < measure::ATOM {
        return number(out, p, 70, x.to_be_bytes());
    }
    if kind < measure::BINARY {
        return name(out, p, texts, x as usize, y as usize, end);
    }
    binary(out, p, texts, x as usize, y as usize, end)
}

// An integer, by the first tag that holds it.
fn integer(out: &mut [u8], p: usize, x: u64) -> usize
    requires { p + length (head_of (item.integer (item.signed64 x))) ≤ length out.old }
    ensures { Wrote out.old out.new p result result (head_of (item.integer (item.signed64 x))) }
{
    if x < 256 {
        return number(out, p, 97, [x as u8]);
    }
    if x.wrapping_add(2147483648) < 4294967296 {
        return number(out, p, 98, ((x % 4294967296) as u32).to_be_bytes());
    }
    if x < 9223372036854775808 {
        return big(out, p, 0, x);
    }
    big(out, p, 1, 18446744073709551615 - x + 1)
}

// The digits come first, since they tell how many they are.
fn big(out: &mut [u8], p: usize, sign: u8, n: u64) -> usize
    requires { p + length (head_in (term.big sign n)) ≤ length out.old }
    ensures { Wrote out.old out.new p result result (head_in (term.big sign n)) }
{
    let end = digits(out, p + 3, n);
    out[p + 2] = sign;
    out[p + 1] = (end - p - 3) as u8;
    out[p] = 110;
    end
}

// The fewest digits, least first.
fn digits(out: &mut [u8], p: usize, n: u64) -> usize
    requires { p + length (digits_of 8 n) ≤ length out.old }
    ensures { Wrote out.old out.new p result result (digits_of 8 n) }
{
    let mut m = n;
    let mut q = p;
    while m != 0 {
        out[q] = (m % 256) as u8;
        m = m / 256;
        q += 1;
    }
    q
}

fn name(out: &mut [u8], p: usize, texts: &[u8], at: usize, n: usize, end: usize) -> usize
    requires { HeadFits (item.text_at item.atom texts.now at n) p end (length out.old) }
    ensures { Wrote out.old out.new p result end (head_of (item.text_at item.atom texts.now at n)) }
{
    if n < 256 {
        let q = number(out, p, 119, [n as u8]);
        return text(out, q, texts, at, n, end);
    }
    let q = number(out, p, 118, (n as u16).to_be_bytes());
    text(out, q, texts, at, n, end)
}

fn binary(out: &mut [u8], p: usize, texts: &[u8], at: usize, n: usize, end: usize) -> usize
    requires { HeadFits (item.text_at item.binary texts.now at n) p end (length out.old) }
    ensures { Wrote out.old out.new p result end (head_of (item.text_at item.binary texts.now at n)) }
{
    let q = number(out, p, 109, (n as u32).to_be_bytes());
    text(out, q, texts, at, n, end)
}

// Nil, which is also a list's tail.
fn nil(out: &mut [u8], p: usize) -> usize
    requires { p < length out.old }
    ensures { Wrote out.old out.new p result result (106 ∷ []) }
{
    out[p] = 106;
    p + 1
}

// The first bytes of any other item: Nil's, or the tag and the count of one with children.
fn parent(out: &mut [u8], p: usize, kind: u64, x: u64) -> usize
    requires { ParentFits kind x p (length out.old) }
    ensures { Wrote out.old out.new p result result (head_of (item.item_of [] kind x 0)) }
{
    if kind == measure::NIL {
        return nil(out, p);
    }
    if kind == measure::TUPLE {
        if x < 256 {
            return number(out, p, 104, [x as u8]);
        }
        return number(out, p, 105, (x as u32).to_be_bytes());
    }
    if kind == measure::LIST {
        return number(out, p, 108, (x as u32).to_be_bytes());
    }
    number(out, p, 116, (x as u32).to_be_bytes())
}

// A tag and a number's bytes behind it. These are stored first: else the compiler makes a store of each.
fn number<const N: usize>(out: &mut [u8], p: usize, tag: u8, bytes: [u8; N]) -> usize
    requires { p + 1 + N ≤ length out.old }
    ensures { Wrote out.old out.new p result result (tag ∷ bytes.entry) }
{
    out[p + 1..p + 1 + N].copy_from_slice(&bytes);
    out[p] = tag;
    p + 1 + N
}

// The n bytes of the texts from `at` on. Short ones, where there are sixteen on both sides, are copied with what stands behind them: that takes no
// branch on n, and the sixteen are loaded before any is stored, so that it is one load and one store.
fn text(out: &mut [u8], p: usize, texts: &[u8], at: usize, n: usize, end: usize) -> usize
    requires { TextFits (length texts.now) at n p end (length out.old) }
    ensures { Wrote out.old out.new p result end (take n (drop at texts.now)) }
{
    if n <= 16 && 16 <= end - p && 16 <= texts.len() - at {
        let (sixteens, _) = texts[at..].as_chunks::<16>();
        let first = sixteens[0];
        out[p..p + 16].copy_from_slice(&first);
        return p + n;
    }
    copy(out, p, texts, at, n);
    p + n
}

// (Byte by byte: std's copy of a slice would have the library call memmove, which a firmware needn't bring.)
fn copy(out: &mut [u8], p: usize, texts: &[u8], at: usize, n: usize)
    requires { TextFits (length texts.now) at n p (p + n) (length out.old) }
    ensures { Wrote out.old out.new p (p + n) (p + n) (take n (drop at texts.now)) }
{
    for i in 0..n {
        out[p + i] = texts[at + i];
    }
}
