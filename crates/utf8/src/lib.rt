// UTF-8, as Unicode defines it: how many leading bytes of a text form whole good characters, and a short way for ASCII.
//
// A text is good where its good bytes are all of it. The check goes by the rows of Unicode's table of byte ranges, which stand in `rows` for
// comparing with the printed page (docs/UTF8.md); the promises speak of code points (specs/Unicode.antt), and proofs/Table.antt has that both
// describe the same. Runs of ASCII are passed 32 bytes at a time, what is left of them by eights. It stands where decoder.rs
// (michaelklishin/edp-rs, fc07dcb95d) calls std::str::from_utf8.

#![tactic(auto)]

ghost use Rattle.std.specs.Prelude.{◌≡◌, ◌+◌, ◌^◌, ◌<◌, ◌≤◌, true, ◌↔◌, [], ◌∷◌, length, take, drop};
ghost use Rattle.utf8.specs.Inner.Find.{good_bytes};
ghost use Rattle.utf8.specs.Inner.Check.{Plain, Run, Char};
ghost use Rattle.utf8.specs.Inner.Table.{◌to◌, table, has, undecided, tried, by_rows};

// The bit that no byte of ASCII has, in each of eight bytes.
const HIGH: u64 = 0x8080808080808080;

// Said of a character's length where no row that was looked at has its first byte.
const UNDECIDED: usize = 5;

// How many leading bytes of s form whole good characters.
pub fn good(s: &[u8]) -> usize
    ensures { result ≡ good_bytes s.now }
{
    // Not a `for`: it goes on by characters, and by runs of ASCII.
    let mut i = 0;
    while i < s.len() {
        if s[i] < 0x80 {
            i = plain_end(s, i + 1);
        } else {
            match char_at(s, i) {
                Some(n) => i += n,
                None => return i,
            }
        }
    }
    i
}

// Whether the n bytes from `at` on are there and all ASCII, which makes them good. For short names: it may look at the eight bytes
// from `at` on, so that it needn't branch on n.
pub fn ascii(b: &[u8], at: usize, n: usize) -> bool
    ensures { (result ≡ true) ↔ Plain b.now at (at + n) }
{
    if b.len() < at || b.len() - at < n {
        return false;
    }
    if 8 <= n {
        return long(b, at, n);
    }
    match b[at..].first_chunk() {
        Some(eight) => short(eight, n),
        None => at + n <= plain_end(b, at),
    }
}

// The first n of eight bytes, n under eight: their number is what is left of that of the eight, divided by 256 ^ n.
fn short(eight: &[u8; 8], n: usize) -> bool
    requires { n < 8 }
    ensures { (result ≡ true) ↔ Plain eight.now 0 n }
{
    u64::from_le_bytes(*eight) % (1u64 << (8 * (n as u64))) & HIGH == 0
}

// Eight bytes or more: by eights, the last of them those that end at the end. Counted by hand: over as_chunks, with `all`, a text takes
// three instructions more, which is a tenth of what one of ten bytes takes. (A call: within the loop over children it would take the registers
// that the loop has its places in.)
#[inline(never)]
fn long(b: &[u8], at: usize, n: usize) -> bool
    requires { (8 ≤ n) × (at + n ≤ length b.now) }
    ensures { (result ≡ true) ↔ Plain b.now at (at + n) }
{
    let end = at + n - 8;
    let mut i = at;
    while i < end {
        if !low8(eight_at(b, i)) {
            return false;
        }
        i += 8;
    }
    low8(eight_at(b, end))
}

// The eight bytes from `at` on.
fn eight_at(b: &[u8], at: usize) -> &[u8; 8]
    requires { at + 8 ≤ length b.now }
    ensures { result.now ≡ take 8 (drop at b.now) }
{
    let (eights, _) = b[at..].as_chunks();
    &eights[0]
}

// The end of a run of ASCII from `from` on: all of it, and no more.
fn plain_end(s: &[u8], from: usize) -> usize
    requires { from ≤ length s.now }
    ensures { Run s.now from result }
{
    let i = eights_end(s, from);
    match s[i..].iter().position(|b| !b.is_ascii()) {
        Some(n) => i + n,
        None => s.len(),
    }
}

// As many eights of such a run as there are, and what the eight behind them has of it. Blocks are looked for only behind a first eight: most
// runs in a short text have none. Eights and blocks are taken one by one: over as_chunks, with `position`, short runs take a fifth more instructions.
fn eights_end(s: &[u8], from: usize) -> usize
    requires { from ≤ length s.now }
    ensures { Plain s.now from result }
{
    let Some(first) = s[from..].first_chunk() else {
        return from;
    };
    if !low8(first) {
        return from + low_front(first);
    }
    let mut i = blocks_end(s, from + 8);
    while let Some(eight) = s[i..].first_chunk() {
        if !low8(eight) {
            return i + low_front(eight);
        }
        i += 8;
    }
    i
}

// As many blocks of 32 bytes of such a run as there are.
fn blocks_end(s: &[u8], from: usize) -> usize
    requires { from ≤ length s.now }
    ensures { Plain s.now from result }
{
    let mut i = from;
    while let Some(block) = s[i..].first_chunk() {
        if !low32(block) {
            return i;
        }
        i += 32;
    }
    i
}

// Whether 32 bytes are ASCII: four eights with no branch between them, which the compiler makes one test of.
fn low32(block: &[u8; 32]) -> bool
    ensures { (result ≡ true) ↔ Plain block.now 0 32 }
{
    let (eights, _) = block.as_chunks();
    low8(&eights[0]) & low8(&eights[1]) & low8(&eights[2]) & low8(&eights[3])
}

// Whether eight bytes are ASCII.
fn low8(eight: &[u8; 8]) -> bool
    ensures { (result ≡ true) ↔ Plain eight.now 0 8 }
{
    u64::from_le_bytes(*eight) & HIGH == 0
}

// How many of eight bytes stand before the first that isn't ASCII: its bit is the lowest one set.
fn low_front(eight: &[u8; 8]) -> usize
    ensures plain { Plain eight.now 0 result }
    ensures most { result ≤ 8 }
{
    ((u64::from_le_bytes(*eight) & HIGH).trailing_zeros() / 8) as usize
}

// The length of the character at i, where a whole good one stands there.
fn char_at(s: &[u8], i: usize) -> Option<usize>
    requires { i < length s.now }
    ensures { Char (drop i s.now) result }
{
    match rows(s, i) {
        0 | UNDECIDED => None,
        n => Some(n),
    }
}

// Unicode's Table 3-7, Well-Formed UTF-8 Byte Sequences: its nine rows in its order, a row to a line. Behind n, which is what the rows above
// have told, stand the lowest and the highest value of the first byte, of the second, of the third and of the fourth.
fn rows(s: &[u8], i: usize) -> usize
    requires { i < length s.now }
    ensures { result ≡ by_rows undecided table (drop i s.now) }
{
    let n = row1(s, i, UNDECIDED, 0x00, 0x7F);
    let n = row2(s, i, n, 0xC2, 0xDF, 0x80, 0xBF);
    let n = row3(s, i, n, 0xE0, 0xE0, 0xA0, 0xBF, 0x80, 0xBF);
    let n = row3(s, i, n, 0xE1, 0xEC, 0x80, 0xBF, 0x80, 0xBF);
    let n = row3(s, i, n, 0xED, 0xED, 0x80, 0x9F, 0x80, 0xBF);
    let n = row3(s, i, n, 0xEE, 0xEF, 0x80, 0xBF, 0x80, 0xBF);
    let n = row4(s, i, n, 0xF0, 0xF0, 0x90, 0xBF, 0x80, 0xBF, 0x80, 0xBF);
    let n = row4(s, i, n, 0xF1, 0xF3, 0x80, 0xBF, 0x80, 0xBF, 0x80, 0xBF);
    let n = row4(s, i, n, 0xF4, 0xF4, 0x80, 0x8F, 0x80, 0xBF, 0x80, 0xBF);
    n
}

// A row of one byte, of two, three and four. Where the rows above haven't decided, the first byte tells whether it is this row, and then this row
// decides: it answers its length, or 0 where the other bytes aren't there or not within their ranges. Tried, and slower: one function over a slice of
// ranges, an Option in place of n and its two numbers 0 and UNDECIDED, and slice patterns. Text of two bytes to a character then takes twice as long,
// text of three and of four a fifth longer and more.
fn row1(s: &[u8], i: usize, n: usize, l1: u8, h1: u8) -> usize
    requires { i < length s.now }
    ensures { result ≡ tried n ((l1 to h1) ∷ []) (drop i s.now) }
{
    if n != UNDECIDED {
        return n;
    }
    if within(s[i], l1, h1) {
        return 1;
    }
    UNDECIDED
}

fn row2(s: &[u8], i: usize, n: usize, l1: u8, h1: u8, l2: u8, h2: u8) -> usize
    requires { i < length s.now }
    ensures { result ≡ tried n ((l1 to h1) ∷ (l2 to h2) ∷ []) (drop i s.now) }
{
    if n != UNDECIDED {
        return n;
    }
    if !within(s[i], l1, h1) {
        return UNDECIDED;
    }
    if s.len() < i + 2 {
        return 0;
    }
    if within(s[i + 1], l2, h2) {
        return 2;
    }
    0
}

fn row3(s: &[u8], i: usize, n: usize, l1: u8, h1: u8, l2: u8, h2: u8, l3: u8, h3: u8) -> usize
    requires { i < length s.now }
    ensures { result ≡ tried n ((l1 to h1) ∷ (l2 to h2) ∷ (l3 to h3) ∷ []) (drop i s.now) }
{
    if n != UNDECIDED {
        return n;
    }
    if !within(s[i], l1, h1) {
        return UNDECIDED;
    }
    if s.len() < i + 3 {
        return 0;
    }
    if within(s[i + 1], l2, h2) & within(s[i + 2], l3, h3) {
        return 3;
    }
    0
}

fn row4(
    s: &[u8],
    i: usize,
    n: usize,
    l1: u8,
    h1: u8,
    l2: u8,
    h2: u8,
    l3: u8,
    h3: u8,
    l4: u8,
    h4: u8,
) -> usize
    requires { i < length s.now }
    ensures { result ≡ tried n ((l1 to h1) ∷ (l2 to h2) ∷ (l3 to h3) ∷ (l4 to h4) ∷ []) (drop i s.now) }
{
    if n != UNDECIDED {
        return n;
    }
    if !within(s[i], l1, h1) {
        return UNDECIDED;
    }
    if s.len() < i + 4 {
        return 0;
    }
    if within(s[i + 1], l2, h2) & within(s[i + 2], l3, h3) & within(s[i + 3], l4, h4) {
        return 4;
    }
    0
}

fn within(x: u8, low: u8, high: u8) -> bool
    ensures { result ≡ has (low to high) x }
{
    if x < low {
        return false;
    }
    x <= high
}
