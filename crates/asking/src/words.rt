// What request lines are made of: words with one space between them, decimal numbers, rows of these, and bytes as lower-case hex. Each function
// takes what is left of a line, and hands on what it leaves of it, behind a space. Bytes and a small number are a line's last word, and take
// all that is left.
ghost use Rattle.std.specs.Prelude.{IfOk, IfSome, ◌<◌, ◌≤◌, ◌*◌, length};

use crate::Nothing;

// The most bytes of a request.
const BYTES: usize = 65536;

// The next word.
pub(crate) fn word(line: &mut [u8]) -> Result<(&[u8], &mut [u8]), Nothing>
    ensures { IfOk result (λ r. length r.1.now ≤ length line.old) }
{
    let end = line
        .iter()
        .position(|letter| *letter == b' ')
        .ok_or(Nothing::Unknown)?;
    let (word, rest) = line.split_at_mut(end);
    Ok((word, &mut rest[1..]))
}

// A decimal number.
pub(crate) fn number(line: &mut [u8]) -> Result<(usize, &mut [u8]), Nothing>
    ensures { IfOk result (λ r. length r.1.now ≤ length line.old) }
{
    let (word, rest) = word(line)?;
    let n = decimal(word).ok_or(Nothing::Unknown)?;
    Ok((n, rest))
}

// The same with a minus before it or without. (One function that is handed how a word is read would be no shorter than both.)
pub(crate) fn integer(line: &mut [u8]) -> Result<(i64, &mut [u8]), Nothing>
    ensures { IfOk result (λ r. length r.1.now ≤ length line.old) }
{
    let (word, rest) = word(line)?;
    let n = signed(word).ok_or(Nothing::Unknown)?;
    Ok((n, rest))
}

// A decimal number that one byte holds.
pub(crate) fn small(line: &[u8]) -> Result<u8, Nothing> {
    let n = decimal(line).ok_or(Nothing::Unknown)?;
    u8::try_from(n).map_err(|_| Nothing::Unknown)
}

// Decimal numbers, joined by commas, of which `-` is none. They are put into `row`, which has to have room for them.
pub(crate) fn numbers<'a, 'b>(
    line: &'a mut [u8],
    row: &'b mut [u64],
) -> Result<(&'b [u64], &'a mut [u8]), Nothing>
    ensures { IfOk result (λ r. length r.1.now ≤ length line.old) }
{
    let (word, rest) = word(line)?;
    let row = put(word, row).ok_or(Nothing::Unknown)?;
    Ok((row, rest))
}

// The bytes that a word spells in place, half as many as it has letters; `-` is none.
pub(crate) fn bytes(line: &mut [u8]) -> Result<&[u8], Nothing>
    ensures { IfOk result (λ b. 2 * length b.now ≤ length line.old) }
{
    if BYTES < line.len() / 2 {
        return Err(Nothing::Long);
    }
    decode(line).ok_or(Nothing::Unknown)
}

fn decimal(word: &[u8]) -> Option<usize> {
    if word.is_empty() {
        return None;
    }
    word.iter().try_fold(0usize, |n, letter| {
        let d = digit(*letter).filter(|d| *d < 10)?;
        n.checked_mul(10)?.checked_add(usize::from(d))
    })
}

fn signed(word: &[u8]) -> Option<i64> {
    match word.strip_prefix(b"-") {
        Some(digits) => 0i64.checked_sub_unsigned(decimal(digits)? as u64),
        None => i64::try_from(decimal(word)?).ok(),
    }
}

fn put<'a>(word: &[u8], row: &'a mut [u64]) -> Option<&'a [u64]> {
    if word == b"-".as_slice() {
        return Some(&[]);
    }
    let mut n = 0;
    for digits in word.split(|letter| *letter == b',') {
        *row.get_mut(n)? = decimal(digits)? as u64;
        n += 1;
    }
    row.get(..n)
}

fn decode(word: &mut [u8]) -> Option<&[u8]>
    ensures { IfSome result (λ b. 2 * length b.now ≤ length word.old) }
{
    if &*word == b"-".as_slice() {
        return Some(&[]);
    }
    if word.is_empty() || word.len() % 2 == 1 {
        return None;
    }
    let n = word.len() / 2;
    for i in 0..n {
        let high = digit(word[2 * i])?;
        let low = digit(word[2 * i + 1])?;
        word[i] = high * 16 + low;
    }
    Some(&word[..n])
}

// What a letter is worth as a digit of hex.
fn digit(letter: u8) -> Option<u8>
    ensures { IfSome result (λ d. d < 16) }
{
    match letter {
        b'0'..=b'9' => Some(letter - b'0'),
        b'a'..=b'f' => Some(letter - b'a' + 10),
        _ => None,
    }
}
