// What the programs share that run a function over all short texts: the texts by their numbers, and rows of answers, each a byte, that
// are printed without loss but short, as runs. What the answers are, and over which texts, is for the programs.

#![tactic(auto)]

ghost use Rattle.std.specs.Prelude.{◌≡◌, ◌<◌, min, length};

use std::{array, fmt, mem};

// Every byte in its order.
pub fn every() -> [u8; 256] {
    array::from_fn(|i| (i % 256) as u8)
}

// Fills a text with a number's digits, the last worth least. Its base is how many digits there are.
pub fn spell(text: &mut [u8], digits: &[u8], number: usize)
    requires { 0 < length digits.now }
{
    let mut rest = number;
    for byte in text.iter_mut().rev() {
        *byte = digits[rest % digits.len()];
        rest /= digits.len();
    }
}

// What a row came to: how many texts were judged for it, each counted as it was, and whether the row differs from what it was.
#[derive(Clone, Copy)]
pub struct Tried {
    pub texts: usize,
    pub differs: bool,
}

// Fills a row with the answers on a text over some bytes at one place of it, as far as row and bytes go. A row of what no answer is differs
// from every row, so that the first one is printed.
pub fn renewed<F>(row: &mut [u8], text: &mut [u8], place: usize, bytes: &[u8], judged: F) -> Tried
where
    F: Fn(&[u8]) -> u8,
    requires within { place < length text.old }
    requires judges { F.IsAlwaysCallable judged }
    ensures { result.texts ≡ min (length row.old) (length bytes.now) }
{
    let mut texts = 0;
    let mut differs = false;
    for i in 0..row.len().min(bytes.len()) {
        text[place] = bytes[i];
        let answer = judged(text);
        differs |= mem::replace(&mut row[i], answer) != answer;
        texts += 1;
    }
    Tried { texts, differs }
}

// A row as its runs: a space and ANSWER*COUNT for each.
#[derive(Clone, Copy)]
pub struct Runs<'a>(pub &'a [u8]);

impl<'a> fmt::Display for Runs<'a> {
    fn fmt<W: fmt::Write>(&self, f: &mut fmt::Formatter<W>) -> fmt::Result {
        for run in self.0.chunk_by(|a, b| a == b) {
            write!(f, " {}*{}", run[0], run.len())?;
        }
        Ok(())
    }
}
