// Which short texts are number texts: every text of at most five bytes over the letters of numbers and the zero byte, and the words in
// every pattern of letter case: whole, cut, and with one byte changed.
//
// The file `stdout` beside src/ is what Rust's own reading prints in the same form, so that a run holds literal::trim and
// literal::literal to it. Of the texts the accepted ones are printed. Of a word a row is a list of answers, over the patterns or over
// the changed byte.

#![tactic(auto)]

ghost use Rattle.std.specs.Prelude.{IfOk, ◌≡◌, ◌*◌, ◌≤◌, ◌<◌, length};

use print::Out;
use std::fmt;
use std::fmt::Write;
use std::process::ExitCode;
use sweep::Runs;

fn main(rt: HostRuntime) -> ExitCode {
    let mut room = [0u8; 4096];
    let mut out = Out::new(&mut room, rt.stdout(), rt.stderr());
    // an output that fails says so itself
    let _ = sections(&mut out);
    out.status()
}

fn sections(out: &mut Out<'_>) -> fmt::Result {
    writeln!(out, "texts")?;
    let count = all_texts(out)?;
    writeln!(out, "texts={count}")?;
    writeln!(out, "words")?;
    let tried = all_words(out)?;
    writeln!(out, "words={tried}")?;
    out.flush()
}

// Whether a text without its trailing zero bytes is a number text.
fn judged(s: &[u8]) -> bool {
    let n = literal::trim(s);
    literal::literal(&s[..n])
}

// The texts of zero to five letters, of which there are eleven. Answers how many there were.
fn all_texts(out: &mut Out<'_>) -> Result<usize, fmt::Error> {
    let mut count = texts(&mut [], 1, out)?;
    count += texts(&mut [0], 11, out)?;
    count += texts(&mut [0; 2], 121, out)?;
    count += texts(&mut [0; 3], 1331, out)?;
    count += texts(&mut [0; 4], 14641, out)?;
    count += texts(&mut [0; 5], 161051, out)?;
    Ok(count)
}

// Prints the accepted ones of the texts as long as this one, each as soon as it is found: so many numbers spell them. Answers how many were
// judged.
fn texts(text: &mut [u8], numbers: usize, out: &mut Out<'_>) -> Result<usize, fmt::Error>
    ensures { IfOk result (λ n. n ≡ numbers) }
{
    let mut count = 0;
    for number in 0..numbers {
        sweep::spell(text, b"01.eE+-inf\0", number);
        if judged(text) {
            writeln!(out, "{}", Shown(text))?;
            out.flush()?;
        }
        count += 1;
    }
    Ok(count)
}

// A text with _ for each zero byte.
#[derive(Clone, Copy)]
struct Shown<'a>(&'a [u8]);

impl<'a> fmt::Display for Shown<'a> {
    fn fmt<W: fmt::Write>(&self, f: &mut fmt::Formatter<W>) -> fmt::Result {
        for byte in self.0 {
            f.write_char(if *byte == 0 { '_' } else { char::from(*byte) })?;
        }
        Ok(())
    }
}

// The words with no sign and with both. One of three letters has 8 patterns of letter case, one of eight has 256. Answers how many texts
// were tried.
fn all_words(out: &mut Out<'_>) -> Result<usize, fmt::Error> {
    let mut tried = try_word("inf", 0, 8, out)?;
    tried += try_word("+inf", 1, 8, out)?;
    tried += try_word("-inf", 1, 8, out)?;
    tried += try_word("infinity", 0, 256, out)?;
    tried += try_word("+infinity", 1, 256, out)?;
    tried += try_word("-infinity", 1, 256, out)?;
    tried += try_word("nan", 0, 8, out)?;
    tried += try_word("+nan", 1, 8, out)?;
    tried += try_word("-nan", 1, 8, out)?;
    Ok(tried)
}

fn try_word(
    shown: &'static str,
    signs: usize,
    patterns: usize,
    out: &mut Out<'_>,
) -> Result<usize, fmt::Error>
    requires { (length shown.now ≤ 9) × ((signs ≤ 1) × (patterns ≤ 256)) }
    ensures { IfOk result (λ n. n ≤ 600000) }
{
    let word = Word {
        shown,
        signs,
        patterns,
    };
    let mut tried = word.cut(shown.len(), out)?;
    for n in 0..shown.len() {
        tried += word.cut(n, out)?;
    }
    for place in 0..shown.len() {
        tried += word.changed(place, out)?;
    }
    Ok(tried)
}

// A word, how many of its bytes are signs, and in how many patterns of letter case it is tried.
#[derive(Clone, Copy)]
struct Word {
    shown: &'static str,
    signs: usize,
    patterns: usize,
    ghost short: { (length shown.now ≤ 9) × ((signs ≤ 1) × (patterns ≤ 256)) },
}

impl Word {
    // The word's first n bytes, all of them or cut there: a row over the patterns. Answers how many texts were judged.
    fn cut(self, n: usize, out: &mut Out<'_>) -> Result<usize, fmt::Error>
        requires { n ≤ length self.shown.now }
        ensures { IfOk result (λ k. k ≡ self.patterns) }
    {
        let mut row = [0u8; 256];
        let row = &mut row[..self.patterns];
        let mut tried = 0;
        for (pattern, answer) in row.iter_mut().enumerate() {
            *answer = u8::from(judged(&self.cased(pattern)[..n]));
            tried += 1;
        }
        if n == self.shown.len() {
            writeln!(out, "{} whole{}", self.shown, Runs(row))?;
        } else {
            writeln!(out, "{} cut {n}{}", self.shown, Runs(row))?;
        }
        out.flush()?;
        Ok(tried)
    }

    // The word with every byte at one place: a row over that byte for each pattern, printed where it differs from the row before it. Answers how
    // many texts were judged.
    fn changed(self, place: usize, out: &mut Out<'_>) -> Result<usize, fmt::Error>
        requires { place < length self.shown.now }
        ensures { IfOk result (λ k. k ≡ 256 * self.patterns) }
    {
        let bytes = sweep::every();
        let mut row = [255u8; 256];
        let mut tried = 0;
        for pattern in 0..self.patterns {
            let mut cased = self.cased(pattern);
            let text = &mut cased[..self.shown.len()];
            let renewed = sweep::renewed(&mut row, text, place, &bytes, |s| u8::from(judged(s)));
            if renewed.differs {
                let runs = Runs(&row);
                writeln!(
                    out,
                    "{} changed {place} pattern {pattern}{runs}",
                    self.shown
                )?;
                out.flush()?;
            }
            tried += renewed.texts;
        }
        Ok(tried)
    }

    // The word with a letter as a capital where its bit of the pattern is set, the first letter's bit worth least.
    fn cased(self, pattern: usize) -> [u8; 9] {
        let mut text = [0; 9];
        let mut capitals = pattern << self.signs;
        for (byte, letter) in text.iter_mut().zip(self.shown.as_bytes()) {
            *byte = if capitals % 2 == 0 {
                *letter
            } else {
                letter.to_ascii_uppercase()
            };
            capitals /= 2;
        }
        text
    }
}
