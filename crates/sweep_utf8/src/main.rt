// The good bytes of every text of at most three bytes, and of the texts of four bytes around the edges of what UTF-8 allows.
//
// The file `stdout` beside src/ is what Rust's own check prints in the same form, so that a run holds utf8::good to it. A row is the list
// of the answers over the last byte; it is printed, behind the bytes before that, where it differs from the row before it.

#![tactic(auto)]

ghost use Rattle.std.specs.Prelude.{IfOk, ◌≡◌, ◌*◌, ◌≤◌, ◌<◌, length};

use print::{Out, Word};
use std::fmt;
use std::fmt::Write;
use std::process::ExitCode;
use sweep::Runs;

fn main(rt: HostRuntime) -> ExitCode {
    let mut room = [0u8; 4096];
    let mut out = Out::new(&mut room, rt.stdout(), rt.stderr());
    // an output that fails says so itself
    let _ = sections(&mut out);
    out.status()
}

// A section for each length. Each answers how many texts it has.
fn sections(out: &mut Out<'_>) -> fmt::Result {
    let mut strings = empty(out)?;
    strings += section(&mut [0], 1, out)?;
    strings += section(&mut [0; 2], 256, out)?;
    strings += section(&mut [0; 3], 65536, out)?;
    strings += edges(out)?;
    writeln!(out, "strings={strings}")?;
    out.flush()
}

// The section of the empty text.
fn empty(out: &mut Out<'_>) -> Result<u64, fmt::Error>
    ensures { IfOk result (λ n. n ≡ 1) }
{
    let row = [judged(b"")];
    writeln!(out, "length 0")?;
    writeln!(out, "-{}", Runs(&row))?;
    out.flush()?;
    Ok(row.len() as u64)
}

// The section of all texts as long as this one: so many numbers spell what stands before the last byte.
fn section(text: &mut [u8], numbers: usize, out: &mut Out<'_>) -> Result<u64, fmt::Error>
    requires { (0 < length text.old) × (numbers ≤ 65536) }
    ensures { IfOk result (λ n. n ≤ 16777216) }
{
    writeln!(out, "length {}", text.len())?;
    rows(text, 0, numbers, &sweep::every(), &mut [255; 256], out)
}

// The section of four bytes: every lead from e0 to f5, and then three bytes, each of them at an edge.
fn edges(out: &mut Out<'_>) -> Result<u64, fmt::Error>
    ensures { IfOk result (λ n. n ≤ 16777216) }
{
    writeln!(out, "length 4")?;
    let mut text = [0; 4];
    let last = b"\x7F\x80\x81\x8E\x8F\x90\x91\x9E\x9F\xA0\xA1\xBE\xBF\xC0";
    let mut row = [255; 14];
    let mut strings = 0;
    for lead in 0xE0..=0xF5 {
        text[0] = lead;
        strings += rows(&mut text, 1, 14 * 14, last, &mut row, out)?;
    }
    Ok(strings)
}

// A row for each number that the bytes from `from` on spell, up to the last byte, in the digits that are its values, written as soon as it is
// found. Answers how many texts were judged.
fn rows(
    text: &mut [u8],
    from: usize,
    numbers: usize,
    last: &[u8],
    row: &mut [u8],
    out: &mut Out<'_>,
) -> Result<u64, fmt::Error>
    requires place { (from < length text.old) × (numbers ≤ 65536) }
    requires values { (0 < length last.now) × ((length row.old ≡ length last.now) × (length last.now ≤ 256)) }
    ensures { IfOk result (λ n. n ≡ numbers * length last.now) }
{
    let end = text.len() - 1;
    let mut strings = 0;
    for number in 0..numbers {
        sweep::spell(&mut text[from..end], last, number);
        let renewed = sweep::renewed(row, text, end, last, judged);
        if renewed.differs {
            writeln!(out, "{}{}", Word(&text[..end]), Runs(row))?;
            out.flush()?;
        }
        strings += renewed.texts as u64;
    }
    Ok(strings)
}

// The answer for a text, which is at most its length, as a byte.
fn judged(text: &[u8]) -> u8 {
    (utf8::good(text) % 256) as u8
}
