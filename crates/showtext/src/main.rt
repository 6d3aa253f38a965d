// showtext: what the lowest layer says of a text on standard input, at most 65,536 bytes of it.
//
// It prints the bytes, how many leading ones form whole good UTF-8 characters, how many are left without trailing zero bytes, and
// whether those that are left are a number text (1) or not (0). Longer input is answered as number 10, as the jig's calls do. Input that
// can't be read to its end has no answer: that is said on standard error, as is an output that fails. ./showtext ends with a status then.

#![tactic(auto)]

use numbers::Refusal;
use print::Out;
use std::fmt;
use std::fmt::Write;
use std::process::ExitCode;

// The most bytes of a text.
const TEXT: usize = 65536;

fn main(rt: HostRuntime) -> ExitCode {
    let mut input = [0u8; TEXT + 1];
    let mut room = [0u8; 4096];
    let mut out = Out::new(&mut room, rt.stdout(), rt.stderr());
    match input::fill(rt.stdin(), &mut input) {
        // an output that fails says so itself
        Ok(n) => {
            let _ = show(&input[..n], &mut out);
        }
        Err(_) => out.unread(),
    }
    out.status()
}

fn show(text: &[u8], out: &mut Out<'_>) -> fmt::Result {
    if TEXT < text.len() {
        writeln!(out, "answer={}", Refusal::Long.number())?;
        return out.refused();
    }
    let left = literal::trim(text);
    writeln!(out, "bytes={}", text.len())?;
    writeln!(out, "good={}", utf8::good(text))?;
    writeln!(out, "trimmed={left}")?;
    writeln!(out, "literal={}", u8::from(literal::literal(&text[..left])))?;
    out.flush()
}
