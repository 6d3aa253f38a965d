// Text on its way to standard output, for the programs that show answers: a lent buffer that is written where it has no room left, and by
// `flush`. What is printed is held against stored output by the programs' tests.
//
// A failure is final. What can't be written is said once, and who prints after it gets the same error at once: nothing is added and nothing
// written. How a program ends is noted where it shows, and `status` is for its `main`.

#![tactic(auto)]

ghost use Rattle.std.specs.Prelude.{OnErr, IsNone, ◌≡◌, ◌≤◌, length};

use std::io::{ErrorKind, Print, Stderr, Stdout};
use std::process::ExitCode;
use std::{fmt, io};

// How a program ends, by its status. The last is that of one whose output is a pipe that nobody reads: it says nothing of that.
#[derive(Clone, Copy)]
enum Ending {
    Well = 0,
    Refused = 1,
    Unread = 2,
    Unwritten = 3,
    Piped = 141,
}

// Standard output behind a lent buffer, of which so many bytes wait, where failures are said, and how the program ends. From the first failure on
// there is no output any more.
#[derive(Drop)]
pub struct Out<'a> {
    room: &'a mut [u8],
    waits: usize,
    to: Option<Stdout>,
    errors: Stderr,
    ending: Ending,
    ghost within: { waits ≤ length room.now },
}

impl<'a> Out<'a> {
    pub fn new(room: &'a mut [u8], to: Stdout, errors: Stderr) -> Out<'a> {
        Out {
            room,
            waits: 0,
            to: Some(to),
            errors,
            ending: Ending::Well,
        }
    }

    // Writes what waits.
    pub fn flush(&mut self) -> fmt::Result {
        let to = self.open()?;
        let written = to.write_all(&self.room[..self.waits]);
        self.waits = 0;
        self.told(written)
    }

    // What is written to, where nothing has failed yet.
    fn open(&self) -> Result<Stdout, fmt::Error> {
        self.to.ok_or(fmt::Error)
    }

    // Of a write that failed it is said, and there is no output any more.
    fn told(&mut self, written: io::Result<()>) -> fmt::Result
        ensures { OnErr result (IsNone self.new.to) }
    {
        let Err(error) = written else {
            return Ok(());
        };
        self.to = None;
        if error.kind() == ErrorKind::BrokenPipe {
            self.ending = Ending::Piped;
        } else {
            self.ends("the output could not be written", Ending::Unwritten);
        }
        Err(fmt::Error)
    }

    // What a program says that can't read its input. An output that has failed stays so.
    pub fn unread(&mut self)
        ensures { self.new.to ≡ self.old.to }
    {
        self.ends("standard input could not be read", Ending::Unread);
    }

    // Writes what waits of an answer that is a refusal, and tells by the status that it is one.
    pub fn refused(&mut self) -> fmt::Result {
        self.flush()?;
        self.ending = Ending::Refused;
        Ok(())
    }

    fn ends(&mut self, why: &str, ending: Ending)
        ensures { self.new.to ≡ self.old.to }
    {
        let _ = self.errors.println(why);
        self.ending = ending;
    }

    // What `main` returns.
    pub fn status(&self) -> ExitCode {
        ExitCode::from(self.ending as u8)
    }
}

impl<'a> fmt::Write for Out<'a> {
    fn write_str(&mut self, text: &str) -> fmt::Result {
        let to = self.open()?;
        if self.room.len() - self.waits < text.len() {
            self.flush()?;
        }
        if self.room.len() - self.waits < text.len() {
            let written = to.write_all(text.as_bytes());
            return self.told(written);
        }
        let end = self.waits + text.len();
        self.room[self.waits..end].copy_from_slice(text.as_bytes());
        self.waits = end;
        Ok(())
    }
}

// Bytes as hex.
#[derive(Clone, Copy)]
pub struct Hex<'a>(pub &'a [u8]);

impl<'a> fmt::Display for Hex<'a> {
    fn fmt<W: fmt::Write>(&self, f: &mut fmt::Formatter<W>) -> fmt::Result {
        // eight at a time where there are so many, which is faster
        let (words, rest) = self.0.as_chunks::<8>();
        for word in words {
            write!(f, "{:016x}", u64::from_be_bytes(*word))?;
        }
        for byte in rest {
            write!(f, "{byte:02x}")?;
        }
        Ok(())
    }
}

// Bytes as a word: - where there are none.
#[derive(Clone, Copy)]
pub struct Word<'a>(pub &'a [u8]);

impl<'a> fmt::Display for Word<'a> {
    fn fmt<W: fmt::Write>(&self, f: &mut fmt::Formatter<W>) -> fmt::Result {
        if self.0.is_empty() {
            return f.write_str("-");
        }
        Hex(self.0).fmt(f)
    }
}
