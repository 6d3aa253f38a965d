// The answers to requests about the names that headers bring (docs/REQUESTS.md), as text. They are made over what lives from line to line, which
// is any store and run; what is printed is held against stored output by the programs' tests.

#![tactic(auto)]

use cache::{Cache, Name};
use numbers::Refusal;
use print::{Out, Word};
use std::fmt;
use std::fmt::Write;

// The names, the store that belongs to them, and the run in which the positions of the last message's header are noted.
#[derive(Drop)]
pub struct Names<'a> {
    pub cache: Cache,
    pub store: &'a mut [u8],
    pub noted: &'a mut [u8; 256],
}

impl<'a> Names<'a> {
    // No names.
    pub fn new(store: &'a mut [u8], noted: &'a mut [u8; 256]) -> Names<'a> {
        Names {
            cache: Cache::empty(),
            store,
            noted,
        }
    }

    // Reads a header, which may bring names.
    pub fn header(&mut self, b: &[u8], out: &mut Out<'_>) -> fmt::Result {
        let h = header::read(b, self.cache, self.store);
        self.cache = h.cache;
        match h.rest {
            Ok(rest) => write!(out, "answer=0 rest={rest} extra=0"),
            Err(why) => write!(out, "answer={} rest=0 extra={}", why.number(), why.extra()),
        }
    }

    // Leaves no names, and a header with no references.
    pub fn clear(&mut self, out: &mut Out<'_>) -> fmt::Result {
        self.cache = Cache::empty();
        self.noted[0] = 0;
        self.count(out)
    }

    // How many names there are.
    pub fn count(&self, out: &mut Out<'_>) -> fmt::Result {
        write!(out, "names={}", self.cache.count())
    }

    // All names, by their slots.
    pub fn all(&self, out: &mut Out<'_>) -> fmt::Result {
        self.count(out)?;
        for slot in 0..=255u8 {
            if self.cache.get(self.store, slot).is_ok() {
                write!(out, " {slot}={}", Word(self.cache.part(self.store, slot)))?;
            }
        }
        Ok(())
    }

    // The name in a slot.
    pub fn get(&self, slot: u8, out: &mut Out<'_>) -> fmt::Result {
        let place = self.cache.get(self.store, slot);
        named(place, self.cache.part(self.store, slot), out)
    }

    // The name at a position of the last message's header.
    pub fn position(&self, k: u8, out: &mut Out<'_>) -> fmt::Result {
        let place = positions::get(self.cache, self.store, self.noted, k);
        let name = positions::part(self.cache, self.store, self.noted, k);
        named(place, name, out)
    }

    // The name of the atom of tag 82 at a place.
    pub fn atom(&self, b: &[u8], at: usize, out: &mut Out<'_>) -> fmt::Result {
        let place = positions::get_at(b, at, self.cache, self.store, self.noted);
        let name = positions::part_at(b, at, self.cache, self.store, self.noted);
        named(place, name, out)
    }
}

// A name that was asked for: its place in the store, its length, and its bytes.
fn named(place: Result<Name, Refusal>, name: &[u8], out: &mut Out<'_>) -> fmt::Result {
    match place {
        Ok(Name { at, len }) => {
            write!(out, "answer=0 place={at} length={len} name={}", Word(name))
        }
        Err(why) => write!(out, "answer={}", why.number()),
    }
}
