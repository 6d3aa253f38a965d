// The atom header's reader: its new names go into a cache, and what follows the header is left to others.
//
// What a header says is defined in the crate references, what its names do to a cache of any form in names; here the form is slots
// (specs/Header.antt).
//
// Changed from parse_dist_header_with_cache in decoder.rs (michaelklishin/edp-rs, fc07dcb95d),
// Copyright (C) 2025-2026 Michael S. Klishin and Contributors, Apache-2.0: see NOTICE.

#![tactic(auto)]

ghost use Rattle.std.specs.Prelude.{◌≡◌, ◌<◌, length};
ghost use Rattle.references.specs.Inner.Known.{Flagged};
ghost use Rattle.names.specs.Form.{left};
ghost use Rattle.cache.specs.Names.{stored, store_bytes};
ghost use Rattle.header.specs.Header.{header_over, referred_over, answer_of};

use cache::{Cache, SLOT_BYTES, STORE_BYTES};
use numbers::Refusal;
use references::{FLAGS, Opening, Reference};

// What a header answers: where the rest begins, or why it is refused, and the cache's record now.
#[derive(Clone, Copy, PartialEq, Eq)]
pub struct HeaderRead {
    pub rest: Result<usize, Refusal>,
    pub cache: Cache,
}

// Reads an atom header, 131, 68, the count of references, flags and references, and answers where what follows it begins. Each new name
// is stored when it is complete; a later fault keeps it. Refused: Store, Long, then Eof, Tag, Kind with that byte, and for a name Eof,
// Text, Name.
pub fn read(b: &[u8], cache: Cache, store: &mut [u8]) -> HeaderRead
    ensures answer { result ≡ answer_of (header_over b.now cache store.old) }
    ensures store { store.new ≡ (header_over b.now cache store.old).cache.store }
{
    if store.len() != STORE_BYTES {
        return HeaderRead {
            rest: Err(Refusal::Store),
            cache,
        };
    }
    match references::start(b) {
        Ok(opening) => names(b, opening, cache, store),
        Err(why) => HeaderRead {
            rest: Err(why),
            cache,
        },
    }
}

// The references of a header over the cache. For a caller that has read how the header begins, by references::start.
pub fn names(b: &[u8], opening: Opening, cache: Cache, store: &mut [u8]) -> HeaderRead
    requires flags { Flagged b.now opening }
    requires store { length store.old ≡ store_bytes }
    ensures answer { result ≡ answer_of (referred_over b.now opening cache store.old) }
    ensures store { store.new ≡ (referred_over b.now opening cache store.old).cache.store }
{
    let mut now = cache;
    let rest = fill(b, opening, &mut now, store);
    HeaderRead { rest, cache: now }
}

// The same of a cache that is changed: where the rest begins.
fn fill(b: &[u8], opening: Opening, cache: &mut Cache, store: &mut [u8]) -> Result<usize, Refusal>
    requires flags { Flagged b.now opening }
    requires store { length store.old ≡ store_bytes }
    ensures { referred_over b.now opening cache.old store.old ≡ left result (record { cache = cache.new; store = store.new }) }
{
    let mut p = opening.first;
    for i in 0..opening.count {
        let new = references::is_new(b[FLAGS + i / 2], i);
        match references::reference_at(b, new, opening.long, p)? {
            Reference::Old(_) => p += 1,
            Reference::New(slot, at, len) => {
                if 255 < len {
                    return Err(Refusal::Name);
                }
                p = at + len;
                put(&b[at..p], slot, store);
                cache.mark(slot);
            }
        }
    }
    Ok(p)
}

// Stores a name in its slot: its length and its bytes. (The store stays a slice with a clause of its length: so C lends it, and `read` refuses another.)
fn put(name: &[u8], slot: u8, store: &mut [u8])
    requires name { length name.now < 256 }
    requires store { length store.old ≡ store_bytes }
    ensures { store.new ≡ stored store.old slot name.now }
{
    let at = usize::from(slot) * SLOT_BYTES;
    store[at] = name.len() as u8;
    // (byte by byte: std's copy of a slice would have the library call memmove, which a firmware needn't bring)
    for i in 0..name.len() {
        store[at + 1 + i] = name[i];
    }
}
