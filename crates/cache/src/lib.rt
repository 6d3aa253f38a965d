// The name cache: what is in it, and how it is asked.
//
// A cache is a record of four words, by value, that say which of 256 slots are filled, and 65,536 bytes that the caller lends, 256 to a
// slot: a length byte, and the name. What fills it is the atom header's reader, in the crate header.
//
// Changed from AtomCache in decoder.rs (michaelklishin/edp-rs, fc07dcb95d),
// Copyright (C) 2025-2026 Michael S. Klishin and Contributors, Apache-2.0: see NOTICE.

#![tactic(auto)]

ghost use Rattle.std.specs.Prelude.{◌≡◌, replicate};
ghost use Rattle.cache.specs.Names as spec;

use numbers::Refusal;

// The bytes of a slot, and of a store of 256 slots.
pub const SLOT_BYTES: usize = 256;

pub const STORE_BYTES: usize = 65536;

// Which slots are filled: bit i mod 64 of word i div 64.
#[derive(Clone, Copy, PartialEq, Eq)]
pub struct Cache {
    pub filled: [u64; 4],
}

// A name's place in the store, and its length.
#[derive(Clone, Copy, PartialEq, Eq)]
pub struct Name {
    pub at: usize,
    pub len: usize,
}

impl Cache {
    // A cache with no name in it, for any store: no slot's bit is set.
    pub fn empty() -> Cache
        ensures { result ≡ record { filled = replicate 4 0 } }
    {
        Cache { filled: [0; 4] }
    }

    // The count of names in a cache: the ones in all four words. It is the number of filled slots (`count-is` in
    // proofs/Counts.antt).
    pub fn count(self) -> usize
        ensures { result ≡ spec.count_of self.filled }
    {
        let [a, b, c, d] = self.filled;
        a.count_ones() as usize
            + b.count_ones() as usize
            + c.count_ones() as usize
            + d.count_ones() as usize
    }

    // Whether a slot is filled.
    pub fn is_filled(self, slot: u8) -> bool
        ensures { result ≡ spec.filled self.filled slot }
    {
        let i = usize::from(slot);
        (self.filled[i / 64] >> (i % 64)) % 2 == 1
    }

    // The name in a slot, for any slot and any store. A store of other than 65,536 bytes is refused as Store, a slot that is not filled as
    // Absent.
    pub fn get(self, store: &[u8], slot: u8) -> Result<Name, Refusal>
        ensures { result ≡ spec.got_at self.filled store.now slot }
    {
        if store.len() != STORE_BYTES {
            return Err(Refusal::Store);
        }
        if !self.is_filled(slot) {
            return Err(Refusal::Absent);
        }
        let at = usize::from(slot) * SLOT_BYTES;
        Ok(Name {
            at: at + 1,
            len: usize::from(store[at]),
        })
    }

    // The bytes of the name that `get` answers, as a part of the store. Where it refuses, the part is empty.
    pub fn part(self, store: &[u8], slot: u8) -> &[u8]
        ensures { result.now ≡ spec.part_of store.now (spec.got_at self.filled store.now slot) }
    {
        match self.get(store, slot) {
            Ok(name) => &store[name.at..name.at + name.len],
            Err(_) => &store[..0],
        }
    }

    // Notes that a slot is filled.
    pub fn mark(&mut self, slot: u8)
        ensures { self.new ≡ record { filled = spec.marked self.old.filled slot } }
    {
        let i = usize::from(slot);
        self.filled[i / 64] |= 1 << (i % 64);
    }
}
