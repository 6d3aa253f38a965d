// The names that a term behind an atom header refers to by their positions in it.
//
// Each reference of a header, old or new, names a slot of the cache; an atom of tag 82 has a reference's position, which is no slot. The slots
// of the last header are kept in a run of 256 bytes that the caller lends: byte 0 is how many references it has, byte 1 + k the slot of
// reference k. `note` writes it for a header that was accepted; the other calls ask it, and what they answer is what the slot holds when they
// are called, so after the whole header. The cache's record, its store and the run stay three parameters: a caller in C keeps each for itself and
// lends it anew to every call.

#![tactic(auto)]

ghost use Rattle.std.specs.Prelude.{◌≡◌, cond, List, ℕ, length, IsOk, IfOk};
ghost use Rattle.numbers.specs.Bits.{bit};
ghost use Rattle.references.specs.Header.{referred, reference_at, slots_of, past};
ghost use Rattle.references.specs.Inner.Known.{AllThere};
ghost use Rattle.names.specs.Positions.{known_at};
ghost use Rattle.cache.specs.Names.{part_of, view};
ghost use Rattle.positions.specs.Positions.{noted, position_in, position_of, cell_in};

use cache::{Cache, Name, STORE_BYTES};
use numbers::Refusal;
use references::{FLAGS, Opening};

// The name at a position of the last header, for any position, store and run. A store of other than 65,536 bytes is refused as Store, a
// position that the header doesn't have, or whose slot isn't filled, as Absent.
pub fn get(c: Cache, store: &[u8], run: &[u8; 256], position: u8) -> Result<Name, Refusal>
    ensures { result ≡ position_in c.filled store.now run.now position }
{
    if store.len() != STORE_BYTES {
        return Err(Refusal::Store);
    }
    if run[0] <= position {
        return Err(Refusal::Absent);
    }
    let slot = run[usize::from(position) + 1];
    c.get(store, slot)
}

// The bytes of the name that `get` answers, as a part of the store. Where it refuses, the part is empty.
pub fn part<'s>(c: Cache, store: &'s [u8], run: &[u8; 256], position: u8) -> &'s [u8]
    ensures { result.now ≡ part_of store.now (position_in c.filled store.now run.now position) }
{
    if position < run[0] {
        let slot = run[usize::from(position) + 1];
        c.part(store, slot)
    } else {
        &store[..0]
    }
}

// The name of the atom of tag 82 that starts at `at`, as a cell of tag 82 says, in the input that the header and its term were read from; for
// any place, input, store and run. Refused: Store, Long, then Eof, Tag for another tag, Eof where no byte stands behind it, and Absent.
pub fn get_at(b: &[u8], at: usize, c: Cache, store: &[u8], run: &[u8; 256]) -> Result<Name, Refusal>
    ensures { result ≡ cell_in b.now c.filled store.now run.now at }
{
    if store.len() != STORE_BYTES {
        return Err(Refusal::Store);
    }
    let position = position_of(b, at)?;
    get(c, store, run, position)
}

// The bytes of the name that `get_at` answers, as a part of the store. Where it refuses, the part is empty.
pub fn part_at<'s>(b: &[u8], at: usize, c: Cache, store: &'s [u8], run: &[u8; 256]) -> &'s [u8]
    ensures { result.now ≡ part_of store.now (cell_in b.now c.filled store.now run.now at) }
{
    match position_of(b, at) {
        Ok(position) => part(c, store, run, position),
        Err(_) => &store[..0],
    }
}

// Notes the slots of a header that was accepted, over the cache that it left. Nothing is judged again: what it asks is shown by `accepted` in
// header/proofs/Accepted.antt. It answers four words, whose bit k says whether position k is known.
pub fn note(b: &[u8], opening: Opening, c: Cache, run: &mut [u8; 256]) -> [usize; 4]
    requires { AllThere b.now opening }
    ensures run { run.new ≡ noted (slots_of (referred b.now opening).references) run.old }
    ensures bits { (length result ≡ 4) × ((s : List ℕ) (k : ℕ) → bit result k ≡ known_at (view c.filled s) (slots_of (referred b.now opening).references) k) }
{
    run[0] = opening.count as u8;
    let mut known = [0usize; 4];
    let mut p = opening.first;
    for i in 0..opening.count {
        let new = references::is_new(b[FLAGS + i / 2], i);
        let slot = b[p];
        run[1 + i] = slot;
        let on = c.is_filled(slot);
        known[i / 64] |= usize::from(on) << (i % 64);
        p = past(b, new, opening.long, p);
    }
    known
}

// The position that the atom of tag 82 at `at` has.
fn position_of(b: &[u8], at: usize) -> Result<u8, Refusal>
    ensures { result ≡ position_of b.now at }
{
    if numbers::INPUT < b.len() {
        return Err(Refusal::Long);
    }
    let tag = fields::be_u8(b, at).ok_or(Refusal::Eof)?;
    if tag != 82 {
        return Err(Refusal::Tag);
    }
    fields::be_u8(b, at + 1).ok_or(Refusal::Eof)
}

// The place behind a reference that begins at p and is known to be good: its slot, and where it is new its name behind that.
fn past(b: &[u8], new: bool, long: bool, p: usize) -> usize
    requires { IsOk (reference_at b.now new (cond long 2 1) p) }
    ensures { IfOk (reference_at b.now new (cond long 2 1) p) (λ r. result ≡ past p r) }
{
    if !new {
        p + 1
    } else if long {
        p + 3 + usize::from(fields::u16_at(b, p + 1))
    } else {
        p + 2 + usize::from(fields::u8_at(b, p + 1))
    }
}
