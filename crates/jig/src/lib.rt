// The jig: the calls that a program in another language makes. Everything is lent, as runs of numbers, and every answer is told as numbers. Runs that
// always come together are lent apart, each as a parameter: this is C's interface, and jig/sillthread.h has it so.
//
// It stands over all that reads and writes, and judges nothing itself. A call's promise is that of the call beneath it; specs/ says, in one definition
// for each kind of answer, how the answer becomes numbers. jig/sillthread.h is the same page for a C program, which gets these calls by the crate jig_c.

#![tactic(auto)]

ghost use Rattle.std.specs.Prelude.{◌≡◌, ◌≤◌, length, replicate};
ghost use Rattle.std.proofs.lemmas.List.Edits.{sets};
ghost use Rattle.numbers.specs.Caps as cap;
ghost use Rattle.utf8.specs.Inner.Find.{good_bytes};
ghost use Rattle.reading.specs.Told.{told_of};
ghost use Rattle.reading.specs.Answer.{read_at};
ghost use Rattle.tape.specs.Read.{Promised, Recorded};
ghost use Rattle.agree.specs.Head.{head_of, run_at};
ghost use Rattle.lookup.specs.Lookup.{Looked};
ghost use Rattle.lookup.specs.Lookup as key;
ghost use Rattle.cache.specs.Names.{count_of, got_at, slots};
ghost use Rattle.header.specs.Header.{header_over, answer_of};
ghost use Rattle.positions.specs.Positions.{position_in, cell_in};
ghost use Rattle.message.specs.Message.{message_over, message_before, noted_by};
ghost use Rattle.fragments.specs.Fragment.{first_at, next_at};
ghost use Rattle.measure.specs.Item.{items_of};
ghost use Rattle.writer.specs.Write.{write_over};
ghost use Rattle.jig.specs.Shown.{interface, answer_words, path_words, segment_words, Tells, name_words, place_words, header_words, first_words, next_words, written_words};
ghost use Rattle.headwords.specs.Words.{told_words, part_words};

use cache::{Cache, Name};
use numbers::Refusal;
use reading::{Answer, Asked, Segment};

// The number of this interface: a C program compares it with that of its header, which may be of another day.
const INTERFACE: u64 = 1;

pub fn sill_interface() -> u64
    ensures { result ≡ interface }
{
    INTERFACE
}

// Reads a record and writes its tape, as tape::read does. Told are number, end, offset, extra, terms begun, deepest nesting and the
// segments in the path; of a refusal's path, two words for each segment.
pub fn sill_read(
    b: &[u8],
    limit: usize,
    tape: &mut [u32],
    told: &mut [u64; 7],
    path: &mut [u64; 128],
)
    ensures { Tells (λ r. Recorded b.now limit r tape.old tape.new) told.new path.old path.new }
{
    let a = tape::read(b, limit, tape);
    answer(a, told, path);
}

// Reads the term at a place, any place, as terms::read does. Told as by sill_read.
pub fn sill_term(b: &[u8], at: usize, limit: usize, told: &mut [u64; 7], path: &mut [u64; 128])
    ensures { Tells (λ r. r ≡ read_at b.now at limit) told.new path.old path.new }
{
    let a = terms::read(b, at, Asked::plainly(limit));
    answer(a, told, path);
}

// Looks an atom up by its name in the map at a place, as lookup::find_name does. Told as by sill_read; the offset is the value's.
pub fn sill_find_name(
    b: &[u8],
    at: usize,
    limit: usize,
    name: &[u8],
    told: &mut [u64; 7],
    path: &mut [u64; 128],
)
    ensures { Tells (Looked b.now at limit (key.name name.now)) told.new path.old path.new }
{
    let a = lookup::find_name(b, at, limit, name);
    answer(a, told, path);
}

// The same of an integer, as lookup::find_number does.
pub fn sill_find_number(
    b: &[u8],
    at: usize,
    limit: usize,
    number: i64,
    told: &mut [u64; 7],
    path: &mut [u64; 128],
)
    ensures { Tells (Looked b.now at limit (key.number number)) told.new path.old path.new }
{
    let a = lookup::find_number(b, at, limit, number);
    answer(a, told, path);
}

// What stands at a place without its children, as heads::head says. Told are number, tag, offset, extra, then the fields of the head's
// value in their order, 0 where there are fewer than five: an integer by its two's complement, a double by its bits.
pub fn sill_head(b: &[u8], at: usize, told: &mut [u64; 9])
    ensures { told.new ≡ told_words (head_of b.now at) }
{
    let h = heads::head(b, at);
    *told = headwords::words(h);
}

// Where the bytes of an atom's name or of a binary stand and how many they are, as heads::part hands them out; 0 and 0 for any other head.
pub fn sill_part(b: &[u8], at: usize, told: &mut [u64; 2])
    ensures { told.new ≡ part_words (run_at b.now at) }
{
    let h = heads::head(b, at);
    *told = headwords::place(h);
}

// A cache with no name in it, as Cache::empty says: its four words.
pub fn sill_empty(filled: &mut [u64; 4])
    ensures { filled.new ≡ replicate 4 0 }
{
    let words = Cache::empty().filled;
    *filled = words;
}

// The count of names in a cache, as Cache::count says.
pub fn sill_count(filled: &[u64; 4]) -> usize
    ensures { result ≡ count_of filled.now }
{
    Cache { filled: *filled }.count()
}

// The name in a slot, as Cache::get says. Told are number, its place in the store and its length.
pub fn sill_get(filled: &[u64; 4], store: &[u8], slot: u8, told: &mut [u64; 3])
    ensures { told.new ≡ name_words (got_at filled.now store.now slot) }
{
    *told = name(Cache { filled: *filled }.get(store, slot));
}

// Reads an atom header, as header::read does. Told are number, where the rest begins, and extra; the names completed are in the
// cache, refused or not.
pub fn sill_header(b: &[u8], filled: &mut [u64; 4], store: &mut [u8], told: &mut [u64; 3])
    ensures tells { told.new ≡ header_words (answer_of (header_over b.now (record { filled = filled.old }) store.old)) }
    ensures marks { filled.new ≡ (header_over b.now (record { filled = filled.old }) store.old).cache.cache.filled }
    ensures stores { store.new ≡ (header_over b.now (record { filled = filled.old }) store.old).cache.store }
{
    let h = header::read(b, Cache { filled: *filled }, store);
    let left = h.cache.filled;
    *filled = left;
    *told = place(h.rest);
}

// Reads an atom header and one term behind it, and writes the term's tape, as message::read does. Told as by sill_read; the names completed are in
// the cache, refused or not, and the positions of a header that was read to its end are in `run`.
pub fn sill_message(
    b: &[u8],
    limit: usize,
    filled: &mut [u64; 4],
    store: &mut [u8],
    run: &mut [u8; 256],
    tape: &mut [u32],
    told: &mut [u64; 7],
    path: &mut [u64; 128],
)
    ensures tells { Tells (λ r. Promised (message_before slots b.now (message_over b.now limit (record { filled = filled.old }) store.old)) b.now limit r tape.old tape.new) told.new path.old path.new }
    ensures marks { filled.new ≡ (message_over b.now limit (record { filled = filled.old }) store.old).cache.cache.filled }
    ensures stores { store.new ≡ (message_over b.now limit (record { filled = filled.old }) store.old).cache.store }
    ensures notes { run.new ≡ noted_by b.now (message_over b.now limit (record { filled = filled.old }) store.old) run.old }
{
    let m = message::read(b, limit, Cache { filled: *filled }, store, run, tape);
    let left = m.cache.filled;
    *filled = left;
    answer(m.answer, told, path);
}

// The name at a position of the last header that sill_message read to its end, as positions::get says. Told as by sill_get.
pub fn sill_position(
    filled: &[u64; 4],
    store: &[u8],
    run: &[u8; 256],
    position: u8,
    told: &mut [u64; 3],
)
    ensures { told.new ≡ name_words (position_in filled.now store.now run.now position) }
{
    *told = name(positions::get(Cache { filled: *filled }, store, run, position));
}

// The same for the atom of tag 82 at a place, as a cell of tag 82 has it, as positions::get_at says.
pub fn sill_atom(
    b: &[u8],
    at: usize,
    filled: &[u64; 4],
    store: &[u8],
    run: &[u8; 256],
    told: &mut [u64; 3],
)
    ensures { told.new ≡ name_words (cell_in b.now filled.now store.now run.now at) }
{
    *told = name(positions::get_at(b, at, Cache { filled: *filled }, store, run));
}

// Reads a first fragment's header, as fragments::first does. Told are number, where the rest begins, extra, sequence, fragment and count.
pub fn sill_first(b: &[u8], told: &mut [u64; 6])
    ensures { told.new ≡ first_words (first_at b.now) }
{
    *told = match fragments::first(b) {
        Ok(f) => [
            numbers::DONE,
            f.rest as u64,
            0,
            f.sequence,
            f.fragment,
            f.count,
        ],
        Err(why) => [why.number(), 0, why.extra(), 0, 0, 0],
    };
}

// The same of a later fragment, as fragments::next does; there is no count.
pub fn sill_next(b: &[u8], told: &mut [u64; 5])
    ensures { told.new ≡ next_words (next_at b.now) }
{
    *told = match fragments::next(b) {
        Ok(f) => [numbers::DONE, f.rest as u64, 0, f.sequence, f.fragment],
        Err(why) => [why.number(), 0, why.extra(), 0, 0],
    };
}

// Writes a row of items as a term, as writer::write does. Told are number, how many bytes were written, and extra.
pub fn sill_write(row: &[u64], texts: &[u8], out: &mut [u8], told: &mut [u64; 3])
    ensures tells { told.new ≡ written_words (write_over (items_of texts.now row.now) out.old).answer }
    ensures writes { out.new ≡ (write_over (items_of texts.now row.now) out.old).bytes }
{
    *told = place(writer::write(row, texts, out));
}

// How many leading bytes of a text form whole good characters, as utf8::good says.
pub fn sill_utf8(b: &[u8]) -> usize
    ensures { result ≡ good_bytes b.now }
{
    utf8::good(b)
}

// The answer of a read or a lookup. The path's words are written only where it has segments: a Done read costs the seven numbers.
fn answer(a: Answer, told: &mut [u64; 7], path: &mut [u64; 128])
    requires { (told_of a).len ≤ cap.nesting }
    ensures shows { told.new ≡ answer_words (told_of a) }
    ensures traces { path.new ≡ path_words (told_of a) path.old }
{
    let begun = a.begun as u64;
    let deepest = a.deepest as u64;
    match a.outcome {
        Ok(done) => {
            *told = [
                numbers::DONE,
                done.end as u64,
                done.value as u64,
                0,
                begun,
                deepest,
                0,
            ];
        }
        Err(refused) => {
            *told = [
                refused.why.number(),
                0,
                refused.offset as u64,
                refused.why.extra(),
                begun,
                deepest,
                refused.path.len as u64,
            ];
            trace(refused.path.as_slice(), path);
        }
    }
}

// A path's segments, two words for each.
fn trace(segments: &[Segment], path: &mut [u64; 128])
    requires { length segments.now ≤ cap.nesting }
    ensures { path.new ≡ sets path.old 0 (segment_words segments.now) }
{
    for (i, segment) in segments.iter().enumerate() {
        path[i * 2] = segment.kind.into();
        path[i * 2 + 1] = segment.number;
    }
}

// A name in its slot.
fn name(found: Result<Name, Refusal>) -> [u64; 3]
    ensures { result ≡ name_words found }
{
    match found {
        Ok(name) => [numbers::DONE, name.at as u64, name.len as u64],
        Err(why) => [why.number(), 0, 0],
    }
}

// Where a header's rest begins, or how many bytes were written.
fn place(found: Result<usize, Refusal>) -> [u64; 3]
    ensures { result ≡ place_words found }
{
    match found {
        Ok(at) => [numbers::DONE, at as u64, 0],
        Err(why) => [why.number(), 0, why.extra()],
    }
}
