// A message: an atom header and one term to the input's end, in which an atom may be told by its position in the header.
//
// The header's names go into the same cache by `header`, and its positions are noted by `positions`; the term is read by `tape`, with the atoms of tag
// 82 whose positions are known. Nothing is read here: this puts them in their order (specs/Message.antt).

#![tactic(auto)]

ghost use Rattle.std.specs.Prelude.{◌≡◌};
ghost use Rattle.cache.specs.Names.{slots};
ghost use Rattle.reading.specs.Told.{told_of};
ghost use Rattle.tape.specs.Read.{Promised};
ghost use Rattle.message.specs.Message.{message_over, message_before, noted_by};
ghost use Rattle.message.specs.Inner.Headed.{Headed};

use cache::{Cache, STORE_BYTES};
use numbers::Refusal;
use reading::{Answer, Asked};

// What a message answers: what reading its term does, and the cache's record now.
#[derive(Clone, Copy)]
pub struct MessageRead {
    pub answer: Answer,
    pub cache: Cache,
}

// What stands before a term: where it starts, and four words whose bit k says whether position k is known in it.
#[derive(Clone, Copy)]
struct Term {
    start: usize,
    known: [usize; 4],
}

// Reads an atom header and one term behind it to the input's end, nested at most `limit` deep, and writes the term's tape. Each new name is
// stored when it is complete, whatever comes after; a header that is read to its end is noted in `run`, so that `positions` finds its names.
// Refused: Limit, Store, Long; the header as by header::read, and behind its flags Segment; then the term, Trailing and Room, as by tape::read.
// A refused header has no offset, counts or path. Offsets and cells are places in the whole input. Only a Done read writes the tape.
pub fn read(
    b: &[u8],
    limit: usize,
    cache: Cache,
    store: &mut [u8],
    run: &mut [u8; 256],
    tape: &mut [u32],
) -> MessageRead
    ensures answer { Promised (message_before slots b.now (message_over b.now limit cache store.old)) b.now limit (told_of result.answer) tape.old tape.new }
    ensures cache { result.cache ≡ (message_over b.now limit cache store.old).cache.cache }
    ensures store { store.new ≡ (message_over b.now limit cache store.old).cache.store }
    ensures run { run.new ≡ noted_by b.now (message_over b.now limit cache store.old) run.old }
{
    let mut now = cache;
    match headed(b, limit, &mut now, store, run) {
        Ok(term) => {
            let known = term.known;
            let asked = Asked {
                known,
                names: true,
                limit,
            };
            MessageRead {
                answer: tape::behind(b, term.start, asked, tape),
                cache: now,
            }
        }
        Err(why) => MessageRead {
            answer: Answer::refused(why, 0, 0, 0),
            cache: now,
        },
    }
}

// The header, over a cache that is changed: what stands before the term.
fn headed(
    b: &[u8],
    limit: usize,
    cache: &mut Cache,
    store: &mut [u8],
    run: &mut [u8; 256],
) -> Result<Term, Refusal>
    ensures { Headed b.now (message_over b.now limit cache.old store.old) result (record { cache = cache.new; store = store.new }) run.old run.new }
{
    if limit == 0 || numbers::NESTING < limit {
        return Err(Refusal::Limit);
    }
    if store.len() != STORE_BYTES {
        return Err(Refusal::Store);
    }
    let opening = references::start(b)?;
    if !references::one_segment(b, opening.count) {
        return Err(Refusal::Segment);
    }
    let header = header::names(b, opening, *cache, store);
    *cache = header.cache;
    let start = header.rest?;
    let known = positions::note(b, opening, header.cache, run);
    Ok(Term { start, known })
}
