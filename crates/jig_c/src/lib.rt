// The jig's calls for C: each is the call of that name in the crate jig, with the same arguments and the same clauses, under its own name in the static
// library. Nothing else is here, since a library can't be a static library too. jig/sillthread.h is the page for a C program, and jig/library makes the
// archive. tests/promises sees that no clause here is another than in jig.

#![tactic(auto)]

ghost use Rattle.std.specs.Prelude.{◌≡◌, replicate};
ghost use Rattle.utf8.specs.Inner.Find.{good_bytes};
ghost use Rattle.reading.specs.Answer.{read_at};
ghost use Rattle.tape.specs.Read.{Promised, Recorded};
ghost use Rattle.agree.specs.Head.{head_of, run_at};
ghost use Rattle.lookup.specs.Lookup.{Looked};
ghost use Rattle.lookup.specs.Lookup as key;
ghost use Rattle.cache.specs.Names.{count_of, got_at, slots};
ghost use Rattle.header.specs.Header.{header_over, answer_of};
ghost use Rattle.positions.specs.Positions.{position_in, cell_in};
ghost use Rattle.message.specs.Message.{message_over, message_before, noted_by};
ghost use Rattle.fragments.specs.Fragment.{first_at, next_at};
ghost use Rattle.measure.specs.Item.{items_of};
ghost use Rattle.writer.specs.Write.{write_over};
ghost use Rattle.jig.specs.Shown.{interface, Tells, name_words, header_words, first_words, next_words, written_words};
ghost use Rattle.headwords.specs.Words.{told_words, part_words};

#[unsafe(no_mangle)]
pub extern "C" fn sill_interface() -> u64
    ensures { result ≡ interface }
{
    jig::sill_interface()
}

#[unsafe(no_mangle)]
pub extern "C" fn sill_read(
    b: &[u8],
    limit: usize,
    tape: &mut [u32],
    told: &mut [u64; 7],
    path: &mut [u64; 128],
)
    ensures { Tells (λ r. Recorded b.now limit r tape.old tape.new) told.new path.old path.new }
{
    jig::sill_read(b, limit, tape, told, path);
}

#[unsafe(no_mangle)]
pub extern "C" fn sill_term(
    b: &[u8],
    at: usize,
    limit: usize,
    told: &mut [u64; 7],
    path: &mut [u64; 128],
)
    ensures { Tells (λ r. r ≡ read_at b.now at limit) told.new path.old path.new }
{
    jig::sill_term(b, at, limit, told, path);
}

#[unsafe(no_mangle)]
pub extern "C" fn sill_find_name(
    b: &[u8],
    at: usize,
    limit: usize,
    name: &[u8],
    told: &mut [u64; 7],
    path: &mut [u64; 128],
)
    ensures { Tells (Looked b.now at limit (key.name name.now)) told.new path.old path.new }
{
    jig::sill_find_name(b, at, limit, name, told, path);
}

#[unsafe(no_mangle)]
pub extern "C" fn sill_find_number(
    b: &[u8],
    at: usize,
    limit: usize,
    number: i64,
    told: &mut [u64; 7],
    path: &mut [u64; 128],
)
    ensures { Tells (Looked b.now at limit (key.number number)) told.new path.old path.new }
{
    jig::sill_find_number(b, at, limit, number, told, path);
}

#[unsafe(no_mangle)]
pub extern "C" fn sill_head(b: &[u8], at: usize, told: &mut [u64; 9])
    ensures { told.new ≡ told_words (head_of b.now at) }
{
    jig::sill_head(b, at, told);
}

#[unsafe(no_mangle)]
pub extern "C" fn sill_part(b: &[u8], at: usize, told: &mut [u64; 2])
    ensures { told.new ≡ part_words (run_at b.now at) }
{
    jig::sill_part(b, at, told);
}

#[unsafe(no_mangle)]
pub extern "C" fn sill_empty(filled: &mut [u64; 4])
    ensures { filled.new ≡ replicate 4 0 }
{
    jig::sill_empty(filled);
}

#[unsafe(no_mangle)]
pub extern "C" fn sill_count(filled: &[u64; 4]) -> usize
    ensures { result ≡ count_of filled.now }
{
    jig::sill_count(filled)
}

#[unsafe(no_mangle)]
pub extern "C" fn sill_get(filled: &[u64; 4], store: &[u8], slot: u8, told: &mut [u64; 3])
    ensures { told.new ≡ name_words (got_at filled.now store.now slot) }
{
    jig::sill_get(filled, store, slot, told);
}

#[unsafe(no_mangle)]
pub extern "C" fn sill_header(
    b: &[u8],
    filled: &mut [u64; 4],
    store: &mut [u8],
    told: &mut [u64; 3],
)
    ensures tells { told.new ≡ header_words (answer_of (header_over b.now (record { filled = filled.old }) store.old)) }
    ensures marks { filled.new ≡ (header_over b.now (record { filled = filled.old }) store.old).cache.cache.filled }
    ensures stores { store.new ≡ (header_over b.now (record { filled = filled.old }) store.old).cache.store }
{
    jig::sill_header(b, filled, store, told);
}

#[unsafe(no_mangle)]
pub extern "C" fn sill_message(
    b: &[u8],
    limit: usize,
    filled: &mut [u64; 4],
    store: &mut [u8],
    run: &mut [u8; 256],
    tape: &mut [u32],
    told: &mut [u64; 7],
    path: &mut [u64; 128],
)
    ensures tells { Tells (λ r. Promised (message_before slots b.now (message_over b.now limit (record { filled = filled.old }) store.old)) b.now limit r tape.old tape.new) told.new path.old path.new }
    ensures marks { filled.new ≡ (message_over b.now limit (record { filled = filled.old }) store.old).cache.cache.filled }
    ensures stores { store.new ≡ (message_over b.now limit (record { filled = filled.old }) store.old).cache.store }
    ensures notes { run.new ≡ noted_by b.now (message_over b.now limit (record { filled = filled.old }) store.old) run.old }
{
    jig::sill_message(b, limit, filled, store, run, tape, told, path);
}

#[unsafe(no_mangle)]
pub extern "C" fn sill_position(
    filled: &[u64; 4],
    store: &[u8],
    run: &[u8; 256],
    position: u8,
    told: &mut [u64; 3],
)
    ensures { told.new ≡ name_words (position_in filled.now store.now run.now position) }
{
    jig::sill_position(filled, store, run, position, told);
}

#[unsafe(no_mangle)]
pub extern "C" fn sill_atom(
    b: &[u8],
    at: usize,
    filled: &[u64; 4],
    store: &[u8],
    run: &[u8; 256],
    told: &mut [u64; 3],
)
    ensures { told.new ≡ name_words (cell_in b.now filled.now store.now run.now at) }
{
    jig::sill_atom(b, at, filled, store, run, told);
}

#[unsafe(no_mangle)]
pub extern "C" fn sill_first(b: &[u8], told: &mut [u64; 6])
    ensures { told.new ≡ first_words (first_at b.now) }
{
    jig::sill_first(b, told);
}

#[unsafe(no_mangle)]
pub extern "C" fn sill_next(b: &[u8], told: &mut [u64; 5])
    ensures { told.new ≡ next_words (next_at b.now) }
{
    jig::sill_next(b, told);
}

#[unsafe(no_mangle)]
pub extern "C" fn sill_write(row: &[u64], texts: &[u8], out: &mut [u8], told: &mut [u64; 3])
    ensures tells { told.new ≡ written_words (write_over (items_of texts.now row.now) out.old).answer }
    ensures writes { out.new ≡ (write_over (items_of texts.now row.now) out.old).bytes }
{
    jig::sill_write(row, texts, out, told);
}

#[unsafe(no_mangle)]
pub extern "C" fn sill_utf8(b: &[u8]) -> usize
    ensures { result ≡ good_bytes b.now }
{
    jig::sill_utf8(b)
}
