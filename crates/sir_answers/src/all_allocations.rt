// The records of all allocations in one pass over the visited blocks, from the last to the first: in each backwards through its
// operations, with the live locals and the end that is open for each allocation.
ghost use Rattle.std.specs.Prelude.{◌≡◌, List, ℕ, ◌+◌, ◌*◌, ◌^◌, ◌≤◌, ◌<◌, length, take};
ghost use Rattle.plank_core.specs.Lists.{bind, ◌∈◌};
ghost use Rattle.sir_data.specs.Pages.{bytes_of};
ghost use Rattle.sir_data.specs.Records.{blocks};
ghost use Rattle.sir_analyses.specs.All.{all};
ghost use Rattle.sir_analyses.specs.Allocation.{allocs, merged};
ghost use Rattle.sir_analyses.specs.Answers.{interval_words, allocation_answer};
ghost use Rattle.sir_analyses.specs.Calls.{answered};
ghost use Rattle.sir_analyses.specs.inner.Outcomes.{outcome};
ghost use Rattle.sir_answers.specs.inner.Scatter.{number_at, backward, Below, Fits, Scatters, Counts};
ghost use Rattle.sir_answers.specs.inner.IntervalPieces.{closed_pieces};
ghost use Rattle.sir_answers.specs.inner.AllocationPieces.{OwnedTables, LiveOwners, SplitOwners, sweep_pieces, visited_pieces, head_of, head_pieces, record_pieces};

use crate::all_intervals::{list_row, open_ends, set_ends};
use crate::owned_tables::{OWNED, list_owned, owned_tables, split_owners};
use crate::scatter::{passed_words, prepend, put_lengths};
use crate::segments::segments_answer;
use plank_core::index::{AllocId, BlockId, OpIdx};
use plank_core::rows::{row_of, row_union_with};
use sir_analyses::allocation_liveness::site_of;
use sir_analyses::allocation_words::alloc_head;
use sir_analyses::local_intervals::BLOCK_END;
use sir_analyses::merged_intervals::{live_after, live_before};
use sir_analyses::staged::{Pointed, Tables};
use sir_analyses::stages::{LIVE, reads, writes};
use sir_data::refusals::Refusal;

// What a start closes for each of some allocations, where an end is open, in front of what each has. One function for this and
// `close_ends` would take `append` or `prepend` with a direction to state what each asks, and be longer than the two.
fn close_before(
    ids: &[u32],
    till: &[u32],
    b: BlockId,
    from: u32,
    cursors: &mut [usize],
    out: &mut [u8],
)
    requires by_index { (v : ℕ) → v ∈ ids.now → v < length till.now }
    requires below { Below (length cursors.old) (closed_pieces b.0 from (number_at till.now) ids.now) }
    requires fits { Fits backward (closed_pieces b.0 from (number_at till.now) ids.now) cursors.old }
    ensures { Scatters backward (closed_pieces b.0 from (number_at till.now) ids.now) cursors.old out.old cursors.new out.new }
{
    for v in ids {
        let to = till[*v as usize];
        if to != 0 {
            prepend(cursors, *v, &[b.0, from, to], out);
        }
    }
}

// The allocations with a local in the set, ascending, to the front of `ids`: how many.
fn live_owners<'a>(owned: &'a [u64], set: &'a [u64], ids: &mut [u32]) -> usize
    requires by_index { (w : List ℕ) × OwnedTables w owned.now }
    requires set_len { (length set.now ≡ 8) × (length ids.old ≡ 512) }
    ensures { (result ≤ 512) × LiveOwners owned.now set.now (take result ids.new) }
{
    let n = list_owned(owned, set, ids);
    let mut split = [0u64; 16];
    split_owners(&ids[..n], owned, set, &mut split);
    list_row(&split, 0, ids)
}

// The owners of the locals that operation o reads or writes, in two rows: those with a live local, and those with none.
fn split_touched<'a>(
    live: &[u64; LIVE],
    owned: &'a [u64],
    o: OpIdx,
    set: &'a [u64],
    ids: &mut [u32],
) -> [u64; 16]
    requires o_bound { o.0 < 1024 }
    requires by_index { (w : List ℕ) × OwnedTables w owned.now }
    requires set_len { (length set.now ≡ 8) × (length ids.old ≡ 512) }
    ensures { SplitOwners live.now o.0 owned.now set.now result }
{
    let row = o.0 as usize;
    let mut touched = [0u64; 8];
    row_union_with(&mut touched, 0, row_of(writes(live), row));
    row_union_with(&mut touched, 0, row_of(reads(live), row));
    let n = list_owned(owned, &touched, ids);
    let mut split = [0u64; 16];
    split_owners(&ids[..n], owned, set, &mut split);
    split
}

// The intervals of all allocations in block b.
fn sweep_block(tables: Tables, owned: &[u64], b: BlockId, cursors: &mut [usize], out: &mut [u8])
    requires owned_tables { OwnedTables tables.image.words.now owned.now }
    requires b_bound { b.0 < blocks tables.image.words.now }
    requires cursors_len { (length cursors.old ≡ length (allocs tables.image.words.now)) × Fits backward (sweep_pieces tables.image.words.now b.0) cursors.old }
    ensures { Scatters backward (sweep_pieces tables.entry.image.words.now b.0) cursors.old out.old cursors.new out.new }
{
    let mut set = [0u64; 8];
    live_after(tables.live, b, &mut set);
    let mut ids = [0u32; 512];
    let mut till = [0u32; 512];
    let n = live_owners(owned, &set, &mut ids);
    set_ends(&ids[..n], BLOCK_END, &mut till);
    let span = tables.image.operations(b);
    for o in (span.start..span.end).rev() {
        live_before(tables.live, OpIdx(o), &mut set);
        let split = split_touched(tables.live, owned, OpIdx(o), &set, &mut ids);
        let dead = list_row(&split, 1, &mut ids);
        close_before(&ids[..dead], &till, b, o + 1, cursors, out);
        set_ends(&ids[..dead], 0, &mut till);
        let alive = list_row(&split, 0, &mut ids);
        open_ends(&ids[..alive], o + 1, &mut till);
    }
    let m = live_owners(owned, &set, &mut ids);
    close_before(&ids[..m], &till, b, 0, cursors, out);
}

// The pass over the visited blocks.
fn sweep_blocks(tables: Tables, owned: &[u64], cursors: &mut [usize], out: &mut [u8])
    requires owned_tables { OwnedTables tables.image.words.now owned.now }
    requires cursors_len { (length cursors.old ≡ length (allocs tables.image.words.now)) × Fits backward (visited_pieces tables.image.words.now) cursors.old }
    ensures { Scatters backward (visited_pieces tables.entry.image.words.now) cursors.old out.old cursors.new out.new }
{
    let count = tables.image.block_count();
    for b in (0..count).rev() {
        if tables.visited().is_visited(BlockId(b)) {
            sweep_block(tables, owned, BlockId(b), cursors, out);
        }
    }
}

// The head of the record of allocation a, which has so many intervals.
fn record_head(pointed: Pointed, a: AllocId, count: u32) -> [u32; 9]
    requires a_in_bounds { a.0 < length (allocs pointed.image.words.now) }
    ensures { count ≡ length (merged pointed.entry.image.words.now a.0) → result ≡ head_of pointed.entry.image.words.now a.0 }
{
    let site = site_of(pointed.sites(), a);
    alloc_head(pointed.image, site, pointed.flags_of(a), count)
}

// The heads, in front of the intervals: `tops` has the cursors from before those.
fn put_heads(pointed: Pointed, tops: &[usize], cursors: &mut [usize], out: &mut [u8])
    requires cursors_len { (length cursors.old ≡ length (allocs pointed.image.words.now)) × Fits backward (head_pieces pointed.image.words.now) cursors.old }
    requires cursors_in_bounds { (length cursors.old ≤ length tops.now) × ((a : ℕ) → a < length cursors.old → number_at tops.now a ≡ number_at cursors.old a + length (interval_words (merged pointed.image.words.now a))) }
    ensures { Scatters backward (head_pieces pointed.entry.image.words.now) cursors.old out.old cursors.new out.new }
{
    // By index: `prepend` moves the cursors that are gone over.
    for a in 0..cursors.len() {
        let count = (tops[a] - cursors[a]) / 3;
        let id = a as u32;
        let head = record_head(pointed, AllocId(id), count as u32);
        prepend(cursors, id, &head, out);
    }
}

// All records: the intervals, then the heads in front of them.
fn scan_allocations(tables: Tables, cursors: &mut [usize], out: &mut [u8])
    requires cursors_len { (length cursors.old ≡ length (allocs tables.image.words.now)) × Fits backward (record_pieces tables.image.words.now) cursors.old }
    ensures { Scatters backward (record_pieces tables.entry.image.words.now) cursors.old out.old cursors.new out.new }
{
    let mut owned = [0u64; OWNED];
    let pointed = Pointed {
        image: tables.image,
        pointers: tables.pointers,
    };
    owned_tables(pointed, &mut owned);
    let mut tops = [0usize; 512];
    tops[..cursors.len()].copy_from_slice(cursors);
    sweep_blocks(tables, &owned, cursors, out);
    put_heads(pointed, &tops, cursors, out);
}

// How many words each record takes, by cursors that stand at 2 ^ 59.
fn count_allocations(tables: Tables, cursors: &mut [usize])
    requires cursors_len { (length cursors.old ≡ length (allocs tables.image.words.now)) × ((a : ℕ) → a < length cursors.old → number_at cursors.old a ≡ 2 ^ 59) }
    ensures { Counts (length (allocs tables.entry.image.words.now)) (allocation_answer tables.entry.image.words.now) cursors.new }
{
    scan_allocations(tables, cursors, &mut []);
    passed_words(cursors);
}

// The lengths, then the records, in a slice of their size.
fn write_allocations(tables: Tables, cursors: &mut [usize], out: &mut [u8])
    requires counts { Counts (length (allocs tables.image.words.now)) (allocation_answer tables.image.words.now) cursors.old }
    requires out_len { length out.old ≡ 4 * length (all (λ w. length (allocs w)) allocation_answer tables.image.words.now) }
    ensures { out.new ≡ bind (all (λ w. length (allocs w)) allocation_answer tables.entry.image.words.now) bytes_of }
{
    put_lengths(cursors, true, out);
    scan_allocations(tables, cursors, out);
}

// Counts, then writes, with cursors that stand at 2 ^ 59.
fn fill_allocations(tables: Tables, cursors: &mut [usize], out: &mut [u8]) -> Result<usize, Refusal>
    requires cursors_len { (length cursors.old ≡ length (allocs tables.image.words.now)) × ((a : ℕ) → a < length cursors.old → number_at cursors.old a ≡ 2 ^ 59) }
    ensures { outcome result out.new ≡ answered (bind (all (λ w. length (allocs w)) allocation_answer tables.entry.image.words.now) bytes_of) out.old }
{
    count_allocations(tables, cursors);
    segments_answer(
        cursors,
        |counts, part| write_allocations(tables, counts, part),
        out,
    )
}

// The records of all allocations.
pub fn all_allocations_answer(tables: Tables, out: &mut [u8]) -> Result<usize, Refusal>
    ensures { outcome result out.new ≡ answered (bind (all (λ w. length (allocs w)) allocation_answer tables.entry.image.words.now) bytes_of) out.old }
{
    let mut cursors = [576460752303423488usize; 512];
    let n = tables.pointed().sites().len();
    fill_allocations(tables, &mut cursors[..n], out)
}
