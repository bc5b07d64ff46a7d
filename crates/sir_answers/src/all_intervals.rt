// The intervals of all locals in one pass over the blocks of the order: in each block backwards through its operations, with the end
// that is open for each local.
ghost use Rattle.std.specs.Prelude.{◌≡◌, ◌&&◌, ◌||◌, cond, [], ℕ, ◌+◌, ◌*◌, ◌≤◌, ◌<◌, length, take, eqb};
ghost use Rattle.plank_core.specs.Lists.{bind, mem, ◌∈◌};
ghost use Rattle.sir_data.specs.Pages.{bytes_of};
ghost use Rattle.plank_core.specs.inner.DenseIndexSet.{contains, members, row_of};
ghost use Rattle.sir_data.specs.Records.{blocks, locals, ops};
ghost use Rattle.sir_analyses.specs.Liveness.{end_open};
ghost use Rattle.sir_analyses.specs.All.{all};
ghost use Rattle.sir_analyses.specs.Answers.{intervals_answer};
ghost use Rattle.sir_analyses.specs.Calls.{answered};
ghost use Rattle.sir_analyses.specs.inner.Outcomes.{outcome};
ghost use Rattle.sir_analyses.specs.inner.Stages.{ends_in, exits_in};
ghost use Rattle.sir_answers.specs.inner.Scatter.{number_at, forward, Below, Fits, Scatters, Counts};
ghost use Rattle.sir_answers.specs.inner.IntervalPieces.{closed_pieces, OpenEnds, operations_pieces, start_pieces, block_pieces, local_pieces};

use crate::scatter::{append, put_lengths};
use crate::segments::segments_answer;
use plank_core::dense_index_set::list;
use plank_core::index::BlockId;
use plank_core::rows::row_of;
use sir_analyses::local_intervals::BLOCK_END;
use sir_analyses::local_liveness::compute_liveness_at_block_entry;
use sir_analyses::staged::Analysed;
use sir_analyses::stages::{LIVE, ends, exits, reads, writes};
use sir_data::refusals::Refusal;

// The members of a row of a table, ascending, to the front of `ids`: how many.
pub fn list_row(table: &[u64], row: usize, ids: &mut [u32]) -> usize
    requires { (8 * row + 8 ≤ length table.now) × (length ids.old ≡ 512) }
    ensures { (result ≤ 512) × (take result ids.new ≡ members (row_of table.now row)) }
{
    list(row_of(table, row), ids)
}

// What a start closes for each of some locals, where an end is open. In `till` 0 says that none is: one word for each id, where an Option
// takes two.
fn close_ends(
    ids: &[u32],
    till: &[u32],
    b: BlockId,
    from: u32,
    cursors: &mut [usize],
    out: &mut [u8],
)
    requires by_index { (v : ℕ) → v ∈ ids.now → v < length till.now }
    requires below { Below (length cursors.old) (closed_pieces b.0 from (number_at till.now) ids.now) }
    requires fits { Fits forward (closed_pieces b.0 from (number_at till.now) ids.now) cursors.old }
    ensures { Scatters forward (closed_pieces b.0 from (number_at till.now) ids.now) cursors.old out.old cursors.new out.new }
{
    for v in ids {
        let to = till[*v as usize];
        if to != 0 {
            append(cursors, *v, &[b.0, from, to], out);
        }
    }
}

// An end for each of some locals.
pub fn set_ends(ids: &[u32], to: u32, till: &mut [u32])
    requires { (v : ℕ) → v ∈ ids.now → v < length till.old }
    ensures { (v : ℕ) → number_at till.new v ≡ cond (mem v ids.now) to (number_at till.old v) }
{
    for v in ids {
        till[*v as usize] = to;
    }
}

// An end for each of some locals for which none is open.
pub fn open_ends(ids: &[u32], to: u32, till: &mut [u32])
    requires { (v : ℕ) → v ∈ ids.now → v < length till.old }
    ensures { (v : ℕ) → number_at till.new v ≡ cond (mem v ids.now && eqb (number_at till.old v) 0) to (number_at till.old v) }
{
    for id in ids {
        let v = *id as usize;
        if till[v] == 0 {
            till[v] = to;
        }
    }
}

// The ends that are open after the operations of block b, where none was: the block's, for what is live there or read there.
fn open_block(live: &[u64; LIVE], b: BlockId, till: &mut [u32])
    requires b_bound { b.0 < 256 }
    requires till_len { (length till.old ≡ 512) × ((v : ℕ) → number_at till.old v ≡ 0) }
    ensures { (v : ℕ) → v < 512 → number_at till.new v ≡ end_open (contains (exits_in live.now) (512 * b.0 + v) || contains (ends_in live.now) (512 * b.0 + v)) }
{
    let row = b.0 as usize;
    let mut ids = [0u32; 512];
    let n = list_row(exits(live), row, &mut ids);
    set_ends(&ids[..n], BLOCK_END, till);
    let m = list_row(ends(live), row, &mut ids);
    set_ends(&ids[..m], BLOCK_END, till);
}

// The operations of block b, from the last to the first: each closes what it writes, and opens what it reads.
fn scan_operations(
    analysed: Analysed,
    b: BlockId,
    till: &mut [u32],
    cursors: &mut [usize],
    out: &mut [u8],
)
    requires b_bound { (b.0 < blocks analysed.image.words.now) × OpenEnds analysed.image.words.now b.0 [] till.old }
    requires cursors_len { (length cursors.old ≡ locals analysed.image.words.now) × Fits forward (operations_pieces analysed.image.words.now b.0) cursors.old }
    ensures open_ends { OpenEnds analysed.entry.image.words.now b.0 (ops analysed.entry.image.words.now b.0) till.new }
    ensures scatters { Scatters forward (operations_pieces analysed.entry.image.words.now b.0) cursors.old out.old cursors.new out.new }
{
    let span = analysed.image.operations(b);
    let mut ids = [0u32; 512];
    for o in (span.start..span.end).rev() {
        let row = o as usize;
        let n = list_row(writes(analysed.live), row, &mut ids);
        close_ends(&ids[..n], till, b, o + 1, cursors, out);
        set_ends(&ids[..n], 0, till);
        let m = list_row(reads(analysed.live), row, &mut ids);
        open_ends(&ids[..m], o + 1, till);
    }
}

// The start of block b closes what is open before its operations: what is live at its entry.
fn close_block(analysed: Analysed, b: BlockId, till: &[u32], cursors: &mut [usize], out: &mut [u8])
    requires b_bound { (b.0 < blocks analysed.image.words.now) × OpenEnds analysed.image.words.now b.0 (ops analysed.image.words.now b.0) till.now }
    requires cursors_len { (length cursors.old ≡ locals analysed.image.words.now) × Fits forward (start_pieces analysed.image.words.now b.0) cursors.old }
    ensures { Scatters forward (start_pieces analysed.entry.image.words.now b.0) cursors.old out.old cursors.new out.new }
{
    let set = compute_liveness_at_block_entry(analysed.live, b);
    let mut ids = [0u32; 512];
    let n = list(&set.words, &mut ids);
    close_ends(&ids[..n], till, b, 0, cursors, out);
}

// The intervals of all locals in block b.
fn scan_block(analysed: Analysed, b: BlockId, cursors: &mut [usize], out: &mut [u8])
    requires b_bound { b.0 < blocks analysed.image.words.now }
    requires cursors_len { (length cursors.old ≡ locals analysed.image.words.now) × Fits forward (block_pieces analysed.image.words.now b.0) cursors.old }
    ensures { Scatters forward (block_pieces analysed.entry.image.words.now b.0) cursors.old out.old cursors.new out.new }
{
    let mut till = [0u32; 512];
    open_block(analysed.live, b, &mut till);
    scan_operations(analysed, b, &mut till, cursors, out);
    close_block(analysed, b, &till, cursors, out);
}

// The pass over the blocks of the order.
fn scan_intervals(analysed: Analysed, cursors: &mut [usize], out: &mut [u8])
    requires cursors_len { (length cursors.old ≡ locals analysed.image.words.now) × Fits forward (local_pieces analysed.image.words.now) cursors.old }
    ensures { Scatters forward (local_pieces analysed.entry.image.words.now) cursors.old out.old cursors.new out.new }
{
    let order = analysed.visited().rpo();
    for b in order {
        scan_block(analysed, BlockId(*b), cursors, out);
    }
}

// How many words the intervals of each local take, by cursors that stand at 0.
fn count_intervals(analysed: Analysed, cursors: &mut [usize])
    requires cursors_len { (length cursors.old ≡ locals analysed.image.words.now) × ((v : ℕ) → number_at cursors.old v ≡ 0) }
    ensures { Counts (locals analysed.entry.image.words.now) (intervals_answer analysed.entry.image.words.now) cursors.new }
{
    scan_intervals(analysed, cursors, &mut []);
}

// The lengths, then the intervals, in a slice of their size.
fn write_intervals(analysed: Analysed, cursors: &mut [usize], out: &mut [u8])
    requires counts { Counts (locals analysed.image.words.now) (intervals_answer analysed.image.words.now) cursors.old }
    requires out_len { length out.old ≡ 4 * length (all locals intervals_answer analysed.image.words.now) }
    ensures { out.new ≡ bind (all locals intervals_answer analysed.entry.image.words.now) bytes_of }
{
    put_lengths(cursors, false, out);
    scan_intervals(analysed, cursors, out);
}

// Counts, then writes, with cursors that stand at 0.
fn fill_intervals(
    analysed: Analysed,
    cursors: &mut [usize],
    out: &mut [u8],
) -> Result<usize, Refusal>
    requires cursors_len { (length cursors.old ≡ locals analysed.image.words.now) × ((v : ℕ) → number_at cursors.old v ≡ 0) }
    ensures { outcome result out.new ≡ answered (bind (all locals intervals_answer analysed.entry.image.words.now) bytes_of) out.old }
{
    count_intervals(analysed, cursors);
    segments_answer(
        cursors,
        |counts, part| write_intervals(analysed, counts, part),
        out,
    )
}

// The intervals of all locals.
pub fn all_intervals_answer(analysed: Analysed, out: &mut [u8]) -> Result<usize, Refusal>
    ensures { outcome result out.new ≡ answered (bind (all locals intervals_answer analysed.entry.image.words.now) bytes_of) out.old }
{
    let mut cursors = [0usize; 512];
    let n = analysed.image.local_count() as usize;
    fill_intervals(analysed, &mut cursors[..n], out)
}
