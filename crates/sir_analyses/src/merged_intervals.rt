// The merged intervals of an allocation's locals: in each block backwards through its operations, from where one of them is live to
// where none is.
ghost use Rattle.std.specs.Prelude.{◌≡◌, not, ◌&&◌, ◌||◌, cond, None, Some, [], ◌++◌, ℕ, ◌+◌, ◌*◌, ◌≤◌, ◌<◌, length, drop, replicate};
ghost use Rattle.std.specs.Option.{option_or};
ghost use Rattle.plank_core.specs.Lists.{upto};
ghost use Rattle.plank_core.specs.inner.DenseIndexSet.{contains, meets};
ghost use Rattle.sir_data.specs.Records.{blocks, locals};
ghost use Rattle.sir_analyses.specs.Liveness.{Set, end_open};
ghost use Rattle.sir_analyses.specs.Answers.{interval_words};
ghost use Rattle.sir_analyses.specs.inner.Stages.{reads_in, writes_in, ends_in, exits_in};
ghost use Rattle.sir_analyses.specs.inner.Writing.{Puts};
ghost use Rattle.sir_analyses.specs.inner.Tables.{Same};
ghost use Rattle.sir_analyses.specs.inner.Scanning.{end_of, ending};
ghost use Rattle.sir_analyses.specs.inner.Sweep.{sweep_block, sweep_from};

use crate::answers::put_words;
use crate::local_intervals::{BLOCK_END, RUN, Scanned};
use crate::staged::Analysed;
use crate::stages::{LIVE, ends, exits, reads, writes};
use plank_core::dense_index_set::intersects;
use plank_core::index::{BlockId, OpIdx};
use plank_core::rows::{row_difference_with, row_of, row_union_with};

// One operation is passed: where a local is live before it an end is open, and where none is the open one is closed.
fn pass_op(live: bool, o: OpIdx, till: Option<u32>) -> Scanned
    requires { o.0 < 1024 }
    ensures till_value { result.till ≡ cond live (option_or till (Some (o.0 + 1))) None }
    ensures closed_value { result.closed ≡ cond live None till }
{
    if live {
        return Scanned {
            till: till.or(Some(o.0 + 1)),
            closed: None,
        };
    }
    Scanned {
        till: None,
        closed: till,
    }
}

// Writes an interval in front of word n, if there is one: where the words begin now.
fn put_interval_before(run: &mut [u32], n: usize, b: BlockId, from: u32, to: Option<u32>) -> usize
    requires { (3 ≤ n) × (n ≤ length run.old) }
    ensures { (result + length (interval_words (ending b.0 from to)) ≡ n) × (drop result run.new ≡ interval_words (ending b.0 from to) ++ drop n run.old) }
{
    let Some(to) = to else {
        return n;
    };
    run[n - 3] = b.0;
    run[n - 2] = from;
    run[n - 1] = to;
    n - 3
}

// The locals that are live after the operations of block b, to an empty set: those live at its exit, and those read there.
pub fn live_after(live: &[u64; LIVE], b: BlockId, set: &mut [u64])
    requires { (b.0 < 256) × (set.old ≡ replicate 8 0) }
    ensures { (v : ℕ) → v < 512 → contains set.new v ≡ (contains (exits_in live.now) (512 * b.0 + v) || contains (ends_in live.now) (512 * b.0 + v)) }
{
    let row = b.0 as usize;
    row_union_with(set, 0, row_of(exits(live), row));
    row_union_with(set, 0, row_of(ends(live), row));
}

// The locals that are live before operation o, from those live after it.
pub fn live_before(live: &[u64; LIVE], o: OpIdx, set: &mut [u64])
    requires { (o.0 < 1024) × (length set.old ≡ 8) }
    ensures { (v : ℕ) → v < 512 → contains set.new v ≡ ((contains set.old v && not (contains (writes_in live.now) (512 * o.0 + v))) || contains (reads_in live.now) (512 * o.0 + v)) }
{
    let row = o.0 as usize;
    row_difference_with(set, 0, row_of(writes(live), row));
    row_union_with(set, 0, row_of(reads(live), row));
}

// The end that is open after a block's operations: the block's, where one of the locals is live there.
fn end_after<'a>(reach: &'a [u64], live: &'a [u64]) -> Option<u32>
    requires { (length reach.now ≡ 8) × (length live.now ≡ 8) }
    ensures { result ≡ end_of (end_open (meets reach.now live.now)) }
{
    intersects(reach, live).then_some(BLOCK_END)
}

// The merged intervals of the reach in one block, three words each, to the end of `run`: where they begin. The source's function of
// this name sorts and joins a list; this one finds them joined, operation by operation.
fn merge_intervals(analysed: Analysed, reach: &[u64], b: BlockId, run: &mut [u32]) -> usize
    requires b_bound { (b.0 < blocks analysed.image.words.now) × (length reach.now ≡ 8) × (length run.old ≡ 3075) }
    ensures { (result ≤ 3075) × ((s : Set) → length s ≡ locals analysed.entry.image.words.now → Same reach.now s → drop result run.new ≡ interval_words (sweep_block analysed.entry.image.words.now s b.0 [])) }
{
    let mut set = [0u64; 8];
    live_after(analysed.live, b, &mut set);
    let span = analysed.image.operations(b);
    let mut till = end_after(reach, &set);
    let mut n: usize = RUN;
    for o in (span.start..span.end).rev() {
        live_before(analysed.live, OpIdx(o), &mut set);
        let p = pass_op(intersects(reach, &set), OpIdx(o), till);
        n = put_interval_before(run, n, b, o + 1, p.closed);
        till = p.till;
    }
    put_interval_before(run, n, b, 0, till)
}

// The intervals of the visited blocks, by id, after the first n words of an answer: the next number.
pub fn populate_intervals_from_local_liveness(
    analysed: Analysed,
    reach: &[u64],
    n: usize,
    out: &mut [u8],
) -> usize
    requires reach_len { (length reach.now ≡ 8) × (n ≤ 9) }
    ensures { (result ≤ n + 787200) × ((s : Set) → length s ≡ locals analysed.entry.image.words.now → Same reach.now s → Puts n (interval_words (sweep_from analysed.entry.image.words.now s (upto (blocks analysed.entry.image.words.now)))) out.old out.new result) }
{
    let count = analysed.image.block_count();
    let mut run = [0u32; RUN];
    let mut m = n;
    for b in 0..count {
        if analysed.visited().is_visited(BlockId(b)) {
            let from = merge_intervals(analysed, reach, BlockId(b), &mut run);
            m = put_words(out, m, &run[from..]);
        }
    }
    m
}
