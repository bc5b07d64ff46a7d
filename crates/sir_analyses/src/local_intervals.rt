// The intervals of one local: in each block backwards through its operations, from a use, or the block's end, to the definition before it.
ghost use Rattle.std.specs.Prelude.{◌≡◌, ◌||◌, cond, None, ◌++◌, ℕ, ◌+◌, ◌*◌, ◌≤◌, ◌<◌, length, take};
ghost use Rattle.std.specs.Bool.{then_some};
ghost use Rattle.std.specs.Option.{option_or};
ghost use Rattle.plank_core.specs.inner.DenseIndexSet.{contains};
ghost use Rattle.sir_data.specs.Records.{blocks, locals};
ghost use Rattle.sir_analyses.specs.Liveness.{end_open};
ghost use Rattle.sir_analyses.specs.Answers.{interval_words, intervals_answer};
ghost use Rattle.sir_analyses.specs.inner.Writing.{Puts};
ghost use Rattle.sir_analyses.specs.inner.Stages.{reads_in, writes_in, ends_in, exits_in};
ghost use Rattle.sir_analyses.specs.inner.Scanning.{end_of, ending, scan_words};

use crate::answers::put_words;
use crate::staged::{Analysed, LiveSets};
use crate::stages::{LIVE, ends, exits, reads, writes};
use plank_core::index::{BlockId, LocalId, OpIdx};
use plank_core::rows::row_contains;

// The end of an interval that runs to the end of its block.
pub const BLOCK_END: u32 = 4294967295;

// The most words that the intervals of one block take.
pub const RUN: usize = 3075;

// The end that is open before an operation, and the end of the interval that it closes.
#[derive(Clone, Copy)]
pub struct Scanned {
    pub till: Option<u32>,
    pub closed: Option<u32>,
}

// Opens an end at an operation that reads v, where none is open.
fn opened(live: &[u64; LIVE], v: LocalId, o: OpIdx, till: Option<u32>) -> Option<u32>
    requires { (v.0 < 512) × (o.0 < 1024) }
    ensures { result ≡ option_or till (then_some (contains (reads_in live.now) (512 * o.0 + v.0)) (o.0 + 1)) }
{
    if till.is_some() {
        return till;
    }
    row_contains(reads(live), o.0 as usize, v.0).then_some(o.0 + 1)
}

// One operation: where it defines v it closes what is open, and where it reads v and nothing is open it opens an end.
fn scan_op(live: &[u64; LIVE], v: LocalId, o: OpIdx, till: Option<u32>) -> Scanned
    requires { (v.0 < 512) × (o.0 < 1024) }
    ensures till_value { result.till ≡ option_or (cond (contains (writes_in live.now) (512 * o.0 + v.0)) None till) (then_some (contains (reads_in live.now) (512 * o.0 + v.0)) (o.0 + 1)) }
    ensures closed_value { result.closed ≡ cond (contains (writes_in live.now) (512 * o.0 + v.0)) till None }
{
    if row_contains(writes(live), o.0 as usize, v.0) {
        return Scanned {
            till: opened(live, v, o, None),
            closed: till,
        };
    }
    Scanned {
        till: opened(live, v, o, till),
        closed: None,
    }
}

// The end that is open after a block's operations: the block's, where v is live there or read there.
pub fn open_end(live: &[u64; LIVE], b: BlockId, v: LocalId) -> Option<u32>
    requires { (b.0 < 256) × (v.0 < 512) }
    ensures { result ≡ end_of (end_open (contains (exits_in live.now) (512 * b.0 + v.0) || contains (ends_in live.now) (512 * b.0 + v.0))) }
{
    let row = b.0 as usize;
    if row_contains(exits(live), row, v.0) {
        return Some(BLOCK_END);
    }
    row_contains(ends(live), row, v.0).then_some(BLOCK_END)
}

// Writes an interval after the first n words, if there is one: how many words there are now.
fn put_interval(out: &mut [u32], n: usize, b: BlockId, from: u32, to: Option<u32>) -> usize
    requires { n + 3 ≤ length out.old }
    ensures { (result ≡ n + length (interval_words (ending b.0 from to))) × (take result out.new ≡ take n out.old ++ interval_words (ending b.0 from to)) }
{
    let Some(to) = to else {
        return n;
    };
    out[n] = b.0;
    out[n + 1] = from;
    out[n + 2] = to;
    n + 3
}

// The intervals of v in block b from an open end on, three words each, to the front of `run`: how many words.
pub fn block_intervals(
    sets: LiveSets,
    b: BlockId,
    v: LocalId,
    end: Option<u32>,
    run: &mut [u32],
) -> usize
    requires b_bound { (b.0 < blocks sets.image.words.now) × (v.0 < 512) × (length run.old ≡ 3075) }
    ensures { (result ≤ 3075) × ((e : ℕ) → end ≡ end_of e → (result ≡ length (scan_words sets.entry.image.words.now b.0 v.0 e)) × (take result run.new ≡ scan_words sets.entry.image.words.now b.0 v.0 e)) }
{
    let span = sets.image.operations(b);
    let mut till = end;
    let mut n: usize = 0;
    for o in (span.start..span.end).rev() {
        let s = scan_op(sets.live, v, OpIdx(o), till);
        n = put_interval(run, n, b, o + 1, s.closed);
        till = s.till;
    }
    put_interval(run, n, b, 0, till)
}

// The intervals of v in the blocks of the order; how many words they take.
pub fn compute_intervals(analysed: Analysed, v: LocalId, out: &mut [u8]) -> usize
    requires v_bound { v.0 < locals analysed.image.words.now }
    ensures { (result ≤ 787200) × Puts 0 (intervals_answer analysed.entry.image.words.now v.0) out.old out.new result }
{
    let order = analysed.visited().rpo();
    let mut run = [0u32; RUN];
    let mut m: usize = 0;
    for &id in order {
        let b = BlockId(id);
        let end = open_end(analysed.live, b, v);
        let n = block_intervals(analysed.live_sets(), b, v, end, &mut run);
        m = put_words(out, m, &run[..n]);
    }
    m
}
