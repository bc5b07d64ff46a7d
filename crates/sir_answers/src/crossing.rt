// Whether two allocations cross, and the first operation that lies in intervals of both: blocks by id, and in each backwards through
// its operations, so that the last one found is the first.
ghost use Rattle.std.specs.Prelude.{◌≡◌, true, false, ◌&&◌, ℕ, ◌<◌, length, IfSome, option_map};
ghost use Rattle.plank_core.specs.Lists.{bind};
ghost use Rattle.plank_core.specs.inner.DenseIndexSet.{meets};
ghost use Rattle.sir_data.specs.Pages.{bytes_of};
ghost use Rattle.sir_data.specs.Records.{blocks, ops};
ghost use Rattle.sir_analyses.specs.Order.{is_visited};
ghost use Rattle.sir_analyses.specs.Allocation.{allocs, marked, merged};
ghost use Rattle.sir_analyses.specs.Calls.{answered};
ghost use Rattle.sir_analyses.specs.inner.Outcomes.{outcome};
ghost use Rattle.sir_analyses.specs.Open.{place_of, is_common, crossing};
ghost use Rattle.sir_answers.specs.inner.LiveAround.{ReachOf, first_passing};

use crate::open_allocations::live_around;
use plank_core::dense_index_set::intersects;
use plank_core::index::{AllocId, BlockId, OpIdx};
use sir_analyses::allocation_answers::owned_locals;
use sir_analyses::answers::words_answer;
use sir_analyses::local_liveness::compute_liveness;
use sir_analyses::merged_intervals::{live_after, live_before};
use sir_analyses::staged::{Analysed, Followed};
use sir_analyses::stages::LIVE;
use sir_data::refusals::Refusal;

// Whether each of two sets has a member in a third.
fn both_meet<'a>(one: &'a [u64], other: &'a [u64], set: &'a [u64]) -> bool
    requires { (length one.now ≡ 8) × (length other.now ≡ 8) × (length set.now ≡ 8) }
    ensures { result ≡ (meets one.now set.now && meets other.now set.now) }
{
    intersects(one, set) && intersects(other, set)
}

// The first operation of block b that is common to two allocations, by their reaches.
fn first_common<'a>(
    analysed: Analysed,
    one: &'a [u64],
    other: &'a [u64],
    b: BlockId,
) -> Option<OpIdx>
    requires b_bound { (b.0 < blocks analysed.image.words.now) × (is_visited analysed.image.words.now b.0 ≡ true) × (length one.now ≡ 8) × (length other.now ≡ 8) }
    ensures few { IfSome result (λ o. o.0 < 1024) }
    ensures first_is { (a c : ℕ) → ReachOf analysed.entry.image.words.now a one.now → ReachOf analysed.entry.image.words.now c other.now → option_map (λ o. o.0) result ≡ first_passing (λ o. is_common (merged analysed.entry.image.words.now a) (merged analysed.entry.image.words.now c) (place_of b.0 o)) (ops analysed.entry.image.words.now b.0) }
{
    let mut set = [0u64; 8];
    live_after(analysed.live, b, &mut set);
    let span = analysed.image.operations(b);
    let mut found = None;
    for o in (span.start..span.end).rev() {
        live_around(analysed.live, OpIdx(o), &mut set);
        if both_meet(one, other, &set) {
            found = Some(OpIdx(o));
        }
        live_before(analysed.live, OpIdx(o), &mut set);
    }
    found
}

// Where two unmarked allocations cross, by their reaches, in the words of an answer: 1 or 0, block + 1, operation + 1.
fn crossing_of_reaches<'a>(analysed: Analysed, one: &'a [u64], other: &'a [u64]) -> [u32; 3]
    requires one_len { (length one.now ≡ 8) × (length other.now ≡ 8) }
    ensures { (a c : ℕ) → ReachOf analysed.entry.image.words.now a one.now → ReachOf analysed.entry.image.words.now c other.now → result ≡ crossing analysed.entry.image.words.now a c }
{
    let count = analysed.image.block_count();
    for b in 0..count {
        if analysed.visited().is_visited(BlockId(b)) {
            if let Some(o) = first_common(analysed, one, other, BlockId(b)) {
                return [1, b + 1, o.0 + 1];
            }
        }
    }
    [0, 0, 0]
}

// Whether two unmarked allocations cross, and where.
fn unmarked_crossing(followed: Followed, one: AllocId, other: AllocId) -> [u32; 3]
    requires one_in_bounds { (one.0 < length (allocs followed.image.words.now)) × (other.0 < length (allocs followed.image.words.now)) }
    requires one_value { (marked followed.image.words.now one.0 ≡ false) × (marked followed.image.words.now other.0 ≡ false) }
    ensures { result ≡ crossing followed.entry.image.words.now one.0 other.0 }
{
    let mut live = [0u64; LIVE];
    compute_liveness(followed.visited(), &mut live);
    let mut first = [0u64; 8];
    owned_locals(followed.image, followed.pointers, one, &mut first);
    let mut second = [0u64; 8];
    owned_locals(followed.image, followed.pointers, other, &mut second);
    crossing_of_reaches(
        Analysed {
            image: followed.image,
            visit: followed.visit,
            live: &live,
        },
        &first,
        &second,
    )
}

// Whether two allocations cross, and where; a marked one crosses every one, and no point is named.
pub fn crossing_answer(
    followed: Followed,
    one: AllocId,
    other: AllocId,
    out: &mut [u8],
) -> Result<usize, Refusal>
    requires one_in_bounds { (one.0 < length (allocs followed.image.words.now)) × (other.0 < length (allocs followed.image.words.now)) }
    ensures { outcome result out.new ≡ answered (bind (crossing followed.entry.image.words.now one.0 other.0) bytes_of) out.old }
{
    let pointed = followed.pointed();
    if pointed.is_marked(one) || pointed.is_marked(other) {
        return words_answer(&[1, 0, 0], out);
    }
    let told = unmarked_crossing(followed, one, other);
    words_answer(&told, out)
}
