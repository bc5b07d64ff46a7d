// Which allocations are open at an operation: the unmarked ones with a local that is live before it or after it.
ghost use Rattle.std.specs.Prelude.{◌≡◌, true, ◌&&◌, ◌||◌, List, map, ℕ, ◌+◌, ◌*◌, ◌≤◌, ◌<◌, length, take, replicate, eqb};
ghost use Rattle.plank_core.specs.Lists.{bind, mem, ◌∈◌};
ghost use Rattle.plank_core.specs.inner.DenseIndexSet.{contains};
ghost use Rattle.sir_data.specs.Pages.{bytes_of};
ghost use Rattle.sir_data.specs.Records.{blocks, ops};
ghost use Rattle.sir_analyses.specs.Order.{is_visited};
ghost use Rattle.sir_analyses.specs.Calls.{answered};
ghost use Rattle.sir_analyses.specs.inner.Outcomes.{outcome};
ghost use Rattle.sir_analyses.specs.Open.{open_at};
ghost use Rattle.sir_analyses.specs.inner.Stages.{PointerStage, reads_in};
ghost use Rattle.sir_analyses.specs.inner.Tables.{Adds};
ghost use Rattle.sir_answers.specs.inner.AllocationPieces.{unmarked_owner};
ghost use Rattle.sir_answers.specs.inner.LiveAround.{LiveAround, UnmarkedOwners};

use crate::owned_tables::unmarked_owner;
use plank_core::dense_index_set::list;
use plank_core::index::{BlockId, LocalId, OpIdx};
use plank_core::rows::{row_add, row_of, row_union_with};
use sir_analyses::answers::words_answer;
use sir_analyses::local_liveness::compute_liveness;
use sir_analyses::merged_intervals::{live_after, live_before};
use sir_analyses::staged::{Followed, LiveSets};
use sir_analyses::stages::{LIVE, POINTERS, reads};
use sir_data::refusals::Refusal;

// The locals that are live before operation o or after it, from those live after it.
pub fn live_around(live: &[u64; LIVE], o: OpIdx, set: &mut [u64])
    requires { (o.0 < 1024) × (length set.old ≡ 8) }
    ensures { (v : ℕ) → v < 512 → contains set.new v ≡ (contains set.old v || contains (reads_in live.now) (512 * o.0 + v)) }
{
    row_union_with(set, 0, row_of(reads(live), o.0 as usize));
}

// The same for operation o of block b, to an empty set: backwards from the block's end.
fn scan_to(sets: LiveSets, b: BlockId, o: OpIdx, set: &mut [u64])
    requires b_bound { (b.0 < blocks sets.image.words.now) × (o.0 ∈ ops sets.image.words.now b.0) × (set.old ≡ replicate 8 0) }
    ensures { LiveAround sets.entry.image.words.now b.0 o.0 set.new }
{
    live_after(sets.live, b, set);
    let span = sets.image.operations(b);
    let last = o.0 + 1;
    for p in (last..span.end).rev() {
        live_before(sets.live, OpIdx(p), set);
    }
    live_around(sets.live, o, set);
}

// Adds the owners of some locals to a set, but those that are marked.
fn add_owners(pointers: &[u32; POINTERS], ids: &[u32], owners: &mut [u64])
    requires by_index { (w : List ℕ) × PointerStage w pointers.now }
    requires by_index_2 { (v : ℕ) → v ∈ ids.now → v < 512 }
    requires owners_len { length owners.old ≡ 8 }
    ensures { Adds owners.old (λ r a. mem (a + 1) (map (unmarked_owner pointers.now) ids.now) && eqb r 0) owners.new }
{
    for v in ids {
        if let Some(a) = unmarked_owner(pointers, LocalId(*v)) {
            row_add(owners, 0, a.0);
        }
    }
}

// The owners of the locals of a set, but those that are marked, ascending, to the front of `ids`: how many.
fn owners_of(pointers: &[u32; POINTERS], set: &[u64], ids: &mut [u32]) -> usize
    requires by_index { (w : List ℕ) × PointerStage w pointers.now }
    requires set_len { (length set.now ≡ 8) × (length ids.old ≡ 512) }
    ensures { (result ≤ 512) × UnmarkedOwners pointers.now set.now (take result ids.new) }
{
    let n = list(set, ids);
    let mut owners = [0u64; 8];
    add_owners(pointers, &ids[..n], &mut owners);
    list(&owners, ids)
}

// The allocations that are open at operation o of block b, which is visited.
fn open_in_visited(
    sets: LiveSets,
    pointers: &[u32; POINTERS],
    b: BlockId,
    o: OpIdx,
    out: &mut [u8],
) -> Result<usize, Refusal>
    requires pointer_stage { PointerStage sets.image.words.now pointers.now }
    requires b_bound { (b.0 < blocks sets.image.words.now) × (o.0 ∈ ops sets.image.words.now b.0) × (is_visited sets.image.words.now b.0 ≡ true) }
    ensures { outcome result out.new ≡ answered (bind (open_at sets.entry.image.words.now b.0 o.0) bytes_of) out.old }
{
    let mut set = [0u64; 8];
    scan_to(sets, b, o, &mut set);
    let mut ids = [0u32; 512];
    let n = owners_of(pointers, &set, &mut ids);
    words_answer(&ids[..n], out)
}

// The allocations that are open at operation o of block b; in a block that was not visited none is.
pub fn open_answer(
    followed: Followed,
    b: BlockId,
    o: OpIdx,
    out: &mut [u8],
) -> Result<usize, Refusal>
    requires b_bound { (b.0 < blocks followed.image.words.now) × (o.0 ∈ ops followed.image.words.now b.0) }
    ensures { outcome result out.new ≡ answered (bind (open_at followed.entry.image.words.now b.0 o.0) bytes_of) out.old }
{
    if !followed.visited().is_visited(b) {
        return words_answer(&[], out);
    }
    let mut live = [0u64; LIVE];
    compute_liveness(followed.visited(), &mut live);
    open_in_visited(
        LiveSets {
            image: followed.image,
            live: &live,
        },
        followed.pointers,
        b,
        o,
        out,
    )
}
