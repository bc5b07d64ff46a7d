// Live locals at the entry and exit of each block, as `LocalLiveness` of the source has them, over lent tables of sets.
ghost use Rattle.std.specs.Prelude.{◌≡◌, ◌&&◌, ℕ, ◌≤◌, ◌<◌, length, take, replicate, eqb};
ghost use Rattle.plank_core.specs.Lists.{mem, ◌∈◌};
ghost use Rattle.sir_data.specs.Records.{blocks, outputs};
ghost use Rattle.sir_analyses.specs.Liveness.{back, pass, rounds};
ghost use Rattle.sir_analyses.specs.inner.Stages.{LivenessStage, uses_in, defs_in, exits_in, Emptied, ExitsEmpty, Passing, PassStep, ExitsFound};
ghost use Rattle.sir_analyses.specs.inner.Tables.{BlockRows, PredecessorRows, EntryWords, Unsent, TakenInputs, outputs_at, arrives, Sends, SentToPredecessors};

use crate::block_sets::{block_sets, end_sets, operand_sets, predecessor_sets};
use crate::staged::Visited;
use crate::stages::{ENDS, EXITS, LIVE, defs, exits, uses};
use plank_core::dense_index_set::{DenseIndexSet, is_empty, list};
use plank_core::index::BlockId;
use plank_core::rows::{row_add, row_difference_with, row_of, row_remove, row_union_with};
use sir_data::image_block::ImageBlock;
use sir_data::well_formed::Image;

// A block's entry set from its exit set: use ∪ (exit − def).
pub fn compute_liveness_at_block_entry(live: &[u64; LIVE], b: BlockId) -> DenseIndexSet
    requires { b.0 < 256 }
    ensures { (length result.words ≡ 8) × EntryWords (uses_in live.now) (defs_in live.now) (exits_in live.now) b.0 result.words }
{
    let row = b.0 as usize;
    let mut words = [0u64; 8];
    row_union_with(&mut words, 0, row_of(exits(live), row));
    row_difference_with(&mut words, 0, row_of(defs(live), row));
    row_union_with(&mut words, 0, row_of(uses(live), row));
    DenseIndexSet { words }
}

// Takes the inputs of b out of a set: the positions of those that it had stand at the front of `moved`.
// How many they are is returned, since the array is fixed and lent, as there is no heap.
fn take_block_inputs(b: ImageBlock, set: &mut [u64], moved: &mut [u32]) -> usize
    requires set_len { (length set.old ≡ 8) × (length moved.old ≡ 512) }
    ensures { (result ≤ 512) × TakenInputs b.entry.image.words.now b.entry.id.0 set.old set.new (take result moved.new) }
{
    let inputs = b.inputs();
    let mut n: usize = 0;
    for (i, v) in inputs.iter().enumerate() {
        if row_remove(set, 0, *v) {
            moved[n] = i as u32;
            n += 1;
        }
    }
    n
}

// Adds the outputs of block p at the positions to its exit. Whether the exit grew.
fn send_moved(p: ImageBlock, moved: &[u32], exits: &mut [u64]) -> bool
    requires exits_len { length exits.old ≡ 2048 }
    requires by_index { (k : ℕ) → k ∈ moved.now → k < length (outputs p.image.words.now p.id.0) }
    ensures { Sends (blocks p.entry.image.words.now) exits.old (λ q i. eqb q p.entry.id.0 && mem i (outputs_at p.entry.image.words.now p.entry.id.0 moved.now)) exits.new result }
{
    let outputs = p.outputs();
    let row = p.id.0 as usize;
    let mut grew = false;
    for at in moved {
        grew |= row_add(exits, row, outputs[*at as usize]);
    }
    grew
}

// Sends to block p: the set itself, and the outputs of p at the positions. Whether its exit grew.
fn send_to(p: ImageBlock, set: &[u64], moved: &[u32], exits: &mut [u64]) -> bool
    requires set_len { (length set.now ≡ 8) × (length exits.old ≡ 2048) }
    requires by_index { (k : ℕ) → k ∈ moved.now → k < length (outputs p.image.words.now p.id.0) }
    ensures { Sends (blocks p.entry.image.words.now) exits.old (λ q i. eqb q p.entry.id.0 && arrives p.entry.image.words.now set.now moved.now p.entry.id.0 i) exits.new result }
{
    let passed = row_union_with(exits, p.id.0 as usize, set);
    passed | send_moved(p, moved, exits)
}

// Sends to each of some blocks. Whether an exit grew.
fn send_all(image: Image, ids: &[u32], set: &[u64], moved: &[u32], exits: &mut [u64]) -> bool
    requires set_len { (length set.now ≡ 8) × (length exits.old ≡ 2048) }
    requires by_index { (p : ℕ) → p ∈ ids.now → p < blocks image.words.now }
    requires by_index_2 { (p k : ℕ) → p ∈ ids.now → k ∈ moved.now → k < length (outputs image.words.now p) }
    ensures { Sends (blocks image.entry.words.now) exits.old (λ q i. mem q ids.now && arrives image.entry.words.now set.now moved.now q i) exits.new result }
{
    let mut grew = false;
    for p in ids {
        let block = ImageBlock {
            image,
            id: BlockId(*p),
        };
        grew |= send_to(block, set, moved, exits);
    }
    grew
}

// Sends what is new at the entry of block b to its predecessors, its inputs by their positions. Whether an exit grew.
fn send_to_predecessors(b: ImageBlock, preds: &[u64], new: DenseIndexSet, exits: &mut [u64]) -> bool
    requires predecessor_rows { PredecessorRows b.image.words.now preds.now }
    requires new_len { (length new.words ≡ 8) × (length exits.old ≡ 2048) }
    ensures { SentToPredecessors b.entry.image.words.now b.entry.id.0 new.words exits.old exits.new result }
{
    let mut passing = new.words;
    let mut moved = [0u32; 512];
    let n = take_block_inputs(b, &mut passing, &mut moved);
    let mut ids = [0u32; 512];
    let count = list(row_of(preds, b.id.0 as usize), &mut ids);
    send_all(b.image, &ids[..count], &passing, &moved[..n], exits)
}

// What the entry set of block b has and was not sent before.
fn unsent(live: &[u64; LIVE], b: BlockId, sent: &[u64]) -> DenseIndexSet
    requires { (b.0 < 256) × (length sent.now ≡ 2048) }
    ensures { (length result.words ≡ 8) × Unsent (uses_in live.now) (defs_in live.now) (exits_in live.now) sent.now b.0 result.words }
{
    let entry = compute_liveness_at_block_entry(live, b);
    let mut words = entry.words;
    row_difference_with(&mut words, 0, row_of(sent, b.0 as usize));
    DenseIndexSet { words }
}

// One block of a pass: what its entry set has and was not sent before goes to its predecessors' exits. Whether one grew.
fn propagate_liveness_to_predecessors(
    b: ImageBlock,
    preds: &[u64],
    live: &mut [u64; LIVE],
    sent: &mut [u64],
) -> bool
    requires passing { Passing b.image.words.now preds.now live.old sent.old }
    ensures { PassStep b.entry.image.words.now (λ e. back b.entry.image.words.now e b.entry.id.0) live.old live.new sent.new result }
{
    let new = unsent(live, b.id, sent);
    if is_empty(&new.words) {
        return false;
    }
    row_union_with(sent, b.id.0 as usize, &new.words);
    send_to_predecessors(b, preds, new, &mut live[EXITS..LIVE])
}

// A pass: the blocks of the order, backwards. Whether an exit grew.
fn pass_back(visited: Visited, preds: &[u64], live: &mut [u64; LIVE], sent: &mut [u64]) -> bool
    requires passing { Passing visited.image.words.now preds.now live.old sent.old }
    ensures { PassStep visited.entry.image.words.now (pass visited.entry.image.words.now) live.old live.new sent.new result }
{
    let order = visited.rpo();
    let mut grew = false;
    for k in (0..order.len()).rev() {
        let block = ImageBlock {
            image: visited.image,
            id: BlockId(order[k]),
        };
        grew |= propagate_liveness_to_predecessors(block, preds, live, sent);
    }
    grew
}

// The words of a table with a row for each block.
const BLOCK_ROWS: usize = 2048;

// Passes until one adds nothing: how many, that one counted. The exits, empty at first, are then the exit sets.
fn fixpoint(visited: Visited, live: &mut [u64; LIVE]) -> u32
    requires block_rows { BlockRows visited.image.words.now (uses_in live.old) (defs_in live.old) × Emptied 22528 live.old }
    ensures { (result ≡ rounds visited.entry.image.words.now) × ExitsFound visited.entry.image.words.now live.old live.new }
{
    let mut preds = [0u64; BLOCK_ROWS];
    predecessor_sets(visited, &mut preds);
    let mut sent = [0u64; BLOCK_ROWS];
    let mut done: u32 = 0;
    loop {
        let grew = pass_back(visited, &preds, live, &mut sent);
        done += 1;
        if !grew {
            return done;
        }
    }
}

// All tables of liveness but the exits, to an array that is empty at first.
fn sets_before_passes(image: Image, live: &mut [u64; LIVE])
    requires live_value { live.old ≡ replicate 24576 0 }
    ensures { ExitsEmpty image.entry.words.now live.new }
{
    operand_sets(image, live);
    block_sets(image, live);
    end_sets(image, &mut live[ENDS..EXITS]);
}

// All tables of liveness, to an array that is empty at first, and the number of passes.
pub fn compute_liveness(visited: Visited, live: &mut [u64; LIVE]) -> u32
    requires live_value { live.old ≡ replicate 24576 0 }
    ensures { (result ≡ rounds visited.entry.image.words.now) × LivenessStage visited.entry.image.words.now live.new }
{
    sets_before_passes(visited.image, live);
    fixpoint(visited, live)
}
