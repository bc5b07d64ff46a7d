// Sets that are made once for an image: what each operation reads and writes, what each block uses and defines, and the
// predecessors of each block.
ghost use Rattle.std.specs.Prelude.{◌≡◌, ◌&&◌, false, ℕ, ◌+◌, ◌*◌, ◌≤◌, ◌<◌, length, take, replicate, eqb};
ghost use Rattle.plank_core.specs.Lists.{range, mem, ◌∈◌};
ghost use Rattle.plank_core.specs.inner.DenseIndexSet.{contains};
ghost use Rattle.sir_data.specs.Records.{operations, ops, successors, condition};
ghost use Rattle.sir_analyses.specs.Liveness.{has, end_reads, use_set};
ghost use Rattle.sir_analyses.specs.inner.Stages.{reads_in, writes_in, uses_in, defs_in, Emptied, OperandsAdded, BlockAdded};
ghost use Rattle.sir_analyses.specs.inner.Tables.{Adds, EndRows, OperandRows, RangeSets, BlockRows, PredecessorRows};

use crate::staged::Visited;
use crate::stages::{DEFS, ENDS, LIVE, READS, USES, WRITES, reads, writes};
use plank_core::index::{BlockId, OpIdx};
use plank_core::rows::{row_add, row_difference_with, row_of, row_union_with};
use plank_core::span::Span;
use sir_data::image_block::ImageBlock;
use sir_data::well_formed::Image;

// Adds the locals of a run to a row.
pub fn add_run(table: &mut [u64], row: usize, run: &[u32])
    requires row_in_bounds { 8 * row + 8 ≤ length table.old }
    requires by_index { (v : ℕ) → v ∈ run.now → v < 512 }
    ensures { Adds table.old (λ r i. eqb r row && mem i run.now) table.new }
{
    for v in run {
        row_add(table, row, *v);
    }
}

// Adds what operation o reads and writes to its rows.
fn operand_rows(image: Image, o: OpIdx, live: &mut [u64; LIVE])
    requires o_bound { o.0 < operations image.words.now }
    ensures { OperandsAdded image.entry.words.now o.0 live.old live.new }
{
    let row = o.0 as usize;
    add_run(&mut live[READS..WRITES], row, image.op_inputs(o));
    add_run(&mut live[WRITES..USES], row, image.op_outputs(o));
}

// What each operation reads and writes: each operand is looked at once.
pub fn operand_sets(image: Image, live: &mut [u64; LIVE])
    requires live_value { live.old ≡ replicate 24576 0 }
    ensures { OperandRows image.entry.words.now (reads_in live.new) (writes_in live.new) × Emptied 16384 live.new }
{
    let count = image.operation_count();
    for o in 0..count {
        operand_rows(image, OpIdx(o), live);
    }
}

// Adds the local that block b tests, if it tests one, to row b.
fn add_condition(b: ImageBlock, uses: &mut [u64])
    requires uses_len { length uses.old ≡ 2048 }
    ensures { Adds uses.old (λ r v. eqb r b.entry.id.0 && mem v (condition b.entry.image.words.now b.entry.id.0)) uses.new }
{
    if let Some(v) = b.condition() {
        row_add(uses, b.id.0 as usize, v.0);
    }
}

// Adds what is read after the operations of block b, its condition and what it returns, to row b.
fn add_end(b: ImageBlock, table: &mut [u64])
    requires table_len { length table.old ≡ 2048 }
    ensures { Adds table.old (λ r v. eqb r b.entry.id.0 && mem v (end_reads b.entry.image.words.now b.entry.id.0)) table.new }
{
    add_condition(b, table);
    add_run(table, b.id.0 as usize, b.returned_outputs());
}

// What is read after the operations of each block.
pub fn end_sets(image: Image, ends: &mut [u64])
    requires ends_value { ends.old ≡ replicate 2048 0 }
    ensures { EndRows image.entry.words.now ends.new }
{
    let count = image.block_count();
    for b in 0..count {
        let block = ImageBlock {
            image,
            id: BlockId(b),
        };
        add_end(block, ends);
    }
}

// Two sets: what the operations of block b read before one of them defines it, and what they define. Taken backwards.
fn range_sets(b: ImageBlock, live: &[u64; LIVE], sets: &mut [u64])
    requires operand_rows { OperandRows b.image.words.now (reads_in live.now) (writes_in live.now) }
    requires sets_len { length sets.old ≡ 16 }
    ensures { RangeSets b.entry.image.words.now (ops b.entry.image.words.now b.entry.id.0) sets.new }
{
    sets.fill(0);
    let span = b.operations();
    for o in (span.start as usize..span.end as usize).rev() {
        row_difference_with(sets, 0, row_of(writes(live), o));
        row_union_with(sets, 0, row_of(reads(live), o));
        row_union_with(sets, 1, row_of(writes(live), o));
    }
}

// Updates the sets of the range `kept` to those of block b, and answers its range. They are made anew only where that is another
// one: blocks that follow each other may share a long range.
fn update_range_sets(b: ImageBlock, live: &[u64; LIVE], kept: Span, sets: &mut [u64]) -> Span
    requires operand_rows { OperandRows b.image.words.now (reads_in live.now) (writes_in live.now) }
    requires range_sets { RangeSets b.image.words.now (range kept.start kept.end) sets.old }
    ensures end_value { range result.start result.end ≡ ops b.entry.image.words.now b.entry.id.0 }
    ensures range_sets_2 { RangeSets b.entry.image.words.now (ops b.entry.image.words.now b.entry.id.0) sets.new }
{
    let span = b.operations();
    if span == kept {
        return kept;
    }
    range_sets(b, live, sets);
    span
}

// The use set of one block, to a row that is empty, from the sets of its operations: what is read after them is used where none of
// them defines it.
fn use_row(b: ImageBlock, sets: &[u64], uses: &mut [u64])
    requires uses_len { length uses.old ≡ 2048 }
    requires range_sets { RangeSets b.image.words.now (ops b.image.words.now b.id.0) sets.now }
    requires by_index { (v : ℕ) → v < 512 → contains uses.old (512 * b.id.0 + v) ≡ false }
    ensures { Adds uses.old (λ r v. eqb r b.entry.id.0 && has (use_set b.entry.image.words.now b.entry.id.0) v) uses.new }
{
    let row = b.id.0 as usize;
    add_end(b, uses);
    row_difference_with(uses, row, row_of(sets, 1));
    row_union_with(uses, row, row_of(sets, 0));
}

// The use and def sets of one block, to rows that are empty, from the sets of its operations.
fn block_rows(b: ImageBlock, sets: &[u64], live: &mut [u64; LIVE])
    requires range_sets { RangeSets b.image.words.now (ops b.image.words.now b.id.0) sets.now }
    requires by_index { (v : ℕ) → v < 512 → contains (uses_in live.old) (512 * b.id.0 + v) ≡ false }
    ensures { BlockAdded b.entry.image.words.now b.entry.id.0 live.old live.new }
{
    use_row(b, sets, &mut live[USES..DEFS]);
    row_union_with(&mut live[DEFS..ENDS], b.id.0 as usize, row_of(sets, 1));
}

// The use and def sets of all blocks, from what their operations read and write.
pub fn block_sets(image: Image, live: &mut [u64; LIVE])
    requires operand_rows { OperandRows image.words.now (reads_in live.old) (writes_in live.old) × Emptied 16384 live.old }
    ensures { BlockRows image.entry.words.now (uses_in live.new) (defs_in live.new) × Emptied 20480 live.new × (take 16384 live.new ≡ take 16384 live.old) }
{
    let mut sets = [0u64; 16];
    let mut kept = Span { start: 0, end: 0 };
    let count = image.block_count();
    for b in 0..count {
        let block = ImageBlock {
            image,
            id: BlockId(b),
        };
        kept = update_range_sets(block, live, kept, &mut sets);
        block_rows(block, &sets, live);
    }
}

// Adds block p to the row of each of its successors.
fn add_to_successors(p: ImageBlock, preds: &mut [u64])
    requires preds_len { length preds.old ≡ 2048 }
    ensures { Adds preds.old (λ b i. eqb i p.entry.id.0 && mem b (successors p.entry.image.words.now p.entry.id.0)) preds.new }
{
    let count = p.successor_count();
    for i in 0..count {
        let s = p.successor(i);
        row_add(preds, s.0 as usize, p.id.0);
    }
}

// The predecessors of each block: the visited blocks that have it among their successors.
pub fn predecessor_sets(visited: Visited, preds: &mut [u64])
    requires preds_value { preds.old ≡ replicate 2048 0 }
    ensures { PredecessorRows visited.entry.image.words.now preds.new }
{
    let count = visited.image.block_count();
    for p in 0..count {
        if visited.is_visited(BlockId(p)) {
            let block = ImageBlock {
                image: visited.image,
                id: BlockId(p),
            };
            add_to_successors(block, preds);
        }
    }
}
