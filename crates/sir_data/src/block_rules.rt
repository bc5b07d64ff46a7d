// What rules 7, 8, 10 and 11 ask of a block.
ghost use Rattle.std.specs.Prelude.{◌≡◌, ℕ, ◌+◌, ◌<◌, ◌≤◌, ◌&&◌, length, ◌==◌, nat_eq, nat_le, nat_lt, slice_index};
ghost use Rattle.plank_core.specs.Lists.{all, upto, distinct, ◌∈◌};
ghost use Rattle.sir_data.specs.Records.{blocks, case_targets, locals, block_word, field, inputs, outputs, successors};
ghost use Rattle.sir_data.specs.Rules.{zero_from, block_fields_ok, range_ok, optional_below, control_ids_ok, block_ids_ok, rule10, rule11};

use crate::bounds::range_ok;
use crate::control::Control;
use crate::giver_rules::all_new;
use crate::records::{
    Ranged, Records, block_count, local_count, operand_count, operation_count, target_count,
};
use crate::view::BlockView;
use plank_core::index::BlockId;

// Are the control fields of a block 0 from field k on?
fn zero_from(records: Records, b: BlockId, k: usize) -> bool
    requires b_bound { b.0 < blocks records.words.now }
    requires k_bound { k ≤ 4 }
    ensures { result ≡ zero_from records.entry.words.now b.0 k }
{
    (k..4).all(|j| records.block_word(b, 7 + j) == 0)
}

// Is the control kind known, and is each field that it does not use 0?
fn block_fields_ok(records: Records, b: BlockId) -> bool
    requires b_bound { b.0 < blocks records.words.now }
    ensures { result ≡ block_fields_ok records.entry.words.now b.0 }
{
    match records.control(b) {
        Ok(Control::LastOpTerminates | Control::InternalReturn) => zero_from(records, b, 0),
        Ok(Control::ContinuesTo) => zero_from(records, b, 1),
        Ok(Control::Branches) => zero_from(records, b, 3),
        Ok(Control::Switch) => true,
        Err(_) => false,
    }
}

// The part of rule 7 that speaks of blocks.
pub fn each_block_fields_ok(records: Records) -> bool
    ensures { result ≡ all (block_fields_ok records.entry.words.now) (upto (blocks records.entry.words.now)) }
{
    (0..block_count(records.words)).all(|b| block_fields_ok(records, BlockId(b)))
}

// A branch: is its condition a local, and is each of its two targets a block?
fn branch_ids_ok(records: Records, b: BlockId) -> bool
    requires b_bound { b.0 < blocks records.words.now }
    ensures { result ≡ (nat_lt (field records.entry.words.now b.0 0) (locals records.entry.words.now) && nat_lt (field records.entry.words.now b.0 1) (blocks records.entry.words.now) && nat_lt (field records.entry.words.now b.0 2) (blocks records.entry.words.now)) }
{
    if records.block_word(b, 7) >= local_count(records.words) {
        return false;
    }
    let n = block_count(records.words);
    if records.block_word(b, 8) >= n {
        return false;
    }
    records.block_word(b, 9) < n
}

// A switch: is its condition a local, are its targets within the list, with an end that does not wrap, and is its fallback
// a block?
fn switch_ids_ok(records: Records, b: BlockId) -> bool
    requires b_bound { b.0 < blocks records.words.now }
    ensures { result ≡ (nat_lt (field records.entry.words.now b.0 0) (locals records.entry.words.now) && nat_le (field records.entry.words.now b.0 1 + field records.entry.words.now b.0 2) (case_targets records.entry.words.now) && optional_below (field records.entry.words.now b.0 3) (blocks records.entry.words.now)) }
{
    if records.block_word(b, 7) >= local_count(records.words) {
        return false;
    }
    let end = (records.block_word(b, 8) as usize) + (records.block_word(b, 9) as usize);
    if end > (target_count(records.words) as usize) {
        return false;
    }
    let n = block_count(records.words);
    records.fallback(b).is_none_or(|to| to.0 < n)
}

// Is each id of the block's control below its count?
fn control_ids_ok(records: Records, b: BlockId) -> bool
    requires b_bound { b.0 < blocks records.words.now }
    ensures { result ≡ control_ids_ok records.entry.words.now b.0 }
{
    match records.control(b) {
        Ok(Control::ContinuesTo) => records.block_word(b, 7) < block_count(records.words),
        Ok(Control::Branches) => branch_ids_ok(records, b),
        Ok(Control::Switch) => switch_ids_ok(records, b),
        _ => true,
    }
}

// Is the run that words k and k + 1 of the block give within a list of n?
fn block_range_ok(records: Records, b: BlockId, k: usize, n: u32) -> bool
    requires b_bound { b.0 < blocks records.words.now }
    requires k_bound { k < 10 }
    ensures { result ≡ range_ok (block_word records.entry.words.now b.0 k) (block_word records.entry.words.now b.0 (k + 1)) n }
{
    range_ok(records.block_word(b, k), records.block_word(b, k + 1), n)
}

// Are the block's ranges within their lists, and the ids of its control below their counts?
fn block_ids_ok(records: Records, b: BlockId) -> bool
    requires b_bound { b.0 < blocks records.words.now }
    ensures { result ≡ block_ids_ok records.entry.words.now b.0 }
{
    let n = operand_count(records.words);
    if !block_range_ok(records, b, 0, n) {
        return false;
    }
    if !block_range_ok(records, b, 2, n) {
        return false;
    }
    if !block_range_ok(records, b, 4, operation_count(records.words)) {
        return false;
    }
    control_ids_ok(records, b)
}

// The part of rule 8 that speaks of blocks.
pub fn each_block_ids_ok(records: Records) -> bool
    ensures { result ≡ all (block_ids_ok records.entry.words.now) (upto (blocks records.entry.words.now)) }
{
    (0..block_count(records.words)).all(|b| block_ids_ok(records, BlockId(b)))
}

// Does successor i of a block take as many inputs as the block has outputs?
fn edge_ok(ranged: Ranged, b: BlockId, i: usize) -> bool
    requires b_bound { b.0 < blocks ranged.records.words.now }
    requires i_in_bounds { i < length (successors ranged.records.words.now b.0) }
    ensures { result ≡ (length (outputs ranged.entry.records.words.now b.0) == length (inputs ranged.entry.records.words.now (slice_index (successors ranged.entry.records.words.now b.0) i))) }
{
    let from = BlockView {
        records: ranged.records,
        block: b,
    };
    let to = BlockView {
        records: ranged.records,
        block: from.successor(i),
    };
    from.outputs().len() == to.inputs().len()
}

// Does each successor of the block take as many inputs as the block has outputs?
fn edges_ok(ranged: Ranged, b: BlockId) -> bool
    requires b_bound { b.0 < blocks ranged.records.words.now }
    ensures { result ≡ all (λ s. nat_eq (length (outputs ranged.entry.records.words.now b.0)) (length (inputs ranged.entry.records.words.now s))) (successors ranged.entry.records.words.now b.0) }
{
    let from = BlockView {
        records: ranged.records,
        block: b,
    };
    (0..from.successor_count()).all(|i| edge_ok(ranged, b, i))
}

// Rule 10: some block has another number of outputs than a successor of it has inputs.
pub fn rule_10(ranged: Ranged) -> bool
    ensures { result ≡ rule10 ranged.entry.records.words.now }
{
    !(0..block_count(ranged.records.words)).all(|from| edges_ok(ranged, BlockId(from)))
}

// Is no number twice in the run? One pass: each is added to a set, and must be new there.
fn all_distinct(run: &[u32]) -> bool
    requires { (v : ℕ) → v ∈ run.now → v < 512 }
    ensures { result ≡ distinct run.now }
{
    let mut seen = [0u64; 8];
    all_new(&mut seen, run)
}

// Has the block no local twice among its inputs?
fn inputs_once(ranged: Ranged, b: BlockId) -> bool
    requires b_bound { b.0 < blocks ranged.records.words.now }
    ensures { result ≡ distinct (inputs ranged.entry.records.words.now b.0) }
{
    let view = BlockView {
        records: ranged.records,
        block: b,
    };
    all_distinct(view.inputs())
}

// Rule 11: some block has one local twice among its inputs.
pub fn rule_11(ranged: Ranged) -> bool
    ensures { result ≡ rule11 ranged.entry.records.words.now }
{
    !(0..block_count(ranged.records.words)).all(|b| inputs_once(ranged, BlockId(b)))
}
