// Rule 16, over the whole image: what gives a local is an operation output or a block input, and one pass with a set of the locals
// given so far ends at the first that is there already. So no more than 513 operands are read, however many runs overlap.
ghost use Rattle.std.specs.Prelude.{◌≡◌, ℕ, ◌<◌, true, length};
ghost use Rattle.plank_core.specs.Lists.{upto, bind, ◌∈◌};
ghost use Rattle.plank_core.specs.inner.DenseIndexSet.{added_all, fresh};
ghost use Rattle.sir_data.specs.Records.{operations, blocks, outs, inputs};
ghost use Rattle.sir_data.specs.Givers.{rule16};

use crate::records::{Ranged, block_count, operation_count};
use plank_core::index::{BlockId, OpIdx};
use plank_core::rows::row_add;

// Is each number of the run new in the set? Each is added to it; the first that is there ends the pass.
pub fn all_new(set: &mut [u64; 8], run: &[u32]) -> bool
    requires by_index { (v : ℕ) → v ∈ run.now → v < 512 }
    ensures value { result ≡ fresh set.old run.now }
    ensures set_after { result ≡ true → set.new ≡ added_all set.old run.now }
{
    for local in run {
        if !row_add(set, 0, *local) {
            return false;
        }
    }
    true
}

// Is each output of each operation new in the set of the locals given? An operation gives once, in however many ranges it lies.
fn outputs_new(ranged: Ranged, given: &mut [u64; 8]) -> bool
    ensures value { result ≡ fresh given.old (bind (upto (operations ranged.entry.records.words.now)) (outs ranged.entry.records.words.now)) }
    ensures given_after { result ≡ true → given.new ≡ added_all given.old (bind (upto (operations ranged.entry.records.words.now)) (outs ranged.entry.records.words.now)) }
{
    for o in 0..operation_count(ranged.records.words) {
        if !all_new(given, ranged.op_outputs(OpIdx(o))) {
            return false;
        }
    }
    true
}

// Is each input of each block, visited or not, new in the set of the locals given?
fn inputs_new(ranged: Ranged, given: &mut [u64; 8]) -> bool
    ensures { result ≡ fresh given.old (bind (upto (blocks ranged.entry.records.words.now)) (inputs ranged.entry.records.words.now)) }
{
    for b in 0..block_count(ranged.records.words) {
        if !all_new(given, ranged.inputs(BlockId(b))) {
            return false;
        }
    }
    true
}

// Rule 16: some local is given twice.
pub fn rule_16(ranged: Ranged) -> bool
    ensures { result ≡ rule16 ranged.entry.records.words.now }
{
    let mut given = [0u64; 8];
    if !outputs_new(ranged, &mut given) {
        return true;
    }
    !inputs_new(ranged, &mut given)
}
