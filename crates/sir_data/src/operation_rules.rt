// What rules 7 to 9 ask of an operation.
ghost use Rattle.std.specs.Prelude.{◌≡◌, ◌+◌, ◌<◌, not, ◌||◌, map, length, ◌==◌, nat_lt};
ghost use Rattle.plank_core.specs.Lists.{all, upto};
ghost use Rattle.sir_data.specs.Records.{operations, operand_words, functions, op_word, code, ins, outs, extra};
ghost use Rattle.sir_data.specs.inner.CodeRows.{row};
ghost use Rattle.sir_data.specs.Codes.{arity_ok, is_call, is_static_alloc};
ghost use Rattle.sir_data.specs.Rules.{range_ok, op_fields_ok, op_ids_ok, rule9};

use crate::bounds::range_ok;
use crate::codes::{OPERATIONS, Operation, is_call, is_static_alloc, operand_counts_right};
use crate::records::{Ranged, Records, function_count, operand_count, operation_count};
use plank_core::index::OpIdx;

// Is the code known, and is each extra that it does not use 0?
fn op_fields_ok(records: Records, o: OpIdx) -> bool
    requires o_bound { o.0 < operations records.words.now }
    ensures { result ≡ op_fields_ok records.entry.words.now o.0 }
{
    let code = records.op_word(o, 0);
    if code > 92 {
        return false;
    }
    if is_static_alloc(code) {
        return true;
    }
    if records.op_word(o, 6) != 0 {
        return false;
    }
    if is_call(code) {
        return true;
    }
    records.op_word(o, 5) == 0
}

// The part of rule 7 that speaks of operations.
pub fn each_op_fields_ok(records: Records) -> bool
    ensures { result ≡ all (op_fields_ok records.entry.words.now) (upto (operations records.entry.words.now)) }
{
    (0..operation_count(records.words)).all(|o| op_fields_ok(records, OpIdx(o)))
}

// Is what a call names a function?
fn callee_ok(records: Records, o: OpIdx) -> bool
    requires o_bound { o.0 < operations records.words.now }
    ensures { result ≡ (not (is_call (code records.entry.words.now o.0)) || nat_lt (extra records.entry.words.now o.0 0) (functions records.entry.words.now)) }
{
    if is_call(records.op_word(o, 0)) {
        return records.op_word(o, 5) < function_count(records.words);
    }
    true
}

// May a static allocation have this id? The source's ids hold every number but the last.
fn static_id_ok(code: u32, id: u32) -> bool
    ensures { result ≡ (not (is_static_alloc code) || not (id == 4294967295)) }
{
    if is_static_alloc(code) {
        return id != 4294967295;
    }
    true
}

// Is the run that words k and k + 1 of the operation give within the operands?
fn op_range_ok(records: Records, o: OpIdx, k: usize) -> bool
    requires o_bound { o.0 < operations records.words.now }
    requires k_bound { k < 6 }
    ensures { result ≡ range_ok (op_word records.entry.words.now o.0 k) (op_word records.entry.words.now o.0 (k + 1)) (operand_words records.entry.words.now) }
{
    range_ok(
        records.op_word(o, k),
        records.op_word(o, k + 1),
        operand_count(records.words),
    )
}

// Are the operation's ranges within the operands, and its ids below their counts?
fn op_ids_ok(records: Records, o: OpIdx) -> bool
    requires o_bound { o.0 < operations records.words.now }
    ensures { result ≡ op_ids_ok records.entry.words.now o.0 }
{
    if !op_range_ok(records, o, 1) {
        return false;
    }
    if !op_range_ok(records, o, 3) {
        return false;
    }
    if !callee_ok(records, o) {
        return false;
    }
    static_id_ok(records.op_word(o, 0), records.op_word(o, 6))
}

// The part of rule 8 that speaks of operations.
pub fn each_op_ids_ok(records: Records) -> bool
    ensures { result ≡ all (op_ids_ok records.entry.words.now) (upto (operations records.entry.words.now)) }
{
    (0..operation_count(records.words)).all(|o| op_ids_ok(records, OpIdx(o)))
}

// Are the operation's operand counts right for its code, by the table of codes?
fn op_counts_ok(ranged: Ranged, o: OpIdx, table: &[Operation]) -> bool
    requires o_bound { o.0 < operations ranged.records.words.now }
    requires table_value { table.now ≡ map row (upto 93) }
    ensures { result ≡ arity_ok (code ranged.entry.records.words.now o.0) (length (ins ranged.entry.records.words.now o.0)) (length (outs ranged.entry.records.words.now o.0)) }
{
    let inputs = ranged.op_inputs(o);
    let outputs = ranged.op_outputs(o);
    let code = ranged.records.op_word(o, 0);
    operand_counts_right(table, code, inputs.len(), outputs.len())
}

// Rule 9: some operation's operand counts are wrong for its code.
pub fn rule_9(ranged: Ranged) -> bool
    ensures { result ≡ rule9 ranged.entry.records.words.now }
{
    let table = OPERATIONS;
    !(0..operation_count(ranged.records.words)).all(|o| op_counts_ok(ranged, OpIdx(o), &table))
}
