// The record rules on the payload words, and the first in the sequence that applies.
ghost use Rattle.std.specs.Prelude.{◌≡◌, ◌≤◌, not, ◌&&◌, ltb, ◌++◌, length, drop, ◌==◌, nat_lt};
ghost use Rattle.plank_core.specs.Lists.{all, any, upto};
ghost use Rattle.sir_data.specs.Records.{functions, blocks, operand_words, case_targets, locals, init_function, main_plus_one, word_count, entry_block, operand, target};
ghost use Rattle.sir_data.specs.Rules.{rule4, rule5, rule6, rule7, rule8, optional_below, first, head_rules, field_rules, operand_rules, record_rules};
ghost use Rattle.sir_data.specs.Refusals.{refused};

use crate::block_rules::{each_block_fields_ok, each_block_ids_ok, rule_10, rule_11};
use crate::bounds::all_below;
use crate::operation_rules::{each_op_fields_ok, each_op_ids_ok, rule_9};
use crate::pages::pages_for;
use crate::records::{
    Ranged, Records, block_count, function_count, local_count, main_function, operand_count,
    operation_count, target_count,
};
use crate::refusals::Refusal;

// Rule 4: the edition is not 1.
fn rule_4(words: &[u32]) -> bool
    requires { 9 ≤ length words.now }
    ensures { result ≡ rule4 words.now }
{
    words[0] != 1
}

// Rule 5: a count is above its limit, or there is no function, or no block.
fn rule_5(words: &[u32]) -> bool
    requires { 9 ≤ length words.now }
    ensures { result ≡ rule5 words.now }
{
    let functions = words[1];
    let blocks = words[2];
    let operations = words[3];
    let operands = words[4];
    let targets = words[5];
    let locals = words[6];
    if functions > 64 {
        return true;
    }
    if blocks > 256 {
        return true;
    }
    if operations > 1024 {
        return true;
    }
    if operands > 4096 {
        return true;
    }
    if targets > 512 {
        return true;
    }
    if locals > 512 {
        return true;
    }
    if functions == 0 {
        return true;
    }
    blocks == 0
}

// How many words the counts call for.
pub fn word_count(words: &[u32]) -> usize
    requires { 9 ≤ length words.now }
    ensures { result ≡ word_count words.now }
{
    9 + (function_count(words) as usize)
        + 11 * (block_count(words) as usize)
        + 7 * (operation_count(words) as usize)
        + (operand_count(words) as usize)
        + (target_count(words) as usize)
}

// Is some word from `start` on not 0?
fn padding_bad(words: &[u32], start: usize) -> bool
    requires { start ≤ length words.now }
    ensures { result ≡ any (λ x. not (x == 0)) (drop start words.now) }
{
    words[start..].iter().any(|word| *word != 0)
}

// Rule 6: the pages are not the fewest that hold the words, or the padding is not 0.
fn rule_6(words: &[u32]) -> bool
    requires { 9 ≤ length words.now }
    ensures { result ≡ rule6 words.now }
{
    let n = word_count(words);
    if words.len() != 126 * pages_for(n) {
        return true;
    }
    padding_bad(words, n)
}

// Rule 7: a code or a control kind is unknown, or an unused field is not 0.
fn rule_7(records: Records) -> bool
    ensures { result ≡ rule7 records.entry.words.now }
{
    if !each_block_fields_ok(records) {
        return true;
    }
    !each_op_fields_ok(records)
}

// Are init and main functions, and is each function's entry a block?
fn functions_ok(records: Records) -> bool
    ensures { result ≡ (nat_lt (init_function records.entry.words.now) (functions records.entry.words.now) && optional_below (main_plus_one records.entry.words.now) (functions records.entry.words.now) && all (λ f. ltb (entry_block records.entry.words.now f) (blocks records.entry.words.now)) (upto (functions records.entry.words.now))) }
{
    let n = function_count(records.words);
    if records.words[7] >= n {
        return false;
    }
    if !main_function(records.words).is_none_or(|main| main.0 < n) {
        return false;
    }
    all_below(records.words, 9, n, block_count(records.words))
}

// Is each operand a local?
fn operands_ok(records: Records) -> bool
    ensures { result ≡ all (λ i. ltb (operand records.entry.words.now i) (locals records.entry.words.now)) (upto (operand_words records.entry.words.now)) }
{
    all_below(
        records.words,
        records.operands_at(),
        operand_count(records.words),
        local_count(records.words),
    )
}

// Is each case target a block?
fn targets_ok(records: Records) -> bool
    ensures { result ≡ all (λ i. ltb (target records.entry.words.now i) (blocks records.entry.words.now)) (upto (case_targets records.entry.words.now)) }
{
    all_below(
        records.words,
        records.targets_at(),
        target_count(records.words),
        block_count(records.words),
    )
}

// Rule 8: a range is not within its list, an id is not below its count, or a static id is one that the source cannot hold.
fn rule_8(records: Records) -> bool
    ensures { result ≡ rule8 records.entry.words.now }
{
    if !functions_ok(records) {
        return true;
    }
    if !each_block_ids_ok(records) {
        return true;
    }
    if !each_op_ids_ok(records) {
        return true;
    }
    if !operands_ok(records) {
        return true;
    }
    !targets_ok(records)
}

// The first of the head's rules that applies, if one does.
pub fn check_head(words: &[u32]) -> Result<(), Refusal>
    requires { 9 ≤ length words.now }
    ensures { refused result ≡ first (head_rules words.now) }
{
    if rule_4(words) {
        return Err(Refusal::Edition);
    }
    if rule_5(words) {
        return Err(Refusal::Count);
    }
    Ok(())
}

// The first of the rules on kinds, codes, fields, ranges and ids that applies, if one does.
fn check_fields(records: Records) -> Result<(), Refusal>
    ensures { refused result ≡ first (field_rules records.entry.words.now) }
{
    if rule_7(records) {
        return Err(Refusal::Unknown);
    }
    if rule_8(records) {
        return Err(Refusal::Range);
    }
    Ok(())
}

// The first of the rules on operands and edges that applies, if one does, where ranges and ids are in order.
fn check_operands(ranged: Ranged) -> Result<(), Refusal>
    ensures { refused result ≡ first (operand_rules ranged.entry.records.words.now) }
{
    if rule_9(ranged) {
        return Err(Refusal::OperandCount);
    }
    if rule_10(ranged) {
        return Err(Refusal::OutputCount);
    }
    if rule_11(ranged) {
        return Err(Refusal::RepeatedInput);
    }
    Ok(())
}

// The first of the rules after the fit that applies, if one does, where the counts are in order and their words are there.
pub fn check_sized(records: Records) -> Result<(), Refusal>
    ensures { refused result ≡ first (field_rules records.entry.words.now ++ operand_rules records.entry.words.now) }
{
    check_fields(records)?;
    check_operands(Ranged { records })
}

// The first of the record rules that applies, if one does. A rule is looked at only where none before it applies.
pub fn check_records(words: &[u32]) -> Result<(), Refusal>
    requires { 9 ≤ length words.now }
    ensures { refused result ≡ first (record_rules words.now) }
{
    check_head(words)?;
    if rule_6(words) {
        return Err(Refusal::PageCount);
    }
    check_sized(Records { words })
}
