// The records of an image, read from its payload words.
ghost use Rattle.std.specs.Prelude.{◌≡◌, ◌<◌, ◌≤◌, length, slice_index};
ghost use Rattle.sir_data.specs.Records.{functions, blocks, operations, operand_words, case_targets, locals, init_function, main_plus_one, blocks_at, operations_at, operands_at, targets_at, entry_block, block_word, op_word, target, run, inputs, outputs, optional, control, field, successors, condition, returned, ins, outs};
ghost use Rattle.sir_data.specs.inner.Cases.{tested_locals, function_ids, block_ids, Decodes};
ghost use Rattle.sir_data.specs.inner.WellFormed.{Sized, InRange};

use crate::control::{Control, UnknownControl};
use plank_core::index::{BlockId, FunctionId, LocalId, OpIdx};
use plank_core::span::Span;

// How many functions there are. This count and the next ones stand at the head of the words.
pub fn function_count(words: &[u32]) -> u32
    requires { 9 ≤ length words.now }
    ensures { result ≡ functions words.now }
{
    words[1]
}

// How many blocks there are.
pub fn block_count(words: &[u32]) -> u32
    requires { 9 ≤ length words.now }
    ensures { result ≡ blocks words.now }
{
    words[2]
}

// How many operations there are.
pub fn operation_count(words: &[u32]) -> u32
    requires { 9 ≤ length words.now }
    ensures { result ≡ operations words.now }
{
    words[3]
}

// How many operand words there are.
pub fn operand_count(words: &[u32]) -> u32
    requires { 9 ≤ length words.now }
    ensures { result ≡ operand_words words.now }
{
    words[4]
}

// How many case targets there are.
pub fn target_count(words: &[u32]) -> u32
    requires { 9 ≤ length words.now }
    ensures { result ≡ case_targets words.now }
{
    words[5]
}

// How many locals there are: each is below this number.
pub fn local_count(words: &[u32]) -> u32
    requires { 9 ≤ length words.now }
    ensures { result ≡ locals words.now }
{
    words[6]
}

// The function that runs first.
pub fn init_function(words: &[u32]) -> FunctionId
    requires { 9 ≤ length words.now }
    ensures { result.0 ≡ init_function words.now }
{
    FunctionId(words[7])
}

// The main function, if there is one: its word is one more, or 0.
pub fn main_function(words: &[u32]) -> Option<FunctionId>
    requires { 9 ≤ length words.now }
    ensures { function_ids result ≡ optional (main_plus_one words.now) }
{
    words[8].checked_sub(1).map(FunctionId)
}

// Records whose counts are within their limits, with all the words that these call for.
#[derive(Clone, Copy)]
pub struct Records<'a> {
    pub words: &'a [u32],
    pub ghost sized: { Sized words.now },
}

impl<'a> Records<'a> {
    // Where the blocks start among the words: past the head and the entry blocks.
    fn blocks_at(self) -> usize
        ensures { result ≡ blocks_at self.entry.words.now }
    {
        9 + (function_count(self.words) as usize)
    }

    // Where the operations start: past the blocks, of 11 words each.
    fn operations_at(self) -> usize
        ensures { result ≡ operations_at self.entry.words.now }
    {
        self.blocks_at() + 11 * (block_count(self.words) as usize)
    }

    // Where the operands start: past the operations, of 7 words each.
    pub fn operands_at(self) -> usize
        ensures { result ≡ operands_at self.entry.words.now }
    {
        self.operations_at() + 7 * (operation_count(self.words) as usize)
    }

    // Where the case targets start: past the operands.
    pub fn targets_at(self) -> usize
        ensures { result ≡ targets_at self.entry.words.now }
    {
        self.operands_at() + (operand_count(self.words) as usize)
    }

    // The entry block of a function.
    pub fn entry_block(self, f: FunctionId) -> BlockId
        requires f_bound { f.0 < functions self.words.now }
        ensures { result.0 ≡ entry_block self.entry.words.now f.0 }
    {
        BlockId(self.words[9 + (f.0 as usize)])
    }

    // Word k of a block: 0 to 5 its runs of inputs, outputs and operations, 6 its control kind, 7 to 10 the fields of its control.
    pub fn block_word(self, b: BlockId, k: usize) -> u32
        requires b_bound { b.0 < blocks self.words.now }
        requires k_bound { k < 11 }
        ensures { result ≡ block_word self.entry.words.now b.0 k }
    {
        self.words[self.blocks_at() + 11 * (b.0 as usize) + k]
    }

    // Word k of an operation: 0 its code, 1 to 4 its runs of inputs and outputs, 5 and 6 its extras.
    pub fn op_word(self, o: OpIdx, k: usize) -> u32
        requires o_bound { o.0 < operations self.words.now }
        requires k_bound { k < 7 }
        ensures { result ≡ op_word self.entry.words.now o.0 k }
    {
        self.words[self.operations_at() + 7 * (o.0 as usize) + k]
    }

    // Case target i.
    pub fn target(self, i: usize) -> BlockId
        requires i_bound { i < case_targets self.words.now }
        ensures { result.0 ≡ target self.entry.words.now i }
    {
        BlockId(self.words[self.targets_at() + i])
    }

    // The operands from start up to end, as that part of the words.
    pub fn operand_run(self, start: u32, end: u32) -> &'a [u32]
        requires start_le_end { start ≤ end }
        requires end_bound { end ≤ operand_words self.words.now }
        ensures { result.now ≡ run self.entry.words.now start end }
    {
        let first = self.operands_at();
        let a = first + (start as usize);
        let e = first + (end as usize);
        &self.words[a..e]
    }

    // The operations of a block, by index.
    pub fn operations(self, b: BlockId) -> Span
        requires b_bound { b.0 < blocks self.words.now }
        ensures { (result.start ≡ block_word self.entry.words.now b.0 4) × (result.end ≡ block_word self.entry.words.now b.0 5) }
    {
        Span::new(self.block_word(b, 4), self.block_word(b, 5))
    }

    // How control leaves a block, where the kind is known.
    pub fn control(self, b: BlockId) -> Result<Control, UnknownControl>
        requires b_bound { b.0 < blocks self.words.now }
        ensures { Decodes (control self.entry.words.now b.0) result }
    {
        Control::try_from(self.block_word(b, 6))
    }

    // Where a switch goes if no case applies, if it goes on then: its word is one more than the block, or 0.
    pub fn fallback(self, b: BlockId) -> Option<BlockId>
        requires b_bound { b.0 < blocks self.words.now }
        ensures { block_ids result ≡ optional (field self.entry.words.now b.0 3) }
    {
        self.block_word(b, 10).checked_sub(1).map(BlockId)
    }

    // How many successors a block has, a target named twice counted twice.
    pub fn successor_count(self, b: BlockId) -> usize
        requires b_bound { b.0 < blocks self.words.now }
        ensures { result ≡ length (successors self.entry.words.now b.0) }
    {
        match self.control(b) {
            Ok(Control::ContinuesTo) => 1,
            Ok(Control::Branches) => 2,
            Ok(Control::Switch) => {
                let targets = self.block_word(b, 9) as usize;
                match self.fallback(b) {
                    None => targets,
                    Some(_) => targets + 1,
                }
            }
            _ => 0,
        }
    }

    // The local that a branch or a switch tests.
    pub fn condition(self, b: BlockId) -> Option<LocalId>
        requires b_bound { b.0 < blocks self.words.now }
        ensures { tested_locals result ≡ condition self.entry.words.now b.0 }
    {
        match self.control(b) {
            Ok(Control::Branches | Control::Switch) => Some(LocalId(self.block_word(b, 7))),
            _ => None,
        }
    }
}

// Records whose ranges are within their lists, and whose ids are below their counts.
#[derive(Clone, Copy)]
pub struct Ranged<'a> {
    pub records: Records<'a>,
    pub ghost in_range: { InRange records.words.now },
}

impl<'a> Ranged<'a> {
    // The locals that a block takes over each edge into it.
    pub fn inputs(self, b: BlockId) -> &'a [u32]
        requires b_bound { b.0 < blocks self.records.words.now }
        ensures { result.now ≡ inputs self.entry.records.words.now b.0 }
    {
        self.records.operand_run(self.records.block_word(b, 0), self.records.block_word(b, 1))
    }

    // The locals that a block passes over each edge out of it, or returns.
    pub fn outputs(self, b: BlockId) -> &'a [u32]
        requires b_bound { b.0 < blocks self.records.words.now }
        ensures { result.now ≡ outputs self.entry.records.words.now b.0 }
    {
        self.records.operand_run(self.records.block_word(b, 2), self.records.block_word(b, 3))
    }

    // The locals that an operation reads.
    pub fn op_inputs(self, o: OpIdx) -> &'a [u32]
        requires o_bound { o.0 < operations self.records.words.now }
        ensures { result.now ≡ ins self.entry.records.words.now o.0 }
    {
        self.records
            .operand_run(self.records.op_word(o, 1), self.records.op_word(o, 2))
    }

    // The locals that an operation writes.
    pub fn op_outputs(self, o: OpIdx) -> &'a [u32]
        requires o_bound { o.0 < operations self.records.words.now }
        ensures { result.now ≡ outs self.entry.records.words.now o.0 }
    {
        self.records
            .operand_run(self.records.op_word(o, 3), self.records.op_word(o, 4))
    }

    // Successor i of a block: the zero target before the non-zero one; switch targets in turn, then the fallback.
    pub fn successor(self, b: BlockId, i: usize) -> BlockId
        requires b_bound { b.0 < blocks self.records.words.now }
        requires i_in_bounds { i < length (successors self.records.words.now b.0) }
        ensures { result.0 ≡ slice_index (successors self.entry.records.words.now b.0) i }
    {
        match self.records.control(b) {
            Ok(Control::ContinuesTo) => BlockId(self.records.block_word(b, 7)),
            Ok(Control::Branches) => {
                if i == 0 {
                    BlockId(self.records.block_word(b, 9))
                } else {
                    BlockId(self.records.block_word(b, 8))
                }
            }
            Ok(Control::Switch) => {
                if i < (self.records.block_word(b, 9) as usize) {
                    self.records
                        .target((self.records.block_word(b, 8) as usize) + i)
                } else {
                    self.records.fallback(b).unwrap()
                }
            }
            Ok(Control::LastOpTerminates | Control::InternalReturn) | Err(_) => unreachable!(),
        }
    }

    // The outputs of a block that returns from its function; none of any other block.
    pub fn returned_outputs(self, b: BlockId) -> &'a [u32]
        requires b_bound { b.0 < blocks self.records.words.now }
        ensures { result.now ≡ returned self.entry.records.words.now b.0 }
    {
        match self.records.control(b) {
            Ok(Control::InternalReturn) => self.outputs(b),
            _ => &[],
        }
    }
}
