// An image that breaks none of rules 4 to 11, and its records: what the readers above this layer go by.
ghost use Rattle.std.specs.Prelude.{◌≡◌, ◌<◌, length, slice_index};
ghost use Rattle.sir_data.specs.Records.{functions, blocks, operations, locals, init_function, main_plus_one, entry_block, block_word, op_word, inputs, outputs, optional, successors, condition, returned, ins, outs};
ghost use Rattle.sir_data.specs.inner.Cases.{tested_locals, function_ids};
ghost use Rattle.sir_data.specs.inner.WellFormed.{WellFormed};

use crate::records::{self, Ranged, Records};
use plank_core::index::{BlockId, FunctionId, LocalId, OpIdx};
use plank_core::span::Span;

#[derive(Clone, Copy)]
pub struct Image<'a> {
    pub words: &'a [u32],
    pub ghost well_formed: { WellFormed words.now },
}

impl<'a> Image<'a> {
    // Its records; what follows is read from them, and asks no more than that an id is below its count.
    fn records(self) -> Records<'a>
        ensures { result.words ≡ self.entry.words }
    {
        Records { words: self.words }
    }

    fn ranged(self) -> Ranged<'a>
        ensures { result.records.words ≡ self.entry.words }
    {
        Ranged {
            records: self.records(),
        }
    }

    // How many blocks there are.
    pub fn block_count(self) -> u32
        ensures { result ≡ blocks self.entry.words.now }
    {
        records::block_count(self.words)
    }

    // How many operations there are.
    pub fn operation_count(self) -> u32
        ensures { result ≡ operations self.entry.words.now }
    {
        records::operation_count(self.words)
    }

    // How many locals there are.
    pub fn local_count(self) -> u32
        ensures { result ≡ locals self.entry.words.now }
    {
        records::local_count(self.words)
    }

    // The function that runs first.
    pub fn init_function(self) -> FunctionId
        ensures { result.0 ≡ init_function self.entry.words.now }
    {
        records::init_function(self.words)
    }

    // The main function, if there is one.
    pub fn main_function(self) -> Option<FunctionId>
        ensures { function_ids result ≡ optional (main_plus_one self.entry.words.now) }
    {
        records::main_function(self.words)
    }

    // The entry block of a function.
    pub fn entry_block(self, f: FunctionId) -> BlockId
        requires { f.0 < functions self.words.now }
        ensures { result.0 ≡ entry_block self.entry.words.now f.0 }
    {
        self.records().entry_block(f)
    }

    // The locals that a block takes over each edge into it.
    pub fn inputs(self, b: BlockId) -> &'a [u32]
        requires { b.0 < blocks self.words.now }
        ensures { result.now ≡ inputs self.entry.words.now b.0 }
    {
        self.ranged().inputs(b)
    }

    // The locals that a block passes over each edge out of it, or returns.
    pub fn outputs(self, b: BlockId) -> &'a [u32]
        requires { b.0 < blocks self.words.now }
        ensures { result.now ≡ outputs self.entry.words.now b.0 }
    {
        self.ranged().outputs(b)
    }

    // The outputs of a block that returns from its function; none of any other block.
    pub fn returned_outputs(self, b: BlockId) -> &'a [u32]
        requires { b.0 < blocks self.words.now }
        ensures { result.now ≡ returned self.entry.words.now b.0 }
    {
        self.ranged().returned_outputs(b)
    }

    // The operations of a block, by index.
    pub fn operations(self, b: BlockId) -> Span
        requires { b.0 < blocks self.words.now }
        ensures { (result.start ≡ block_word self.entry.words.now b.0 4) × (result.end ≡ block_word self.entry.words.now b.0 5) }
    {
        self.records().operations(b)
    }

    // The local that a block's control tests.
    pub fn condition(self, b: BlockId) -> Option<LocalId>
        requires { b.0 < blocks self.words.now }
        ensures { tested_locals result ≡ condition self.entry.words.now b.0 }
    {
        self.records().condition(b)
    }

    // How many successors a block has, a target named twice counted twice.
    pub fn successor_count(self, b: BlockId) -> usize
        requires { b.0 < blocks self.words.now }
        ensures { result ≡ length (successors self.entry.words.now b.0) }
    {
        self.records().successor_count(b)
    }

    // Successor i of a block: the zero target before the non-zero one; switch targets in turn, then the fallback.
    pub fn successor(self, b: BlockId, i: usize) -> BlockId
        requires { (b.0 < blocks self.words.now) × (i < length (successors self.words.now b.0)) }
        ensures { result.0 ≡ slice_index (successors self.entry.words.now b.0) i }
    {
        self.ranged().successor(b, i)
    }

    // Word k of an operation: 0 its code, 1 to 4 its runs of inputs and outputs, 5 and 6 its extras.
    pub fn op_word(self, o: OpIdx, k: usize) -> u32
        requires { (o.0 < operations self.words.now) × (k < 7) }
        ensures { result ≡ op_word self.entry.words.now o.0 k }
    {
        self.records().op_word(o, k)
    }

    // The locals that an operation reads.
    pub fn op_inputs(self, o: OpIdx) -> &'a [u32]
        requires { o.0 < operations self.words.now }
        ensures { result.now ≡ ins self.entry.words.now o.0 }
    {
        self.ranged().op_inputs(o)
    }

    // The locals that an operation writes.
    pub fn op_outputs(self, o: OpIdx) -> &'a [u32]
        requires { o.0 < operations self.words.now }
        ensures { result.now ≡ outs self.entry.words.now o.0 }
    {
        self.ranged().op_outputs(o)
    }
}
