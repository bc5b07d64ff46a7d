// A block read through a view, which keeps the records and the block's number, and that there is such a block. What has to be known of the
// records is asked read by read, so that the rules that are asked before there is an `Image` read blocks through it, too.
ghost use Rattle.std.specs.Prelude.{◌≡◌, ◌<◌, length, slice_index};
ghost use Rattle.sir_data.specs.Records.{blocks, block_word, inputs, outputs, successors, condition};
ghost use Rattle.sir_data.specs.inner.Cases.{tested_locals};
ghost use Rattle.sir_data.specs.inner.WellFormed.{InRange};

use crate::records::{Ranged, Records};
use plank_core::index::{BlockId, LocalId};
use plank_core::span::Span;

#[derive(Clone, Copy)]
pub struct BlockView<'a> {
    pub records: Records<'a>,
    pub block: BlockId,
    pub ghost known: { block.0 < blocks records.words.now },
}

impl<'a> BlockView<'a> {
    // The locals that the block takes over each edge into it.
    pub fn inputs(self) -> &'a [u32]
        requires { InRange self.records.words.now }
        ensures { result.now ≡ inputs self.entry.records.words.now self.entry.block.0 }
    {
        let ranged = Ranged {
            records: self.records,
        };
        ranged.inputs(self.block)
    }

    // The locals that the block passes over each edge out of it, or returns.
    pub fn outputs(self) -> &'a [u32]
        requires { InRange self.records.words.now }
        ensures { result.now ≡ outputs self.entry.records.words.now self.entry.block.0 }
    {
        let ranged = Ranged {
            records: self.records,
        };
        ranged.outputs(self.block)
    }

    // The operations of the block, by index.
    pub fn operations(self) -> Span
        ensures { (result.start ≡ block_word self.entry.records.words.now self.entry.block.0 4) × (result.end ≡ block_word self.entry.records.words.now self.entry.block.0 5) }
    {
        self.records.operations(self.block)
    }

    // The local that the block's control tests.
    pub fn condition(self) -> Option<LocalId>
        ensures { tested_locals result ≡ condition self.entry.records.words.now self.entry.block.0 }
    {
        self.records.condition(self.block)
    }

    // How many successors the block has, a target named twice counted twice.
    pub fn successor_count(self) -> usize
        ensures { result ≡ length (successors self.entry.records.words.now self.entry.block.0) }
    {
        self.records.successor_count(self.block)
    }

    // Successor i of the block.
    pub fn successor(self, i: usize) -> BlockId
        requires in_range { InRange self.records.words.now }
        requires i_in_bounds { i < length (successors self.records.words.now self.block.0) }
        ensures { result.0 ≡ slice_index (successors self.entry.records.words.now self.entry.block.0) i }
    {
        let ranged = Ranged {
            records: self.records,
        };
        ranged.successor(self.block, i)
    }
}
