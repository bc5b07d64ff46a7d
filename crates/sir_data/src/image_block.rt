// A block of an image: which image it is, the block's number, and that there is such a block.
ghost use Rattle.std.specs.Prelude.{◌≡◌, ◌<◌, length, slice_index};
ghost use Rattle.sir_data.specs.Records.{blocks, block_word, inputs, outputs, successors, condition, returned};
ghost use Rattle.sir_data.specs.inner.Cases.{tested_locals};

use crate::well_formed::Image;
use plank_core::index::{BlockId, LocalId};
use plank_core::span::Span;

#[derive(Clone, Copy)]
pub struct ImageBlock<'a> {
    pub image: Image<'a>,
    pub id: BlockId,
    pub ghost known: { id.0 < blocks image.words.now },
}

impl<'a> ImageBlock<'a> {
    // The locals that the block takes over each edge into it.
    pub fn inputs(self) -> &'a [u32]
        ensures { result.now ≡ inputs self.entry.image.words.now self.entry.id.0 }
    {
        self.image.inputs(self.id)
    }

    // The locals that the block passes over each edge out of it, or returns.
    pub fn outputs(self) -> &'a [u32]
        ensures { result.now ≡ outputs self.entry.image.words.now self.entry.id.0 }
    {
        self.image.outputs(self.id)
    }

    // Its outputs where it returns from its function; none of any other block.
    pub fn returned_outputs(self) -> &'a [u32]
        ensures { result.now ≡ returned self.entry.image.words.now self.entry.id.0 }
    {
        self.image.returned_outputs(self.id)
    }

    // The operations of the block, by index.
    pub fn operations(self) -> Span
        ensures { (result.start ≡ block_word self.entry.image.words.now self.entry.id.0 4) × (result.end ≡ block_word self.entry.image.words.now self.entry.id.0 5) }
    {
        self.image.operations(self.id)
    }

    // The local that the block's control tests.
    pub fn condition(self) -> Option<LocalId>
        ensures { tested_locals result ≡ condition self.entry.image.words.now self.entry.id.0 }
    {
        self.image.condition(self.id)
    }

    // How many successors the block has, a target named twice counted twice.
    pub fn successor_count(self) -> usize
        ensures { result ≡ length (successors self.entry.image.words.now self.entry.id.0) }
    {
        self.image.successor_count(self.id)
    }

    // Successor i of the block.
    pub fn successor(self, i: usize) -> BlockId
        requires { i < length (successors self.image.words.now self.id.0) }
        ensures { result.0 ≡ slice_index (successors self.entry.image.words.now self.entry.id.0) i }
    {
        self.image.successor(self.id, i)
    }
}
