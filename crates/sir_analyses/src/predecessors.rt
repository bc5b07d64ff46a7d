// Predecessors of a block: visited blocks by id, each successor in turn, repeats kept.
ghost use Rattle.std.specs.Prelude.{◌+◌, ◌<◌, ◌^◌, length};
ghost use Rattle.sir_analyses.specs.Order.{edges_from, predecessors};
ghost use Rattle.sir_analyses.specs.inner.Writing.{Puts};

use crate::answers::put_word;
use crate::staged::Visited;
use plank_core::index::BlockId;
use sir_data::image_block::ImageBlock;

// Block p, once for each of its edges to b.
fn put_edges(p: ImageBlock, b: BlockId, n: usize, out: &mut [u8]) -> usize
    requires b_bound { n + length (edges_from p.image.words.now p.id.0 b.0) < 2 ^ 60 }
    ensures { Puts n (edges_from p.entry.image.words.now p.entry.id.0 b.0) out.old out.new result }
{
    let count = p.successor_count();
    let mut m = n;
    for i in 0..count {
        if p.successor(i) == b {
            m = put_word(out, m, p.id.0);
        }
    }
    m
}

// The predecessors of b; how many they are.
pub fn put_predecessors(visited: Visited, b: BlockId, out: &mut [u8]) -> usize
    ensures { Puts 0 (predecessors visited.entry.image.words.now b.0) out.old out.new result }
{
    let count = visited.image.block_count();
    let mut m: usize = 0;
    for p in 0..count {
        if visited.is_visited(BlockId(p)) {
            let block = ImageBlock {
                image: visited.image,
                id: BlockId(p),
            };
            m = put_edges(block, b, m, out);
        }
    }
    m
}
