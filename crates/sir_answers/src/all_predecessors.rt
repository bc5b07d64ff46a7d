// The predecessors of all blocks in one pass: each visited block by id is put for each of its successors.
ghost use Rattle.std.specs.Prelude.{◌≡◌, ℕ, ◌*◌, length, get_or};
ghost use Rattle.plank_core.specs.Lists.{bind};
ghost use Rattle.sir_data.specs.Pages.{bytes_of};
ghost use Rattle.sir_data.specs.Records.{blocks};
ghost use Rattle.sir_analyses.specs.All.{all};
ghost use Rattle.sir_analyses.specs.Answers.{predecessors_answer};
ghost use Rattle.sir_analyses.specs.Calls.{answered};
ghost use Rattle.sir_analyses.specs.inner.Outcomes.{outcome};
ghost use Rattle.sir_answers.specs.inner.Pieces.{edge_pieces, predecessor_pieces};
ghost use Rattle.sir_answers.specs.inner.Scatter.{forward, Fits, Scatters, Counts};

use crate::scatter::{append, put_lengths};
use crate::segments::segments_answer;
use plank_core::index::BlockId;
use sir_analyses::staged::Visited;
use sir_data::image_block::ImageBlock;
use sir_data::refusals::Refusal;

// Block p, for each of its successors.
fn scan_edges(p: ImageBlock, cursors: &mut [usize], out: &mut [u8])
    requires cursors_len { length cursors.old ≡ blocks p.image.words.now }
    requires fits { Fits forward (edge_pieces p.image.words.now p.id.0) cursors.old }
    ensures { Scatters forward (edge_pieces p.entry.image.words.now p.entry.id.0) cursors.old out.old cursors.new out.new }
{
    let piece = [p.id.0];
    let count = p.successor_count();
    for i in 0..count {
        let s = p.successor(i);
        append(cursors, s.0, &piece, out);
    }
}

// The pass over all visited blocks.
fn scan_predecessors(visited: Visited, cursors: &mut [usize], out: &mut [u8])
    requires cursors_len { (length cursors.old ≡ blocks visited.image.words.now) × Fits forward (predecessor_pieces visited.image.words.now) cursors.old }
    ensures { Scatters forward (predecessor_pieces visited.entry.image.words.now) cursors.old out.old cursors.new out.new }
{
    let count = visited.image.block_count();
    for p in 0..count {
        if visited.is_visited(BlockId(p)) {
            let block = ImageBlock {
                image: visited.image,
                id: BlockId(p),
            };
            scan_edges(block, cursors, out);
        }
    }
}

// How many predecessors each block has, by cursors that stand at 0.
fn count_predecessors(visited: Visited, cursors: &mut [usize])
    requires cursors_len { (length cursors.old ≡ blocks visited.image.words.now) × ((v : ℕ) → get_or cursors.old v 0 ≡ 0) }
    ensures { Counts (blocks visited.entry.image.words.now) (predecessors_answer visited.entry.image.words.now) cursors.new }
{
    scan_predecessors(visited, cursors, &mut []);
}

// The lengths, then the predecessors, in a slice of their size.
fn write_predecessors(visited: Visited, cursors: &mut [usize], out: &mut [u8])
    requires counts { Counts (blocks visited.image.words.now) (predecessors_answer visited.image.words.now) cursors.old }
    requires out_len { length out.old ≡ 4 * length (all blocks predecessors_answer visited.image.words.now) }
    ensures { out.new ≡ bind (all blocks predecessors_answer visited.entry.image.words.now) bytes_of }
{
    put_lengths(cursors, false, out);
    scan_predecessors(visited, cursors, out);
}

// Counts, then writes, with cursors that stand at 0.
fn fill_predecessors(
    visited: Visited,
    cursors: &mut [usize],
    out: &mut [u8],
) -> Result<usize, Refusal>
    requires cursors_len { (length cursors.old ≡ blocks visited.image.words.now) × ((v : ℕ) → get_or cursors.old v 0 ≡ 0) }
    ensures { outcome result out.new ≡ answered (bind (all blocks predecessors_answer visited.entry.image.words.now) bytes_of) out.old }
{
    count_predecessors(visited, cursors);
    segments_answer(
        cursors,
        |counts, part| write_predecessors(visited, counts, part),
        out,
    )
}

// The predecessors of all blocks.
pub fn all_predecessors_answer(visited: Visited, out: &mut [u8]) -> Result<usize, Refusal>
    ensures { outcome result out.new ≡ answered (bind (all blocks predecessors_answer visited.entry.image.words.now) bytes_of) out.old }
{
    let mut cursors = [0usize; 256];
    let n = visited.image.block_count() as usize;
    fill_predecessors(visited, &mut cursors[..n], out)
}
