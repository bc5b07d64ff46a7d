// The uses of all locals in one pass over the blocks of the order: its operations' inputs, its condition, its outputs. Operations may
// lie in many blocks, so that there can be far more uses than words in an image. They are counted by operations, each once, and only
// a caller's slice that holds them all is filled use by use.
ghost use Rattle.std.specs.Prelude.{◌≡◌, [], ℕ, ◌*◌, length, get_or};
ghost use Rattle.plank_core.specs.Lists.{bind};
ghost use Rattle.sir_data.specs.Pages.{bytes_of};
ghost use Rattle.sir_data.specs.Records.{locals};
ghost use Rattle.sir_analyses.specs.All.{all};
ghost use Rattle.sir_analyses.specs.Answers.{uses_answer};
ghost use Rattle.sir_analyses.specs.Calls.{answered};
ghost use Rattle.sir_analyses.specs.inner.Outcomes.{outcome};
ghost use Rattle.sir_analyses.specs.Order.{blocks_rpo};
ghost use Rattle.sir_answers.specs.inner.Pieces.{input_use_pieces, condition_pieces, output_pieces, end_pieces, block_use_pieces, one_pieces, OperationTimes, input_pieces};
ghost use Rattle.sir_answers.specs.inner.Scatter.{forward, Fits, Scatters, Counts};

use crate::scatter::{advance, advance_each, append, append_each, put_lengths};
use crate::segments::segments_answer;
use plank_core::index::{BlockId, OpIdx};
use sir_analyses::staged::Visited;
use sir_data::image_block::ImageBlock;
use sir_data::refusals::Refusal;
use sir_data::well_formed::Image;

// A block's operations in turn, for each input.
fn scan_operations(b: ImageBlock, cursors: &mut [usize], out: &mut [u8])
    requires cursors_len { length cursors.old ≡ locals b.image.words.now }
    requires fits { Fits forward (input_use_pieces b.image.words.now b.id.0) cursors.old }
    ensures { Scatters forward (input_use_pieces b.entry.image.words.now b.entry.id.0) cursors.old out.old cursors.new out.new }
{
    let span = b.operations();
    for o in span.start..span.end {
        let piece = [b.id.0, 0, o];
        append_each(cursors, b.image.op_inputs(OpIdx(o)), &piece, out);
    }
}

// A block's condition.
fn scan_condition(b: ImageBlock, cursors: &mut [usize], out: &mut [u8])
    requires cursors_len { length cursors.old ≡ locals b.image.words.now }
    requires fits { Fits forward (condition_pieces b.image.words.now b.id.0) cursors.old }
    ensures { Scatters forward (condition_pieces b.entry.image.words.now b.entry.id.0) cursors.old out.old cursors.new out.new }
{
    let Some(v) = b.condition() else {
        return;
    };
    let piece = [b.id.0, 1, 0];
    append(cursors, v.0, &piece, out);
}

// A block's outputs, each with its place.
fn scan_outputs(b: ImageBlock, cursors: &mut [usize], out: &mut [u8])
    requires cursors_len { length cursors.old ≡ locals b.image.words.now }
    requires fits { Fits forward (output_pieces b.image.words.now b.id.0) cursors.old }
    ensures { Scatters forward (output_pieces b.entry.image.words.now b.entry.id.0) cursors.old out.old cursors.new out.new }
{
    let run = b.outputs();
    for (k, v) in run.iter().enumerate() {
        let piece = [b.id.0, 2, k as u32];
        append(cursors, *v, &piece, out);
    }
}

// A block after its operations.
fn scan_ends(b: ImageBlock, cursors: &mut [usize], out: &mut [u8])
    requires cursors_len { length cursors.old ≡ locals b.image.words.now }
    requires fits { Fits forward (end_pieces b.image.words.now b.id.0) cursors.old }
    ensures { Scatters forward (end_pieces b.entry.image.words.now b.entry.id.0) cursors.old out.old cursors.new out.new }
{
    scan_condition(b, cursors, out);
    scan_outputs(b, cursors, out);
}

// A block.
fn scan_block(b: ImageBlock, cursors: &mut [usize], out: &mut [u8])
    requires cursors_len { length cursors.old ≡ locals b.image.words.now }
    requires fits { Fits forward (block_use_pieces b.image.words.now b.id.0) cursors.old }
    ensures { Scatters forward (block_use_pieces b.entry.image.words.now b.entry.id.0) cursors.old out.old cursors.new out.new }
{
    scan_operations(b, cursors, out);
    scan_ends(b, cursors, out);
}

// All blocks after their operations.
fn scan_all_ends(visited: Visited, cursors: &mut [usize], out: &mut [u8])
    requires cursors_len { length cursors.old ≡ locals visited.image.words.now }
    requires fits { Fits forward (bind (blocks_rpo visited.image.words.now) (end_pieces visited.image.words.now)) cursors.old }
    ensures { Scatters forward (bind (blocks_rpo visited.entry.image.words.now) (end_pieces visited.entry.image.words.now)) cursors.old out.old cursors.new out.new }
{
    let order = visited.rpo();
    for b in order {
        let block = ImageBlock {
            image: visited.image,
            id: BlockId(*b),
        };
        scan_ends(block, cursors, out);
    }
}

// The pass over all blocks.
fn scan_uses(visited: Visited, cursors: &mut [usize], out: &mut [u8])
    requires cursors_len { length cursors.old ≡ locals visited.image.words.now }
    requires fits { Fits forward (bind (blocks_rpo visited.image.words.now) (block_use_pieces visited.image.words.now)) cursors.old }
    ensures { Scatters forward (bind (blocks_rpo visited.entry.image.words.now) (block_use_pieces visited.entry.image.words.now)) cursors.old out.old cursors.new out.new }
{
    let order = visited.rpo();
    for b in order {
        let block = ImageBlock {
            image: visited.image,
            id: BlockId(*b),
        };
        scan_block(block, cursors, out);
    }
}

// One more for each operation of a block.
fn count_operations(b: ImageBlock, times: &mut [usize])
    requires times_len { length times.old ≡ 1024 }
    requires fits { Fits forward (one_pieces b.image.words.now b.id.0) times.old }
    ensures { Scatters forward (one_pieces b.entry.image.words.now b.entry.id.0) times.old [] times.new [] }
{
    let span = b.operations();
    for o in span.start..span.end {
        advance(times, o, 1);
    }
}

// How often each operation lies in a block of the order.
fn operation_times(visited: Visited, times: &mut [usize])
    requires times_len { (length times.old ≡ 1024) × ((o : ℕ) → get_or times.old o 0 ≡ 0) }
    ensures { OperationTimes visited.entry.image.words.now times.new }
{
    let order = visited.rpo();
    for b in order {
        let block = ImageBlock {
            image: visited.image,
            id: BlockId(*b),
        };
        count_operations(block, times);
    }
}

// The words of all uses by operations, counted.
fn count_inputs(image: Image, times: &[usize], cursors: &mut [usize])
    requires operation_times { OperationTimes image.words.now times.now × (length cursors.old ≡ locals image.words.now) }
    requires fits { Fits forward (input_pieces image.words.now times.now) cursors.old }
    ensures { Scatters forward (input_pieces image.entry.words.now times.now) cursors.old [] cursors.new [] }
{
    let last = image.operation_count();
    for o in 0..last {
        advance_each(cursors, image.op_inputs(OpIdx(o)), 3 * times[o as usize]);
    }
}

// How many words each local has, by cursors that stand at 0.
fn count_uses(visited: Visited, cursors: &mut [usize])
    requires cursors_len { (length cursors.old ≡ locals visited.image.words.now) × ((v : ℕ) → get_or cursors.old v 0 ≡ 0) }
    ensures { Counts (locals visited.entry.image.words.now) (uses_answer visited.entry.image.words.now) cursors.new }
{
    let mut times = [0usize; 1024];
    operation_times(visited, &mut times);
    count_inputs(visited.image, &times, cursors);
    scan_all_ends(visited, cursors, &mut []);
}

// The lengths, then the uses, in a slice of their size.
fn write_uses(visited: Visited, cursors: &mut [usize], out: &mut [u8])
    requires counts { Counts (locals visited.image.words.now) (uses_answer visited.image.words.now) cursors.old }
    requires out_len { length out.old ≡ 4 * length (all locals uses_answer visited.image.words.now) }
    ensures { out.new ≡ bind (all locals uses_answer visited.entry.image.words.now) bytes_of }
{
    put_lengths(cursors, false, out);
    scan_uses(visited, cursors, out);
}

// Counts, then writes, with cursors that stand at 0.
fn fill_uses(visited: Visited, cursors: &mut [usize], out: &mut [u8]) -> Result<usize, Refusal>
    requires cursors_len { (length cursors.old ≡ locals visited.image.words.now) × ((v : ℕ) → get_or cursors.old v 0 ≡ 0) }
    ensures { outcome result out.new ≡ answered (bind (all locals uses_answer visited.entry.image.words.now) bytes_of) out.old }
{
    count_uses(visited, cursors);
    segments_answer(
        cursors,
        |counts, part| write_uses(visited, counts, part),
        out,
    )
}

// The uses of all locals.
pub fn all_uses_answer(visited: Visited, out: &mut [u8]) -> Result<usize, Refusal>
    ensures { outcome result out.new ≡ answered (bind (all locals uses_answer visited.entry.image.words.now) bytes_of) out.old }
{
    let mut cursors = [0usize; 512];
    let n = visited.image.local_count() as usize;
    fill_uses(visited, &mut cursors[..n], out)
}
