// Uses of a local, in the order in which `DefUse` of the source fills them: per block of the order its operations, its
// condition, its outputs. How often each operation reads the local is counted once, since operations may lie in many blocks.
ghost use Rattle.std.specs.Prelude.{◌≡◌, ◌+◌, ◌*◌, ◌<◌, ◌≤◌, ◌^◌, length};
ghost use Rattle.plank_core.specs.Lists.{mem};
ghost use Rattle.sir_data.specs.Records.{condition};
ghost use Rattle.sir_analyses.specs.Liveness.{positions};
ghost use Rattle.sir_analyses.specs.inner.Uses.{InputCounts, repeated_uses, operation_uses, condition_uses, output_uses, block_uses, uses_of};
ghost use Rattle.sir_analyses.specs.inner.Writing.{Puts};

use crate::answers::put_triple;
use crate::staged::Visited;
use plank_core::index::{BlockId, LocalId, OpIdx};
use sir_data::image_block::ImageBlock;
use sir_data::well_formed::Image;

// How a block uses a local, as the numbers of the answer say it.
#[derive(Clone, Copy)]
enum UseKind {
    Operation = 0,
    Condition = 1,
    Output = 2,
}

// How often a local is among some operands.
fn count_local(run: &[u32], local: LocalId) -> u32
    requires { length run.now ≤ 4096 }
    ensures { result ≡ length (positions local.0 run.now 0) }
{
    run.iter().filter(|v| **v == local.0).count() as u32
}

// How often each operation reads a local.
pub fn input_counts(image: Image, local: LocalId, counts: &mut [u32])
    requires counts_len { length counts.old ≡ 1024 }
    ensures { InputCounts image.entry.words.now local.0 counts.new }
{
    let last = image.operation_count();
    for o in 0..last {
        counts[o as usize] = count_local(image.op_inputs(OpIdx(o)), local);
    }
}

// One use, repeated; where the slice has no room they are only counted.
fn put_repeated(out: &mut [u8], n: usize, b: BlockId, o: OpIdx, times: u32) -> usize
    requires { n + 3 * times < 2 ^ 59 }
    ensures { Puts n (repeated_uses b.0 o.0 times) out.old out.new result }
{
    let mut m = n;
    for _i in 0..times {
        if out.len() < 4 * m + 4 {
            return n + 3 * (times as usize);
        }
        m = put_triple(out, m, b.0, UseKind::Operation as u32, o.0);
    }
    m
}

// The uses by a block's operations.
fn put_operation_uses(b: ImageBlock, counts: &[u32], n: usize, out: &mut [u8]) -> usize
    requires counts_len { length counts.now ≡ 1024 }
    requires b_bound_2 { n + length (operation_uses b.image.words.now counts.now b.id.0) < 2 ^ 59 }
    ensures { Puts n (operation_uses b.entry.image.words.now counts.now b.entry.id.0) out.old out.new result }
{
    let span = b.operations();
    let mut m = n;
    for o in span.start..span.end {
        m = put_repeated(out, m, b.id, OpIdx(o), counts[o as usize]);
    }
    m
}

// Whether a local is the condition of a block's branch or switch.
fn is_condition(b: ImageBlock, local: LocalId) -> bool
    ensures { result ≡ mem local.0 (condition b.entry.image.words.now b.entry.id.0) }
{
    b.condition() == Some(local)
}

// The use as a block's condition.
fn put_condition_use(b: ImageBlock, local: LocalId, n: usize, out: &mut [u8]) -> usize
    requires n_bound { n + 3 < 2 ^ 59 }
    ensures { Puts n (condition_uses b.entry.image.words.now local.0 b.entry.id.0) out.old out.new result }
{
    if is_condition(b, local) {
        return put_triple(out, n, b.id.0, UseKind::Condition as u32, 0);
    }
    n
}

// The uses among a block's outputs.
fn put_output_uses(b: ImageBlock, local: LocalId, n: usize, out: &mut [u8]) -> usize
    requires b_bound_2 { n + length (output_uses b.image.words.now local.0 b.id.0) < 2 ^ 59 }
    ensures { Puts n (output_uses b.entry.image.words.now local.0 b.entry.id.0) out.old out.new result }
{
    let run = b.outputs();
    let mut m = n;
    for (k, v) in run.iter().enumerate() {
        if *v == local.0 {
            m = put_triple(out, m, b.id.0, UseKind::Output as u32, k as u32);
        }
    }
    m
}

// All uses in a block.
fn put_block_uses(b: ImageBlock, counts: &[u32], local: LocalId, n: usize, out: &mut [u8]) -> usize
    requires counts_len { length counts.now ≡ 1024 }
    requires b_bound_2 { n + 3 + length (block_uses b.image.words.now counts.now local.0 b.id.0) < 2 ^ 59 }
    ensures { Puts n (block_uses b.entry.image.words.now counts.now local.0 b.entry.id.0) out.old out.new result }
{
    let m = put_operation_uses(b, counts, n, out);
    let k = put_condition_use(b, local, m, out);
    put_output_uses(b, local, k, out)
}

// The uses of a local, from how often each operation reads it; how many words they take.
pub fn put_uses(visited: Visited, counts: &[u32], local: LocalId, out: &mut [u8]) -> usize
    requires counts_len { (length counts.now ≡ 1024) × (3 + length (uses_of visited.image.words.now counts.now local.0) < 2 ^ 59) }
    ensures { Puts 0 (uses_of visited.entry.image.words.now counts.now local.0) out.old out.new result }
{
    let mut m: usize = 0;
    for b in visited.rpo() {
        let block = ImageBlock {
            image: visited.image,
            id: BlockId(*b),
        };
        m = put_block_uses(block, counts, local, m, out);
    }
    m
}
