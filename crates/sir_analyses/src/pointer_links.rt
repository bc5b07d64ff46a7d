// Where a pointer goes from each local in one step, and which locals flag who is first to reach them: both are found in one pass over the
// operations and one over the blocks.
ghost use Rattle.std.specs.Prelude.{◌≡◌, ◌&&◌, ℕ, ◌+◌, ◌*◌, ◌<◌, length, replicate, eqb};
ghost use Rattle.plank_core.specs.Lists.{upto, any, mem, ◌∈◌};
ghost use Rattle.plank_core.specs.inner.DenseIndexSet.{contains};
ghost use Rattle.sir_data.specs.Records.{operations, ops, successors, returned};
ghost use Rattle.sir_analyses.specs.Order.{blocks_rpo};
ghost use Rattle.sir_analyses.specs.inner.Tables.{Adds};
ghost use Rattle.sir_analyses.specs.Allocation.{escapes_by};
ghost use Rattle.sir_analyses.specs.inner.Pointers.{is_visited_op, derives_by, passes_by, PointerRows};

use crate::block_sets::add_run;
use crate::staged::Visited;
use crate::stages::{ESCAPING, RETURNED};
use plank_core::index::{BlockId, OpIdx};
use plank_core::rows::{row_add, row_contains};
use sir_data::codes::{can_derive_pointer, operation_causes_ptr_escape};
use sir_data::image_block::ImageBlock;
use sir_data::well_formed::Image;

// Adds the operations of block b to the visited ones: operation o is number o of a table of two rows.
fn add_operations(b: ImageBlock, seen: &mut [u64])
    requires seen_len { length seen.old ≡ 16 }
    ensures { Adds seen.old (λ r i. mem (512 * r + i) (ops b.entry.image.words.now b.entry.id.0)) seen.new }
{
    let span = b.operations();
    for o in span.start..span.end {
        row_add(seen, (o / 512) as usize, o % 512);
    }
}

// The operations of visited blocks.
fn visited_ops(visited: Visited, seen: &mut [u64])
    requires seen_value { seen.old ≡ replicate 16 0 }
    ensures { (length seen.new ≡ 16) × ((o : ℕ) → o < 1024 → contains seen.new o ≡ is_visited_op visited.entry.image.words.now o) }
{
    for b in visited.rpo() {
        let block = ImageBlock {
            image: visited.image,
            id: BlockId(*b),
        };
        add_operations(block, seen);
    }
}

// Links each local that operation o reads to each that it writes, if o derives pointers.
fn link_operation(image: Image, o: OpIdx, links: &mut [u64])
    requires o_bound { (o.0 < operations image.words.now) × (length links.old ≡ 4096) }
    ensures { Adds links.old (derives_by image.entry.words.now o.0) links.new }
{
    if !can_derive_pointer(image.op_word(o, 0)) {
        return;
    }
    let inputs = image.op_inputs(o);
    let outputs = image.op_outputs(o);
    for v in inputs {
        add_run(links, *v as usize, outputs);
    }
}

// Adds the locals in escaping operands of operation o.
fn add_escaping(image: Image, o: OpIdx, causes: &mut [u64])
    requires o_bound { (o.0 < operations image.words.now) × (length causes.old ≡ 16) }
    ensures { Adds causes.old (λ r v. eqb r 0 && escapes_by image.entry.words.now o.0 v) causes.new }
{
    let code = image.op_word(o, 0);
    let inputs = image.op_inputs(o);
    for (k, v) in inputs.iter().enumerate() {
        if operation_causes_ptr_escape(code, k) {
            row_add(causes, ESCAPING, *v);
        }
    }
}

// What all visited operations link, and the locals in their escaping operands.
fn link_operations(image: Image, seen: &[u64], links: &mut [u64], causes: &mut [u64])
    requires seen_len { (length seen.now ≡ 16) × ((o : ℕ) → o < 1024 → contains seen.now o ≡ is_visited_op image.words.now o) }
    requires links_len { (length links.old ≡ 4096) × (length causes.old ≡ 16) }
    ensures adds { Adds links.old (λ v u. any (λ o. is_visited_op image.entry.words.now o && derives_by image.entry.words.now o v u) (upto (operations image.entry.words.now))) links.new }
    ensures adds_2 { Adds causes.old (λ r v. any (λ o. is_visited_op image.entry.words.now o && (eqb r 0 && escapes_by image.entry.words.now o v)) (upto (operations image.entry.words.now))) causes.new }
{
    let count = image.operation_count();
    for o in 0..count {
        if row_contains(seen, (o / 512) as usize, o % 512) {
            link_operation(image, OpIdx(o), links);
            add_escaping(image, OpIdx(o), causes);
        }
    }
}

// Links each output of block b to the input of its successor s at the same position.
fn link_edge(b: ImageBlock, s: BlockId, links: &mut [u64])
    requires s_in { (s.0 ∈ successors b.image.words.now b.id.0) × (length links.old ≡ 4096) }
    ensures { Adds links.old (passes_by b.entry.image.words.now b.entry.id.0 s.0) links.new }
{
    let given = b.outputs();
    let taken = b.image.inputs(s);
    for (k, v) in given.iter().enumerate() {
        row_add(links, *v as usize, taken[k]);
    }
}

// What all edges out of block b link.
fn link_edges(b: ImageBlock, links: &mut [u64])
    requires links_len { length links.old ≡ 4096 }
    ensures { Adds links.old (λ v u. any (λ s. passes_by b.entry.image.words.now b.entry.id.0 s v u) (successors b.entry.image.words.now b.entry.id.0)) links.new }
{
    let count = b.successor_count();
    for i in 0..count {
        let s = b.successor(i);
        link_edge(b, s, links);
    }
}

// What the visited blocks link by their edges, and what they return.
fn link_blocks(visited: Visited, links: &mut [u64], causes: &mut [u64])
    requires links_len { (length links.old ≡ 4096) × (length causes.old ≡ 16) }
    ensures adds { Adds links.old (λ v u. any (λ b. any (λ s. passes_by visited.entry.image.words.now b s v u) (successors visited.entry.image.words.now b)) (blocks_rpo visited.entry.image.words.now)) links.new }
    ensures adds_2 { Adds causes.old (λ r v. any (λ b. eqb r 1 && mem v (returned visited.entry.image.words.now b)) (blocks_rpo visited.entry.image.words.now)) causes.new }
{
    for id in visited.rpo() {
        let b = BlockId(*id);
        let block = ImageBlock {
            image: visited.image,
            id: b,
        };
        link_edges(block, links);
        add_run(causes, RETURNED, visited.image.returned_outputs(b));
    }
}

// Both tables of an image: what each local links to, and the locals that are used in an escaping operand or returned.
pub fn pointer_links(visited: Visited, links: &mut [u64], causes: &mut [u64])
    requires links_value { (links.old ≡ replicate 4096 0) × (causes.old ≡ replicate 16 0) }
    ensures { PointerRows visited.entry.image.words.now links.new causes.new }
{
    let mut seen = [0u64; 16];
    visited_ops(visited, &mut seen);
    link_operations(visited.image, &seen, links, causes);
    link_blocks(visited, links, causes);
}
