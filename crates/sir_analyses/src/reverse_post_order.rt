// The order of functions and blocks, as `ReversePostOrder` of the source fills it, over arrays of fixed length.
ghost use Rattle.std.specs.Prelude.{◌≡◌, ◌++◌, ◌∷◌, [], ℕ, ◌+◌, ◌<◌, ◌≤◌, length, get_or, take, replicate, reverse, List};
ghost use Rattle.plank_core.specs.Lists.{bind, one_if};
ghost use Rattle.plank_core.specs.inner.DenseIndexSet.{contains};
ghost use Rattle.sir_data.specs.Records.{functions, blocks, operations, callees};
ghost use Rattle.sir_data.specs.inner.Cases.{function_ids};
ghost use Rattle.sir_analyses.specs.Order.{visit_function, visit_block};
ghost use Rattle.sir_analyses.specs.inner.Stages.{OrderStage, VisitStage};
ghost use Rattle.sir_analyses.specs.inner.Visiting.{Held, VisitStep, VisitedAll, blocks_of, blocks_in, entry_of, order_in, function_of, Listed, EachListed};

use crate::stages::{RPO, VISIT, VISITED};
use plank_core::index::{BlockId, FunctionId, OpIdx};
use plank_core::rows::{row_add, row_contains};
use sir_data::well_formed::Image;

// The rows of a table of what was seen.
const SEEN_FUNCTIONS: usize = 0;

const SEEN_BLOCKS: usize = 1;

// The function that an operation calls, if it calls one.
fn callee(image: Image, o: OpIdx) -> Option<FunctionId>
    requires o_bound { o.0 < operations image.words.now }
    ensures { function_ids result ≡ callees image.entry.words.now o.0 }
{
    if sir_data::codes::is_call(image.op_word(o, 0)) {
        Some(FunctionId(image.op_word(o, 5)))
    } else {
        None
    }
}

// Writes a key after the first n. A key is a number and the count goes along, since the array is fixed and lent, as there is no heap: f
// for a function, 256 * (f + 1) + b for block b on behalf of f.
fn push(postorder: &mut [u32], n: usize, key: u32) -> usize
    requires { n < length postorder.old }
    ensures { (result ≡ n + 1) × (take result postorder.new ≡ take n postorder.old ++ (key ∷ [])) }
{
    postorder[n] = key;
    n + 1
}

// Visits a function that was not seen: its entry block, then the function is finished.
#[cycle(visit_block_visit_function)]
pub fn visit_function(
    image: Image,
    f: FunctionId,
    seen: &mut [u64],
    postorder: &mut [u32],
    n: usize,
) -> usize
    requires f_bound { f.0 < functions image.words.now }
    requires held { Held image.words.now seen.old postorder.old n }
    ensures { VisitStep image.entry.words.now (visit_function (functions image.entry.words.now + blocks image.entry.words.now) image.entry.words.now f.0) seen.old postorder.old n seen.new postorder.new result }
{
    if !row_add(seen, SEEN_FUNCTIONS, f.0) {
        return n;
    }
    let m = visit_block(image, f, image.entry_block(f), seen, postorder, n);
    push(postorder, m, f.0)
}

// Visits a block that was not seen, on behalf of f: what it calls, then its successors, then the block is finished.
#[cycle(visit_block_visit_function)]
pub fn visit_block(
    image: Image,
    f: FunctionId,
    b: BlockId,
    seen: &mut [u64],
    postorder: &mut [u32],
    n: usize,
) -> usize
    requires f_bound { f.0 < functions image.words.now }
    requires b_bound { b.0 < blocks image.words.now }
    requires held { Held image.words.now seen.old postorder.old n }
    ensures { VisitStep image.entry.words.now (visit_block (functions image.entry.words.now + blocks image.entry.words.now) image.entry.words.now f.0 b.0) seen.old postorder.old n seen.new postorder.new result }
{
    if !row_add(seen, SEEN_BLOCKS, b.0) {
        return n;
    }
    let span = image.operations(b);
    let mut m = n;
    'calls: for o in span.start..span.end {
        if let Some(g) = callee(image, OpIdx(o)) {
            m = visit_function(image, g, seen, postorder, m);
        }
    }
    let count = image.successor_count(b);
    'successors: for i in 0..count {
        m = visit_block(image, f, image.successor(b, i), seen, postorder, m);
    }
    push(postorder, m, 256 * (f.0 + 1) + b.0)
}

// The whole visit: init, then main if any. How many keys are in `postorder`.
pub fn visit(image: Image, seen: &mut [u64], postorder: &mut [u32]) -> usize
    requires seen_value { (seen.old ≡ replicate 16 0) × (length postorder.old ≡ 320) }
    ensures { VisitedAll image.entry.words.now seen.new postorder.new result }
{
    let n = visit_function(image, image.init_function(), seen, postorder, 0);
    match image.main_function() {
        Some(main) => visit_function(image, main, seen, postorder, n),
        None => n,
    }
}

// The blocks of function f, last finished first, after the first `at` of `out`.
fn function_blocks(postorder: &[u32], f: FunctionId, out: &mut [u32], at: usize) -> usize
    requires { (f.0 < 256) × (at + length (blocks_of f.0 postorder.now) ≤ length out.old) }
    ensures { Listed (blocks_of f.0 postorder.now) at out.old out.new result }
{
    let mut m = at;
    for i in (0..postorder.len()).rev() {
        let key = postorder[i];
        if key / 256 == f.0 + 1 {
            out[m] = key % 256;
            m += 1;
        }
    }
    m
}

// What `put` writes of each function, last finished first.
fn each_function<F: Fn(&mut [u32], FunctionId, usize) -> usize>(
    postorder: &[u32],
    out: &mut [u32],
    put: F,
) -> usize
    requires { (g : ℕ → List ℕ) × EachListed (F.pre put) (F.post put) g (length out.old) × (length (bind (reverse postorder.now) (function_of g)) ≤ length out.old) }
    ensures { (g : ℕ → List ℕ) → EachListed (F.pre put) (F.post put) g (length out.old) → length (bind (reverse postorder.now) (function_of g)) ≤ length out.old → Listed (bind (reverse postorder.now) (function_of g)) 0 out.old out.new result }
{
    let mut m: usize = 0;
    for i in (0..postorder.len()).rev() {
        let key = postorder[i];
        if key < 256 {
            m = put(out, FunctionId(key), m);
        }
    }
    m
}

// The blocks of all functions, last finished first: the sequence of the order.
pub fn blocks_rpo(postorder: &[u32], out: &mut [u32]) -> usize
    requires { length (blocks_in postorder.now) ≤ length out.old }
    ensures { Listed (blocks_in postorder.now) 0 out.old out.new result }
{
    each_function(
        postorder,
        out,
        |to, f, at| function_blocks(postorder, f, to, at),
    )
}

// A function's id, its block count and its blocks, after the first `at` of `out`.
fn function_entry(postorder: &[u32], f: FunctionId, out: &mut [u32], at: usize) -> usize
    requires { (f.0 < 256) × (at + 2 + length (blocks_of f.0 postorder.now) ≤ length out.old) × (length out.old < 65536) }
    ensures { Listed (entry_of f.0 postorder.now) at out.old out.new result }
{
    out[at] = f.0;
    let m = function_blocks(postorder, f, out, at + 2);
    out[at + 1] = (m - at - 2) as u32;
    m
}

// The order's answer: each function of `functions_rpo` with its blocks.
pub fn order_words(postorder: &[u32], out: &mut [u32]) -> usize
    requires { (length (order_in postorder.now) ≤ length out.old) × (length out.old < 65536) }
    ensures { Listed (order_in postorder.now) 0 out.old out.new result }
{
    each_function(
        postorder,
        out,
        |to, f, at| function_entry(postorder, f, to, at),
    )
}

// For each block whether it was seen, to an array that is empty at first.
fn flag_visited(image: Image, seen: &[u64], flags: &mut [u32])
    requires seen_len { (length seen.now ≡ 16) × (flags.old ≡ replicate 256 0) }
    ensures { (length flags.new ≡ 256) × ((b : ℕ) → b < blocks image.entry.words.now → get_or flags.new b 0 ≡ one_if (contains seen.now (512 + b))) }
{
    let count = image.block_count();
    for b in 0..count {
        if row_contains(seen, SEEN_BLOCKS, b) {
            flags[b as usize] = 1;
        }
    }
}

// The visit, to an array that is empty at first: how many blocks, their ids in the order's sequence, and which were visited. The keys
// of what is finished go to `postorder`: how many.
pub fn compute_visit(image: Image, postorder: &mut [u32], table: &mut [u32]) -> usize
    requires postorder_len { (length postorder.old ≡ 320) × (table.old ≡ replicate 513 0) }
    ensures { (result ≤ length postorder.new) × OrderStage image.entry.words.now (take result postorder.new) × VisitStage image.entry.words.now table.new }
{
    let mut seen = [0u64; 16];
    let finished = visit(image, &mut seen, postorder);
    let count = blocks_rpo(&postorder[..finished], &mut table[RPO..VISITED]);
    flag_visited(image, &seen, &mut table[VISITED..VISIT]);
    table[0] = count as u32;
    finished
}
