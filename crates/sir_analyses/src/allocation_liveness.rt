// Allocations: the allocation operations of visited blocks, in the order's sequence; the owners of locals, and what marks each allocation.
ghost use Rattle.std.specs.Prelude.{◌≡◌, true, List, ◌∷◌, [], ℕ, ◌+◌, ◌<◌, ◌≤◌, length, get_or, set, replicate};
ghost use Rattle.std.specs.Int.Bits.{bit_or};
ghost use Rattle.sir_data.specs.Records.{operations, locals, code, outs};
ghost use Rattle.sir_data.specs.Codes.{is_alloc};
ghost use Rattle.sir_data.specs.inner.WellFormed.{WellFormed};
ghost use Rattle.sir_analyses.specs.Allocation.{rule12, allocs, alloc_at, base, bases};
ghost use Rattle.sir_analyses.specs.inner.Pointers.{PointerRows};
ghost use Rattle.sir_analyses.specs.Flags.{found};
ghost use Rattle.sir_analyses.specs.inner.Following.{link_all, follow_local};
ghost use Rattle.sir_analyses.specs.inner.Discovery.{alloc_sites, block_sites, Capped, Site, bit_of, links_in, used_in};
ghost use Rattle.sir_analyses.specs.inner.Stages.{AcceptedStage, PointerStage, PointerRoom, PointerStep, PointersFollowed, SitesStored, owners_in, left_in};

use crate::staged::Visited;
use crate::stages::{
    ALLOCATIONS, ESCAPING, FLAGS, LEFT, OWNERS, POINTERS, RETURNED, SITES, WORK, owner,
};
use plank_core::dense_index_set::list;
use plank_core::index::{AllocId, BlockId, LocalId, OpIdx};
use plank_core::rows::{row_add, row_contains, row_of};
use sir_data::codes::is_alloc;
use sir_data::image_block::ImageBlock;
use sir_data::well_formed::Image;

// The allocations of a block after the first `at` of `sites`, each as one number: 1024 times the block, plus the operation. How many
// sites there are then, or none where there is no room for all.
fn block_allocations(b: ImageBlock, sites: &mut [u32], at: usize) -> Option<usize>
    requires at_bound { at ≤ length sites.old }
    ensures { Capped (block_sites b.entry.image.words.now b.entry.id.0) at sites.old sites.new result }
{
    let span = b.operations();
    let mut m = at;
    for o in span.start..span.end {
        if is_alloc(b.image.op_word(OpIdx(o), 0)) {
            if m == sites.len() {
                return None;
            }
            sites[m] = 1024 * b.id.0 + o;
            m += 1;
        }
    }
    Some(m)
}

// The allocations of all visited blocks, in the order's sequence: how many, or none where there is no room for all.
pub fn find_allocations(visited: Visited, sites: &mut [u32]) -> Option<usize>
    ensures { Capped (alloc_sites visited.entry.image.words.now) 0 sites.old sites.new result }
{
    let order = visited.rpo();
    let mut m: usize = 0;
    for &b in order {
        let block = ImageBlock {
            image: visited.image,
            id: BlockId(b),
        };
        m = block_allocations(block, sites, m)?;
    }
    Some(m)
}

// Where an allocation stands.
#[derive(Clone, Copy)]
pub struct AllocSite {
    pub block: BlockId,
    pub op: OpIdx,
}

// The site of allocation a, from the sites of all allocations.
pub fn site_of(sites: &[u32], a: AllocId) -> AllocSite
    requires { a.0 < length sites.now }
    ensures { (w : List ℕ) → WellFormed w → sites.now ≡ alloc_sites w → Site w a.0 result.block.0 result.op.0 }
{
    let site = sites[a.0 as usize];
    AllocSite {
        block: BlockId(site / 1024),
        op: OpIdx(site % 1024),
    }
}

// The base local of an allocation operation.
pub fn base_ptr(image: Image, o: OpIdx) -> LocalId
    requires o_bound { (o.0 < operations image.words.now) × (is_alloc (code image.words.now o.0) ≡ true) }
    ensures { (result.0 ≡ get_or (outs image.entry.words.now o.0) 0 0) × (result.0 < locals image.entry.words.now) }
{
    let outputs = image.op_outputs(o);
    LocalId(outputs[0])
}

// The base local of allocation a.
fn base_of(image: Image, sites: &[u32], a: AllocId) -> LocalId
    requires sites_value { (sites.now ≡ alloc_sites image.words.now) × (a.0 < length sites.now) }
    ensures { (result.0 ≡ base image.entry.words.now (alloc_at image.entry.words.now a.0)) × (result.0 < locals image.entry.words.now) }
{
    let site = site_of(sites, a);
    base_ptr(image, site.op)
}

// Rule 12: two of these allocations have one base local.
pub fn rule_12(image: Image, sites: &[u32]) -> bool
    requires sites_value { (sites.now ≡ alloc_sites image.words.now) × (length sites.now ≤ 512) }
    ensures { result ≡ rule12 image.entry.words.now }
{
    let mut bases = [0u64; 8];
    for a in 0..sites.len() {
        let base = base_of(image, sites, AllocId(a as u32));
        if !row_add(&mut bases, 0, base.0) {
            return true;
        }
    }
    false
}

// At first each base is owned by its own allocation.
fn own_bases(image: Image, sites: &[u32], owners: &mut [u32])
    requires sites_value { (sites.now ≡ alloc_sites image.words.now) × (length sites.now ≤ 512) × (owners.old ≡ replicate 512 0) }
    ensures { ((v : ℕ) → v < locals image.entry.words.now → get_or owners.new v 0 ≡ get_or (bases image.entry.words.now) v 0) × ((v : ℕ) → get_or owners.new v 0 ≤ length (allocs image.entry.words.now)) × (length owners.new ≡ 512) }
{
    for a in 0..sites.len() {
        let base = base_of(image, sites, AllocId(a as u32));
        owners[base.0 as usize] = a as u32 + 1;
    }
}

// What marks an allocation.
#[derive(Clone, Copy)]
enum Flag {
    Escape,
    Return,
    Meeting,
}

impl Flag {
    // Its bit in the word of an allocation's flags.
    fn bit(self) -> u32
        ensures { result ≡ bit_of self }
    {
        match self {
            Flag::Escape => 1,
            Flag::Return => 2,
            Flag::Meeting => 4,
        }
    }
}

// What linking a local to an allocation tells: nobody had the local, the allocation had it before, or another did.
#[derive(Clone, Copy)]
pub enum Found {
    First,
    Before,
    Met(AllocId),
}

// A local comes to allocation a, whose number replaces the old owner: tells what was found there.
fn link_local_to_alloc(pointers: &mut [u32; POINTERS], local: LocalId, a: AllocId) -> Found
    requires pointer_room { PointerRoom pointers.old }
    requires local_bound { (local.0 < 512) × (a.0 < 512) }
    ensures value { result ≡ found a.0 (get_or (owners_in pointers.old) local.0 0) }
    ensures pointers_after { pointers.new ≡ set pointers.old (514 + local.0) (a.0 + 1) }
{
    let before = owner(pointers, local);
    pointers[OWNERS + local.0 as usize] = a.0 + 1;
    match before {
        None => Found::First,
        Some(other) if other == a => Found::Before,
        Some(other) => Found::Met(other),
    }
}

// Puts a local on the work list.
fn push_local(pointers: &mut [u32; POINTERS], local: LocalId)
    requires { left_in pointers.old < 513 }
    ensures { pointers.new ≡ set (set pointers.old (1538 + left_in pointers.old) local.0) 1 (left_in pointers.old + 1) }
{
    let n = pointers[LEFT];
    pointers[WORK + n as usize] = local.0;
    pointers[LEFT] = n + 1;
}

// Sets a flag of allocation a.
fn set_flag(pointers: &mut [u32; POINTERS], a: AllocId, flag: Flag)
    requires { a.0 < 512 }
    ensures { pointers.new ≡ set pointers.old (1026 + a.0) (bit_or (get_or pointers.old (1026 + a.0) 0) (bit_of flag)) }
{
    let at = FLAGS + a.0 as usize;
    pointers[at] |= flag.bit();
}

// Links a local to allocation a, and acts on what that tells: where the allocation was first there the local goes on the work list, and
// where it met another both are flagged.
fn reach_local(pointers: &mut [u32; POINTERS], local: LocalId, a: AllocId)
    requires pointer_room { PointerRoom pointers.old }
    requires local_bound { (local.0 < 512) × (a.0 < 512) }
    ensures { PointerStep (local.0 ∷ []) a.0 (link_all a.0 (local.0 ∷ [])) pointers.old pointers.new }
{
    match link_local_to_alloc(pointers, local, a) {
        Found::First => {
            push_local(pointers, local);
        }
        Found::Before => {}
        Found::Met(other) => {
            set_flag(pointers, a, Flag::Meeting);
            set_flag(pointers, other, Flag::Meeting);
        }
    }
}

// Flags allocation a by each cause for which a local is used.
fn flag_uses(causes: &[u64], pointers: &mut [u32; POINTERS], local: LocalId, a: AllocId)
    requires causes_len { (length causes.now ≡ 16) × PointerRoom pointers.old }
    requires local_bound { (local.0 < 512) × (a.0 < 512) }
    ensures { PointerStep [] a.0 (follow_local [] (used_in causes.now local.0) a.0) pointers.old pointers.new }
{
    if row_contains(causes, ESCAPING, local.0) {
        set_flag(pointers, a, Flag::Escape);
    }
    if row_contains(causes, RETURNED, local.0) {
        set_flag(pointers, a, Flag::Return);
    }
}

// Follows a local that allocation a was first to reach: links all that it carries on, and flags the allocation by its uses.
fn follow_local(
    links: &[u64],
    causes: &[u64],
    pointers: &mut [u32; POINTERS],
    local: LocalId,
    a: AllocId,
)
    requires links_len { (length links.now ≡ 4096) × (length causes.now ≡ 16) }
    requires pointer_room { PointerRoom pointers.old }
    requires local_bound { (local.0 < 512) × (a.0 < 512) }
    ensures { PointerStep (links_in links.now local.0) a.0 (follow_local (links_in links.now local.0) (used_in causes.now local.0) a.0) pointers.old pointers.new }
{
    let mut found = [0u32; 512];
    let count = list(row_of(links, local.0 as usize), &mut found);
    for &carried in &found[..count] {
        reach_local(pointers, LocalId(carried), a);
    }
    flag_uses(causes, pointers, local, a);
}

// Follows allocation a from its base, and from every local that nobody had.
fn propagate_pointers_and_mark_escapes(
    links: &[u64],
    causes: &[u64],
    pointers: &mut [u32; POINTERS],
    base: LocalId,
    a: AllocId,
)
    requires links_len { (length links.now ≡ 4096) × (length causes.now ≡ 16) }
    requires pointer_room { PointerRoom pointers.old × (left_in pointers.old ≡ 0) }
    requires base_bound { (base.0 < 512) × (a.0 < 512) }
    ensures { PointersFollowed links.now causes.now a.0 base.0 pointers.old pointers.new }
{
    pointers[WORK] = base.0;
    pointers[LEFT] = 1;
    while 0 < pointers[LEFT] {
        let n = pointers[LEFT] - 1;
        pointers[LEFT] = n;
        let local = LocalId(pointers[WORK + n as usize]);
        follow_local(links, causes, pointers, local, a);
    }
}

// The sites of the allocations, to their part of the table.
fn store_sites(sites: &[u32], pointers: &mut [u32; POINTERS])
    requires { (length sites.now ≤ 512) × (pointers.old ≡ replicate 2051 0) }
    ensures { SitesStored sites.now pointers.new }
{
    pointers[ALLOCATIONS] = sites.len() as u32;
    // One by one: copied as a slice, they would ask C for `memmove`.
    for a in 0..sites.len() {
        pointers[SITES + a] = sites[a];
    }
}

// Owners and flags: at first each base is owned by its own allocation, then allocations are followed in turn.
pub fn discover_allocations(
    image: Image,
    sites: &[u32],
    links: &[u64],
    causes: &[u64],
    pointers: &mut [u32; POINTERS],
)
    requires accepted_stage { AcceptedStage image.words.now sites.now }
    requires pointer_rows { PointerRows image.words.now links.now causes.now × (pointers.old ≡ replicate 2051 0) }
    ensures { PointerStage image.entry.words.now pointers.new }
{
    store_sites(sites, pointers);
    own_bases(image, sites, &mut pointers[OWNERS..FLAGS]);
    for i in 0..sites.len() {
        let a = AllocId(i as u32);
        let base = base_of(image, sites, a);
        propagate_pointers_and_mark_escapes(links, causes, pointers, base, a);
    }
}
