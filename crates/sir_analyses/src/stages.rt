// The tables of the stages: where each part stands in its flat array, and how it is read.
ghost use Rattle.std.specs.Prelude.{◌≡◌, not, ◌≤◌, ◌<◌, length, get_or, eqb};
ghost use Rattle.sir_analyses.specs.inner.Stages.{rpo_in, visited_in, reads_in, writes_in, uses_in, defs_in, ends_in, exits_in, sites_in, owners_in, owner_named, flags_in};

use plank_core::index::{AllocId, BlockId, LocalId};

// The most words that an image has.
pub const WORDS: usize = 14742;

// The most keys of what a visit finishes: functions and blocks.
pub const POSTORDER: usize = 320;

// The visit: how many blocks, the blocks in the order's sequence, and whether each was visited, by id.
pub const RPO: usize = 1;

pub const VISITED: usize = 257;

pub const VISIT: usize = 513;

// The blocks in the order's sequence.
pub fn rpo(visit: &[u32; VISIT]) -> &[u32]
    requires { get_or visit.now 0 0 ≤ 256 }
    ensures { result.now ≡ rpo_in visit.now }
{
    let end = visit[0] as usize + 1;
    &visit[RPO..end]
}

// Whether block b was visited.
pub fn is_visited(visit: &[u32; VISIT], b: BlockId) -> bool
    requires { b.0 < 256 }
    ensures { result ≡ visited_in visit.now b.0 }
{
    visit[VISITED + b.0 as usize] != 0
}

// Liveness: what each operation reads and writes; the use, def, end and exit sets of each block. A set is a row of eight words.
pub const READS: usize = 0;

pub const WRITES: usize = 8192;

pub const USES: usize = 16384;

pub const DEFS: usize = 18432;

pub const ENDS: usize = 20480;

pub const EXITS: usize = 22528;

pub const LIVE: usize = 24576;

// A function for each part: with the bounds as constants of one generic function each call would name both, which is no plainer.

// What each operation reads.
pub fn reads(live: &[u64; LIVE]) -> &[u64]
    ensures { result.now ≡ reads_in live.now }
{
    &live[READS..WRITES]
}

// What each operation writes.
pub fn writes(live: &[u64; LIVE]) -> &[u64]
    ensures { result.now ≡ writes_in live.now }
{
    &live[WRITES..USES]
}

// The use set of each block.
pub fn uses(live: &[u64; LIVE]) -> &[u64]
    ensures { result.now ≡ uses_in live.now }
{
    &live[USES..DEFS]
}

// The def set of each block.
pub fn defs(live: &[u64; LIVE]) -> &[u64]
    ensures { result.now ≡ defs_in live.now }
{
    &live[DEFS..ENDS]
}

// What is read after the operations of each block.
pub fn ends(live: &[u64; LIVE]) -> &[u64]
    ensures { result.now ≡ ends_in live.now }
{
    &live[ENDS..EXITS]
}

// The exit set of each block.
pub fn exits(live: &[u64; LIVE]) -> &[u64]
    ensures { result.now ≡ exits_in live.now }
{
    &live[EXITS..LIVE]
}

// Where a pointer goes in one step: a row for each local.
pub const LINKS: usize = 4096;

// The locals that flag who is first to reach them, by cause: a row of those in an escaping operand, a row of those that are returned.
pub const ESCAPING: usize = 0;

pub const RETURNED: usize = 1;

pub const CAUSES: usize = 16;

// Pointers: how many allocations there are, how many locals are on the work list; the site of each allocation, the owner of each
// local, the flags of each allocation, and the work list.
pub const ALLOCATIONS: usize = 0;

pub const LEFT: usize = 1;

pub const SITES: usize = 2;

pub const OWNERS: usize = 514;

pub const FLAGS: usize = 1026;

pub const WORK: usize = 1538;

pub const POINTERS: usize = 2051;

// The sites of all allocations.
pub fn alloc_sites(pointers: &[u32; POINTERS]) -> &[u32]
    requires { get_or pointers.now 0 0 ≤ 512 }
    ensures { result.now ≡ sites_in pointers.now }
{
    let end = pointers[ALLOCATIONS] as usize + SITES;
    &pointers[SITES..end]
}

// The owner of local v, as answers give it: its allocation + 1, or 0.
pub fn owner_of(pointers: &[u32; POINTERS], v: LocalId) -> u32
    requires { v.0 < 512 }
    ensures { result ≡ get_or (owners_in pointers.now) v.0 0 }
{
    pointers[OWNERS + v.0 as usize]
}

// The allocation that owns local v.
pub fn owner(pointers: &[u32; POINTERS], v: LocalId) -> Option<AllocId>
    requires { v.0 < 512 }
    ensures { result ≡ owner_named (get_or (owners_in pointers.now) v.0 0) }
{
    match owner_of(pointers, v) {
        0 => None,
        n => Some(AllocId(n - 1)),
    }
}

// The flags of allocation a.
pub fn flags_of(pointers: &[u32; POINTERS], a: AllocId) -> u32
    requires { a.0 < 512 }
    ensures { result ≡ get_or (flags_in pointers.now) a.0 0 }
{
    pointers[FLAGS + a.0 as usize]
}

// Whether allocation a is marked: some flag is set.
pub fn is_marked(pointers: &[u32; POINTERS], a: AllocId) -> bool
    requires { a.0 < 512 }
    ensures { result ≡ not (eqb (get_or (flags_in pointers.now) a.0 0) 0) }
{
    flags_of(pointers, a) != 0
}
