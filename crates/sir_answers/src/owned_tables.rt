// The tables of owners that the pass over all allocations reads: a row of the locals that have none, a row of locals for each
// allocation, and the owner of each local. A marked allocation owns none.
ghost use Rattle.std.specs.Prelude.{◌≡◌, true, ◌&&◌, cond, List, ℕ, ◌+◌, ◌*◌, ◌≤◌, ◌<◌, length, get_or, take, replicate, eqb, ltb};
ghost use Rattle.plank_core.specs.Lists.{◌∈◌};
ghost use Rattle.plank_core.specs.inner.DenseIndexSet.{contains};
ghost use Rattle.sir_data.specs.Records.{locals};
ghost use Rattle.sir_analyses.specs.inner.Stages.{owners_in};
ghost use Rattle.sir_answers.specs.inner.Scatter.{number_at};
ghost use Rattle.sir_analyses.specs.inner.Tables.{Adds};
ghost use Rattle.sir_answers.specs.inner.AllocationPieces.{own_rows_in, owner_number, unmarked_owner, OwnedTables, OwnedListed, owns_one, side};

use plank_core::dense_index_set::{intersects, list};
use plank_core::index::{AllocId, LocalId};
use plank_core::rows::{row_add, row_contains, row_difference_with, row_of, row_union_with};
use sir_analyses::staged::Pointed;
use sir_analyses::stages::{POINTERS, is_marked, owner};

// Where the parts stand.
pub const UNOWNED: usize = 0;

pub const OWN_ROWS: usize = 8;

pub const OWN_WORDS: usize = 4104;

pub const OWNED: usize = 4616;

// The allocation that owns local v, unless it is marked.
pub fn unmarked_owner(pointers: &[u32; POINTERS], v: LocalId) -> Option<AllocId>
    requires { (v.0 < 512) × (get_or (owners_in pointers.now) v.0 0 ≤ 512) }
    ensures { (owner_number result ≡ unmarked_owner pointers.now v.0) × (owner_number result ≤ 512) }
{
    let a = owner(pointers, v)?;
    if is_marked(pointers, a) {
        return None;
    }
    Some(a)
}

// The row of the locals that this allocation owns, or of those that have no owner.
fn owner_row(owner: Option<AllocId>) -> u32
    requires { owner_number owner ≤ 512 }
    ensures { result ≡ owner_number owner }
{
    match owner {
        None => 0,
        Some(a) => a.0 + 1,
    }
}

// Adds each local to the row of its owner: row 0 is for those that have none, row a + 1 for those of allocation a.
fn own_rows(pointed: Pointed, rows: &mut [u64])
    requires rows_len { length rows.old ≡ 4104 }
    ensures { Adds rows.old (λ r v. ltb v (locals pointed.entry.image.words.now) && eqb (unmarked_owner pointed.entry.pointers.now v) r) rows.new }
{
    let count = pointed.image.local_count();
    for v in 0..count {
        let row = owner_row(unmarked_owner(pointed.pointers, LocalId(v)));
        row_add(rows, row as usize, v);
    }
}

// Stores the row of each local. A loop of its own: one for this and `own_rows` would take what is done with a row as a closure, whose contract
// says as much as both.
fn own_words(pointed: Pointed, owners: &mut [u64])
    requires owners_len { length owners.old ≡ 512 }
    ensures { (v : ℕ) → number_at owners.new v ≡ cond (ltb v (locals pointed.entry.image.words.now)) (unmarked_owner pointed.entry.pointers.now v) (number_at owners.old v) }
{
    let count = pointed.image.local_count();
    for v in 0..count {
        owners[v as usize] = owner_row(unmarked_owner(pointed.pointers, LocalId(v))) as u64;
    }
}

// Both, to an array that is empty at first.
pub fn owned_tables(pointed: Pointed, owned: &mut [u64])
    requires owned_value { owned.old ≡ replicate 4616 0 }
    ensures { OwnedTables pointed.entry.image.words.now owned.new }
{
    own_rows(pointed, &mut owned[UNOWNED..OWN_WORDS]);
    own_words(pointed, &mut owned[OWN_WORDS..OWNED]);
}

// The members of a set that have an owner, ascending, to the front of `ids`: how many.
pub fn list_owned<'a>(owned: &'a [u64], set: &'a [u64], ids: &mut [u32]) -> usize
    requires by_index { (w : List ℕ) × OwnedTables w owned.now }
    requires set_len { (length set.now ≡ 8) × (length ids.old ≡ 512) }
    ensures { (result ≤ 512) × OwnedListed owned.now set.now (take result ids.new) }
{
    let mut some = [0u64; 8];
    row_union_with(&mut some, 0, set);
    row_difference_with(&mut some, 0, &owned[UNOWNED..OWN_ROWS]);
    list(&some, ids)
}

// The row in which the owner a of local v is put: 0 where one of its locals is in the set, else 1.
fn side_of<'a>(owned: &'a [u64], set: &'a [u64], v: LocalId, a: usize) -> usize
    requires owned_len { (length owned.now ≡ 4616) × (length set.now ≡ 8) × (a < 512) × (v.0 < 512) }
    requires v_value { contains (own_rows_in owned.now) (512 * a + v.0) ≡ true }
    ensures { result ≡ side owned.now set.now a }
{
    if row_contains(set, 0, v.0) {
        return 0;
    }
    if intersects(row_of(&owned[OWN_ROWS..OWN_WORDS], a), set) {
        return 0;
    }
    1
}

// Puts the owners of some locals in their rows.
pub fn split_owners<'a>(ids: &[u32], owned: &'a [u64], set: &'a [u64], split: &mut [u64])
    requires by_index { (v : ℕ) → v ∈ ids.now → v < 512 }
    requires by_index_2 { (w : List ℕ) × OwnedTables w owned.now }
    requires set_len { (length set.now ≡ 8) × (length split.old ≡ 16) }
    ensures { Adds split.old (λ r a. owns_one owned.now ids.now a && eqb r (side owned.now set.now a)) split.new }
{
    for v in ids {
        let row = owned[OWN_WORDS + *v as usize] as usize;
        if let Some(a) = row.checked_sub(1) {
            row_add(split, side_of(owned, set, LocalId(*v), a), a as u32);
        }
    }
}
