// The columns of a series of the chart: what stands in a line for each of its 64 allocations.
ghost use Rattle.std.specs.Prelude.{◌≡◌, true, not, ◌&&◌, cond, List, ℕ, ◌+◌, ◌*◌, ◌≤◌, ◌<◌, length, get_or, replicate};
ghost use Rattle.plank_core.specs.Lists.{◌∈◌};
ghost use Rattle.plank_core.specs.inner.DenseIndexSet.{contains};
ghost use Rattle.sir_analyses.specs.inner.Stages.{PointerStage};
ghost use Rattle.sir_answers.specs.inner.AllocationPieces.{owner_number, unmarked_owner};
ghost use Rattle.sir_answers.specs.inner.Columns.{in_series, OtherLocals, owns_some, marked_in, Columns};

use crate::owned_tables::unmarked_owner;
use plank_core::dense_index_set::{DenseIndexSet, list};
use plank_core::index::{AllocId, LocalId};
use plank_core::rows::{row_add, row_difference_with, row_union_with};
use sir_analyses::stages::{POINTERS, alloc_sites, is_marked};

// How many allocations a series has.
pub const SERIES: usize = 64;

// Whether this is an allocation of a series.
fn in_series(series: usize, owner: Option<AllocId>) -> bool
    requires { series < 8 }
    ensures { result ≡ in_series series (owner_number owner) }
{
    let first = SERIES * series;
    match owner {
        None => false,
        Some(a) => first <= a.0 as usize && (a.0 as usize) < first + SERIES,
    }
}

// The locals that no unmarked allocation of a series owns, to an empty set.
pub fn other_locals(pointers: &[u32; POINTERS], series: usize, others: &mut [u64])
    requires by_index { (w : List ℕ) × PointerStage w pointers.now }
    requires series_bound { (series < 8) × (others.old ≡ replicate 8 0) }
    ensures { OtherLocals pointers.now series others.new }
{
    for v in 0..512 {
        let owner = unmarked_owner(pointers, LocalId(v));
        if !in_series(series, owner) {
            row_add(others, 0, v);
        }
    }
}

// The members of a set that unmarked allocations of a series own.
pub fn of_series<'a>(set: &'a [u64], others: &'a [u64]) -> DenseIndexSet
    requires { (length set.now ≡ 8) × (length others.now ≡ 8) }
    ensures { (v : ℕ) → v < 512 → contains result.words v ≡ (contains set.now v && not (contains others.now v)) }
{
    let mut words = [0u64; 8];
    row_union_with(&mut words, 0, set);
    row_difference_with(&mut words, 0, others);
    DenseIndexSet { words }
}

// The column of allocation a where it is not open.
fn closed_column(pointers: &[u32; POINTERS], a: usize) -> u8
    requires { (w : List ℕ) × PointerStage w pointers.now }
    ensures { result ≡ cond (marked_in pointers.now a) 42 46 }
{
    if alloc_sites(pointers).len() <= a {
        return b'.';
    }
    if is_marked(pointers, AllocId(a as u32)) {
        return b'*';
    }
    b'.'
}

// The columns of a series where none of its allocations is open.
pub fn closed_columns(pointers: &[u32; POINTERS], series: usize, columns: &mut [u8])
    requires by_index { (w : List ℕ) × PointerStage w pointers.now }
    requires series_bound { (series < 8) × (length columns.old ≡ 64) }
    ensures { Columns pointers.now series (replicate 8 0) columns.new }
{
    for (k, column) in columns.iter_mut().enumerate() {
        *column = closed_column(pointers, SERIES * series + k);
    }
}

// The owners of some locals, which are of a series, are open in it.
fn open_columns(pointers: &[u32; POINTERS], series: usize, ids: &[u32], columns: &mut [u8])
    requires by_index { (w : List ℕ) × PointerStage w pointers.now }
    requires by_index_2 { (v : ℕ) → v ∈ ids.now → (v < 512) × (in_series series (unmarked_owner pointers.now v) ≡ true) }
    requires series_bound { (series < 8) × (length columns.old ≡ 64) }
    ensures { (k : ℕ) → k < 64 → get_or columns.new k 0 ≡ cond (owns_some pointers.now ids.now (64 * series + k)) 35 (get_or columns.old k 0) }
{
    let first = SERIES * series;
    for v in ids {
        if let Some(a) = unmarked_owner(pointers, LocalId(*v)) {
            columns[a.0 as usize - first] = b'#';
        }
    }
}

// The columns of a series where the owners of the members of a set are open.
fn columns_of(pointers: &[u32; POINTERS], series: usize, set: &[u64], columns: &mut [u8])
    requires by_index { (w : List ℕ) × PointerStage w pointers.now }
    requires series_bound { (series < 8) × (length set.now ≡ 8) × (length columns.old ≡ 64) }
    requires by_index_2 { (v : ℕ) → v < 512 → contains set.now v ≡ true → in_series series (unmarked_owner pointers.now v) ≡ true }
    ensures { Columns pointers.now series set.now columns.new }
{
    let mut ids = [0u32; 512];
    let n = list(set, &mut ids);
    closed_columns(pointers, series, columns);
    open_columns(pointers, series, &ids[..n], columns);
}

// Updates columns from those of the set `kept` to those of another one, and answers that. They are made anew only where it differs: what is
// live changes at few operations.
pub fn update_columns(
    pointers: &[u32; POINTERS],
    series: usize,
    set: DenseIndexSet,
    kept: DenseIndexSet,
    columns: &mut [u8],
) -> DenseIndexSet
    requires by_index { (w : List ℕ) × PointerStage w pointers.now }
    requires series_bound { (series < 8) × Columns pointers.now series kept.words columns.old }
    requires by_index_2 { (v : ℕ) → v < 512 → contains set.words v ≡ true → in_series series (unmarked_owner pointers.now v) ≡ true }
    ensures words_value { result.words ≡ set.words }
    ensures columns { Columns pointers.now series set.words columns.new }
{
    if set.words == kept.words {
        return set;
    }
    columns_of(pointers, series, &set.words, columns);
    set
}
