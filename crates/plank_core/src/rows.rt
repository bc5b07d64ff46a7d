// Tables of sets: eight words to a row, one row after the other in one lent slice, so that no table is copied.
ghost use Rattle.std.specs.Prelude.{◌≡◌, not, ◌+◌, ◌*◌, ◌≤◌, ◌<◌, length};
ghost use Rattle.plank_core.specs.inner.DenseIndexSet.{contains, added, removed, row_of, row_union, row_difference, grows};

// A row by itself: that part of the table.
pub fn row_of(table: &[u64], row: usize) -> &[u64]
    requires { 8 * row + 8 ≤ length table.now }
    ensures { result.now ≡ row_of table.now row }
{
    let at = 8 * row;
    let end = at + 8;
    &table[at..end]
}

pub fn row_contains(table: &[u64], row: usize, i: u32) -> bool
    requires { (8 * row + 8 ≤ length table.now) × (i < 512) }
    ensures { result ≡ contains table.now (512 * row + i) }
{
    let n = i as usize;
    (table[8 * row + n / 64] >> (n % 64)) & 1 == 1
}

// Adds a member to a row: whether it is new there.
pub fn row_add(table: &mut [u64], row: usize, i: u32) -> bool
    requires { (8 * row + 8 ≤ length table.old) × (i < 512) }
    ensures { (result ≡ not (contains table.old (512 * row + i))) × (table.new ≡ added table.old (512 * row + i)) }
{
    let n = i as usize;
    let at = 8 * row + n / 64;
    let old = table[at];
    table[at] = old | (1u64 << (n % 64));
    (old >> (n % 64)) & 1 == 0
}

// Removes a member from a row: whether it was there.
pub fn row_remove(table: &mut [u64], row: usize, i: u32) -> bool
    requires { (8 * row + 8 ≤ length table.old) × (i < 512) }
    ensures { (result ≡ contains table.old (512 * row + i)) × (table.new ≡ removed table.old (512 * row + i)) }
{
    let n = i as usize;
    let at = 8 * row + n / 64;
    let old = table[at];
    table[at] = old & !(1u64 << (n % 64));
    (old >> (n % 64)) & 1 == 1
}

// Adds the members of a set to a row: whether the row grew.
pub fn row_union_with(table: &mut [u64], row: usize, set: &[u64]) -> bool
    requires { (8 * row + 8 ≤ length table.old) × (length set.now ≡ 8) }
    ensures { (result ≡ grows table.old row set.now) × (table.new ≡ row_union table.old row set.now) }
{
    let mut grew = false;
    for k in 0..8 {
        let at = 8 * row + k;
        let old = table[at];
        let new = old | set[k];
        table[at] = new;
        if new != old {
            grew = true;
        }
    }
    grew
}

// Removes the members of a set from a row.
pub fn row_difference_with(table: &mut [u64], row: usize, set: &[u64])
    requires { (8 * row + 8 ≤ length table.old) × (length set.now ≡ 8) }
    ensures { table.new ≡ row_difference table.old row set.now }
{
    for k in 0..8 {
        table[8 * row + k] &= !set[k];
    }
}
