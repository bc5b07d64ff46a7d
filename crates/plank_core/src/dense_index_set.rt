// A set of numbers below 512, by value, and what can be asked of one that is lent as eight words. A set is a table of one row, so
// `rows` changes it.
ghost use Rattle.std.specs.Prelude.{◌≡◌, ◌++◌, ◌≤◌, length, drop};
ghost use Rattle.plank_core.specs.inner.DenseIndexSet.{is_empty, meets, members};

#[derive(Clone, Copy)]
pub struct DenseIndexSet {
    pub words: [u64; 8],
}

// How many members a set has.
pub fn len(set: &[u64]) -> usize
    requires { length set.now ≡ 8 }
    ensures { result ≡ length (members set.now) }
{
    let mut n: usize = 0;
    for word in set {
        n += word.count_ones() as usize;
    }
    n
}

pub fn is_empty(set: &[u64]) -> bool
    requires { length set.now ≡ 8 }
    ensures { result ≡ is_empty set.now }
{
    set.iter().all(|word| *word == 0)
}

// Whether two sets have a member in common.
pub fn intersects<'a>(set: &'a [u64], other: &'a [u64]) -> bool
    requires { (length set.now ≡ 8) × (length other.now ≡ 8) }
    ensures { result ≡ meets set.now other.now }
{
    set.iter().zip(other).any(|(a, b)| *a & *b != 0)
}

// The walk: the members, ascending, to the front of `out`, and how many. Each is its word's lowest one, which is then cleared.
// A word's number is counted in eight bits; 64 times it can need nine, so it is widened first.
pub fn list(set: &[u64], out: &mut [u32]) -> usize
    requires { (length set.now ≡ 8) × (512 ≤ length out.old) }
    ensures { (result ≡ length (members set.now)) × (out.new ≡ members set.now ++ drop result out.old) }
{
    let mut n: usize = 0;
    for at in 0..8u8 {
        let word = at as usize;
        let base = (64 * word) as u32;
        let mut w = set[word];
        while w != 0 {
            out[n] = base + w.trailing_zeros();
            n += 1;
            w &= w - 1;
        }
    }
    n
}
