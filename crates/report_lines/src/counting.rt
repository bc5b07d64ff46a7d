// Whether an answer that a report prints is longer than its result slice. Order, rounds and sets are never that long.
ghost use Rattle.std.specs.Prelude.{◌≡◌, length};
ghost use Rattle.report_lines.specs.Counting.{local_too_long, allocation_too_long};

use plank_core::index::{AllocId, LocalId};
use sir_analyses::allocation_answers::allocation_answer;
use sir_analyses::local_intervals::compute_intervals;
use sir_analyses::staged::{Analysed, Tables};

// Whether the intervals of some local need more than 65,536 bytes.
pub fn local_too_long(analysed: Analysed) -> bool
    ensures { result ≡ local_too_long analysed.entry.image.words.now }
{
    (0..analysed.image.local_count()).any(|v| {
        let n = compute_intervals(analysed, LocalId(v), &mut []);
        16384 < n
    })
}

// Whether some allocation needs more than 65,536 bytes, the length of the slice.
pub fn allocation_too_long(tables: Tables, out: &mut [u8]) -> bool
    requires out_len { length out.old ≡ 65536 }
    ensures { result ≡ allocation_too_long tables.entry.image.words.now }
{
    let count = tables.pointed().sites().len();
    // By a loop: each answer is written to `out`, and a closure that a chain asks changes nothing.
    for a in 0..count {
        if allocation_answer(tables, AllocId(a as u32), out).is_err() {
            return true;
        }
    }
    false
}
