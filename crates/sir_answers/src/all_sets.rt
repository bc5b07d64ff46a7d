// The sets of all blocks and the owners of all locals, each in one call: every answer after its length.
ghost use Rattle.std.specs.Prelude.{◌≡◌, ◌∷◌, ◌+◌, ◌<◌, ◌≤◌, ◌^◌, length};
ghost use Rattle.plank_core.specs.Lists.{bind};
ghost use Rattle.plank_core.specs.inner.DenseIndexSet.{members};
ghost use Rattle.sir_data.specs.Pages.{bytes_of};
ghost use Rattle.sir_data.specs.Records.{blocks, locals};
ghost use Rattle.sir_analyses.specs.All.{all};
ghost use Rattle.sir_analyses.specs.Answers.{entry_answer, exit_answer, owner_answer};
ghost use Rattle.sir_analyses.specs.Calls.{answered};
ghost use Rattle.sir_analyses.specs.inner.Outcomes.{outcome};
ghost use Rattle.sir_analyses.specs.inner.Writing.{Puts};

use crate::counted::counted_answer;
use plank_core::dense_index_set::{len, list};
use plank_core::index::{BlockId, LocalId};
use plank_core::rows::row_of;
use sir_analyses::answers::{put_word, put_words};
use sir_analyses::local_liveness::compute_liveness_at_block_entry;
use sir_analyses::staged::{Analysed, LiveSets, Pointed};
use sir_data::refusals::Refusal;

// The members of a set after their number; where they are only counted, none is listed.
fn put_set(set: &[u64], n: usize, out: &mut [u8]) -> usize
    requires { (length set.now ≡ 8) × (n + 513 < 2 ^ 60) }
    ensures { (result ≤ n + 513) × Puts n (length (members set.now) ∷ members set.now) out.old out.new result }
{
    if out.len() == 0 {
        return n + 1 + len(set);
    }
    let mut ids = [0u32; 512];
    let count = list(set, &mut ids);
    let m = put_word(out, n, count as u32);
    put_words(out, m, &ids[..count])
}

// The entry set of a block after its length; one that was not visited has none.
fn put_entry_set(analysed: Analysed, b: BlockId, n: usize, out: &mut [u8]) -> usize
    requires b_bound { (b.0 < blocks analysed.image.words.now) × (n + 513 < 2 ^ 60) }
    ensures { (result ≤ n + 513) × Puts n (length (entry_answer analysed.entry.image.words.now b.0) ∷ entry_answer analysed.entry.image.words.now b.0) out.old out.new result }
{
    if !analysed.visited().is_visited(b) {
        return put_set(&[0u64; 8], n, out);
    }
    let set = compute_liveness_at_block_entry(analysed.live, b);
    put_set(&set.words, n, out)
}

// The entry sets of all blocks; how many words they take. A loop for each table: one that took what puts an answer would also take the
// words that an answer has at most, and be no shorter.
fn put_entry_sets(analysed: Analysed, out: &mut [u8]) -> usize
    ensures { (result ≤ 131328) × Puts 0 (all blocks entry_answer analysed.entry.image.words.now) out.old out.new result }
{
    let count = analysed.image.block_count();
    let mut m: usize = 0;
    for b in 0..count {
        m = put_entry_set(analysed, BlockId(b), m, out);
    }
    m
}

// The exit sets of all blocks; how many words they take.
fn put_exit_sets(sets: LiveSets, out: &mut [u8]) -> usize
    ensures { (result ≤ 131328) × Puts 0 (all blocks exit_answer sets.entry.image.words.now) out.old out.new result }
{
    let table = sets.exits();
    let count = sets.image.block_count();
    let mut m: usize = 0;
    for b in 0..count {
        m = put_set(row_of(table, b as usize), m, out);
    }
    m
}

// The owners of all locals; how many words they take.
fn put_owners(pointed: Pointed, out: &mut [u8]) -> usize
    ensures { (result ≤ 1024) × Puts 0 (all locals owner_answer pointed.entry.image.words.now) out.old out.new result }
{
    let count = pointed.image.local_count();
    let mut m: usize = 0;
    for v in 0..count {
        let answer = [1, pointed.owner_of(LocalId(v))];
        m = put_words(out, m, &answer);
    }
    m
}

// The entry sets of all blocks.
pub fn all_entry_sets_answer(analysed: Analysed, out: &mut [u8]) -> Result<usize, Refusal>
    ensures { outcome result out.new ≡ answered (bind (all blocks entry_answer analysed.entry.image.words.now) bytes_of) out.old }
{
    counted_answer(|part| put_entry_sets(analysed, part), out)
}

// The exit sets of all blocks.
pub fn all_exit_sets_answer(sets: LiveSets, out: &mut [u8]) -> Result<usize, Refusal>
    ensures { outcome result out.new ≡ answered (bind (all blocks exit_answer sets.entry.image.words.now) bytes_of) out.old }
{
    counted_answer(|part| put_exit_sets(sets, part), out)
}

// The owners of all locals.
pub fn all_owners_answer(pointed: Pointed, out: &mut [u8]) -> Result<usize, Refusal>
    ensures { outcome result out.new ≡ answered (bind (all locals owner_answer pointed.entry.image.words.now) bytes_of) out.old }
{
    counted_answer(|part| put_owners(pointed, part), out)
}
