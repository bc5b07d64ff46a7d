// The answers that need liveness, but those on allocations: sets of a block, intervals of a local, rounds.
ghost use Rattle.std.specs.Prelude.{◌≡◌, ◌<◌, length};
ghost use Rattle.plank_core.specs.Lists.{bind};
ghost use Rattle.plank_core.specs.inner.DenseIndexSet.{members};
ghost use Rattle.sir_data.specs.Pages.{bytes_of};
ghost use Rattle.sir_data.specs.Records.{blocks, locals};
ghost use Rattle.sir_data.specs.Rules.{first};
ghost use Rattle.sir_analyses.specs.Liveness.{rounds};
ghost use Rattle.sir_analyses.specs.Answers.{entry_answer, intervals_answer};
ghost use Rattle.sir_analyses.specs.Calls.{answered};
ghost use Rattle.sir_analyses.specs.inner.Outcomes.{outcome};
ghost use Rattle.sir_answers.specs.inner.Questions.{own_rules, answer_bytes};
ghost use Rattle.sir_answers.specs.declared.questions.Question.{Question};

use crate::all_intervals::all_intervals_answer;
use crate::all_sets::{all_entry_sets_answer, all_exit_sets_answer};
use crate::counted::counted_answer;
use crate::questions::LiveQuestion;
use plank_core::dense_index_set::list;
use plank_core::index::{BlockId, LocalId};
use plank_core::rows::row_of;
use sir_analyses::answers::words_answer;
use sir_analyses::local_intervals::compute_intervals;
use sir_analyses::local_liveness::{compute_liveness, compute_liveness_at_block_entry};
use sir_analyses::staged::{Analysed, Visited};
use sir_analyses::stages::LIVE;
use sir_data::refusals::Refusal;

// The members of a set.
fn set_answer(set: &[u64], out: &mut [u8]) -> Result<usize, Refusal>
    requires { length set.now ≡ 8 }
    ensures { outcome result out.new ≡ answered (bind (members set.now) bytes_of) out.old }
{
    let mut ids = [0u32; 512];
    let n = list(set, &mut ids);
    words_answer(&ids[..n], out)
}

// The entry set of a block; one that was not visited has none.
fn entry_answer(analysed: Analysed, b: BlockId, out: &mut [u8]) -> Result<usize, Refusal>
    requires b_bound { b.0 < blocks analysed.image.words.now }
    ensures { outcome result out.new ≡ answered (bind (entry_answer analysed.entry.image.words.now b.0) bytes_of) out.old }
{
    if !analysed.visited().is_visited(b) {
        return set_answer(&[0u64; 8], out);
    }
    let set = compute_liveness_at_block_entry(analysed.live, b);
    set_answer(&set.words, out)
}

// The intervals of a local.
fn intervals_answer(analysed: Analysed, v: LocalId, out: &mut [u8]) -> Result<usize, Refusal>
    requires v_bound { v.0 < locals analysed.image.words.now }
    ensures { outcome result out.new ≡ answered (bind (intervals_answer analysed.entry.image.words.now v.0) bytes_of) out.old }
{
    counted_answer(|part| compute_intervals(analysed, v, part), out)
}

// The answer to a question on liveness, from the sets and the number of passes.
fn answer_from_sets(
    analysed: Analysed,
    done: u32,
    question: LiveQuestion,
    out: &mut [u8],
) -> Result<usize, Refusal>
    requires done_value { done ≡ rounds analysed.image.words.now }
    requires words_value { first (own_rules (Question.OfLiveness question) analysed.image.words.now) ≡ 0 }
    ensures { outcome result out.new ≡ answered (answer_bytes (Question.OfLiveness question) analysed.entry.image.words.now) out.old }
{
    match question {
        LiveQuestion::EntrySet(b) => entry_answer(analysed, b, out),
        LiveQuestion::ExitSet(b) => set_answer(
            row_of(analysed.live_sets().exits(), b.0 as usize),
            out,
        ),
        LiveQuestion::Intervals(v) => intervals_answer(analysed, v, out),
        LiveQuestion::Rounds => words_answer(&[done], out),
        LiveQuestion::AllEntrySets => all_entry_sets_answer(analysed, out),
        LiveQuestion::AllExitSets => all_exit_sets_answer(analysed.live_sets(), out),
        LiveQuestion::AllIntervals => all_intervals_answer(analysed, out),
    }
}

// The answer to a question on liveness: makes the sets, and answers from them.
pub fn live_answer(
    visited: Visited,
    question: LiveQuestion,
    out: &mut [u8],
) -> Result<usize, Refusal>
    requires words_value { first (own_rules (Question.OfLiveness question) visited.image.words.now) ≡ 0 }
    ensures { outcome result out.new ≡ answered (answer_bytes (Question.OfLiveness question) visited.entry.image.words.now) out.old }
{
    let mut live = [0u64; LIVE];
    let done = compute_liveness(visited, &mut live);
    answer_from_sets(
        Analysed {
            image: visited.image,
            visit: visited.visit,
            live: &live,
        },
        done,
        question,
        out,
    )
}
