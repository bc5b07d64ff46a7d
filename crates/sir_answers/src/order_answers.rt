// The answers that need the visit alone: the order itself, the predecessors of a block, the uses of a local.
ghost use Rattle.std.specs.Prelude.{◌≡◌, ◌≤◌, length};
ghost use Rattle.plank_core.specs.Lists.{bind};
ghost use Rattle.sir_data.specs.Pages.{bytes_of};
ghost use Rattle.sir_analyses.specs.Answers.{predecessors_answer, uses_answer};
ghost use Rattle.sir_analyses.specs.Calls.{answered};
ghost use Rattle.sir_analyses.specs.inner.Outcomes.{outcome};
ghost use Rattle.sir_answers.specs.inner.Questions.{answer_bytes};
ghost use Rattle.sir_analyses.specs.inner.Stages.{OrderStage};
ghost use Rattle.sir_analyses.specs.inner.Visiting.{order_in};
ghost use Rattle.sir_answers.specs.declared.questions.Question.{Question};

use crate::all_predecessors::all_predecessors_answer;
use crate::all_uses::all_uses_answer;
use crate::counted::counted_answer;
use crate::questions::OrderQuestion;
use plank_core::index::{BlockId, LocalId};
use sir_analyses::answers::words_answer;
use sir_analyses::def_use::{input_counts, put_uses};
use sir_analyses::predecessors::put_predecessors;
use sir_analyses::reverse_post_order::order_words;
use sir_analyses::staged::Visited;
use sir_data::refusals::Refusal;

// The order, from the postorder of the visit.
fn visit_answer(postorder: &[u32], out: &mut [u8]) -> Result<usize, Refusal>
    requires { length (order_in postorder.now) ≤ 384 }
    ensures { outcome result out.new ≡ answered (bind (order_in postorder.now) bytes_of) out.old }
{
    let mut order = [0u32; 384];
    let n = order_words(postorder, &mut order);
    words_answer(&order[..n], out)
}

// The predecessors of a block.
fn predecessors_answer(visited: Visited, b: BlockId, out: &mut [u8]) -> Result<usize, Refusal>
    ensures { outcome result out.new ≡ answered (bind (predecessors_answer visited.entry.image.words.now b.0) bytes_of) out.old }
{
    counted_answer(|part| put_predecessors(visited, b, part), out)
}

// The uses of a local.
fn uses_answer(visited: Visited, v: LocalId, out: &mut [u8]) -> Result<usize, Refusal>
    ensures { outcome result out.new ≡ answered (bind (uses_answer visited.entry.image.words.now v.0) bytes_of) out.old }
{
    let mut counts = [0u32; 1024];
    input_counts(visited.image, v, &mut counts);
    counted_answer(|part| put_uses(visited, &counts, v, part), out)
}

// The answer to a question of the order.
pub fn order_answer(
    visited: Visited,
    postorder: &[u32],
    question: OrderQuestion,
    out: &mut [u8],
) -> Result<usize, Refusal>
    requires order_stage { OrderStage visited.image.words.now postorder.now }
    ensures { outcome result out.new ≡ answered (answer_bytes (Question.OfOrder question) visited.entry.image.words.now) out.old }
{
    match question {
        OrderQuestion::Order => visit_answer(postorder, out),
        OrderQuestion::Predecessors(b) => predecessors_answer(visited, b, out),
        OrderQuestion::Uses(v) => uses_answer(visited, v, out),
        OrderQuestion::AllPredecessors => all_predecessors_answer(visited, out),
        OrderQuestion::AllUses => all_uses_answer(visited, out),
    }
}
