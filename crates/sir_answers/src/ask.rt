// The one way in: an image and a question give a number, the answer's length, and the answer in `out`; refused, `out` is left as
// it was.
ghost use Rattle.std.specs.Prelude.{◌≡◌};
ghost use Rattle.sir_data.specs.Pages.{payload};
ghost use Rattle.sir_analyses.specs.Calls.{made, call, asked, refusal};
ghost use Rattle.sir_analyses.specs.Promise.{Promise};
ghost use Rattle.sir_answers.specs.inner.Questions.{own_rules, answer_bytes};
ghost use Rattle.sir_analyses.specs.inner.Outcomes.{outcome};
ghost use Rattle.sir_analyses.specs.inner.Stages.{OrderStage};

use crate::chart::chart_answer;
use crate::live_answers::live_answer;
use crate::order_answers::order_answer;
use crate::pointer_answers::pointer_answer;
use crate::questions::{Question, own_refusal};
use sir_analyses::answers::Answer;
use sir_analyses::loading::load;
use sir_analyses::staged::Accepted;
use sir_analyses::stages::{POSTORDER, VISIT, WORDS};
use sir_data::refusals::Refusal;
use sir_data::well_formed::Image;

// The refusal of a question, or its answer, from the words of an accepted image, the keys of its visit, the visit and the
// allocations.
fn answer(
    accepted: Accepted,
    postorder: &[u32],
    question: Question,
    out: &mut [u8],
) -> Result<usize, Refusal>
    requires { OrderStage accepted.image.words.now postorder.now }
    ensures { outcome result out.new ≡ call (own_rules question accepted.entry.image.words.now) (answer_bytes question accepted.entry.image.words.now) out.old }
{
    own_refusal(accepted.image, accepted.sites, question)?;
    // A match, since questions differ in the tables that they need: closures would have to be given all of these.
    match question {
        Question::OfOrder(q) => order_answer(accepted.visited(), postorder, q, out),
        Question::OfLiveness(q) => live_answer(accepted.visited(), q, out),
        Question::OfPointers(q) => pointer_answer(accepted, q, out),
        Question::Chart => chart_answer(accepted, out),
    }
}

// The refusal of the image, or of the question, or the answer.
fn try_ask(image: &[u8], question: Question, out: &mut [u8]) -> Result<usize, Refusal>
    ensures { outcome result out.new ≡ asked (own_rules question) (answer_bytes question) image.now out.old }
{
    let mut words = [0u32; WORDS];
    let mut postorder = [0u32; POSTORDER];
    let mut visit = [0u32; VISIT];
    let mut found = [0u32; 512];
    let sizes = load(image, &mut words, &mut postorder, &mut visit, &mut found)?;
    let accepted = Accepted {
        image: Image {
            words: &words[..sizes.words],
        },
        visit: &visit,
        sites: &found[..sizes.allocations],
    };
    answer(accepted, &postorder[..sizes.finished], question, out)
}

// The same as C takes it; and what holds of the answers about every accepted image.
pub fn ask(image: &[u8], question: Question, out: &mut [u8]) -> Answer
    ensures out_after { made result.number result.length out.new ≡ asked (own_rules question) (answer_bytes question) image.now out.old }
    ensures promise { refusal image.now ≡ 0 → Promise (payload image.now) }
{
    Answer::from(try_ask(image, question, out))
}
