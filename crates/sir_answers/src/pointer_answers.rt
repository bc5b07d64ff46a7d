// The answers that need pointers: the record of an allocation, the owner of a local, and both for all ids; what is open at an operation,
// and whether two allocations cross.
ghost use Rattle.std.specs.Prelude.{◌≡◌, ◌<◌, length};
ghost use Rattle.plank_core.specs.Lists.{bind};
ghost use Rattle.sir_data.specs.Pages.{bytes_of};
ghost use Rattle.sir_data.specs.Rules.{first};
ghost use Rattle.sir_analyses.specs.All.{all};
ghost use Rattle.sir_analyses.specs.Allocation.{allocs};
ghost use Rattle.sir_analyses.specs.Answers.{allocation_answer};
ghost use Rattle.sir_analyses.specs.Calls.{answered};
ghost use Rattle.sir_analyses.specs.inner.Outcomes.{outcome};
ghost use Rattle.sir_answers.specs.inner.Questions.{own_rules, answer_bytes};
ghost use Rattle.sir_answers.specs.declared.questions.Question.{Question};

use crate::all_allocations::all_allocations_answer;
use crate::all_sets::all_owners_answer;
use crate::crossing::crossing_answer;
use crate::open_allocations::open_answer;
use crate::questions::PointerQuestion;
use plank_core::index::AllocId;
use sir_analyses::allocation_answers::{allocation_answer, compute_pointers, marked_answer};
use sir_analyses::allocation_liveness::site_of;
use sir_analyses::answers::words_answer;
use sir_analyses::local_liveness::compute_liveness;
use sir_analyses::staged::{Accepted, Followed, Pointed, Tables};
use sir_analyses::stages::{LIVE, POINTERS};
use sir_data::refusals::Refusal;

// The record of allocation a: the tables of liveness are made here where it is not marked, and a marked one needs none.
fn one_allocation(followed: Followed, a: AllocId, out: &mut [u8]) -> Result<usize, Refusal>
    requires a_bound { a.0 < length (allocs followed.image.words.now) }
    ensures { outcome result out.new ≡ answered (bind (allocation_answer followed.entry.image.words.now a.0) bytes_of) out.old }
{
    let pointed = followed.pointed();
    if pointed.is_marked(a) {
        let site = site_of(pointed.sites(), a);
        return marked_answer(followed.image, site, pointed.flags_of(a), out);
    }
    let mut live = [0u64; LIVE];
    compute_liveness(followed.visited(), &mut live);
    allocation_answer(
        Tables {
            image: followed.image,
            visit: followed.visit,
            live: &live,
            pointers: followed.pointers,
        },
        a,
        out,
    )
}

// The records of all allocations, with the tables of liveness made here.
fn every_allocation(followed: Followed, out: &mut [u8]) -> Result<usize, Refusal>
    ensures { outcome result out.new ≡ answered (bind (all (λ w. length (allocs w)) allocation_answer followed.entry.image.words.now) bytes_of) out.old }
{
    let mut live = [0u64; LIVE];
    compute_liveness(followed.visited(), &mut live);
    all_allocations_answer(
        Tables {
            image: followed.image,
            visit: followed.visit,
            live: &live,
            pointers: followed.pointers,
        },
        out,
    )
}

// The answer to a question on pointers: follows them, and answers from their tables.
pub fn pointer_answer(
    accepted: Accepted,
    question: PointerQuestion,
    out: &mut [u8],
) -> Result<usize, Refusal>
    requires rules_value { first (own_rules (Question.OfPointers question) accepted.image.words.now) ≡ 0 }
    ensures { outcome result out.new ≡ answered (answer_bytes (Question.OfPointers question) accepted.entry.image.words.now) out.old }
{
    let mut pointers = [0u32; POINTERS];
    compute_pointers(accepted, &mut pointers);
    let followed = Followed {
        image: accepted.image,
        visit: accepted.visit,
        pointers: &pointers,
    };
    let pointed = Pointed {
        image: accepted.image,
        pointers: &pointers,
    };
    match question {
        PointerQuestion::Allocation(a) => one_allocation(followed, a, out),
        PointerQuestion::Owner(v) => words_answer(&[pointed.owner_of(v)], out),
        PointerQuestion::AllAllocations => every_allocation(followed, out),
        PointerQuestion::AllOwners => all_owners_answer(pointed, out),
        PointerQuestion::Open(b, o) => open_answer(followed, b, o, out),
        PointerQuestion::Crossing(one, other) => { crossing_answer(followed, one, other, out) }
    }
}
