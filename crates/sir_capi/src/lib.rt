// The exported functions, and with their contracts the whole of what a caller relies on. Nothing is required of a caller. The crate
// `sir_capi_c` exports each to C, under its name and with its contract.
//
// Each question takes an image and a result slice, and gives a number and the answer's length in bytes. Its first promise is
// always the same, `asked`: of the rules of the image and then those of the question the first that applies is the number, with
// length 0 and every byte of the slice as it was; where none applies the number is 0 and the answer's bytes stand at the front of
// the slice, whose other bytes are as they were; and where the slice is shorter than the answer, the number is 14. The second,
// `Promise`, is a theorem on the definitions that the first one names: what holds of all answers about an image that is not refused,
// whichever call is made. What is asked of one id can be asked of all in one call: the answers in turn, each after its length in words.
//
// The last two take an image apart and put one together. `sir_records` is asked like a question. `sir_write` takes lent records in
// the place of an image; its first promise, `written`, is a call like the others, with the rules of lent records and their pages. What
// they promise beside the outcome are the claims of `WriteBack`, on the image that is taken apart and on the records that are lent.
#![tactic(auto)]

ghost use Rattle.std.specs.Prelude.{◌≡◌, length};
ghost use Rattle.sir_data.specs.Pages.{payload};
ghost use Rattle.sir_data.specs.Records.{blocks, locals};
ghost use Rattle.sir_data.specs.Paging.{records_of};
ghost use Rattle.sir_analyses.specs.All.{all};
ghost use Rattle.sir_analyses.specs.Allocation.{allocs};
ghost use Rattle.sir_analyses.specs.Answers.{order_answer, predecessors_answer, uses_answer, entry_answer, exit_answer, rounds_answer, intervals_answer, allocation_answer, owner_answer};
ghost use Rattle.sir_analyses.specs.Calls.{made, refusal, asked, no_rules, known, in_words};
ghost use Rattle.sir_analyses.specs.Chart.{chart_text};
ghost use Rattle.sir_analyses.specs.Open.{open_at, open_rules, crossing, crossing_rules};
ghost use Rattle.sir_analyses.specs.Promise.{Promise};
ghost use Rattle.sir_analyses.specs.WriteBack.{lent_refusal, written, PageRule, WrittenBack, ReadBack, ReadersNumber};

use plank_core::index::{AllocId, BlockId, LocalId, OpIdx};
use sir_analyses::answers::Answer;
use sir_answers::ask::ask;
use sir_answers::questions::{LiveQuestion, OrderQuestion, PointerQuestion, Question};
use sir_answers::write_back::{records, write};

// For each function of `functions_rpo`: its id, its block count, its block ids.
pub fn sir_order(image: &[u8], out: &mut [u8]) -> Answer
    ensures out_after { made result.number result.length out.new ≡ asked no_rules (in_words order_answer) image.now out.old }
    ensures promise { refusal image.now ≡ 0 → Promise (payload image.now) }
{
    ask(image, Question::OfOrder(OrderQuestion::Order), out)
}

// The predecessors of a block, repeats kept.
pub fn sir_predecessors(image: &[u8], block: u32, out: &mut [u8]) -> Answer
    ensures out_after { made result.number result.length out.new ≡ asked (known blocks block) (in_words (λ w. predecessors_answer w block)) image.now out.old }
    ensures promise { refusal image.now ≡ 0 → Promise (payload image.now) }
{
    let b = BlockId(block);
    ask(
        image,
        Question::OfOrder(OrderQuestion::Predecessors(b)),
        out,
    )
}

// The uses of a local, three words each: block, kind, then operation, 0, or position.
pub fn sir_uses(image: &[u8], local: u32, out: &mut [u8]) -> Answer
    ensures out_after { made result.number result.length out.new ≡ asked (known locals local) (in_words (λ w. uses_answer w local)) image.now out.old }
    ensures promise { refusal image.now ≡ 0 → Promise (payload image.now) }
{
    let v = LocalId(local);
    ask(image, Question::OfOrder(OrderQuestion::Uses(v)), out)
}

// The locals that are live at the entry of a block, ascending.
pub fn sir_entry_set(image: &[u8], block: u32, out: &mut [u8]) -> Answer
    ensures out_after { made result.number result.length out.new ≡ asked (known blocks block) (in_words (λ w. entry_answer w block)) image.now out.old }
    ensures promise { refusal image.now ≡ 0 → Promise (payload image.now) }
{
    let b = BlockId(block);
    ask(image, Question::OfLiveness(LiveQuestion::EntrySet(b)), out)
}

// The locals that are live at the exit of a block, ascending.
pub fn sir_exit_set(image: &[u8], block: u32, out: &mut [u8]) -> Answer
    ensures out_after { made result.number result.length out.new ≡ asked (known blocks block) (in_words (λ w. exit_answer w block)) image.now out.old }
    ensures promise { refusal image.now ≡ 0 → Promise (payload image.now) }
{
    let b = BlockId(block);
    ask(image, Question::OfLiveness(LiveQuestion::ExitSet(b)), out)
}

// The passes of liveness until one adds nothing, that one counted.
pub fn sir_rounds(image: &[u8], out: &mut [u8]) -> Answer
    ensures out_after { made result.number result.length out.new ≡ asked no_rules (in_words rounds_answer) image.now out.old }
    ensures promise { refusal image.now ≡ 0 → Promise (payload image.now) }
{
    ask(image, Question::OfLiveness(LiveQuestion::Rounds), out)
}

// The intervals of a local, three words each: block, start, end.
pub fn sir_intervals(image: &[u8], local: u32, out: &mut [u8]) -> Answer
    ensures out_after { made result.number result.length out.new ≡ asked (known locals local) (in_words (λ w. intervals_answer w local)) image.now out.old }
    ensures promise { refusal image.now ≡ 0 → Promise (payload image.now) }
{
    let v = LocalId(local);
    ask(image, Question::OfLiveness(LiveQuestion::Intervals(v)), out)
}

// An allocation: defining block, operation, base local, kind, size or size local, static id, mark, flags, interval count, intervals.
pub fn sir_allocation(image: &[u8], allocation: u32, out: &mut [u8]) -> Answer
    ensures out_after { made result.number result.length out.new ≡ asked (known (λ w. length (allocs w)) allocation) (in_words (λ w. allocation_answer w allocation)) image.now out.old }
    ensures promise { refusal image.now ≡ 0 → Promise (payload image.now) }
{
    let a = AllocId(allocation);
    ask(
        image,
        Question::OfPointers(PointerQuestion::Allocation(a)),
        out,
    )
}

// The owner of a local: allocation + 1, or 0.
pub fn sir_owner(image: &[u8], local: u32, out: &mut [u8]) -> Answer
    ensures out_after { made result.number result.length out.new ≡ asked (known locals local) (in_words (λ w. owner_answer w local)) image.now out.old }
    ensures promise { refusal image.now ≡ 0 → Promise (payload image.now) }
{
    let v = LocalId(local);
    ask(image, Question::OfPointers(PointerQuestion::Owner(v)), out)
}

// The predecessors of all blocks, each after its length in words.
pub fn sir_all_predecessors(image: &[u8], out: &mut [u8]) -> Answer
    ensures out_after { made result.number result.length out.new ≡ asked no_rules (in_words (all blocks predecessors_answer)) image.now out.old }
    ensures promise { refusal image.now ≡ 0 → Promise (payload image.now) }
{
    ask(
        image,
        Question::OfOrder(OrderQuestion::AllPredecessors),
        out,
    )
}

// The entry sets of all blocks, each after its length in words.
pub fn sir_all_entry_sets(image: &[u8], out: &mut [u8]) -> Answer
    ensures out_after { made result.number result.length out.new ≡ asked no_rules (in_words (all blocks entry_answer)) image.now out.old }
    ensures promise { refusal image.now ≡ 0 → Promise (payload image.now) }
{
    ask(image, Question::OfLiveness(LiveQuestion::AllEntrySets), out)
}

// The exit sets of all blocks, each after its length in words.
pub fn sir_all_exit_sets(image: &[u8], out: &mut [u8]) -> Answer
    ensures out_after { made result.number result.length out.new ≡ asked no_rules (in_words (all blocks exit_answer)) image.now out.old }
    ensures promise { refusal image.now ≡ 0 → Promise (payload image.now) }
{
    ask(image, Question::OfLiveness(LiveQuestion::AllExitSets), out)
}

// The uses of all locals, each after its length in words.
pub fn sir_all_uses(image: &[u8], out: &mut [u8]) -> Answer
    ensures out_after { made result.number result.length out.new ≡ asked no_rules (in_words (all locals uses_answer)) image.now out.old }
    ensures promise { refusal image.now ≡ 0 → Promise (payload image.now) }
{
    ask(image, Question::OfOrder(OrderQuestion::AllUses), out)
}

// The intervals of all locals, each after its length in words.
pub fn sir_all_intervals(image: &[u8], out: &mut [u8]) -> Answer
    ensures out_after { made result.number result.length out.new ≡ asked no_rules (in_words (all locals intervals_answer)) image.now out.old }
    ensures promise { refusal image.now ≡ 0 → Promise (payload image.now) }
{
    ask(image, Question::OfLiveness(LiveQuestion::AllIntervals), out)
}

// The records of all allocations, each after its length in words.
pub fn sir_all_allocations(image: &[u8], out: &mut [u8]) -> Answer
    ensures out_after { made result.number result.length out.new ≡ asked no_rules (in_words (all (λ w. length (allocs w)) allocation_answer)) image.now out.old }
    ensures promise { refusal image.now ≡ 0 → Promise (payload image.now) }
{
    ask(
        image,
        Question::OfPointers(PointerQuestion::AllAllocations),
        out,
    )
}

// The owners of all locals, each after its length in words.
pub fn sir_all_owners(image: &[u8], out: &mut [u8]) -> Answer
    ensures out_after { made result.number result.length out.new ≡ asked no_rules (in_words (all locals owner_answer)) image.now out.old }
    ensures promise { refusal image.now ≡ 0 → Promise (payload image.now) }
{
    ask(image, Question::OfPointers(PointerQuestion::AllOwners), out)
}

// The unmarked allocations with an interval over an operation of a block, by number. 15: the block does not hold the operation.
pub fn sir_open(image: &[u8], block: u32, operation: u32, out: &mut [u8]) -> Answer
    ensures out_after { made result.number result.length out.new ≡ asked (open_rules block operation) (in_words (λ w. open_at w block operation)) image.now out.old }
    ensures promise { refusal image.now ≡ 0 → Promise (payload image.now) }
{
    let b = BlockId(block);
    let o = OpIdx(operation);
    ask(
        image,
        Question::OfPointers(PointerQuestion::Open(b, o)),
        out,
    )
}

// Whether two allocations cross: 1 or 0, then block + 1 and operation + 1 of the first operation in intervals of both, where one is named.
pub fn sir_crossing(image: &[u8], one: u32, other: u32, out: &mut [u8]) -> Answer
    ensures out_after { made result.number result.length out.new ≡ asked (crossing_rules one other) (in_words (λ w. crossing w one other)) image.now out.old }
    ensures promise { refusal image.now ≡ 0 → Promise (payload image.now) }
{
    let a = AllocId(one);
    let c = AllocId(other);
    ask(
        image,
        Question::OfPointers(PointerQuestion::Crossing(a, c)),
        out,
    )
}

// The chart for the review sheet, as text: series of 64 allocations, sheets of 60 lines, lines of 72 columns and a line feed.
pub fn sir_chart(image: &[u8], out: &mut [u8]) -> Answer
    ensures out_after { made result.number result.length out.new ≡ asked no_rules chart_text image.now out.old }
    ensures promise { refusal image.now ≡ 0 → Promise (payload image.now) }
{
    ask(image, Question::Chart, out)
}

// The records of an image: its payload words without padding. Written, they give the image back.
pub fn sir_records(image: &[u8], out: &mut [u8]) -> Answer
    ensures out_after { made result.number result.length out.new ≡ asked no_rules (in_words records_of) image.now out.old }
    ensures written_back { refusal image.now ≡ 0 → WrittenBack image.now }
    ensures page_rule { PageRule image.now }
{
    records(image, out)
}

// The pages of lent records: an image that is accepted and has those records, or the number that the reader would give.
pub fn sir_write(records: &[u8], out: &mut [u8]) -> Answer
    ensures out_after { made result.number result.length out.new ≡ written records.now out.old }
    ensures read_back { lent_refusal records.now ≡ 0 → ReadBack records.now }
    ensures readers_number { ReadersNumber records.now }
{
    write(records, out)
}
