// What C calls: the functions of `sir_capi`, each exported under its name and with its contract again; `crates/sir_capi/src/lib.rt`
// says what the clauses mean. A slice crosses as a pointer and a length in bytes, an `Answer` by value (`include/sir_analyses.h`).
#![tactic(auto)]

ghost use Rattle.std.specs.Prelude.{◌≡◌, length};
ghost use Rattle.sir_data.specs.Pages.{payload};
ghost use Rattle.sir_data.specs.Records.{blocks, locals};
ghost use Rattle.sir_data.specs.Paging.{records_of};
ghost use Rattle.sir_analyses.specs.All.{all};
ghost use Rattle.sir_analyses.specs.Allocation.{allocs};
ghost use Rattle.sir_analyses.specs.Answers.{order_answer, predecessors_answer, uses_answer, entry_answer, exit_answer, rounds_answer, intervals_answer, allocation_answer, owner_answer};
ghost use Rattle.sir_analyses.specs.Calls.{made, refusal, asked, no_rules, known, in_words};
ghost use Rattle.sir_analyses.specs.Chart.{chart_text};
ghost use Rattle.sir_analyses.specs.Open.{open_at, open_rules, crossing, crossing_rules};
ghost use Rattle.sir_analyses.specs.Promise.{Promise};
ghost use Rattle.sir_analyses.specs.WriteBack.{lent_refusal, written, PageRule, WrittenBack, ReadBack, ReadersNumber};

use sir_analyses::answers::Answer;

// For each function of `functions_rpo`: its id, its block count, its block ids.
#[unsafe(no_mangle)]
pub extern "C" fn sir_order(image: &[u8], out: &mut [u8]) -> Answer
    ensures out_after { made result.number result.length out.new ≡ asked no_rules (in_words order_answer) image.now out.old }
    ensures promise { refusal image.now ≡ 0 → Promise (payload image.now) }
{
    sir_capi::sir_order(image, out)
}

// The predecessors of a block, repeats kept.
#[unsafe(no_mangle)]
pub extern "C" fn sir_predecessors(image: &[u8], block: u32, out: &mut [u8]) -> Answer
    ensures out_after { made result.number result.length out.new ≡ asked (known blocks block) (in_words (λ w. predecessors_answer w block)) image.now out.old }
    ensures promise { refusal image.now ≡ 0 → Promise (payload image.now) }
{
    sir_capi::sir_predecessors(image, block, out)
}

// The uses of a local, three words each: block, kind, then operation, 0, or position.
#[unsafe(no_mangle)]
pub extern "C" fn sir_uses(image: &[u8], local: u32, out: &mut [u8]) -> Answer
    ensures out_after { made result.number result.length out.new ≡ asked (known locals local) (in_words (λ w. uses_answer w local)) image.now out.old }
    ensures promise { refusal image.now ≡ 0 → Promise (payload image.now) }
{
    sir_capi::sir_uses(image, local, out)
}

// The locals that are live at the entry of a block, ascending.
#[unsafe(no_mangle)]
pub extern "C" fn sir_entry_set(image: &[u8], block: u32, out: &mut [u8]) -> Answer
    ensures out_after { made result.number result.length out.new ≡ asked (known blocks block) (in_words (λ w. entry_answer w block)) image.now out.old }
    ensures promise { refusal image.now ≡ 0 → Promise (payload image.now) }
{
    sir_capi::sir_entry_set(image, block, out)
}

// The locals that are live at the exit of a block, ascending.
#[unsafe(no_mangle)]
pub extern "C" fn sir_exit_set(image: &[u8], block: u32, out: &mut [u8]) -> Answer
    ensures out_after { made result.number result.length out.new ≡ asked (known blocks block) (in_words (λ w. exit_answer w block)) image.now out.old }
    ensures promise { refusal image.now ≡ 0 → Promise (payload image.now) }
{
    sir_capi::sir_exit_set(image, block, out)
}

// The passes of liveness until one adds nothing, that one counted.
#[unsafe(no_mangle)]
pub extern "C" fn sir_rounds(image: &[u8], out: &mut [u8]) -> Answer
    ensures out_after { made result.number result.length out.new ≡ asked no_rules (in_words rounds_answer) image.now out.old }
    ensures promise { refusal image.now ≡ 0 → Promise (payload image.now) }
{
    sir_capi::sir_rounds(image, out)
}

// The intervals of a local, three words each: block, start, end.
#[unsafe(no_mangle)]
pub extern "C" fn sir_intervals(image: &[u8], local: u32, out: &mut [u8]) -> Answer
    ensures out_after { made result.number result.length out.new ≡ asked (known locals local) (in_words (λ w. intervals_answer w local)) image.now out.old }
    ensures promise { refusal image.now ≡ 0 → Promise (payload image.now) }
{
    sir_capi::sir_intervals(image, local, out)
}

// An allocation: defining block, operation, base local, kind, size or size local, static id, mark, flags, interval count, intervals.
#[unsafe(no_mangle)]
pub extern "C" fn sir_allocation(image: &[u8], allocation: u32, out: &mut [u8]) -> Answer
    ensures out_after { made result.number result.length out.new ≡ asked (known (λ w. length (allocs w)) allocation) (in_words (λ w. allocation_answer w allocation)) image.now out.old }
    ensures promise { refusal image.now ≡ 0 → Promise (payload image.now) }
{
    sir_capi::sir_allocation(image, allocation, out)
}

// The owner of a local: allocation + 1, or 0.
#[unsafe(no_mangle)]
pub extern "C" fn sir_owner(image: &[u8], local: u32, out: &mut [u8]) -> Answer
    ensures out_after { made result.number result.length out.new ≡ asked (known locals local) (in_words (λ w. owner_answer w local)) image.now out.old }
    ensures promise { refusal image.now ≡ 0 → Promise (payload image.now) }
{
    sir_capi::sir_owner(image, local, out)
}

// The predecessors of all blocks, each after its length in words.
#[unsafe(no_mangle)]
pub extern "C" fn sir_all_predecessors(image: &[u8], out: &mut [u8]) -> Answer
    ensures out_after { made result.number result.length out.new ≡ asked no_rules (in_words (all blocks predecessors_answer)) image.now out.old }
    ensures promise { refusal image.now ≡ 0 → Promise (payload image.now) }
{
    sir_capi::sir_all_predecessors(image, out)
}

// The entry sets of all blocks, each after its length in words.
#[unsafe(no_mangle)]
pub extern "C" fn sir_all_entry_sets(image: &[u8], out: &mut [u8]) -> Answer
    ensures out_after { made result.number result.length out.new ≡ asked no_rules (in_words (all blocks entry_answer)) image.now out.old }
    ensures promise { refusal image.now ≡ 0 → Promise (payload image.now) }
{
    sir_capi::sir_all_entry_sets(image, out)
}

// The exit sets of all blocks, each after its length in words.
#[unsafe(no_mangle)]
pub extern "C" fn sir_all_exit_sets(image: &[u8], out: &mut [u8]) -> Answer
    ensures out_after { made result.number result.length out.new ≡ asked no_rules (in_words (all blocks exit_answer)) image.now out.old }
    ensures promise { refusal image.now ≡ 0 → Promise (payload image.now) }
{
    sir_capi::sir_all_exit_sets(image, out)
}

// The uses of all locals, each after its length in words.
#[unsafe(no_mangle)]
pub extern "C" fn sir_all_uses(image: &[u8], out: &mut [u8]) -> Answer
    ensures out_after { made result.number result.length out.new ≡ asked no_rules (in_words (all locals uses_answer)) image.now out.old }
    ensures promise { refusal image.now ≡ 0 → Promise (payload image.now) }
{
    sir_capi::sir_all_uses(image, out)
}

// The intervals of all locals, each after its length in words.
#[unsafe(no_mangle)]
pub extern "C" fn sir_all_intervals(image: &[u8], out: &mut [u8]) -> Answer
    ensures out_after { made result.number result.length out.new ≡ asked no_rules (in_words (all locals intervals_answer)) image.now out.old }
    ensures promise { refusal image.now ≡ 0 → Promise (payload image.now) }
{
    sir_capi::sir_all_intervals(image, out)
}

// The records of all allocations, each after its length in words.
#[unsafe(no_mangle)]
pub extern "C" fn sir_all_allocations(image: &[u8], out: &mut [u8]) -> Answer
    ensures out_after { made result.number result.length out.new ≡ asked no_rules (in_words (all (λ w. length (allocs w)) allocation_answer)) image.now out.old }
    ensures promise { refusal image.now ≡ 0 → Promise (payload image.now) }
{
    sir_capi::sir_all_allocations(image, out)
}

// The owners of all locals, each after its length in words.
#[unsafe(no_mangle)]
pub extern "C" fn sir_all_owners(image: &[u8], out: &mut [u8]) -> Answer
    ensures out_after { made result.number result.length out.new ≡ asked no_rules (in_words (all locals owner_answer)) image.now out.old }
    ensures promise { refusal image.now ≡ 0 → Promise (payload image.now) }
{
    sir_capi::sir_all_owners(image, out)
}

// The unmarked allocations with an interval over an operation of a block, by number. 15: the block does not hold the operation.
#[unsafe(no_mangle)]
pub extern "C" fn sir_open(image: &[u8], block: u32, operation: u32, out: &mut [u8]) -> Answer
    ensures out_after { made result.number result.length out.new ≡ asked (open_rules block operation) (in_words (λ w. open_at w block operation)) image.now out.old }
    ensures promise { refusal image.now ≡ 0 → Promise (payload image.now) }
{
    sir_capi::sir_open(image, block, operation, out)
}

// Whether two allocations cross: 1 or 0, then block + 1 and operation + 1 of the first operation in intervals of both, where one is named.
#[unsafe(no_mangle)]
pub extern "C" fn sir_crossing(image: &[u8], one: u32, other: u32, out: &mut [u8]) -> Answer
    ensures out_after { made result.number result.length out.new ≡ asked (crossing_rules one other) (in_words (λ w. crossing w one other)) image.now out.old }
    ensures promise { refusal image.now ≡ 0 → Promise (payload image.now) }
{
    sir_capi::sir_crossing(image, one, other, out)
}

// The chart for the review sheet, as text: series of 64 allocations, sheets of 60 lines, lines of 72 columns and a line feed.
#[unsafe(no_mangle)]
pub extern "C" fn sir_chart(image: &[u8], out: &mut [u8]) -> Answer
    ensures out_after { made result.number result.length out.new ≡ asked no_rules chart_text image.now out.old }
    ensures promise { refusal image.now ≡ 0 → Promise (payload image.now) }
{
    sir_capi::sir_chart(image, out)
}

// The records of an image: its payload words without padding. Written, they give the image back.
#[unsafe(no_mangle)]
pub extern "C" fn sir_records(image: &[u8], out: &mut [u8]) -> Answer
    ensures out_after { made result.number result.length out.new ≡ asked no_rules (in_words records_of) image.now out.old }
    ensures written_back { refusal image.now ≡ 0 → WrittenBack image.now }
    ensures page_rule { PageRule image.now }
{
    sir_capi::sir_records(image, out)
}

// The pages of lent records: an image that is accepted and has those records, or the number that the reader would give.
#[unsafe(no_mangle)]
pub extern "C" fn sir_write(records: &[u8], out: &mut [u8]) -> Answer
    ensures out_after { made result.number result.length out.new ≡ written records.now out.old }
    ensures read_back { lent_refusal records.now ≡ 0 → ReadBack records.now }
    ensures readers_number { ReadersNumber records.now }
{
    sir_capi::sir_write(records, out)
}
