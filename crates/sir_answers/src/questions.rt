// The questions that can be put to an image, by what they need: the order alone, liveness, or the pointers of allocations; and the chart,
// which needs all of these once its slice is long enough.
ghost use Rattle.std.specs.Prelude.{◌≡◌, not, cond, [], ◌∷◌, ◌≤◌, ltb, length};
ghost use Rattle.sir_data.specs.Refusals.{refused};
ghost use Rattle.sir_data.specs.Rules.{first};
ghost use Rattle.sir_analyses.specs.Open.{open_rules};
ghost use Rattle.sir_analyses.specs.inner.Discovery.{alloc_sites};
ghost use Rattle.sir_answers.specs.inner.Questions.{own_rules};

use plank_core::index::{AllocId, BlockId, LocalId, OpIdx};
use sir_data::refusals::Refusal;
use sir_data::well_formed::Image;

#[derive(Clone, Copy)]
pub enum OrderQuestion {
    Order,
    Predecessors(BlockId),
    Uses(LocalId),
    AllPredecessors,
    AllUses,
}

#[derive(Clone, Copy)]
pub enum LiveQuestion {
    EntrySet(BlockId),
    ExitSet(BlockId),
    Intervals(LocalId),
    Rounds,
    AllEntrySets,
    AllExitSets,
    AllIntervals,
}

#[derive(Clone, Copy)]
pub enum PointerQuestion {
    Allocation(AllocId),
    Owner(LocalId),
    AllAllocations,
    AllOwners,
    Open(BlockId, OpIdx),
    Crossing(AllocId, AllocId),
}

#[derive(Clone, Copy)]
pub enum Question {
    OfOrder(OrderQuestion),
    OfLiveness(LiveQuestion),
    OfPointers(PointerQuestion),
    Chart,
}

// Refuses an id that is not below its count.
fn id_refusal(id: u32, count: u32) -> Result<(), Refusal>
    ensures { refused result ≡ cond (not (ltb id count)) 13 0 }
{
    if id < count {
        return Ok(());
    }
    Err(Refusal::UnknownId)
}

// Refuses a block or an operation that is not below its count, then an operation that the block does not hold.
fn open_refusal(image: Image, b: BlockId, o: OpIdx) -> Result<(), Refusal>
    ensures { refused result ≡ first (open_rules b.0 o.0 image.entry.words.now) }
{
    id_refusal(b.0, image.block_count())?;
    id_refusal(o.0, image.operation_count())?;
    let span = image.operations(b);
    if o.0 < span.start || span.end <= o.0 {
        return Err(Refusal::NotInBlock);
    }
    Ok(())
}

// Refuses one of two allocations that is not below their count.
fn crossing_refusal(one: AllocId, other: AllocId, count: u32) -> Result<(), Refusal>
    ensures { refused result ≡ first ((13, not (ltb one.0 count)) ∷ (13, not (ltb other.0 count)) ∷ []) }
{
    id_refusal(one.0, count)?;
    id_refusal(other.0, count)
}

// The first of a question's own rules that applies, if one does.
pub fn own_refusal(image: Image, sites: &[u32], question: Question) -> Result<(), Refusal>
    requires sites_value { (sites.now ≡ alloc_sites image.words.now) × (length sites.now ≤ 512) }
    ensures { refused result ≡ first (own_rules question image.entry.words.now) }
{
    // A match, one line for each question: as closures these would be as many, each with the count that it asks.
    match question {
        Question::OfOrder(q) => match q {
            OrderQuestion::Order => Ok(()),
            OrderQuestion::Predecessors(b) => id_refusal(b.0, image.block_count()),
            OrderQuestion::Uses(v) => id_refusal(v.0, image.local_count()),
            OrderQuestion::AllPredecessors => Ok(()),
            OrderQuestion::AllUses => Ok(()),
        },
        Question::OfLiveness(q) => match q {
            LiveQuestion::EntrySet(b) => id_refusal(b.0, image.block_count()),
            LiveQuestion::ExitSet(b) => id_refusal(b.0, image.block_count()),
            LiveQuestion::Intervals(v) => id_refusal(v.0, image.local_count()),
            LiveQuestion::Rounds => Ok(()),
            LiveQuestion::AllEntrySets => Ok(()),
            LiveQuestion::AllExitSets => Ok(()),
            LiveQuestion::AllIntervals => Ok(()),
        },
        Question::OfPointers(q) => match q {
            PointerQuestion::Allocation(a) => id_refusal(a.0, sites.len() as u32),
            PointerQuestion::Owner(v) => id_refusal(v.0, image.local_count()),
            PointerQuestion::AllAllocations => Ok(()),
            PointerQuestion::AllOwners => Ok(()),
            PointerQuestion::Open(b, o) => open_refusal(image, b, o),
            PointerQuestion::Crossing(one, other) => {
                crossing_refusal(one, other, sites.len() as u32)
            }
        },
        Question::Chart => Ok(()),
    }
}
