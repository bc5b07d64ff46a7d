// The tables of pointers, and the record of an allocation.
ghost use Rattle.std.specs.Prelude.{◌≡◌, true, ◌&&◌, ℕ, ◌+◌, ◌<◌, length, get_or, replicate, eqb, ltb};
ghost use Rattle.plank_core.specs.Lists.{bind};
ghost use Rattle.plank_core.specs.inner.DenseIndexSet.{contains};
ghost use Rattle.sir_data.specs.Pages.{bytes_of};
ghost use Rattle.sir_data.specs.Records.{locals};
ghost use Rattle.sir_analyses.specs.Allocation.{allocs, marked};
ghost use Rattle.sir_analyses.specs.Answers.{allocation_answer};
ghost use Rattle.sir_analyses.specs.Calls.{answered};
ghost use Rattle.sir_analyses.specs.inner.Outcomes.{outcome};
ghost use Rattle.sir_analyses.specs.inner.Discovery.{Site, FlagsOf, Unmarked};
ghost use Rattle.sir_analyses.specs.inner.Stages.{PointerStage, owners_in};

use crate::allocation_liveness::{AllocSite, discover_allocations, site_of};
use crate::allocation_words::put_head;
use crate::answers::finish;
use crate::merged_intervals::populate_intervals_from_local_liveness;
use crate::pointer_links::pointer_links;
use crate::staged::{Accepted, Analysed, Tables};
use crate::stages::{CAUSES, LINKS, POINTERS, owner};
use plank_core::index::{AllocId, LocalId};
use plank_core::rows::row_add;
use sir_data::refusals::Refusal;
use sir_data::well_formed::Image;

// Adds the locals that allocation a owns to an empty set.
pub fn owned_locals(image: Image, pointers: &[u32; POINTERS], a: AllocId, set: &mut [u64])
    requires a_bound { (a.0 < 512) × (set.old ≡ replicate 8 0) }
    ensures { (length set.new ≡ 8) × ((v : ℕ) → v < 512 → contains set.new v ≡ (ltb v (locals image.entry.words.now) && eqb (get_or (owners_in pointers.now) v 0) (a.0 + 1))) }
{
    let count = image.local_count();
    for v in 0..count {
        if owner(pointers, LocalId(v)) == Some(a) {
            row_add(set, 0, v);
        }
    }
}

// The record of a marked allocation, with its flags: it has no intervals.
pub fn marked_answer(
    image: Image,
    site: AllocSite,
    flags: u32,
    out: &mut [u8],
) -> Result<usize, Refusal>
    requires by_index { (a : ℕ) × Site image.words.now a site.block.0 site.op.0 }
    ensures { (a : ℕ) → Site image.entry.words.now a site.block.0 site.op.0 → FlagsOf image.entry.words.now a flags → marked image.entry.words.now a ≡ true → outcome result out.new ≡ answered (bind (allocation_answer image.entry.words.now a) bytes_of) out.old }
{
    let end = finish(9, out.len())?;
    put_head(image, site, flags, 0, &mut out[..end]);
    Ok(end)
}

// The record of an unmarked allocation, from the locals of its reach: its intervals are counted, then put after its head.
fn record_answer(
    analysed: Analysed,
    site: AllocSite,
    reach: &[u64],
    out: &mut [u8],
) -> Result<usize, Refusal>
    requires by_index { (a : ℕ) × Unmarked analysed.image.words.now site.block.0 site.op.0 reach.now a }
    ensures { (a : ℕ) → Unmarked analysed.entry.image.words.now site.block.0 site.op.0 reach.now a → outcome result out.new ≡ answered (bind (allocation_answer analysed.entry.image.words.now a) bytes_of) out.old }
{
    let n = populate_intervals_from_local_liveness(analysed, reach, 9, &mut []);
    let end = finish(n, out.len())?;
    let count = ((n - 9) / 3) as u32;
    put_head(analysed.image, site, 0, count, &mut out[..end]);
    populate_intervals_from_local_liveness(analysed, reach, 9, &mut out[..end]);
    Ok(end)
}

// The record of allocation a, from the tables of liveness and of pointers.
pub fn allocation_answer(tables: Tables, a: AllocId, out: &mut [u8]) -> Result<usize, Refusal>
    requires a_bound { a.0 < length (allocs tables.image.words.now) }
    ensures { outcome result out.new ≡ answered (bind (allocation_answer tables.entry.image.words.now a.0) bytes_of) out.old }
{
    let pointed = tables.pointed();
    let site = site_of(pointed.sites(), a);
    if pointed.is_marked(a) {
        return marked_answer(tables.image, site, pointed.flags_of(a), out);
    }
    let mut reach = [0u64; 8];
    owned_locals(tables.image, tables.pointers, a, &mut reach);
    record_answer(tables.analysed(), site, &reach, out)
}

// All tables of pointers, to an array that is empty at first.
pub fn compute_pointers(accepted: Accepted, pointers: &mut [u32; POINTERS])
    requires pointers_value { pointers.old ≡ replicate 2051 0 }
    ensures { PointerStage accepted.entry.image.words.now pointers.new }
{
    let mut links = [0u64; LINKS];
    let mut causes = [0u64; CAUSES];
    pointer_links(accepted.visited(), &mut links, &mut causes);
    discover_allocations(accepted.image, accepted.sites, &links, &causes, pointers);
}
