// What every question starts from: reading the image, the visit of its functions and blocks, and rule 12.
ghost use Rattle.std.specs.Prelude.{◌≡◌, cond, length, replicate, IfOk};
ghost use Rattle.sir_data.specs.Pages.{payload};
ghost use Rattle.sir_data.specs.Refusals.{refused};
ghost use Rattle.sir_analyses.specs.Allocation.{rule12};
ghost use Rattle.sir_analyses.specs.Calls.{refusal};
ghost use Rattle.sir_analyses.specs.inner.Loading.{VisitPrepared, Prepared};

use crate::allocation_liveness::{find_allocations, rule_12};
use crate::reverse_post_order::compute_visit;
use crate::staged::Visited;
use crate::stages::VISIT;
use sir_data::image::read_image;
use sir_data::refusals::Refusal;
use sir_data::well_formed::Image;

// How many words, finished functions and blocks, and allocations stand in the arrays.
#[derive(Clone, Copy)]
pub struct Sizes {
    pub words: usize,
    pub finished: usize,
    pub allocations: usize,
}

// The visit and the allocations of an image's words, where rule 12, the last one, does not refuse them.
pub fn load_visit(
    image: Image,
    postorder: &mut [u32],
    visit: &mut [u32; VISIT],
    sites: &mut [u32],
) -> Result<Sizes, Refusal>
    requires postorder_len { length postorder.old ≡ 320 }
    requires visit_value { (visit.old ≡ replicate 513 0) × (length sites.old ≡ 512) }
    ensures number { refused result ≡ cond (rule12 image.entry.words.now) 12 0 }
    ensures prepared { IfOk result (λ n. (n.words ≡ length image.entry.words.now) × VisitPrepared image.entry.words.now postorder.new visit.new sites.new n.finished n.allocations) }
{
    let finished = compute_visit(image, postorder, visit);
    let Some(allocations) = find_allocations(Visited { image, visit }, sites) else {
        return Err(Refusal::SharedBase);
    };
    if rule_12(image, &sites[..allocations]) {
        return Err(Refusal::SharedBase);
    }
    Ok(Sizes {
        words: image.words.len(),
        finished,
        allocations,
    })
}

// All that is prepared from an image, where no rule refuses it.
pub fn load(
    image: &[u8],
    words: &mut [u32],
    postorder: &mut [u32],
    visit: &mut [u32; VISIT],
    sites: &mut [u32],
) -> Result<Sizes, Refusal>
    requires words_len { (length words.old ≡ 14742) × (length postorder.old ≡ 320) }
    requires visit_value { (visit.old ≡ replicate 513 0) × (length sites.old ≡ 512) }
    ensures number { refused result ≡ refusal image.now }
    ensures prepared { IfOk result (λ n. Prepared (payload image.now) words.new postorder.new visit.new sites.new n.words n.finished n.allocations) }
{
    let n = read_image(image, words)?;
    load_visit(Image { words: &words[..n] }, postorder, visit, sites)
}
