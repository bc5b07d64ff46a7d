// The first nine words of an allocation's record.
ghost use Rattle.std.specs.Prelude.{◌≡◌, true, not, ◌<◌, eqb};
ghost use Rattle.plank_core.specs.Lists.{one_if};
ghost use Rattle.sir_data.specs.Records.{operations, code};
ghost use Rattle.sir_data.specs.Codes.{is_alloc};
ghost use Rattle.sir_analyses.specs.inner.Discovery.{head_words};
ghost use Rattle.sir_analyses.specs.Kinds.{kind_of, kind_words};
ghost use Rattle.sir_analyses.specs.inner.Writing.{Puts};

use crate::allocation_liveness::{AllocSite, base_ptr};
use crate::answers::put_words;
use plank_core::index::{LocalId, OpIdx};
use sir_data::codes::is_dynamic_alloc;
use sir_data::well_formed::Image;

// How an allocation gets its size: given, with a static id, or by a local.
#[derive(Clone, Copy)]
pub enum AllocKind {
    Static(u32, u32),
    Dynamic(LocalId),
}

// The kind of an allocation operation.
pub fn alloc_kind(image: Image, o: OpIdx) -> AllocKind
    requires o_bound { (o.0 < operations image.words.now) × (is_alloc (code image.words.now o.0) ≡ true) }
    ensures { result ≡ kind_of image.entry.words.now o.0 }
{
    if is_dynamic_alloc(image.op_word(o, 0)) {
        let inputs = image.op_inputs(o);
        AllocKind::Dynamic(LocalId(inputs[0]))
    } else {
        AllocKind::Static(image.op_word(o, 5), image.op_word(o, 6))
    }
}

// A kind as the three words of a record: which it is, the size and the static id.
fn kind_words(k: AllocKind) -> [u32; 3]
    ensures { result ≡ kind_words k }
{
    match k {
        AllocKind::Static(size, id) => [0, size, id],
        AllocKind::Dynamic(local) => [1, local.0, 0],
    }
}

// The mark that goes with some flags.
fn mark_of(flags: u32) -> u32
    ensures { result ≡ one_if (not (eqb flags 0)) }
{
    u32::from(flags != 0)
}

pub fn alloc_head(image: Image, site: AllocSite, flags: u32, count: u32) -> [u32; 9]
    requires op_bound { (site.op.0 < operations image.words.now) × (is_alloc (code image.words.now site.op.0) ≡ true) }
    ensures { result ≡ head_words image.entry.words.now site.block.0 site.op.0 flags count }
{
    let b = site.block;
    let o = site.op;
    let base = base_ptr(image, o);
    let [kind, size, id] = kind_words(alloc_kind(image, o));
    let mark = mark_of(flags);
    [b.0, o.0, base.0, kind, size, id, mark, flags, count]
}

// The same, put at the front of an answer.
pub fn put_head(image: Image, site: AllocSite, flags: u32, count: u32, out: &mut [u8]) -> usize
    requires op_bound { (site.op.0 < operations image.words.now) × (is_alloc (code image.words.now site.op.0) ≡ true) }
    ensures { Puts 0 (head_words image.entry.words.now site.block.0 site.op.0 flags count) out.old out.new result }
{
    let head = alloc_head(image, site, flags, count);
    put_words(out, 0, &head)
}
