// An image with the tables of its stages that go together. That a table is filled for the image's words is known of each value, so that
// what takes one asks for nothing more; and a function takes the one that has just the tables that it reads.
ghost use Rattle.std.specs.Prelude.{◌≡◌, not, ◌<◌, get_or, eqb};
ghost use Rattle.sir_analyses.specs.inner.Stages.{VisitStage, AcceptedStage, LivenessStage, PointerStage, rpo_in, visited_in, exits_in, sites_in, owners_in, owner_named, flags_in};

use crate::stages::{self, LIVE, POINTERS, VISIT};
use plank_core::index::{AllocId, BlockId, LocalId};
use sir_data::well_formed::Image;

// An image and its visit.
#[derive(Clone, Copy)]
pub struct Visited<'a> {
    pub image: Image<'a>,
    pub visit: &'a [u32; VISIT],
    pub ghost visit_stage: { VisitStage image.words.now visit.now },
}

impl<'a> Visited<'a> {
    // The blocks in the order's sequence.
    pub fn rpo(self) -> &'a [u32]
        ensures { result.now ≡ rpo_in self.entry.visit.now }
    {
        stages::rpo(self.visit)
    }

    // Whether block b was visited.
    pub fn is_visited(self, b: BlockId) -> bool
        requires { b.0 < 256 }
        ensures { result ≡ visited_in self.entry.visit.now b.0 }
    {
        stages::is_visited(self.visit, b)
    }
}

// An accepted image: its visit, and the sites of its allocations.
#[derive(Clone, Copy)]
pub struct Accepted<'a> {
    pub image: Image<'a>,
    pub visit: &'a [u32; VISIT],
    pub sites: &'a [u32],
    pub ghost visit_stage: { VisitStage image.words.now visit.now },
    pub ghost accepted_stage: { AcceptedStage image.words.now sites.now },
}

impl<'a> Accepted<'a> {
    // Without the other tables.
    pub fn visited(self) -> Visited<'a>
        ensures { (result.image ≡ self.entry.image) × (result.visit ≡ self.entry.visit) }
    {
        Visited {
            image: self.image,
            visit: self.visit,
        }
    }
}

// An image and its tables of liveness.
#[derive(Clone, Copy)]
pub struct LiveSets<'a> {
    pub image: Image<'a>,
    pub live: &'a [u64; LIVE],
    pub ghost liveness_stage: { LivenessStage image.words.now live.now },
}

impl<'a> LiveSets<'a> {
    // The exit set of each block.
    pub fn exits(self) -> &'a [u64]
        ensures { result.now ≡ exits_in self.entry.live.now }
    {
        stages::exits(self.live)
    }
}

// An image, its visit and its tables of liveness.
#[derive(Clone, Copy)]
pub struct Analysed<'a> {
    pub image: Image<'a>,
    pub visit: &'a [u32; VISIT],
    pub live: &'a [u64; LIVE],
    pub ghost visit_stage: { VisitStage image.words.now visit.now },
    pub ghost liveness_stage: { LivenessStage image.words.now live.now },
}

impl<'a> Analysed<'a> {
    // Without the other tables.
    pub fn visited(self) -> Visited<'a>
        ensures { (result.image ≡ self.entry.image) × (result.visit ≡ self.entry.visit) }
    {
        Visited {
            image: self.image,
            visit: self.visit,
        }
    }

    // The tables of liveness alone.
    pub fn live_sets(self) -> LiveSets<'a>
        ensures { (result.image ≡ self.entry.image) × (result.live ≡ self.entry.live) }
    {
        LiveSets {
            image: self.image,
            live: self.live,
        }
    }
}

// An image and its tables of pointers.
#[derive(Clone, Copy)]
pub struct Pointed<'a> {
    pub image: Image<'a>,
    pub pointers: &'a [u32; POINTERS],
    pub ghost pointer_stage: { PointerStage image.words.now pointers.now },
}

impl<'a> Pointed<'a> {
    // The sites of all allocations.
    pub fn sites(self) -> &'a [u32]
        ensures { result.now ≡ sites_in self.entry.pointers.now }
    {
        stages::alloc_sites(self.pointers)
    }

    // The owner of local v, as answers give it: its allocation + 1, or 0.
    pub fn owner_of(self, v: LocalId) -> u32
        requires { v.0 < 512 }
        ensures { result ≡ get_or (owners_in self.entry.pointers.now) v.0 0 }
    {
        stages::owner_of(self.pointers, v)
    }

    // The allocation that owns local v.
    pub fn owner(self, v: LocalId) -> Option<AllocId>
        requires { v.0 < 512 }
        ensures { result ≡ owner_named (get_or (owners_in self.entry.pointers.now) v.0 0) }
    {
        stages::owner(self.pointers, v)
    }

    // The flags of allocation a.
    pub fn flags_of(self, a: AllocId) -> u32
        requires { a.0 < 512 }
        ensures { result ≡ get_or (flags_in self.entry.pointers.now) a.0 0 }
    {
        stages::flags_of(self.pointers, a)
    }

    // Whether allocation a is marked: some flag is set.
    pub fn is_marked(self, a: AllocId) -> bool
        requires { a.0 < 512 }
        ensures { result ≡ not (eqb (get_or (flags_in self.entry.pointers.now) a.0 0) 0) }
    {
        stages::is_marked(self.pointers, a)
    }
}

// An image, its visit and its tables of pointers.
#[derive(Clone, Copy)]
pub struct Followed<'a> {
    pub image: Image<'a>,
    pub visit: &'a [u32; VISIT],
    pub pointers: &'a [u32; POINTERS],
    pub ghost visit_stage: { VisitStage image.words.now visit.now },
    pub ghost pointer_stage: { PointerStage image.words.now pointers.now },
}

impl<'a> Followed<'a> {
    // Without the other tables.
    pub fn visited(self) -> Visited<'a>
        ensures { (result.image ≡ self.entry.image) × (result.visit ≡ self.entry.visit) }
    {
        Visited {
            image: self.image,
            visit: self.visit,
        }
    }

    // The tables of pointers alone.
    pub fn pointed(self) -> Pointed<'a>
        ensures { (result.image ≡ self.entry.image) × (result.pointers ≡ self.entry.pointers) }
    {
        Pointed {
            image: self.image,
            pointers: self.pointers,
        }
    }
}

// An image and all tables of its stages.
#[derive(Clone, Copy)]
pub struct Tables<'a> {
    pub image: Image<'a>,
    pub visit: &'a [u32; VISIT],
    pub live: &'a [u64; LIVE],
    pub pointers: &'a [u32; POINTERS],
    pub ghost visit_stage: { VisitStage image.words.now visit.now },
    pub ghost liveness_stage: { LivenessStage image.words.now live.now },
    pub ghost pointer_stage: { PointerStage image.words.now pointers.now },
}

impl<'a> Tables<'a> {
    // Without the tables of pointers.
    pub fn analysed(self) -> Analysed<'a>
        ensures { (result.image ≡ self.entry.image) × (result.visit ≡ self.entry.visit) × (result.live ≡ self.entry.live) }
    {
        Analysed {
            image: self.image,
            visit: self.visit,
            live: self.live,
        }
    }

    // Without the other tables.
    pub fn visited(self) -> Visited<'a>
        ensures { (result.image ≡ self.entry.image) × (result.visit ≡ self.entry.visit) }
    {
        Visited {
            image: self.image,
            visit: self.visit,
        }
    }

    // The tables of liveness alone.
    pub fn live_sets(self) -> LiveSets<'a>
        ensures { (result.image ≡ self.entry.image) × (result.live ≡ self.entry.live) }
    {
        LiveSets {
            image: self.image,
            live: self.live,
        }
    }

    // The tables of pointers alone.
    pub fn pointed(self) -> Pointed<'a>
        ensures { (result.image ≡ self.entry.image) × (result.pointers ≡ self.entry.pointers) }
    {
        Pointed {
            image: self.image,
            pointers: self.pointers,
        }
    }
}
