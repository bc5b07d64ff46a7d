// The numbers from `start` to before `end`.
ghost use Rattle.std.specs.Prelude.{◌≡◌};

#[derive(Clone, Copy, PartialEq, Eq)]
pub struct Span {
    pub start: u32,
    pub end: u32,
}

impl Span {
    pub fn new(start: u32, end: u32) -> Span
        ensures { (result.start ≡ start) × (result.end ≡ end) }
    {
        Span { start, end }
    }
}
