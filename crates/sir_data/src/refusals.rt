// Why a call is refused: each reason has a number, by which C knows it.
ghost use Rattle.std.specs.Prelude.{◌≡◌};
ghost use Rattle.sir_data.specs.Refusals.{number};

#[derive(Clone, Copy, Debug, PartialEq, Eq)]
pub enum Refusal {
    Length,
    PageNumber,
    PageCheck,
    Edition,
    Count,
    PageCount,
    Unknown,
    Range,
    OperandCount,
    OutputCount,
    RepeatedInput,
    SharedBase,
    UnknownId,
    ShortResult,
    NotInBlock,
}

impl From<Refusal> for u32 {
    ghost from_gives = { λ refusal n. n ≡ number refusal };

    fn from(refusal: Refusal) -> u32 {
        match refusal {
            Refusal::Length => 1,
            Refusal::PageNumber => 2,
            Refusal::PageCheck => 3,
            Refusal::Edition => 4,
            Refusal::Count => 5,
            Refusal::PageCount => 6,
            Refusal::Unknown => 7,
            Refusal::Range => 8,
            Refusal::OperandCount => 9,
            Refusal::OutputCount => 10,
            Refusal::RepeatedInput => 11,
            Refusal::SharedBase => 12,
            Refusal::UnknownId => 13,
            Refusal::ShortResult => 14,
            Refusal::NotInBlock => 15,
        }
    }
}
