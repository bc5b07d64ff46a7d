// How control leaves a block, by the number that its record gives.
ghost use Rattle.sir_data.specs.inner.Cases.{Decodes};

#[derive(Clone, Copy, Debug, PartialEq, Eq)]
pub enum Control {
    LastOpTerminates,
    InternalReturn,
    ContinuesTo,
    Branches,
    Switch,
}

// A number that is no kind of control.
#[derive(Clone, Copy, Debug, PartialEq, Eq)]
pub struct UnknownControl(pub u32);

impl TryFrom<u32> for Control {
    type Error = UnknownControl;

    ghost try_from_gives = { Decodes };

    fn try_from(kind: u32) -> Result<Control, UnknownControl> {
        match kind {
            0 => Ok(Control::LastOpTerminates),
            1 => Ok(Control::InternalReturn),
            2 => Ok(Control::ContinuesTo),
            3 => Ok(Control::Branches),
            4 => Ok(Control::Switch),
            _ => Err(UnknownControl(kind)),
        }
    }
}
