// Numbers of different kinds are different types, as the source's `Idx` ids are.
#[derive(Clone, Copy, PartialEq, Eq)]
pub struct BlockId(pub u32);

#[derive(Clone, Copy, PartialEq, Eq)]
pub struct LocalId(pub u32);

#[derive(Clone, Copy, PartialEq, Eq)]
pub struct OpIdx(pub u32);

#[derive(Clone, Copy, PartialEq, Eq)]
pub struct AllocId(pub u32);

#[derive(Clone, Copy, PartialEq, Eq)]
pub struct FunctionId(pub u32);
