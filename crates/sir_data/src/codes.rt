// What each operation code says of its operation, in tables by code.
ghost use Rattle.std.specs.Prelude.{◌≡◌, ◌<◌, ◌≤◌, map};
ghost use Rattle.plank_core.specs.Lists.{upto};
ghost use Rattle.sir_data.specs.inner.CodeRows.{row};
ghost use Rattle.sir_data.specs.Codes.{arity_ok, is_call, is_static_alloc, is_dynamic_alloc, is_alloc, derives, escaping};

// What an operation code says of its operation: how many inputs it takes and how many outputs it gives, where that is fixed; its
// escaping input positions, bit k for position k and bit 7 for every position from 7 up; and whether an output may point where the
// inputs point.
#[derive(Clone, Copy)]
pub struct Operation(pub u8, pub u8, pub u8, pub bool);

impl Operation {
    fn inputs(self) -> usize
        ensures { result ≡ self.0 }
    {
        usize::from(self.0)
    }

    fn outputs(self) -> usize
        ensures { result ≡ self.1 }
    {
        usize::from(self.1)
    }
}

// By code. A code stays the number that the image gives: an enum of 93 would only give each row its name a second time.
pub const OPERATIONS: [Operation; 93] = [
    Operation(2, 1, 0b0000_0010, false), // Keccak256
    Operation(1, 1, 0b1111_1111, false), // Balance
    Operation(1, 1, 0b1111_1111, false), // CallDataLoad
    Operation(3, 0, 0b0000_0110, false), // CallDataCopy
    Operation(3, 0, 0b0000_0110, false), // CodeCopy
    Operation(1, 1, 0b1111_1111, false), // ExtCodeSize
    Operation(4, 0, 0b0000_1101, false), // ExtCodeCopy
    Operation(3, 0, 0b0000_0110, false), // ReturnDataCopy
    Operation(1, 1, 0b1111_1111, false), // ExtCodeHash
    Operation(1, 1, 0b1111_1111, false), // BlockHash
    Operation(1, 1, 0b1111_1111, false), // BlobHash
    Operation(1, 1, 0b1111_1111, false), // SLoad
    Operation(2, 0, 0b1111_1111, false), // SStore
    Operation(1, 1, 0b1111_1111, false), // TLoad
    Operation(2, 0, 0b1111_1111, false), // TStore
    Operation(3, 1, 0b0000_0101, false), // Create
    Operation(4, 1, 0b0000_1101, false), // Create2
    Operation(7, 1, 0b0101_0111, false), // Call
    Operation(7, 1, 0b0101_0111, false), // CallCode
    Operation(6, 1, 0b0010_1011, false), // DelegateCall
    Operation(6, 1, 0b0010_1011, false), // StaticCall
    Operation(1, 1, 0b1111_1111, false), // DynamicAllocZeroed
    Operation(1, 1, 0b1111_1111, false), // DynamicAllocAnyBytes
    Operation(3, 0, 0b0000_0100, false), // MemoryCopy
    Operation(2, 0, 0b0000_0010, false), // MemoryStore
    Operation(0, 0, 0b1111_1111, false), // InternalCall
    Operation(0, 0, 0b1111_1111, false), // InternalCallNever
    Operation(2, 1, 0b0000_0000, true), // Add
    Operation(2, 1, 0b0000_0000, true), // Mul
    Operation(2, 1, 0b0000_0000, true), // Sub
    Operation(2, 1, 0b0000_0000, true), // Div
    Operation(2, 1, 0b0000_0000, true), // SDiv
    Operation(2, 1, 0b0000_0000, true), // Mod
    Operation(2, 1, 0b0000_0000, true), // SMod
    Operation(3, 1, 0b0000_0000, true), // AddMod
    Operation(3, 1, 0b0000_0000, true), // MulMod
    Operation(2, 1, 0b0000_0000, true), // Exp
    Operation(2, 1, 0b0000_0000, true), // SignExtend
    Operation(2, 1, 0b0000_0000, false), // Lt
    Operation(2, 1, 0b0000_0000, false), // Gt
    Operation(2, 1, 0b0000_0000, false), // SLt
    Operation(2, 1, 0b0000_0000, false), // SGt
    Operation(2, 1, 0b0000_0000, false), // Eq
    Operation(1, 1, 0b0000_0000, false), // IsZero
    Operation(2, 1, 0b0000_0000, true), // And
    Operation(2, 1, 0b0000_0000, true), // Or
    Operation(2, 1, 0b0000_0000, true), // Xor
    Operation(1, 1, 0b0000_0000, true), // Not
    Operation(2, 1, 0b0000_0000, true), // Byte
    Operation(2, 1, 0b0000_0000, true), // Shl
    Operation(2, 1, 0b0000_0000, true), // Shr
    Operation(2, 1, 0b0000_0000, true), // Sar
    Operation(1, 1, 0b0000_0000, false), // Clz
    Operation(0, 1, 0b0000_0000, false), // Address
    Operation(0, 1, 0b0000_0000, false), // Origin
    Operation(0, 1, 0b0000_0000, false), // Caller
    Operation(0, 1, 0b0000_0000, false), // CallValue
    Operation(0, 1, 0b0000_0000, false), // CallDataSize
    Operation(0, 1, 0b0000_0000, false), // CodeSize
    Operation(0, 1, 0b0000_0000, false), // GasPrice
    Operation(0, 1, 0b0000_0000, false), // ReturnDataSize
    Operation(0, 1, 0b0000_0000, false), // Gas
    Operation(0, 1, 0b0000_0000, false), // Coinbase
    Operation(0, 1, 0b0000_0000, false), // Timestamp
    Operation(0, 1, 0b0000_0000, false), // Number
    Operation(0, 1, 0b0000_0000, false), // Difficulty
    Operation(0, 1, 0b0000_0000, false), // GasLimit
    Operation(0, 1, 0b0000_0000, false), // ChainId
    Operation(0, 1, 0b0000_0000, false), // SelfBalance
    Operation(0, 1, 0b0000_0000, false), // BaseFee
    Operation(0, 1, 0b0000_0000, false), // BlobBaseFee
    Operation(2, 0, 0b0000_0000, false), // Log0
    Operation(3, 0, 0b1111_1100, false), // Log1
    Operation(4, 0, 0b1111_1100, false), // Log2
    Operation(5, 0, 0b1111_1100, false), // Log3
    Operation(6, 0, 0b1111_1100, false), // Log4
    Operation(2, 0, 0b0000_0000, false), // Return
    Operation(0, 0, 0b0000_0000, false), // Stop
    Operation(2, 0, 0b0000_0000, false), // Revert
    Operation(0, 0, 0b0000_0000, false), // Invalid
    Operation(1, 0, 0b0000_0000, false), // SelfDestruct
    Operation(0, 1, 0b0000_0000, false), // AcquireFreePointer
    Operation(0, 1, 0b0000_0000, false), // StaticAllocZeroed
    Operation(0, 1, 0b0000_0000, false), // StaticAllocAnyBytes
    Operation(1, 1, 0b0000_0000, false), // MemoryLoad
    Operation(1, 1, 0b0000_0000, true), // SetCopy
    Operation(0, 1, 0b0000_0000, false), // SetSmallConst
    Operation(0, 1, 0b0000_0000, false), // SetLargeConst
    Operation(0, 1, 0b0000_0000, false), // SetDataOffset
    Operation(0, 0, 0b0000_0000, false), // Noop
    Operation(0, 1, 0b0000_0000, false), // RuntimeStartOffset
    Operation(0, 1, 0b0000_0000, false), // InitEndOffset
    Operation(0, 1, 0b0000_0000, false), // RuntimeLength
];

// Are these operand counts right for the code? A call with results takes any to any, one without any to 0. The table is lent: whoever
// asks about many codes copies it once.
pub fn operand_counts_right(table: &[Operation], code: u32, inputs: usize, outputs: usize) -> bool
    requires table_value { table.now ≡ map row (upto 93) }
    requires code_bound { code ≤ 92 }
    ensures { result ≡ arity_ok code inputs outputs }
{
    if code == 25 {
        return true;
    }
    if code == 26 {
        return outputs == 0;
    }
    let operation = table[code as usize];
    inputs == operation.inputs() && outputs == operation.outputs()
}

// Is this bit of the code's mask set?
fn escapes_at(code: u32, bit: usize) -> bool
    requires code_bound { code ≤ 92 }
    requires bit_bound { bit < 8 }
    ensures { result ≡ escaping code bit }
{
    (OPERATIONS[code as usize].2 >> bit) & 1 == 1
}

// Does a pointer escape at this input position of the code?
pub fn operation_causes_ptr_escape(code: u32, position: usize) -> bool
    requires { code ≤ 92 }
    ensures { result ≡ escaping code position }
{
    if position < 7 {
        return escapes_at(code, position);
    }
    escapes_at(code, 7)
}

// May an output of the code point where its inputs point?
pub fn can_derive_pointer(code: u32) -> bool
    requires { code ≤ 92 }
    ensures { result ≡ derives code }
{
    OPERATIONS[code as usize].3
}

// Does the code make a static allocation?
pub fn is_static_alloc(code: u32) -> bool
    ensures { result ≡ is_static_alloc code }
{
    code == 82 || code == 83
}

// Does the code make a dynamic allocation?
pub fn is_dynamic_alloc(code: u32) -> bool
    ensures { result ≡ is_dynamic_alloc code }
{
    code == 21 || code == 22
}

// Does the code make an allocation?
pub fn is_alloc(code: u32) -> bool
    ensures { result ≡ is_alloc code }
{
    is_static_alloc(code) || is_dynamic_alloc(code)
}

// Does the code call a function?
pub fn is_call(code: u32) -> bool
    ensures { result ≡ is_call code }
{
    code == 25 || code == 26
}
