// Texts in a line. Each is put after the first `at` bytes of a line; the answer is where it ends.
ghost use Rattle.std.specs.Prelude.{◌+◌, ◌≤◌, ◌<◌, ◌∷◌, [], length};
ghost use Rattle.plank_core.specs.Text.{number};
ghost use Rattle.plank_core.specs.inner.Putting.{Put};

// One byte.
pub fn put_byte(line: &mut [u8], at: usize, byte: u8) -> usize
    requires { at < length line.old }
    ensures { Put (byte ∷ []) at line.old line.new result }
{
    line[at] = byte;
    at + 1
}

// Some bytes as they are.
pub fn put_text(line: &mut [u8], at: usize, text: &[u8]) -> usize
    requires { at + length text.now ≤ length line.old }
    ensures { Put text.now at line.old line.new result }
{
    let end = at + text.len();
    line[at..end].copy_from_slice(text);
    end
}

// The decimal digits of a number.
fn put_digits(line: &mut [u8], at: usize, n: u32) -> usize
    requires { at + length (number n) ≤ length line.old }
    ensures { Put (number n) at line.old line.new result }
{
    if n < 10 {
        return put_byte(line, at, (48 + n) as u8);
    }
    let m = put_digits(line, at, n / 10);
    put_byte(line, m, (48 + n % 10) as u8)
}

// A number, which has ten digits at most.
pub fn put_number(line: &mut [u8], at: usize, n: u32) -> usize
    requires { at + 10 ≤ length line.old }
    ensures { Put (number n) at line.old line.new result }
{
    put_digits(line, at, n)
}
