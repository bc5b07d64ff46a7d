// The lines of a chart: 72 columns, and a line feed beyond them. They are put by offsets into what the caller lends, since C lends it
// and nothing may be allocated.
ghost use Rattle.std.specs.Prelude.{◌≡◌, cond, ◌++◌, ◌∷◌, [], ◌+◌, ◌*◌, ◌/◌, ◌<◌, ◌≤◌, length, replicate};
ghost use Rattle.plank_core.specs.inner.Putting.{Put};
ghost use Rattle.sir_data.specs.Codes.{is_call};
ghost use Rattle.sir_data.specs.Records.{operations};
ghost use Rattle.sir_analyses.specs.Chart.{spaces, heading, blank_line, index, text_of};
ghost use Rattle.sir_answers.specs.inner.Columns.{digit_for, line_with};

use plank_core::index::{BlockId, OpIdx};
use plank_core::text::{put_byte, put_number, put_text};
use sir_data::codes::is_call;
use sir_data::well_formed::Image;

// The bytes of a line, its line feed among them.
pub const LINE: usize = 73;

// The lines of a sheet.
pub const SHEET: usize = 60;

// So many spaces.
fn put_spaces(line: &mut [u8], at: usize, count: usize) -> usize
    requires { at + count ≤ length line.old }
    ensures { Put (spaces count) at line.old line.new result }
{
    line[at..at + count].fill(b' ');
    at + count
}

// The digit of a number that counts so much; a space where the number is less.
fn digit_for(n: u32, unit: u32) -> u8
    requires { 0 < unit }
    ensures { result ≡ digit_for n unit }
{
    if n < unit {
        return b' ';
    }
    (48 + n / unit % 10) as u8
}

// An operation index, right-aligned in five columns.
fn put_index(line: &mut [u8], at: usize, o: OpIdx) -> usize
    requires { (o.0 < 100000) × (at + 5 ≤ length line.old) }
    ensures { Put (index o.0) at line.old line.new result }
{
    let a = put_byte(line, at, digit_for(o.0, 10000));
    let b = put_byte(line, a, digit_for(o.0, 1000));
    let c = put_byte(line, b, digit_for(o.0, 100));
    let d = put_byte(line, c, digit_for(o.0, 10));
    put_byte(line, d, (48 + o.0 % 10) as u8)
}

// `c` for the code of a call, else a space.
fn call_column(code: u32) -> u8
    ensures { result ≡ cond (is_call code) 99 32 }
{
    if is_call(code) {
        return b'c';
    }
    b' '
}

// The line of operation o, with the columns of a series.
pub fn put_op_line(image: Image, o: OpIdx, columns: &[u8], line: &mut [u8])
    requires o_bound { (o.0 < operations image.words.now) × (length columns.now ≡ 64) × (length line.old ≡ 73) }
    ensures { line.new ≡ line_with image.entry.words.now o.0 columns.now ++ (10 ∷ []) }
{
    let a = put_index(line, 0, o);
    let b = put_byte(line, a, b'|');
    let c = put_text(line, b, columns);
    let d = put_byte(line, c, b'|');
    let e = put_byte(line, d, call_column(image.op_word(o, 0)));
    put_byte(line, e, b'\n');
}

// The heading of block b.
pub fn put_heading(b: BlockId, line: &mut [u8])
    requires { (b.0 < 256) × (length line.old ≡ 73) }
    ensures { line.new ≡ heading b.0 ++ (10 ∷ []) }
{
    let a = put_text(line, 0, b"block ");
    let n = put_number(line, a, b.0);
    let m = put_spaces(line, n, 72 - n);
    put_byte(line, m, b'\n');
}

// A blank line.
fn put_blank(line: &mut [u8])
    requires { length line.old ≡ 73 }
    ensures { line.new ≡ blank_line ++ (10 ∷ []) }
{
    let m = put_spaces(line, 0, 72);
    put_byte(line, m, b'\n');
}

// As many blank lines as the slice has room for.
pub fn put_blanks(out: &mut [u8])
    requires { length out.old ≡ 73 * (length out.old / 73) }
    ensures { out.new ≡ text_of (replicate (length out.old / 73) blank_line) }
{
    // By index: after the borrow of a chunk a proof knows only its length.
    for k in 0..out.len() / LINE {
        let at = LINE * k;
        put_blank(&mut out[at..at + LINE]);
    }
}
