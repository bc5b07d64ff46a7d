// Pieces of a line. Each is put after the first `at` bytes of a line; the answer is where it ends. Below them pieces that are written to a
// formatter, for callers with no line to lend; a report is printed without them.
ghost use Rattle.std.specs.Prelude.{Some, ◌≡◌, ◌+◌, ◌*◌, ◌≤◌, ◌<◌, length};
ghost use Rattle.std.specs.Fmt.{DisplaysOnOk};
ghost use Rattle.plank_core.specs.Lists.{bind};
ghost use Rattle.sir_data.specs.Pages.{word_at};
ghost use Rattle.report_lines.specs.Lines.{named, locals_text, blocks_text, members_text, start_text, end_text, interval};
ghost use Rattle.plank_core.specs.inner.DenseIndexSet.{members};
ghost use Rattle.plank_core.specs.inner.Putting.{Put};
ghost use Rattle.report_lines.specs.inner.AnswerLines.{interval_at, intervals_at, EndsSome};

use plank_core::dense_index_set::list;
use plank_core::text::{put_number, put_text};
use sir_data::pages::word_at;
use std::fmt;

// A name of at most three bytes and a number.
pub fn put_named(line: &mut [u8], at: usize, name: &[u8], n: u32) -> usize
    requires { (length name.now ≤ 3) × (at + 13 ≤ length line.old) }
    ensures { Put (named name.now n) at line.old line.new result }
{
    let m = put_text(line, at, name);
    put_number(line, m, n)
}

// A name and a number for each of some ids.
fn put_ids(line: &mut [u8], at: usize, name: &[u8], ids: &[u32]) -> usize
    requires { (length name.now ≤ 3) × (at + 13 * length ids.now ≤ length line.old) }
    ensures { Put (bind ids.now (named name.now)) at line.old line.new result }
{
    let mut m = at;
    for id in ids {
        m = put_named(line, m, name, *id);
    }
    m
}

// Each of some locals.
pub fn put_locals(line: &mut [u8], at: usize, ids: &[u32]) -> usize
    requires { at + 13 * length ids.now ≤ length line.old }
    ensures { Put (locals_text ids.now) at line.old line.new result }
{
    put_ids(line, at, b" v", ids)
}

// Each of some blocks.
pub fn put_blocks(line: &mut [u8], at: usize, ids: &[u32]) -> usize
    requires { at + 13 * length ids.now ≤ length line.old }
    ensures { Put (blocks_text ids.now) at line.old line.new result }
{
    put_ids(line, at, b" b", ids)
}

// The members of a set; a hyphen where it is empty.
pub fn put_members(line: &mut [u8], at: usize, ids: &[u32]) -> usize
    requires { (at + 2 ≤ length line.old) × (at + 13 * length ids.now ≤ length line.old) }
    ensures { Put (members_text ids.now) at line.old line.new result }
{
    if ids.len() == 0 {
        return put_text(line, at, b" -");
    }
    put_locals(line, at, ids)
}

// The operation at which an interval starts, or the block's start.
pub fn put_start(line: &mut [u8], at: usize, start: u32) -> usize
    requires { at + 10 ≤ length line.old }
    ensures { Put (start_text start) at line.old line.new result }
{
    if start == 0 {
        return put_text(line, at, b"start");
    }
    put_number(line, at, start - 1)
}

// The operation at which an interval ends, or the block's end.
pub fn put_end(line: &mut [u8], at: usize, end: u32) -> usize
    requires { (at + 10 ≤ length line.old) × (0 < end) }
    ensures { Put (end_text end) at line.old line.new result }
{
    if end == u32::MAX {
        return put_text(line, at, b"end");
    }
    put_number(line, at, end - 1)
}

// An interval: its block, its start and its end.
pub fn put_interval(line: &mut [u8], at: usize, block: u32, start: u32, end: u32) -> usize
    requires { (at + 36 ≤ length line.old) × (0 < end) }
    ensures { Put (interval block start end) at line.old line.new result }
{
    let b = put_named(line, at, b" b", block);
    let s = put_text(line, b, b" ");
    let d = put_start(line, s, start);
    let e = put_text(line, d, b"..");
    put_end(line, e, end)
}

// The interval of an answer that starts at word i.
pub fn put_interval_at(line: &mut [u8], at: usize, answer: &[u8], i: usize) -> usize
    requires { (at + 36 ≤ length line.old) × (4 * i + 12 ≤ length answer.now) × (0 < word_at answer.now (i + 2)) }
    ensures { Put (interval_at answer.now i) at line.old line.new result }
{
    let block = word_at(answer, i);
    let start = word_at(answer, i + 1);
    let end = word_at(answer, i + 2);
    put_interval(line, at, block, start, end)
}

// So many intervals of an answer, from word `first` on.
pub fn put_intervals_at(
    line: &mut [u8],
    at: usize,
    answer: &[u8],
    first: usize,
    count: usize,
) -> usize
    requires { (at + 36 * count ≤ length line.old) × (4 * first + 12 * count ≤ length answer.now) × EndsSome answer.now first count }
    ensures { Put (intervals_at answer.now first count) at line.old line.new result }
{
    let mut m = at;
    for k in 0..count {
        m = put_interval_at(line, m, answer, first + 3 * k);
    }
    m
}

// Each of some ids after a name.
pub fn write_named<W: fmt::Write>(f: &mut fmt::Formatter<W>, name: &str, ids: &[u32]) -> fmt::Result
    ensures { DisplaysOnOk W.write_str_gives f.old result (Some (bind ids.now (named name.now))) f.new }
{
    for id in ids {
        write!(f, "{name}{id}")?;
    }
    Ok(())
}

// The members of a set; a hyphen where it is empty.
pub fn write_members<W: fmt::Write>(f: &mut fmt::Formatter<W>, set: &[u64]) -> fmt::Result
    requires { length set.now ≡ 8 }
    ensures { DisplaysOnOk W.write_str_gives f.old result (Some (members_text (members set.now))) f.new }
{
    let mut ids = [0u32; 512];
    let n = list(set, &mut ids);
    if n == 0 {
        return write!(f, " -");
    }
    write_named(f, " v", &ids[..n])
}

// The operation at which an interval starts, or the block's start.
#[derive(Drop)]
pub struct Start(pub u32);

impl fmt::Display for Start {
    ghost output = { λ x. Some (start_text x.0) };

    fn fmt<W: fmt::Write>(&self, f: &mut fmt::Formatter<W>) -> fmt::Result {
        if self.0 == 0 {
            return write!(f, "start");
        }
        let operation = self.0 - 1;
        write!(f, "{operation}")
    }
}

// The operation at which an interval ends, or the block's end.
#[derive(Drop)]
pub struct End(pub u32);

impl fmt::Display for End {
    ghost output = { λ x. Some (end_text x.0) };

    fn fmt<W: fmt::Write>(&self, f: &mut fmt::Formatter<W>) -> fmt::Result {
        if self.0 == u32::MAX {
            return write!(f, "end");
        }
        let operation = self.0.saturating_sub(1);
        write!(f, "{operation}")
    }
}

// An interval: its block, its start and its end.
#[derive(Drop)]
pub struct Interval {
    pub block: u32,
    pub start: Start,
    pub end: End,
}

impl fmt::Display for Interval {
    ghost output = { λ x. Some (interval x.block x.start.0 x.end.0) };

    fn fmt<W: fmt::Write>(&self, f: &mut fmt::Formatter<W>) -> fmt::Result {
        let block = self.block;
        let start = &self.start;
        let end = &self.end;
        write!(f, " b{block} {start}..{end}")
    }
}

// So many intervals of an answer, from word `first` on.
// By offsets: without a heap there is no list of intervals, and the contract names each word by its place in the answer's bytes.
pub fn write_intervals<W: fmt::Write>(
    f: &mut fmt::Formatter<W>,
    answer: &[u8],
    first: usize,
    count: usize,
) -> fmt::Result
    requires { 4 * first + 12 * count ≤ length answer.now }
    ensures { DisplaysOnOk W.write_str_gives f.old result (Some (intervals_at answer.now first count)) f.new }
{
    for k in 0..count {
        let at = first + 3 * k;
        let interval = Interval {
            block: word_at(answer, at),
            start: Start(word_at(answer, at + 1)),
            end: End(word_at(answer, at + 2)),
        };
        write!(f, "{interval}")?;
    }
    Ok(())
}
