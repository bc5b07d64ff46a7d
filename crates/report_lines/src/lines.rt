// The lines of a report, each to the front of `line`: how many bytes it has. Below them lines that show themselves, each with its exact
// text as its output, for callers with no line to lend; a report is printed without them.
ghost use Rattle.std.specs.Prelude.{Some, ◌≡◌, ◌-◌, ◌/◌, ◌≤◌, length};
ghost use Rattle.plank_core.specs.inner.DenseIndexSet.{members};
ghost use Rattle.report_lines.specs.Lines.{refused_line, order_line, rounds_line, block_line};
ghost use Rattle.plank_core.specs.inner.Putting.{Put};
ghost use Rattle.report_lines.specs.inner.AnswerLines.{local_line, mark, allocation_head, allocation_line, EndsSome};

use crate::text::{
    put_blocks, put_intervals_at, put_members, put_named, write_intervals, write_members,
    write_named,
};
use plank_core::dense_index_set::DenseIndexSet;
use plank_core::index::{AllocId, BlockId, LocalId};
use plank_core::text::{put_number, put_text};
use sir_data::pages::word_at;
use std::fmt;

// `refused` and the number.
pub fn refused_line(number: u32, line: &mut [u8]) -> usize
    requires { 32 ≤ length line.old }
    ensures { Put (refused_line number) 0 line.old line.new result }
{
    let a = put_text(line, 0, b"refused ");
    let b = put_number(line, a, number);
    put_text(line, b, b"\n")
}

// `order` and the blocks.
pub fn order_line(rpo: &[u32], line: &mut [u8]) -> usize
    requires { (length rpo.now ≤ 256) × (196608 ≤ length line.old) }
    ensures { Put (order_line rpo.now) 0 line.old line.new result }
{
    let a = put_text(line, 0, b"order");
    let b = put_blocks(line, a, rpo);
    put_text(line, b, b"\n")
}

// `rounds` and their number.
pub fn rounds_line(rounds: u32, line: &mut [u8]) -> usize
    requires { 196608 ≤ length line.old }
    ensures { Put (rounds_line rounds) 0 line.old line.new result }
{
    let a = put_text(line, 0, b"rounds ");
    let b = put_number(line, a, rounds);
    put_text(line, b, b"\n")
}

// Block b with the members of its entry and its exit set.
pub fn block_line(b: u32, entry: &[u32], exit: &[u32], line: &mut [u8]) -> usize
    requires { (length entry.now ≤ 512) × (length exit.now ≤ 512) × (196608 ≤ length line.old) }
    ensures { Put (block_line b entry.now exit.now) 0 line.old line.new result }
{
    let m = put_named(line, 0, b"b", b);
    let i = put_text(line, m, b" in");
    let j = put_members(line, i, entry);
    let o = put_text(line, j, b" out");
    let k = put_members(line, o, exit);
    put_text(line, k, b"\n")
}

// Local v with the intervals of its answer.
pub fn local_line(v: u32, answer: &[u8], line: &mut [u8]) -> usize
    requires answer_len_bound { (length answer.now ≤ 65536) × (196608 ≤ length line.old) }
    requires ends_some { EndsSome answer.now 0 (length answer.now / 12) }
    ensures { Put (local_line v answer.now) 0 line.old line.new result }
{
    let a = put_named(line, 0, b"v", v);
    let b = put_intervals_at(line, a, answer, 0, answer.len() / 12);
    put_text(line, b, b"\n")
}

// The definition and the base of an allocation, and its mark.
fn put_allocation_head(a: u32, answer: &[u8], line: &mut [u8]) -> usize
    requires { (36 ≤ length answer.now) × (196608 ≤ length line.old) }
    ensures { (result ≤ 100) × Put (allocation_head a answer.now) 0 line.old line.new result }
{
    let i = put_named(line, 0, b"a", a);
    let b = put_named(line, i, b" b", word_at(answer, 0));
    let o = put_named(line, b, b" op", word_at(answer, 1));
    let v = put_named(line, o, b" v", word_at(answer, 2));
    if word_at(answer, 6) == 0 {
        return put_text(line, v, b" kept");
    }
    put_text(line, v, b" escaped")
}

// Allocation a by its answer.
pub fn allocation_line(a: u32, answer: &[u8], line: &mut [u8]) -> usize
    requires in_bounds { (36 ≤ length answer.now) × (length answer.now ≤ 65536) × (196608 ≤ length line.old) }
    requires ends_some { EndsSome answer.now 9 ((length answer.now - 36) / 12) }
    ensures { Put (allocation_line a answer.now) 0 line.old line.new result }
{
    let m = put_allocation_head(a, answer, line);
    let n = put_intervals_at(line, m, answer, 9, (answer.len() - 36) / 12);
    put_text(line, n, b"\n")
}

// `refused` and the number.
#[derive(Drop)]
pub struct RefusedLine(pub u32);

impl fmt::Display for RefusedLine {
    ghost output = { λ x. Some (refused_line x.0) };

    fn fmt<W: fmt::Write>(&self, f: &mut fmt::Formatter<W>) -> fmt::Result {
        let number = self.0;
        write!(f, "refused {number}\n")
    }
}

// `order` and the blocks.
#[derive(Drop)]
pub struct OrderLine<'a> {
    pub rpo: &'a [u32],
}

impl<'a> fmt::Display for OrderLine<'a> {
    ghost output = { λ x. Some (order_line x.rpo.now) };

    fn fmt<W: fmt::Write>(&self, f: &mut fmt::Formatter<W>) -> fmt::Result {
        write!(f, "order")?;
        write_named(f, " b", self.rpo)?;
        write!(f, "\n")
    }
}

// `rounds` and their number.
#[derive(Drop)]
pub struct RoundsLine(pub u32);

impl fmt::Display for RoundsLine {
    ghost output = { λ x. Some (rounds_line x.0) };

    fn fmt<W: fmt::Write>(&self, f: &mut fmt::Formatter<W>) -> fmt::Result {
        let rounds = self.0;
        write!(f, "rounds {rounds}\n")
    }
}

// A block with the members of its entry and its exit set.
#[derive(Drop)]
pub struct BlockLine<'a> {
    pub block: BlockId,
    pub entry: DenseIndexSet,
    pub exit: &'a [u64],
    ghost exit_long: { length exit.now ≡ 8 },
}

impl<'a> fmt::Display for BlockLine<'a> {
    ghost output = { λ x. Some (block_line x.block.0 (members x.entry.words) (members x.exit.now)) };

    fn fmt<W: fmt::Write>(&self, f: &mut fmt::Formatter<W>) -> fmt::Result {
        let block = self.block.0;
        write!(f, "b{block} in")?;
        write_members(f, &self.entry.words)?;
        write!(f, " out")?;
        write_members(f, self.exit)?;
        write!(f, "\n")
    }
}

// A local with the intervals of its answer.
#[derive(Drop)]
pub struct LocalLine<'a> {
    pub local: LocalId,
    pub answer: &'a [u8],
}

impl<'a> fmt::Display for LocalLine<'a> {
    ghost output = { λ x. Some (local_line x.local.0 x.answer.now) };

    fn fmt<W: fmt::Write>(&self, f: &mut fmt::Formatter<W>) -> fmt::Result {
        let local = self.local.0;
        write!(f, "v{local}")?;
        write_intervals(f, self.answer, 0, self.answer.len() / 12)?;
        write!(f, "\n")
    }
}

// How an allocation that is marked or not is shown.
fn mark(marked: u32) -> &'static str
    ensures { result.now ≡ mark marked }
{
    if marked == 0 {
        return " kept";
    }
    " escaped"
}

// An allocation by its answer: where it is defined, its base and its mark, then its intervals.
#[derive(Drop)]
pub struct AllocationLine<'a> {
    pub allocation: AllocId,
    pub answer: &'a [u8],
    ghost answer_long: { 36 ≤ length answer.now },
}

impl<'a> fmt::Display for AllocationLine<'a> {
    ghost output = { λ x. Some (allocation_line x.allocation.0 x.answer.now) };

    fn fmt<W: fmt::Write>(&self, f: &mut fmt::Formatter<W>) -> fmt::Result {
        let answer = self.answer;
        let allocation = self.allocation.0;
        let block = word_at(answer, 0);
        let operation = word_at(answer, 1);
        let base = word_at(answer, 2);
        let mark = mark(word_at(answer, 6));
        write!(f, "a{allocation} b{block}")?;
        write!(f, " op{operation} v{base}{mark}")?;
        write_intervals(f, answer, 9, (answer.len() - 36) / 12)?;
        write!(f, "\n")
    }
}
