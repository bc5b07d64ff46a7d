// The lines and pieces of a report that show themselves; what is printed is held to the file stdout.
#![tactic(auto)]

ghost use Rattle.std.specs.Prelude.{Some, ◌≡◌, ◌+◌, ◌*◌, ◌≤◌, length};
ghost use Rattle.plank_core.specs.Lists.{bind};
ghost use Rattle.plank_core.specs.inner.DenseIndexSet.{members};
ghost use Rattle.report_lines.specs.Lines.{named, members_text};
ghost use Rattle.report_lines.specs.inner.AnswerLines.{intervals_at};

use plank_core::dense_index_set::DenseIndexSet;
use plank_core::index::{AllocId, BlockId, LocalId};
use report_lines::lines::{
    AllocationLine, BlockLine, LocalLine, OrderLine, RefusedLine, RoundsLine,
};
use report_lines::text::{End, Interval, Start, write_intervals, write_members, write_named};
use std::{fmt, io};

// Ids after a name of any length.
#[derive(Drop)]
struct Named<'a> {
    name: &'a str,
    ids: &'a [u32],
}

impl<'a> fmt::Display for Named<'a> {
    ghost output = { λ x. Some (bind x.ids.now (named x.name.now)) };

    fn fmt<W: fmt::Write>(&self, f: &mut fmt::Formatter<W>) -> fmt::Result {
        write_named(f, self.name, self.ids)
    }
}

// The members of a set.
#[derive(Drop)]
struct Members<'a> {
    set: &'a [u64],
    ghost set_long: { length set.now ≡ 8 },
}

impl<'a> fmt::Display for Members<'a> {
    ghost output = { λ x. Some (members_text (members x.set.now)) };

    fn fmt<W: fmt::Write>(&self, f: &mut fmt::Formatter<W>) -> fmt::Result {
        write_members(f, self.set)
    }
}

// So many intervals of an answer, from a word on.
#[derive(Drop)]
struct Intervals<'a> {
    answer: &'a [u8],
    first: usize,
    count: usize,
    ghost answer_long: { 4 * first + 12 * count ≤ length answer.now },
}

impl<'a> fmt::Display for Intervals<'a> {
    ghost output = { λ x. Some (intervals_at x.answer.now x.first x.count) };

    fn fmt<W: fmt::Write>(&self, f: &mut fmt::Formatter<W>) -> fmt::Result {
        write_intervals(f, self.answer, self.first, self.count)
    }
}

// Two intervals of a local: in block 3 from its start to its end, and in block 258 from operation 4 to operation 8.
const LOCAL: [u8; 24] = [
    3, 0, 0, 0, 0, 0, 0, 0, 255, 255, 255, 255, 2, 1, 0, 0, 5, 0, 0, 0, 9, 0, 0, 0,
];

// An allocation in block 1 at operation 6 with base 9, and an interval in block 1 from operation 6 to operation 10.
fn allocation(marked: u8) -> [u8; 48] {
    [
        1, 0, 0, 0, 6, 0, 0, 0, 9, 0, 0, 0, 0, 0, 0, 0, 0, 0, 0, 0, 0, 0, 0, 0, marked, 0, 0, 0, 0,
        0, 0, 0, 0, 0, 0, 0, 1, 0, 0, 0, 7, 0, 0, 0, 11, 0, 0, 0,
    ]
}

fn show_pieces(rt: &impl Print) -> io::Result<()> {
    let named = Named {
        name: " block ",
        ids: &[0, 255, u32::MAX],
    };
    println!(rt; "named{named}")?;
    let none = Members { set: &[0; 8] };
    println!(rt; "no member{none}")?;
    let some = Members {
        set: &[1, 2, 0, 0, 0, 0, 0, 1 << 63],
    };
    println!(rt; "members{some}")?;
    let last = Intervals {
        answer: &LOCAL,
        first: 3,
        count: 1,
    };
    println!(rt; "the second interval{last}")?;
    for (start, end) in [(0, 1), (1, u32::MAX), (u32::MAX, 0)] {
        let start = Start(start);
        let end = End(end);
        println!(rt; "from {start} to {end}")?;
        let interval = Interval {
            block: 5,
            start,
            end,
        };
        println!(rt; "interval{interval}")?;
    }
    Ok(())
}

fn show_lines(rt: &impl Print) -> io::Result<()> {
    rt.print(RefusedLine(13))?;
    rt.print(OrderLine { rpo: &[0, 2, 1] })?;
    rt.print(OrderLine { rpo: &[] })?;
    rt.print(RoundsLine(7))?;
    rt.print(BlockLine {
        block: BlockId(4),
        entry: DenseIndexSet {
            words: [6, 0, 0, 0, 0, 0, 0, 0],
        },
        exit: &[0; 8],
    })?;
    rt.print(LocalLine {
        local: LocalId(12),
        answer: &LOCAL,
    })?;
    for marked in 0..2 {
        rt.print(AllocationLine {
            allocation: AllocId(2),
            answer: &allocation(marked),
        })?;
    }
    Ok(())
}

fn main(rt: HostRuntime) -> io::Result<()> {
    show_pieces(&rt)?;
    show_lines(&rt)
}
