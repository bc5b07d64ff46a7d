// Printing a report: all answers are counted before the first line, then each line is written once.
ghost use Rattle.std.specs.Prelude.{◌≡◌, true, false, cond, ◌≤◌, ◌<◌, length, ◌≢◌};
ghost use Rattle.plank_core.specs.Lists.{bind};
ghost use Rattle.sir_data.specs.Pages.{payload, bytes_of};
ghost use Rattle.sir_data.specs.Records.{blocks, locals};
ghost use Rattle.sir_data.specs.Refusals.{number, refused};
ghost use Rattle.sir_analyses.specs.Order.{is_visited};
ghost use Rattle.sir_analyses.specs.Liveness.{rounds};
ghost use Rattle.sir_analyses.specs.Allocation.{allocs};
ghost use Rattle.sir_analyses.specs.Answers.{intervals_answer, allocation_answer};
ghost use Rattle.sir_analyses.specs.Calls.{refusal};
ghost use Rattle.report_lines.specs.Lines.{order_text, rounds_text, block_text, local_text, allocation_text};
ghost use Rattle.plank_core.specs.inner.Putting.{Put};
ghost use Rattle.report_lines.specs.Counting.{too_long, local_too_long, allocation_too_long, some_too_long, reported};

use crate::counting::{allocation_too_long, local_too_long};
use crate::lines::{
    allocation_line, block_line, local_line, order_line, refused_line, rounds_line,
};
use plank_core::dense_index_set::list;
use plank_core::index::{AllocId, BlockId, LocalId};
use plank_core::rows::row_of;
use sir_analyses::allocation_answers::{allocation_answer, compute_pointers};
use sir_analyses::loading::load;
use sir_analyses::local_intervals::compute_intervals;
use sir_analyses::local_liveness::{compute_liveness, compute_liveness_at_block_entry};
use sir_analyses::staged::{Accepted, Analysed, LiveSets, Tables, Visited};
use sir_analyses::stages::{LIVE, POINTERS, POSTORDER, VISIT, WORDS};
use sir_data::refusals::Refusal;
use sir_data::well_formed::Image;
use std::io;

// How printing an image went: whether it is refused, and whether the lines could be written.
#[derive(Drop)]
pub struct Printed {
    pub accepted: Result<(), Refusal>,
    pub written: io::Result<()>,
}

// Prints `refused` and the number, and nothing else of the image.
pub fn print_refused(rt: &impl Print, refusal: Refusal) -> Printed
    ensures { refused result.accepted ≡ number refusal }
{
    let mut line = [0u8; 32];
    let n = refused_line(u32::from(refusal), &mut line);
    let written = rt.write_all(&line[..n]);
    Printed {
        accepted: Err(refusal),
        written,
    }
}

// The line of the order of an image, from its visit.
fn order_text(visited: Visited, line: &mut [u8]) -> usize
    requires in_bounds { 196608 ≤ length line.old }
    ensures { Put (order_text visited.entry.image.words.now) 0 line.old line.new result }
{
    order_line(visited.rpo(), line)
}

// The line of the rounds of an image, from their number.
fn rounds_text(image: Image, done: u32, line: &mut [u8]) -> usize
    requires { (done ≡ rounds image.words.now) × (196608 ≤ length line.old) }
    ensures { Put (rounds_text image.entry.words.now) 0 line.old line.new result }
{
    rounds_line(done, line)
}

// The line of block b, from the tables of liveness.
fn block_text(sets: LiveSets, b: BlockId, line: &mut [u8]) -> usize
    requires b_bound { (b.0 < blocks sets.image.words.now) × (is_visited sets.image.words.now b.0 ≡ true) × (196608 ≤ length line.old) }
    ensures { Put (block_text sets.entry.image.words.now b.0) 0 line.old line.new result }
{
    let set = compute_liveness_at_block_entry(sets.live, b);
    let mut into = [0u32; 512];
    let n = list(&set.words, &mut into);
    let mut from = [0u32; 512];
    let m = list(row_of(sets.exits(), b.0 as usize), &mut from);
    block_line(b.0, &into[..n], &from[..m], line)
}

// The visited blocks, by id.
fn say_blocks(rt: &impl Print, analysed: Analysed, line: &mut [u8]) -> io::Result<()>
    requires in_bounds { 196608 ≤ length line.old }
{
    let count = analysed.image.block_count();
    for b in 0..count {
        if analysed.visited().is_visited(BlockId(b)) {
            let n = block_text(analysed.live_sets(), BlockId(b), line);
            rt.write_all(&line[..n])?;
        }
    }
    Ok(())
}

// The line of local v; nothing where it has no interval.
fn local_text(analysed: Analysed, v: LocalId, out: &mut [u8], line: &mut [u8]) -> usize
    requires v_bound { (v.0 < locals analysed.image.words.now) × (too_long (intervals_answer analysed.image.words.now v.0) ≡ false) }
    requires out_len { (length out.old ≡ 65536) × (196608 ≤ length line.old) }
    ensures { Put (local_text analysed.entry.image.words.now v.0) 0 line.old line.new result }
{
    let n = compute_intervals(analysed, v, out);
    if n == 0 {
        return 0;
    }
    let end = 4 * n;
    local_line(v.0, &out[..end], line)
}

// The locals that have intervals, by id.
fn say_locals(
    rt: &impl Print,
    analysed: Analysed,
    out: &mut [u8],
    line: &mut [u8],
) -> io::Result<()>
    requires local_too_long_value { local_too_long analysed.image.words.now ≡ false }
    requires out_len { (length out.old ≡ 65536) × (196608 ≤ length line.old) }
{
    let count = analysed.image.local_count();
    for v in 0..count {
        let n = local_text(analysed, LocalId(v), out, line);
        rt.write_all(&line[..n])?;
    }
    Ok(())
}

// The line of allocation a, from its record.
fn allocation_text(image: Image, a: AllocId, answer: &[u8], line: &mut [u8]) -> usize
    requires a_in_bounds { (a.0 < length (allocs image.words.now)) × (answer.now ≡ bind (allocation_answer image.words.now a.0) bytes_of) }
    requires answer_len_bound { (length answer.now ≤ 65536) × (196608 ≤ length line.old) }
    ensures { Put (allocation_text image.entry.words.now a.0) 0 line.old line.new result }
{
    allocation_line(a.0, answer, line)
}

// The allocations, in the order's sequence.
fn say_allocations(
    rt: &impl Print,
    tables: Tables,
    out: &mut [u8],
    line: &mut [u8],
) -> io::Result<()>
    requires allocation_too_long_value { allocation_too_long tables.image.words.now ≡ false }
    requires out_len { (length out.old ≡ 65536) × (196608 ≤ length line.old) }
{
    let count = tables.pointed().sites().len();
    for a in 0..count {
        let id = AllocId(a as u32);
        let end = allocation_answer(tables, id, out).unwrap();
        let n = allocation_text(tables.image, id, &out[..end], line);
        rt.write_all(&line[..n])?;
    }
    Ok(())
}

// All lines of words whose tables are at hand, where no answer is too long.
fn say_lines(
    rt: &impl Print,
    tables: Tables,
    done: u32,
    out: &mut [u8],
    line: &mut [u8],
) -> io::Result<()>
    requires local_too_long_value { local_too_long tables.image.words.now ≡ false }
    requires allocation_too_long_value { allocation_too_long tables.image.words.now ≡ false }
    requires done_value { done ≡ rounds tables.image.words.now }
    requires out_len { (length out.old ≡ 65536) × (196608 ≤ length line.old) }
{
    let order = order_text(tables.visited(), line);
    rt.write_all(&line[..order])?;
    let rounds = rounds_text(tables.image, done, line);
    rt.write_all(&line[..rounds])?;
    say_blocks(rt, tables.analysed(), line)?;
    say_locals(rt, tables.analysed(), out, line)?;
    say_allocations(rt, tables, out, line)
}

// The report of words whose tables are at hand: 14 where an answer is too long.
fn report_tables(rt: &impl Print, tables: Tables, done: u32) -> Printed
    requires { done ≡ rounds tables.image.words.now }
    ensures { refused result.accepted ≡ cond (some_too_long tables.entry.image.words.now) 14 0 }
{
    let mut out = [0u8; 65536];
    let mut line = [0u8; 196608];
    if local_too_long(tables.analysed()) || allocation_too_long(tables, &mut out) {
        return print_refused(rt, Refusal::ShortResult);
    }
    let written = say_lines(rt, tables, done, &mut out, &mut line);
    Printed {
        accepted: Ok(()),
        written,
    }
}

// The report of an accepted image's words: its analyses, each run once, then the lines.
fn report_words(rt: &impl Print, accepted: Accepted) -> Printed
    ensures { refused result.accepted ≡ cond (some_too_long accepted.entry.image.words.now) 14 0 }
{
    let mut live = [0u64; LIVE];
    let done = compute_liveness(accepted.visited(), &mut live);
    let mut pointers = [0u32; POINTERS];
    compute_pointers(accepted, &mut pointers);
    let tables = Tables {
        image: accepted.image,
        visit: accepted.visit,
        live: &live,
        pointers: &pointers,
    };
    report_tables(rt, tables, done)
}

// Gives an accepted image with its visit and its allocations to `print`; of a refused one prints `refused` and the number.
pub fn print_loaded<R: Print, F: FnOnce(Accepted) -> Printed>(
    rt: &R,
    image: &[u8],
    print: F,
) -> Printed
    requires { (accepted : _) → F.pre print accepted }
    ensures unloaded { refusal image.now ≢ 0 → refused result.accepted ≡ refusal image.now }
    ensures loaded { refusal image.now ≡ 0 → (accepted : _) × (accepted.image.words.now ≡ payload image.now) × F.post print accepted result }
{
    let mut words = [0u32; WORDS];
    let mut postorder = [0u32; POSTORDER];
    let mut visit = [0u32; VISIT];
    let mut sites = [0u32; 512];
    match load(image, &mut words, &mut postorder, &mut visit, &mut sites) {
        Ok(sizes) => {
            let image = Image {
                words: &words[..sizes.words],
            };
            print(Accepted {
                image,
                visit: &visit,
                sites: &sites[..sizes.allocations],
            })
        }
        Err(refusal) => print_refused(rt, refusal),
    }
}

// Prints the report of an image.
pub fn report(rt: &impl Print, image: &[u8]) -> Printed
    ensures { refused result.accepted ≡ reported image.now }
{
    print_loaded(rt, image, |accepted| report_words(rt, accepted))
}
