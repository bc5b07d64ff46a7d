// The chart: series of 64 allocations in turn, in each all blocks of the order on whole sheets. A block's lines are written backwards, since
// what is open at an operation is known from what is live after it.
ghost use Rattle.std.specs.Prelude.{◌≡◌, ◌+◌, ◌*◌, ◌≤◌, ◌<◌, length};
ghost use Rattle.plank_core.specs.Lists.{◌∈◌};
ghost use Rattle.sir_data.specs.Records.{ops};
ghost use Rattle.sir_analyses.specs.Order.{blocks_rpo};
ghost use Rattle.sir_analyses.specs.Calls.{answered};
ghost use Rattle.sir_analyses.specs.inner.Outcomes.{outcome};
ghost use Rattle.sir_analyses.specs.Chart.{block_lines, series_lines, on_sheets, sheets, series_for, series_count, text_of, chart_text, lines_of};
ghost use Rattle.sir_analyses.specs.inner.Stages.{PointerStage};
ghost use Rattle.sir_answers.specs.inner.Columns.{OtherLocals};

use crate::chart_columns::{SERIES, closed_columns, of_series, other_locals, update_columns};
use crate::chart_lines::{LINE, SHEET, put_blanks, put_heading, put_op_line};
use crate::open_allocations::live_around;
use plank_core::dense_index_set::DenseIndexSet;
use plank_core::index::{BlockId, OpIdx};
use sir_analyses::allocation_answers::compute_pointers;
use sir_analyses::local_liveness::compute_liveness;
use sir_analyses::merged_intervals::{live_after, live_before};
use sir_analyses::staged::{Accepted, LiveSets, Tables, Visited};
use sir_analyses::stages::{LIVE, POINTERS};
use sir_data::image_block::ImageBlock;
use sir_data::refusals::Refusal;

// The lines of block b: a heading, and one for each of its operations.
pub fn block_lines(b: ImageBlock) -> usize
    ensures { (result ≡ 1 + length (ops b.entry.image.words.now b.entry.id.0)) × (result ≤ 1025) }
{
    let span = b.operations();
    1 + (span.end - span.start) as usize
}

// The lines of a series without its filling.
pub fn series_lines(visited: Visited) -> usize
    ensures { (result ≡ lines_of visited.entry.image.words.now (blocks_rpo visited.entry.image.words.now)) × (result ≤ 262400) }
{
    let order = visited.rpo();
    let mut n: usize = 0;
    for b in order {
        let block = ImageBlock {
            image: visited.image,
            id: BlockId(*b),
        };
        n += block_lines(block);
    }
    n
}

// So many lines on whole sheets.
pub fn on_sheets(lines: usize) -> usize
    requires { lines ≤ 262400 }
    ensures { result ≡ on_sheets lines }
{
    SHEET * ((lines + (SHEET - 1)) / SHEET)
}

// How many series there are for so many allocations: one where there is none.
pub fn series_count(allocations: usize) -> usize
    requires { allocations ≤ 512 }
    ensures { result ≡ series_for allocations }
{
    if allocations == 0 {
        return 1;
    }
    (allocations + (SERIES - 1)) / SERIES
}

// The lines of block b in a series.
pub fn put_block(
    sets: LiveSets,
    pointers: &[u32; POINTERS],
    others: &[u64],
    series: usize,
    b: BlockId,
    out: &mut [u8],
)
    requires pointer_stage { PointerStage sets.image.words.now pointers.now }
    requires series_bound { (series < 8) × OtherLocals pointers.now series others.now }
    requires fact { (b.0 ∈ blocks_rpo sets.image.words.now) × (length out.old ≡ 73 * (1 + length (ops sets.image.words.now b.0))) }
    ensures { out.new ≡ text_of (block_lines sets.entry.image.words.now series b.0) }
{
    put_heading(b, &mut out[..LINE]);
    let mut set = [0u64; 8];
    live_after(sets.live, b, &mut set);
    let mut columns = [0u8; SERIES];
    closed_columns(pointers, series, &mut columns);
    let mut shown = DenseIndexSet { words: [0u64; 8] };
    let span = sets.image.operations(b);
    let mut end = out.len();
    for o in (span.start..span.end).rev() {
        let at = end - LINE;
        live_around(sets.live, OpIdx(o), &mut set);
        shown = update_columns(
            pointers,
            series,
            of_series(&set, others),
            shown,
            &mut columns,
        );
        put_op_line(sets.image, OpIdx(o), &columns, &mut out[at..end]);
        live_before(sets.live, OpIdx(o), &mut set);
        end = at;
    }
}

// A series: all blocks of the order, then blank lines to the end of the slice.
fn put_series(tables: Tables, series: usize, out: &mut [u8])
    requires series_bound { (series < 8) × (length out.old ≡ 73 * on_sheets (lines_of tables.image.words.now (blocks_rpo tables.image.words.now))) }
    ensures { out.new ≡ text_of (sheets (series_lines tables.entry.image.words.now series)) }
{
    let mut others = [0u64; 8];
    other_locals(tables.pointers, series, &mut others);
    let sets = LiveSets {
        image: tables.image,
        live: tables.live,
    };
    let order = tables.visited().rpo();
    // By offsets: blocks have different numbers of lines, so no chunks of one length.
    let mut at: usize = 0;
    for b in order {
        let block = ImageBlock {
            image: tables.image,
            id: BlockId(*b),
        };
        let end = at + LINE * block_lines(block);
        put_block(
            sets,
            tables.pointers,
            &others,
            series,
            BlockId(*b),
            &mut out[at..end],
        );
        at = end;
    }
    put_blanks(&mut out[at..]);
}

// All series, each as many bytes.
fn put_chart(tables: Tables, bytes: usize, out: &mut [u8])
    requires bytes_value { (bytes ≡ 73 * on_sheets (lines_of tables.image.words.now (blocks_rpo tables.image.words.now))) × (length out.old ≡ bytes * series_count tables.image.words.now) }
    ensures { out.new ≡ chart_text tables.entry.image.words.now }
{
    let count = series_count(tables.pointed().sites().len());
    // By offsets: after the borrow of a chunk a proof knows only its length.
    let mut at: usize = 0;
    for series in 0..count {
        let end = at + bytes;
        put_series(tables, series, &mut out[at..end]);
        at = end;
    }
}

// The chart of an accepted image's words. How long it is is known from the blocks and the number of allocations, so a slice that is too short
// is told before anything is analysed.
pub fn chart_answer(accepted: Accepted, out: &mut [u8]) -> Result<usize, Refusal>
    ensures { outcome result out.new ≡ answered (chart_text accepted.entry.image.words.now) out.old }
{
    let visited = Visited {
        image: accepted.image,
        visit: accepted.visit,
    };
    let bytes = LINE * on_sheets(series_lines(visited));
    let n = bytes * series_count(accepted.sites.len());
    // Not `finish`, which counts in words: a chart's length is in bytes.
    if out.len() < n {
        return Err(Refusal::ShortResult);
    }
    let mut live = [0u64; LIVE];
    compute_liveness(visited, &mut live);
    let mut pointers = [0u32; POINTERS];
    compute_pointers(accepted, &mut pointers);
    put_chart(
        Tables {
            image: accepted.image,
            visit: accepted.visit,
            live: &live,
            pointers: &pointers,
        },
        bytes,
        &mut out[..n],
    );
    Ok(n)
}
