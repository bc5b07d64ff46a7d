// Printing a chart block by block, each written as in the exported answer, so that no chart is too long.
ghost use Rattle.std.specs.Prelude.{◌<◌, ◌≡◌, length};
ghost use Rattle.sir_data.specs.Refusals.{refused};
ghost use Rattle.sir_analyses.specs.Calls.{refusal};

use plank_core::index::BlockId;
use report_lines::{Printed, print_loaded};
use sir_analyses::allocation_answers::compute_pointers;
use sir_analyses::local_liveness::compute_liveness;
use sir_analyses::staged::{Accepted, Tables, Visited};
use sir_analyses::stages::{LIVE, POINTERS};
use sir_answers::chart::{block_lines, on_sheets, put_block, series_count, series_lines};
use sir_answers::chart_columns::other_locals;
use sir_answers::chart_lines::{LINE, put_blanks};
use sir_data::image_block::ImageBlock;
use std::io;

// The bytes of the longest block: a heading and 1,024 operations.
const BLOCK: usize = 74825;

// The blocks of a series, in the order's sequence.
fn say_blocks(rt: &impl Print, tables: Tables, series: usize, out: &mut [u8]) -> io::Result<()>
    requires series_bound { series < 8 }
    requires out_len { length out.old ≡ 74825 }
{
    let mut others = [0u64; 8];
    other_locals(tables.pointers, series, &mut others);
    let order = tables.visited().rpo();
    for b in order {
        let block = ImageBlock {
            image: tables.image,
            id: BlockId(*b),
        };
        let end = LINE * block_lines(block);
        put_block(
            tables.live_sets(),
            tables.pointers,
            &others,
            series,
            block.id,
            &mut out[..end],
        );
        rt.write_all(&out[..end])?;
    }
    Ok(())
}

// The blank lines after the blocks of a series.
fn say_filling(rt: &impl Print, visited: Visited, out: &mut [u8]) -> io::Result<()>
    requires out_len { length out.old ≡ 74825 }
{
    let lines = series_lines(visited);
    let end = LINE * (on_sheets(lines) - lines);
    put_blanks(&mut out[..end]);
    rt.write_all(&out[..end])
}

// All series.
fn say_chart(rt: &impl Print, tables: Tables) -> io::Result<()> {
    let mut out = [0u8; BLOCK];
    let count = series_count(tables.pointed().sites().len());
    for series in 0..count {
        say_blocks(rt, tables, series, &mut out)?;
        say_filling(rt, tables.visited(), &mut out)?;
    }
    Ok(())
}

// The chart of an accepted image's words: its analyses, each run once, then the lines.
fn chart_words(rt: &impl Print, accepted: Accepted) -> io::Result<()> {
    let mut live = [0u64; LIVE];
    compute_liveness(accepted.visited(), &mut live);
    let mut pointers = [0u32; POINTERS];
    compute_pointers(accepted, &mut pointers);
    let tables = Tables {
        image: accepted.image,
        visit: accepted.visit,
        live: &live,
        pointers: &pointers,
    };
    say_chart(rt, tables)
}

// Prints the chart of an image, or `refused` and the number.
pub fn chart(rt: &impl Print, image: &[u8]) -> Printed
    ensures { refused result.accepted ≡ refusal image.now }
{
    print_loaded(rt, image, |accepted| {
        let written = chart_words(rt, accepted);
        Printed {
            accepted: Ok(()),
            written,
        }
    })
}
