// The pages of words, as an answer.
ghost use Rattle.std.specs.Prelude.{◌≡◌, ◌++◌, ◌+◌, ◌*◌, ◌/◌, ◌≤◌, length, drop};
ghost use Rattle.plank_core.specs.Lists.{bind, upto};
ghost use Rattle.sir_data.specs.Pages.{pages_for, bytes_of};
ghost use Rattle.sir_data.specs.Paging.{page_of, pages_of};
ghost use Rattle.sir_analyses.specs.Calls.{answered};
ghost use Rattle.sir_analyses.specs.inner.Outcomes.{outcome};

use sir_analyses::answers::{finish, put_word, put_words};
use sir_data::pages::page_check;
use sir_data::refusals::Refusal;

// Page `page` of some words, to the front of `out`: its number, 126 words, and the check of what stands there by then.
fn write_page(words: &[u32], page: usize, out: &mut [u8])
    requires page_in_bounds { (126 * page + 126 ≤ length words.now) × (length words.now ≤ 14742) }
    requires in_bounds { 512 ≤ length out.old }
    ensures { out.new ≡ bind (page_of words.now page) bytes_of ++ drop 512 out.old }
{
    let start = 126 * page;
    let n = put_word(out, 0, page as u32);
    let m = put_words(out, n, &words[start..start + 126]);
    let check = page_check(out, 0);
    put_word(out, m, check);
}

// As many pages of some words as the slice has room for.
fn write_pages(words: &[u32], out: &mut [u8])
    requires { (126 * (length out.old / 512) ≤ length words.now) × (length words.now ≤ 14742) }
    ensures { out.new ≡ bind (bind (upto (length out.old / 512)) (page_of words.now)) bytes_of ++ drop (512 * (length out.old / 512)) out.old }
{
    let n = out.len() / 512;
    for p in 0..n {
        write_page(words, p, &mut out[512 * p..]);
    }
}

// The pages of words that stand with their padding.
pub fn pages_answer(words: &[u32], out: &mut [u8]) -> Result<usize, Refusal>
    requires { (length words.now ≡ 126 * pages_for (length words.now)) × (length words.now ≤ 14742) }
    ensures { outcome result out.new ≡ answered (pages_of words.now) out.old }
{
    let end = finish(128 * (words.len() / 126), out.len())?;
    write_pages(words, &mut out[..end]);
    Ok(end)
}
