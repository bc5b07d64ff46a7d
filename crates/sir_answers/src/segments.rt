// The answers of all ids, once the words of each are counted: their lengths and words, or 14.
ghost use Rattle.std.specs.Prelude.{◌≡◌, List, ℕ, ◌*◌, ◌<◌, ◌^◌, length};
ghost use Rattle.plank_core.specs.Lists.{bind};
ghost use Rattle.sir_data.specs.Pages.{bytes_of};
ghost use Rattle.sir_analyses.specs.Calls.{answered};
ghost use Rattle.sir_analyses.specs.inner.Outcomes.{outcome};
ghost use Rattle.sir_answers.specs.inner.Scatter.{base, number_at};

use crate::scatter::total_words;
use sir_analyses::answers::finish;
use sir_data::refusals::Refusal;

// The answers that `write` writes by cursors that have the number of words of each, in a slice of their size.
pub fn segments_answer<F: Fn(&mut [usize], &mut [u8])>(
    cursors: &mut [usize],
    write: F,
    out: &mut [u8],
) -> Result<usize, Refusal>
    requires total { base (number_at cursors.old) (length cursors.old) < 2 ^ 60 }
    requires callable { (s : _) (t : _) → s.now ≡ cursors.old → length t.now ≡ 4 * base (number_at cursors.old) (length cursors.old) → F.pre write s t }
    ensures { (xs : List ℕ) → length xs ≡ base (number_at cursors.old) (length cursors.old) → ((s : _) (t : _) (u : _) (v : _) → s.now ≡ cursors.old → length t.now ≡ 4 * length xs → F.post write s t tt u v → v.now ≡ bind xs bytes_of) → outcome result out.new ≡ answered (bind xs bytes_of) out.old }
{
    let end = finish(total_words(cursors), out.len())?;
    write(cursors, &mut out[..end]);
    Ok(end)
}
