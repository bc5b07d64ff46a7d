// An answer that one function counts and writes: at an empty slice it only counts the words.
ghost use Rattle.std.specs.Prelude.{◌≡◌, List, ℕ, ◌<◌, ◌^◌};
ghost use Rattle.plank_core.specs.Lists.{bind};
ghost use Rattle.sir_data.specs.Pages.{bytes_of};
ghost use Rattle.sir_analyses.specs.Calls.{answered};
ghost use Rattle.sir_analyses.specs.inner.Outcomes.{outcome};
ghost use Rattle.sir_analyses.specs.inner.Writing.{Puts};

use sir_analyses::answers::finish;
use sir_data::refusals::Refusal;

// The answer that `put` puts: counts, then writes.
pub fn counted_answer<F: Fn(&mut [u8]) -> usize>(put: F, out: &mut [u8]) -> Result<usize, Refusal>
    requires callable { F.IsAlwaysCallable put }
    requires few { (s : _) (n : _) (t : _) → F.post put s n t → n < 2 ^ 60 }
    ensures { (xs : List ℕ) → ((s : _) (n : _) (t : _) → F.post put s n t → Puts 0 xs s.now t.now n) → outcome result out.new ≡ answered (bind xs bytes_of) out.old }
{
    let n = put(&mut []);
    let end = finish(n, out.len())?;
    put(&mut out[..end]);
    Ok(end)
}
