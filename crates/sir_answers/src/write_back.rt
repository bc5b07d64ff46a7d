// An image taken apart into its records, and put together from lent ones.
ghost use Rattle.std.specs.Prelude.{◌≡◌, [], ◌∷◌, ◌*◌, ◌≤◌, length};
ghost use Rattle.sir_data.specs.Pages.{pages_for};
ghost use Rattle.sir_data.specs.Paging.{records_of, pages_of};
ghost use Rattle.sir_analyses.specs.Allocation.{rule12};
ghost use Rattle.sir_analyses.specs.Calls.{made, call, asked, refusal, no_rules, in_words};
ghost use Rattle.sir_analyses.specs.inner.Outcomes.{outcome};
ghost use Rattle.sir_analyses.specs.WriteBack.{lent_refusal, written, PageRule, WrittenBack, ReadBack, ReadersNumber};

use crate::paging::pages_answer;
use sir_analyses::answers::{Answer, words_answer};
use sir_analyses::loading::{load, load_visit};
use sir_analyses::stages::{POSTORDER, VISIT, WORDS};
use sir_data::lent_records::read_records;
use sir_data::refusals::Refusal;
use sir_data::rules::word_count;
use sir_data::well_formed::Image;

// The records of an image: its payload words without padding.
fn try_records(image: &[u8], out: &mut [u8]) -> Result<usize, Refusal>
    ensures { outcome result out.new ≡ asked no_rules (in_words records_of) image.now out.old }
{
    let mut words = [0u32; WORDS];
    let mut postorder = [0u32; POSTORDER];
    let mut visit = [0u32; VISIT];
    let mut found = [0u32; 512];
    load(image, &mut words, &mut postorder, &mut visit, &mut found)?;
    let n = word_count(&words);
    words_answer(&words[..n], out)
}

// The same as C takes it; and what writing these records gives back.
pub fn records(image: &[u8], out: &mut [u8]) -> Answer
    ensures out_after { made result.number result.length out.new ≡ asked no_rules (in_words records_of) image.now out.old }
    ensures written_back { refusal image.now ≡ 0 → WrittenBack image.now }
    ensures page_rule { PageRule image.now }
{
    Answer::from(try_records(image, out))
}

// 12, or the pages of words that break no rule before it and stand with their padding.
fn write_words(image: Image, out: &mut [u8]) -> Result<usize, Refusal>
    requires words_len { (length image.words.now ≡ 126 * pages_for (length image.words.now)) × (length image.words.now ≤ 14742) }
    ensures { outcome result out.new ≡ call ((12, rule12 image.entry.words.now) ∷ []) (pages_of image.entry.words.now) out.old }
{
    let mut postorder = [0u32; POSTORDER];
    let mut visit = [0u32; VISIT];
    let mut found = [0u32; 512];
    load_visit(image, &mut postorder, &mut visit, &mut found)?;
    pages_answer(image.words, out)
}

// The pages of lent records.
fn try_write(records: &[u8], out: &mut [u8]) -> Result<usize, Refusal>
    ensures { outcome result out.new ≡ written records.now out.old }
{
    let mut lent = [0u32; WORDS];
    let n = read_records(records, &mut lent)?;
    write_words(Image { words: &lent[..n] }, out)
}

// The same as C takes it; and what reading these pages gives back.
pub fn write(records: &[u8], out: &mut [u8]) -> Answer
    ensures out_after { made result.number result.length out.new ≡ written records.now out.old }
    ensures read_back { lent_refusal records.now ≡ 0 → ReadBack records.now }
    ensures readers_number { ReadersNumber records.now }
{
    Answer::from(try_write(records, out))
}
