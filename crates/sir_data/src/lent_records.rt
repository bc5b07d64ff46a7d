// Lent records: the payload words of an image without padding, as bytes, and refusals 4 to 11 of them.
ghost use Rattle.std.specs.Prelude.{◌≡◌, ◌/◌, length, replicate, ◌*◌, IfOk};
ghost use Rattle.sir_data.specs.Pages.{pages_for};
ghost use Rattle.sir_data.specs.Rules.{first};
ghost use Rattle.sir_data.specs.Refusals.{refused};
ghost use Rattle.sir_data.specs.inner.LentRecords.{fit_rules, Lent};

use crate::pages::{copy_words, pages_for};
use crate::records::Records;
use crate::refusals::Refusal;
use crate::rules::{check_head, check_sized, word_count};

// The first rule that refuses lent records by their length and their head, if one does: 6 outright, 4, 5, or 6 in its turn.
fn check_fit(records: &[u8]) -> Result<(), Refusal>
    ensures { refused result ≡ first (fit_rules records.now) }
{
    if records.len() < 36 {
        return Err(Refusal::PageCount);
    }
    if records.len() % 4 != 0 {
        return Err(Refusal::PageCount);
    }
    let mut head = [0u32; 9];
    copy_words(&records[..36], &mut head);
    check_head(&head)?;
    if records.len() / 4 != word_count(&head) {
        return Err(Refusal::PageCount);
    }
    Ok(())
}

// How many words lent records take with their padding, or the first rule of 4 to 11, 6 outright before them, that refuses them. Where
// none does they stand with the padding at the front of `words`, which has room for those of 117 pages and is lent as zeros.
pub fn read_records(records: &[u8], words: &mut [u32]) -> Result<usize, Refusal>
    requires { words.old ≡ replicate 14742 0 }
    ensures lent { Lent records.now words.new (refused result) }
    ensures count { IfOk result (λ n. n ≡ 126 * pages_for (length records.now / 4)) }
{
    check_fit(records)?;
    copy_words(records, words);
    let n = 126 * pages_for(records.len() / 4);
    check_sized(Records { words: &words[..n] })?;
    Ok(n)
}
