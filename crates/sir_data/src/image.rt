// Reading an image: refusals 1 to 11, and the payload words.
ghost use Rattle.std.specs.Prelude.{◌≡◌, ◌≤◌, ◌++◌, length, IfOk};
ghost use Rattle.sir_data.specs.Pages.{payload};
ghost use Rattle.sir_data.specs.Rules.{first, page_rules, record_rules};
ghost use Rattle.sir_data.specs.Refusals.{refused};
ghost use Rattle.sir_data.specs.inner.Image.{Read};

use crate::pages::{check_pages, read_payload};
use crate::refusals::Refusal;
use crate::rules::check_records;

// How many payload words an image has, or the first rule of 1 to 11 that refuses it. Where the pages are in order, its payload words
// go to the front of `words`, which has room for those of 117 pages.
pub fn read_image(image: &[u8], words: &mut [u32]) -> Result<usize, Refusal>
    requires { 14742 ≤ length words.old }
    ensures read { Read image.now words.old words.new (refused result) }
    ensures count { IfOk result (λ n. n ≡ length (payload image.now)) }
{
    check_pages(image)?;
    let n = read_payload(image, words);
    check_records(&words[..n])?;
    Ok(n)
}

// The first rule of 1 to 11 that refuses the image, if one does.
pub fn refusal(image: &[u8]) -> Result<(), Refusal>
    ensures { refused result ≡ first (page_rules image.now ++ record_rules (payload image.now)) }
{
    let mut words = [0u32; 14742];
    read_image(image, &mut words)?;
    Ok(())
}
