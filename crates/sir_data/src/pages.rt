// An image's pages: 512 bytes each, word 0 the page number, words 1 to 126 payload, word 127 the check.
ghost use Rattle.std.specs.Prelude.{◌≡◌, ◌+◌, ◌*◌, ◌/◌, ◌^◌, ◌<◌, ◌≤◌, ◌++◌, map, length, drop};
ghost use Rattle.plank_core.specs.Lists.{upto};
ghost use Rattle.sir_data.specs.Pages.{word_at, pages, pages_for, page_word, check_of, payload, bad_length, bad_number, bad_check};
ghost use Rattle.sir_data.specs.Paging.{words_of};
ghost use Rattle.sir_data.specs.Rules.{first, page_rules};
ghost use Rattle.sir_data.specs.Refusals.{refused};

use crate::refusals::Refusal;

// Word i of some bytes, little-endian.
pub fn word_at(bytes: &[u8], i: usize) -> u32
    requires { 4 * i + 4 ≤ length bytes.now }
    ensures { result ≡ word_at bytes.now i }
{
    let at = 4 * i;
    u32::from_le_bytes([bytes[at], bytes[at + 1], bytes[at + 2], bytes[at + 3]])
}

// The words of some bytes, to the front of `words`.
pub fn copy_words(bytes: &[u8], words: &mut [u32])
    requires { length bytes.now / 4 ≤ length words.old }
    ensures { words.new ≡ words_of bytes.now ++ drop (length bytes.now / 4) words.old }
{
    for i in 0..bytes.len() / 4 {
        words[i] = word_at(bytes, i);
    }
}

// The check of a page by two running sums: twice the sum of the sums so far, less the sum, weighs the words 253, 251, .., 1.
pub fn page_check(image: &[u8], page: usize) -> u32
    requires { 512 * page + 512 ≤ length image.now }
    ensures { result ≡ check_of (page_word image.now page) }
{
    let mut a: u32 = 0;
    let mut b: u32 = 0;
    for i in 0..127 {
        a = a.wrapping_add(word_at(image, 128 * page + i));
        b = b.wrapping_add(a);
    }
    b.wrapping_add(b).wrapping_sub(a)
}

// The fewest pages that hold n words.
pub fn pages_for(n: usize) -> usize
    requires { n < 2 ^ 60 }
    ensures { result ≡ pages_for n }
{
    (n + 125) / 126
}

// Refusal 1: no page, a part of a page, or more than 117 pages.
fn length_bad(image: &[u8]) -> bool
    ensures { result ≡ bad_length image.now }
{
    image.is_empty() || image.len() % 512 != 0 || image.len() > 59904
}

// Refusal 2: some page's number is wrong.
fn number_bad(image: &[u8]) -> bool
    ensures { result ≡ bad_number image.now }
{
    (0..image.len() / 512).any(|p| word_at(image, 128 * p) as usize != p)
}

// Refusal 3: some page's check is wrong.
fn check_bad(image: &[u8]) -> bool
    ensures { result ≡ bad_check image.now }
{
    (0..image.len() / 512).any(|p| word_at(image, 128 * p + 127) != page_check(image, p))
}

// The first refusal that the pages give, if they give one.
pub fn check_pages(image: &[u8]) -> Result<(), Refusal>
    ensures { refused result ≡ first (page_rules image.now) }
{
    if length_bad(image) {
        return Err(Refusal::Length);
    }
    if number_bad(image) {
        return Err(Refusal::PageNumber);
    }
    if check_bad(image) {
        return Err(Refusal::PageCheck);
    }
    Ok(())
}

// The payload of one page, to the front of `words`.
fn read_page(image: &[u8], page: usize, words: &mut [u32])
    requires page_in_bounds { 512 * page + 512 ≤ length image.now }
    requires in_bounds { 126 ≤ length words.old }
    ensures { words.new ≡ map (λ k. page_word image.now page (1 + k)) (upto 126) ++ drop 126 words.old }
{
    copy_words(&image[512 * page + 4..512 * page + 508], words);
}

// The payload of all pages, to the front of `words`; how many words that is.
pub fn read_payload(image: &[u8], words: &mut [u32]) -> usize
    requires { 126 * pages image.now ≤ length words.old }
    ensures { (result ≡ length (payload image.now)) × (words.new ≡ payload image.now ++ drop result words.old) }
{
    let n = image.len() / 512;
    for p in 0..n {
        read_page(image, p, &mut words[126 * p..]);
    }
    126 * n
}
