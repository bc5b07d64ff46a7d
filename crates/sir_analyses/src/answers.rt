// Writing answers: little-endian words, counted first and stored after by the same functions.
ghost use Rattle.std.specs.Prelude.{◌≡◌, ◌++◌, ◌∷◌, [], ◌+◌, ◌<◌, ◌≤◌, ◌^◌, length, take, drop};
ghost use Rattle.plank_core.specs.Lists.{bind};
ghost use Rattle.sir_data.specs.Pages.{bytes_of};
ghost use Rattle.sir_data.specs.Refusals.{refused};
ghost use Rattle.sir_analyses.specs.Calls.{answered};
ghost use Rattle.sir_analyses.specs.inner.Outcomes.{given, outcome, Finished};
ghost use Rattle.sir_analyses.specs.inner.Writing.{Puts};

use sir_data::refusals::Refusal;

// Stores the bytes of a word.
fn store(out: &mut [u8], at: usize, word: u32)
    requires { at + 4 ≤ length out.old }
    ensures { out.new ≡ take at out.old ++ bytes_of word ++ drop (at + 4) out.old }
{
    out[at..at + 4].copy_from_slice(&word.to_le_bytes());
}

// Word n of an answer, stored where the slice has room; the next number.
pub fn put_word(out: &mut [u8], n: usize, word: u32) -> usize
    requires { n < 2 ^ 60 }
    ensures { Puts n (word ∷ []) out.old out.new result }
{
    if out.len() < 4 * n + 4 {
        return n + 1;
    }
    store(out, 4 * n, word);
    n + 1
}

// Some words in turn.
pub fn put_words(out: &mut [u8], n: usize, words: &[u32]) -> usize
    requires { n + length words.now < 2 ^ 60 }
    ensures { Puts n words.now out.old out.new result }
{
    let mut m = n;
    for &word in words {
        m = put_word(out, m, word);
    }
    m
}

// A triple of words.
pub fn put_triple(out: &mut [u8], n: usize, a: u32, b: u32, c: u32) -> usize
    requires { n + 3 < 2 ^ 60 }
    ensures { Puts n (a ∷ b ∷ c ∷ []) out.old out.new result }
{
    let m = put_word(out, n, a);
    let k = put_word(out, m, b);
    put_word(out, k, c)
}

// An answer as C takes it: the number of a refusal, or 0 and how many bytes the answer has.
#[repr(C)]
#[derive(Clone, Copy)]
pub struct Answer {
    pub number: u32,
    pub length: u64,
}

impl From<Result<usize, Refusal>> for Answer {
    ghost from_gives = { λ call answer. (answer.number ≡ refused call) × (answer.length ≡ given call) };

    fn from(call: Result<usize, Refusal>) -> Answer {
        match call {
            Ok(length) => Answer {
                number: 0,
                length: length as u64,
            },
            Err(refusal) => Answer {
                number: u32::from(refusal),
                length: 0,
            },
        }
    }
}

// How many bytes an answer of n words has, where the slice has room for them.
pub fn finish(n: usize, room: usize) -> Result<usize, Refusal>
    requires { n < 2 ^ 60 }
    ensures { Finished n room result }
{
    if room < 4 * n {
        return Err(Refusal::ShortResult);
    }
    Ok(4 * n)
}

// An answer whose words are at hand.
pub fn words_answer(words: &[u32], out: &mut [u8]) -> Result<usize, Refusal>
    requires { length words.now < 2 ^ 60 }
    ensures { outcome result out.new ≡ answered (bind words.now bytes_of) out.old }
{
    let end = finish(words.len(), out.len())?;
    put_words(&mut out[..end], 0, words);
    Ok(end)
}
