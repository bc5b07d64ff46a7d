// Answers of many ids, filled in one pass: each piece of the pass is some words for one id, and goes to the segment of that id. A
// cursor for each id tells where its next piece goes. In an empty slice nothing is stored and the cursors only count.
ghost use Rattle.std.specs.Prelude.{◌≡◌, ◌∷◌, [], cond, ℕ, ◌+◌, ◌-◌, ◌*◌, ◌<◌, ◌≤◌, ◌^◌, length};
ghost use Rattle.sir_answers.specs.inner.Pieces.{pieces_at, blanks, Known};
ghost use Rattle.sir_answers.specs.inner.Scatter.{forward, backward, Fits, Scatters, base, number_at, toward, Placed};

use sir_analyses::answers::{put_word, put_words};

// Some words after what the segment of an id has.
pub fn append(cursors: &mut [usize], id: u32, words: &[u32], out: &mut [u8])
    requires { (id < length cursors.old) × Fits forward ((id, words.now) ∷ []) cursors.old }
    ensures { Scatters forward ((id, words.now) ∷ []) cursors.old out.old cursors.new out.new }
{
    let start = cursors[id as usize];
    cursors[id as usize] = put_words(out, start, words);
}

// The same words after what the segment of each of some ids has.
pub fn append_each(cursors: &mut [usize], ids: &[u32], words: &[u32], out: &mut [u8])
    requires known { Known (length cursors.old) ids.now }
    requires fits { Fits forward (pieces_at (λ k. words.now) ids.now 0) cursors.old }
    ensures { Scatters forward (pieces_at (λ k. words.now) ids.now 0) cursors.old out.old cursors.new out.new }
{
    for id in ids {
        append(cursors, *id, words, out);
    }
}

// Moves the cursor of an id past n words, which are only counted.
pub fn advance(cursors: &mut [usize], id: u32, n: usize)
    requires { (id < length cursors.old) × Fits forward ((id, blanks n) ∷ []) cursors.old }
    ensures { Scatters forward ((id, blanks n) ∷ []) cursors.old [] cursors.new [] }
{
    cursors[id as usize] += n;
}

// Moves the cursor of each of some ids past n words, which are only counted.
pub fn advance_each(cursors: &mut [usize], ids: &[u32], n: usize)
    requires known { Known (length cursors.old) ids.now }
    requires fits { Fits forward (pieces_at (λ k. blanks n) ids.now 0) cursors.old }
    ensures { Scatters forward (pieces_at (λ k. blanks n) ids.now 0) cursors.old [] cursors.new [] }
{
    for id in ids {
        advance(cursors, *id, n);
    }
}

// Some words in front of what the segment of an id has.
pub fn prepend(cursors: &mut [usize], id: u32, words: &[u32], out: &mut [u8])
    requires { (id < length cursors.old) × Fits backward ((id, words.now) ∷ []) cursors.old }
    ensures { Scatters backward ((id, words.now) ∷ []) cursors.old out.old cursors.new out.new }
{
    let start = cursors[id as usize] - words.len();
    cursors[id as usize] = start;
    put_words(out, start, words);
}

// From cursors that went back from 2 ^ 59 to the numbers of words that they passed.
pub fn passed_words(cursors: &mut [usize])
    requires { (v : ℕ) → v < length cursors.old → number_at cursors.old v ≤ 2 ^ 59 }
    ensures { (v : ℕ) → v < length cursors.new → number_at cursors.new v ≡ 2 ^ 59 - number_at cursors.old v }
{
    for cursor in cursors.iter_mut() {
        *cursor = 576460752303423488 - *cursor;
    }
}

// How many words all segments take, each with its length before it.
pub fn total_words(counts: &[usize]) -> usize
    requires { base (number_at counts.now) (length counts.now) < 2 ^ 60 }
    ensures { result ≡ base (number_at counts.now) (length counts.now) }
{
    let mut n: usize = 0;
    for count in counts {
        n = n + 1 + *count;
    }
    n
}

// The end of a segment at which its cursor starts.
fn origin(start: usize, n: usize, ends: bool) -> usize
    requires { start + 1 + n < 2 ^ 60 }
    ensures { result ≡ cond ends (start + 1 + n) (start + 1) }
{
    if ends {
        return start + 1 + n;
    }
    start + 1
}

// From the counts to the segments: stores each length, and sets each cursor to the start or the end of its segment.
pub fn put_lengths(cursors: &mut [usize], ends: bool, out: &mut [u8])
    requires cursors_bound { base (number_at cursors.old) (length cursors.old) < 2 ^ 60 }
    requires cursors_in_bounds { 4 * base (number_at cursors.old) (length cursors.old) ≤ length out.old }
    requires by_index { (v : ℕ) → v < length cursors.old → number_at cursors.old v < 2 ^ 32 }
    ensures { Placed (toward ends) (number_at cursors.old) (length cursors.new) cursors.new out.new }
{
    let mut start: usize = 0;
    for cursor in cursors.iter_mut() {
        let n = *cursor;
        put_word(out, start, n as u32);
        *cursor = origin(start, n, ends);
        start = start + 1 + n;
    }
}
