// Replays recorded answers. Each argument names a file that holds an image or lent records, questions about it, and what each of
// them is to give. For each file a line is printed: its name, how many answers agree, and how many differ.
//
// A file is made of little-endian words and bytes: the image's length and the number of questions; the image; then for
// each question its number, how many ids it has, the ids, the length of the result slice, the number and the length that
// the call is to give, and the bytes that the slice is to hold after it.
#![tactic(auto)]

mod questions;

ghost use Rattle.std.specs.Prelude.{◌≡◌, ◌≤◌, length, IfOk};
ghost use Rattle.std.specs.Io.{ReadsAtMost};

use program_input::{read_full, visit_arguments};
use questions::ask;
use sir_data::pages::word_at;
use std::io;
use std::io::Read;

// The most bytes of an image or a result slice that a file may have.
const MOST: usize = 65536;

// The most ids that a question may have.
const MOST_IDS: usize = 2048;

// What a result slice holds before the call.
fn untouched() -> [u8; 65536]
    ensures { 65536 ≡ length result }
{
    [165; 65536]
}

// Reads so many bytes of the file to the front of the space; how many there were.
fn read_part(file: &mut impl Read, space: &mut [u8], wanted: usize) -> io::Result<usize>
    requires { wanted ≤ length space.old }
    ensures { ReadsAtMost result space.new }
{
    read_full(file, &mut space[..wanted])
}

// Puts a question. True where it is known, and number, length and every byte of the slice are as recorded; the head states the first two.
fn is_as_recorded(
    head: &[u8; 12],
    recorded: &[u8],
    question: u32,
    image: &[u8],
    ids: &[u8],
    out: &mut [u8],
) -> bool {
    let Some(given) = ask(question, image, ids, out) else {
        return false;
    };
    if given.number != word_at(head, 1) || given.length != word_at(head, 2) as u64 {
        return false;
    }
    recorded == out
}

// Reads what a question is to give, and puts it.
fn gives_recorded(
    file: &mut impl Read,
    question: u32,
    image: &[u8],
    ids: &[u8],
) -> io::Result<bool> {
    let mut head = [0u8; 12];
    if read_full(file, &mut head)? < 12 {
        return Ok(false);
    }
    let room = word_at(&head, 0) as usize;
    if room > MOST {
        return Ok(false);
    }
    let mut recorded = [0u8; MOST];
    let n = read_part(file, &mut recorded, room)?;
    if n < room {
        return Ok(false);
    }
    let mut out = untouched();
    Ok(is_as_recorded(&head, &recorded[..n], question, image, ids, &mut out[..n]))
}

// Reads the next question of the file and puts it.
fn agrees(file: &mut impl Read, image: &[u8]) -> io::Result<bool> {
    let mut head = [0u8; 8];
    if read_full(file, &mut head)? < 8 {
        return Ok(false);
    }
    let count = word_at(&head, 1) as usize;
    if count > MOST_IDS {
        return Ok(false);
    }
    let mut ids = [0u8; 8192];
    let n = read_part(file, &mut ids, 4 * count)?;
    if n < 4 * count {
        return Ok(false);
    }
    gives_recorded(file, word_at(&head, 0), image, &ids[..n])
}

// How many of the next `count` questions agree.
fn agreeing(file: &mut impl Read, image: &[u8], count: u32) -> io::Result<u32>
    ensures { IfOk result (λ found. found ≤ count) }
{
    let mut found: u32 = 0;
    for i in 0..count {
        if agrees(file, image)? {
            found += 1;
        }
    }
    Ok(found)
}

fn print_counts(rt: &impl Print, agree: u32, differ: u32) -> io::Result<()> {
    println!(rt; " agree {agree} differ {differ}")
}

// The counts of a file. False where it does not even hold its image.
fn replay(rt: &impl Print, file: &mut impl Read) -> io::Result<bool> {
    let mut head = [0u8; 8];
    if read_full(file, &mut head)? < 8 {
        return Ok(false);
    }
    let length = word_at(&head, 0) as usize;
    if length > MOST {
        return Ok(false);
    }
    let mut image = [0u8; MOST];
    let n = read_part(file, &mut image, length)?;
    if n < length {
        return Ok(false);
    }
    let count = word_at(&head, 1);
    let agree = agreeing(file, &image[..n], count)?;
    print_counts(rt, agree, count - agree)?;
    Ok(true)
}

fn main(rt: HostRuntime) -> io::Result<()> {
    visit_arguments(&rt, |name, file| {
        rt.print(name)?;
        replay(&rt, file)
    })?;
    Ok(())
}
