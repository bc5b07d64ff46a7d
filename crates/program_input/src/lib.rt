// What a program is given: its arguments, and what a file or the standard input holds, in buffers of a fixed length.
#![tactic(auto)]

ghost use Rattle.std.specs.Prelude.{◌<◌, ◌≡◌, ℕ, true, List, length, take, IfOk, IfSome, Ok};
ghost use Rattle.std.specs.Fn.{FnOnceReturnsAt};
ghost use Rattle.std.specs.Io.{ReadsAtMost};
ghost use Rattle.std.specs.Io.KnownBytes.{Consumes, IsAtEnd};
ghost use Rattle.program_input.specs.Given.{ReadsUpTo, Visit};

use std::env::{Env, FillError};
use std::fs::Files;
use std::io::Read;
use std::{fs, io};

// The most that is read of an image. It is more than an image may have, so a longer input is still seen as too long.
const MOST: usize = 60417;

// Reads to the front of the space until it is full or nothing is left, and returns how many bytes that were. Where a reader's
// bytes are known, these are its first, and all of them where the space is not full.
pub fn read_full<R: Read>(from: &mut R, space: &mut [u8]) -> io::Result<usize>
    ensures in_bounds { ReadsAtMost result space.new }
    ensures bytes { IfOk result (λ n. Consumes (R.remaining from.old) (R.remaining from.new) (take n space.new)) }
    ensures end { IfOk result (λ n. n < length space.new → IsAtEnd (R.remaining from.new)) }
{
    let mut done = 0;
    while done < space.len() {
        let n = from.read(&mut space[done..])?;
        if n == 0 {
            return Ok(done);
        }
        done += n;
    }
    Ok(done)
}

// Reads an image, and gives it to `visit`, whose answer it gives back. Where the reader's bytes are known, the image is its first,
// and all of them where there are fewer than `MOST`.
pub fn with_image<R: Read, T, V: FnOnce(&[u8]) -> io::Result<T>>(
    from: &mut R,
    visit: V,
) -> io::Result<T>
    requires { V.IsAlwaysCallable visit }
    ensures { IfOk result (λ t. (image : List ℕ) × ReadsUpTo MOST (R.remaining from.old) (R.remaining from.new) image × FnOnceReturnsAt V.FnOnce visit image (Ok t)) }
{
    let mut image = [0u8; MOST];
    let n = read_full(from, &mut image)?;
    visit(&image[..n])
}

// Puts argument i at the front of the space and returns it as text, or `None` where there is no such argument. One that is longer
// than the space, or is not text, is an error.
pub fn argument<'a>(rt: &impl Env, i: usize, space: &'a mut [u8]) -> io::Result<Option<&'a str>> {
    let length = match rt.arg(i, space) {
        Ok(length) => length,
        Err(FillError::NotPresent) => return Ok(None),
        Err(FillError::TooLong) => return Err(io::Error::from(io::ErrorKind::InvalidFilename)),
    };
    match str::from_utf8(&space[..length]) {
        Ok(name) => Ok(Some(name)),
        Err(_) => Err(io::Error::from(io::ErrorKind::InvalidData)),
    }
}

// Opens the file that argument i names, and gives its name and it to `visit`. `None` where there is no such argument.
fn visit_argument<R: Env + Files, T, V: Fn(&str, &mut R::File) -> io::Result<T>>(
    rt: &R,
    i: usize,
    visit: &V,
) -> io::Result<Option<T>>
    requires { V.IsAlwaysCallable visit.now }
    ensures { IfOk result (λ found. IfSome found (λ t. Visit (V.post visit.now) (Ok t))) }
{
    let mut space = [0u8; 4096];
    let Some(name) = argument(rt, i, &mut space)? else {
        return Ok(None);
    };
    let mut file = fs::open(rt, name)?;
    Ok(Some(visit(name, &mut file)?))
}

// Gives the name and the file of each argument to `visit`, in turn, as long as that answers true; how many these were. `Env`
// does not state which arguments there are, so what is stated is that each that is counted had a visit that answered true.
pub fn visit_arguments<R: Env + Files, V: Fn(&str, &mut R::File) -> io::Result<bool>>(
    rt: &R,
    visit: V,
) -> io::Result<usize>
    requires { V.IsAlwaysCallable visit }
    ensures { IfOk result (λ n. (visits : List (Visit (V.post visit) (Ok true))) × (length visits ≡ n)) }
{
    for i in 1..usize::MAX {
        if visit_argument(rt, i, &visit)? != Some(true) {
            return Ok(i - 1);
        }
    }
    Ok(usize::MAX - 1)
}
