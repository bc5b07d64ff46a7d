// Sets and rows of sets at their limits; what is printed is held to the file stdout.
#![tactic(auto)]

ghost use Rattle.std.specs.Prelude.{◌≡◌, ◌+◌, ◌*◌, ◌≤◌, ◌<◌, length};

use plank_core::dense_index_set::{DenseIndexSet, intersects, is_empty, list};
use plank_core::rows::{
    row_add, row_contains, row_difference_with, row_of, row_remove, row_union_with,
};
use std::io;

fn say_ids(rt: &impl Print, ids: &[u32]) -> io::Result<()> {
    for id in ids {
        print!(rt; " {id}")?;
    }
    rt.println("")
}

fn say_if(rt: &impl Print, name: &str, holds: bool) -> io::Result<()> {
    let word = if holds { "yes" } else { "no" };
    println!(rt; "{name} {word}")
}

// A name and the members.
fn show(rt: &impl Print, name: &str, set: &[u64]) -> io::Result<()>
    requires { length set.now ≡ 8 }
{
    rt.print(name)?;
    let mut ids = [0u32; 512];
    let n = list(set, &mut ids);
    say_ids(rt, &ids[..n])
}

fn empty() -> DenseIndexSet {
    DenseIndexSet { words: [0u64; 8] }
}

// The set with one more member. A set is a table of one row.
fn with(set: DenseIndexSet, i: u32) -> DenseIndexSet
    requires { i < 512 }
{
    let mut words = set.words;
    row_add(&mut words, 0, i);
    DenseIndexSet { words }
}

// All numbers below n.
fn below(n: u32) -> DenseIndexSet
    requires { n ≤ 512 }
{
    let mut set = empty();
    for i in 0..n {
        set = with(set, i);
    }
    set
}

fn limits() -> DenseIndexSet {
    with(with(with(with(empty(), 511), 64), 0), 63)
}

fn show_sets(rt: &impl Print) -> io::Result<()> {
    let mut set = [0u64; 8];
    show(rt, "empty", &set)?;
    let ends = limits();
    show(rt, "limits", &ends.words)?;
    let full = below(512);
    row_union_with(&mut set, 0, &full.words);
    let low = below(508);
    row_difference_with(&mut set, 0, &low.words);
    show(rt, "full without those below 508", &set)?;
    let grew = row_union_with(&mut set, 0, &ends.words);
    show(rt, "with the limits", &set)?;
    say_if(rt, "grew", grew)?;
    let again = row_union_with(&mut set, 0, &ends.words);
    say_if(rt, "grew again", again)?;
    row_remove(&mut set, 0, 63);
    show(rt, "without 63", &set)
}

fn ask_sets(rt: &impl Print) -> io::Result<()> {
    let none = empty();
    let ends = limits();
    say_if(rt, "empty is empty", is_empty(&none.words))?;
    say_if(rt, "limits is empty", is_empty(&ends.words))?;
    let last = with(none, 511);
    say_if(
        rt,
        "511 alone meets limits",
        intersects(&last.words, &ends.words),
    )?;
    let near = with(with(with(none, 1), 62), 510);
    say_if(
        rt,
        "1 62 510 meets limits",
        intersects(&near.words, &ends.words),
    )?;
    say_if(rt, "511 is in limits", row_contains(&ends.words, 0, 511))?;
    say_if(rt, "1 is in limits", row_contains(&ends.words, 0, 1))
}

// A set that is filled and emptied again.
fn change_set(rt: &impl Print) -> io::Result<()> {
    let mut set = [0u64; 8];
    let full = below(512);
    row_union_with(&mut set, 0, &full.words);
    say_if(rt, "511 is new in full", row_add(&mut set, 0, 511))?;
    row_difference_with(&mut set, 0, &full.words);
    say_if(rt, "full without full is empty", is_empty(&set))?;
    say_if(rt, "511 is new in empty", row_add(&mut set, 0, 511))?;
    say_if(rt, "511 was there", row_remove(&mut set, 0, 511))?;
    say_if(rt, "511 was there again", row_remove(&mut set, 0, 511))
}

fn show_row(rt: &impl Print, name: &str, table: &[u64], row: usize) -> io::Result<()>
    requires { 8 * row + 8 ≤ length table.now }
{
    show(rt, name, row_of(table, row))
}

// Three rows, the middle one changed at its ends: its neighbours stay.
fn show_rows(rt: &impl Print) -> io::Result<()> {
    let mut table = [0u64; 24];
    row_add(&mut table, 0, 511);
    row_add(&mut table, 2, 0);
    say_if(rt, "0 is new in row 1", row_add(&mut table, 1, 0))?;
    say_if(rt, "511 is new in row 1", row_add(&mut table, 1, 511))?;
    say_if(rt, "511 is new in row 1 again", row_add(&mut table, 1, 511))?;
    let ends = limits();
    say_if(rt, "row 1 grew", row_union_with(&mut table, 1, &ends.words))?;
    say_if(
        rt,
        "row 1 grew again",
        row_union_with(&mut table, 1, &ends.words),
    )?;
    show_row(rt, "row 0", &table, 0)?;
    show_row(rt, "row 1", &table, 1)?;
    show_row(rt, "row 2", &table, 2)?;
    say_if(rt, "511 was in row 1", row_remove(&mut table, 1, 511))?;
    let low = below(64);
    row_difference_with(&mut table, 1, &low.words);
    show_row(rt, "row 0", &table, 0)?;
    show_row(rt, "row 1", &table, 1)?;
    show_row(rt, "row 2", &table, 2)
}

fn main(rt: HostRuntime) -> io::Result<()> {
    show_sets(&rt)?;
    ask_sets(&rt)?;
    change_set(&rt)?;
    show_rows(&rt)
}
