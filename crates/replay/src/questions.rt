// Puts recorded questions by their numbers: every exported function is called here and nowhere else in this program.
use sir_analyses::answers::Answer;
use sir_capi::{
    sir_all_allocations, sir_all_entry_sets, sir_all_exit_sets, sir_all_intervals, sir_all_owners,
    sir_all_predecessors, sir_all_uses, sir_allocation, sir_chart, sir_crossing, sir_entry_set,
    sir_exit_set, sir_intervals, sir_open, sir_order, sir_owner, sir_predecessors, sir_records,
    sir_rounds, sir_uses, sir_write,
};
use sir_data::pages::word_at;

// The questions without ids: about the image, and for all ids; none where the number is of no such question, as in the functions below.
// Where records are written, they are lent in the place of an image.
fn ask_of_image(question: u32, image: &[u8], out: &mut [u8]) -> Option<Answer> {
    let answer = match question {
        0 => sir_order(image, out),
        8 => sir_rounds(image, out),
        9 => sir_all_predecessors(image, out),
        10 => sir_all_entry_sets(image, out),
        11 => sir_all_exit_sets(image, out),
        12 => sir_all_uses(image, out),
        13 => sir_all_intervals(image, out),
        14 => sir_all_allocations(image, out),
        15 => sir_all_owners(image, out),
        18 => sir_records(image, out),
        19 => sir_write(image, out),
        20 => sir_chart(image, out),
        _ => return None,
    };
    Some(answer)
}

// The questions about one id.
fn ask_of_one(question: u32, image: &[u8], id: u32, out: &mut [u8]) -> Option<Answer> {
    let answer = match question {
        1 => sir_predecessors(image, id, out),
        2 => sir_entry_set(image, id, out),
        3 => sir_exit_set(image, id, out),
        4 => sir_uses(image, id, out),
        5 => sir_intervals(image, id, out),
        6 => sir_allocation(image, id, out),
        7 => sir_owner(image, id, out),
        _ => return None,
    };
    Some(answer)
}

// The questions about two ids.
fn ask_of_two(
    question: u32,
    image: &[u8],
    first: u32,
    second: u32,
    out: &mut [u8],
) -> Option<Answer> {
    let answer = match question {
        16 => sir_open(image, first, second, out),
        17 => sir_crossing(image, first, second, out),
        _ => return None,
    };
    Some(answer)
}

// Puts a question about ids, a word each; none where there is no question of this number with so many ids.
pub fn ask(question: u32, image: &[u8], ids: &[u8], out: &mut [u8]) -> Option<Answer> {
    match ids.len() {
        0 => ask_of_image(question, image, out),
        4 => ask_of_one(question, image, word_at(ids, 0), out),
        8 => ask_of_two(question, image, word_at(ids, 0), word_at(ids, 1), out),
        _ => None,
    }
}
