// What is shown of the tuple reader and the tuple writer.
use crate::lines::{self, BYTES, BytesLine, NUMBERS};
use crate::rows;
use answers::Outcome;
use tuples::Entry;

// The most places of a list that are shown.
const MOST_SHOWN: usize = 256;

// The R line, and the E lines of the entries and of two places more.
pub(crate) fn read(tuples: &[u8], places: u16, before: Entry) {
    let places = usize::from(places);
    let outcome = trial_lists::read_into(tuples, places, before, 0).outcome;
    let (number, value) = (answers::number(outcome), answers::value(outcome));
    lines::print::<NUMBERS>(format_args!("R {number:02X} {value:04X}\n"));
    for i in 0..(usize::from(value) + 2).min(MOST_SHOWN) {
        let entry = trial_lists::read_into(tuples, places, before, i).entry;
        let Entry {
            code,
            start,
            length,
        } = entry;
        lines::print::<NUMBERS>(format_args!("E {code:02X} {start:04X} {length:04X}\n"));
    }
}

// The W line and the T line.
pub(crate) fn show_written(outcome: Outcome, tuples: &[u8]) {
    let (number, value) = (answers::number(outcome), answers::value(outcome));
    let sum = rows::sum(tuples);
    lines::print::<NUMBERS>(format_args!("W {number:02X} {value:04X} {sum:04X}\n"));
    lines::print::<BYTES>(BytesLine('T', tuples));
}
