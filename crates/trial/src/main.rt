// Plays one trial input through the card's doors, for the comparison with the independent program: oracle/TRIAL.md says what is read and what is printed.
#![tactic(auto)]

mod bench;
mod lines;
mod lists;
mod records;
mod rows;

use bench::Bench;
use records::Record;

// Bytes after the last whole record are not looked at.
fn main() {
    let mut input = [0; 65536];
    let n = io::read_full(0, &mut input);
    let (records, _) = input[..n].as_chunks();
    let mut bench = Bench::new();
    for record in records {
        bench.play(Record(record));
    }
    bench.show();
}
