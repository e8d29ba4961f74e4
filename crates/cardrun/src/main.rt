// `cardrun`: a session file from standard input, and everything that is printed of it.
#![tactic(auto)]

// The numbers of standard input and output.
const STDIN_FILENO: i32 = 0;

const STDOUT_FILENO: i32 = 1;

// Reads to the input's end, or one byte past the longest file; plays; writes once.
fn main() {
    let mut file = [0u8; session::LONGEST_FILE + 1];
    let size = io::read_full(STDIN_FILENO, &mut file);
    let mut out = io::large_buffer();
    let told = session::play::play(&file[..size], &mut out);
    let text = told.text;
    io::write_all(STDOUT_FILENO, &out[..text]);
}
