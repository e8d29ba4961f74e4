// The lines that are printed, in a lent output: a line is written where there is room for it, else as far as the output goes.
ghost use Rattle.std.specs.Prelude.{◌≡◌, ◌+◌, ◌≤◌, [], ◌∷◌, ◌++◌, length};
ghost use Rattle.text.specs.Lines.{letter_code, letter, newline, line_by, header, bad, unopened};
ghost use Rattle.text.specs.Digits.{decimal, short_numeral, numeral, hex_by};
ghost use Rattle.text.specs.Output.{output, put, Wrote};

use super::digits::{HexTable, LineNumber};
use super::output::{byte, two};
use super::{digits, output};

fn letter_code(write: bool) -> u8
    ensures { result ≡ letter_code write }
{
    if write { b'W' } else { b'R' }
}

fn letter(out: &mut [u8], at: usize, write: bool) -> usize
    requires { at + 3 ≤ length out.old }
    ensures { Wrote out.old at (letter write) out.new result }
{
    let code = letter_code(write);
    let next = two(out, at, b' ', code);
    byte(out, next, b' ')
}

// An access's line, where there is room for the longest.
fn line_by(
    out: &mut [u8],
    at: usize,
    number: LineNumber,
    write: bool,
    answer: u8,
    table: &HexTable,
    value: u16,
) -> usize
    requires { at + 64 ≤ length out.old }
    ensures { Wrote out.old at (line_by (numeral number) write answer (hex_by table.now value)) out.new result × (result ≤ at + 64) }
{
    let after_number = digits::numeral(out, at, number);
    let after_letter = letter(out, after_number, write);
    let after_answer = digits::decimal(out, after_letter, u64::from(answer));
    let after_blank = byte(out, after_answer, b' ');
    let after_value = digits::hex_by(out, after_blank, table, value);
    byte(out, after_value, b'\n')
}

// The same of an accepted access, whose answer is 0, with a short number.
fn accepted_line(
    out: &mut [u8],
    at: usize,
    number: LineNumber,
    write: bool,
    table: &HexTable,
    value: u16,
) -> usize
    requires { at + 64 ≤ length out.old }
    ensures { Wrote out.old at (line_by (short_numeral number) write 0 (hex_by table.now value)) out.new result × (result ≤ at + 64) }
{
    let after_number = digits::short_numeral(out, at, number);
    let after_letter = letter(out, after_number, write);
    let after_blank = two(out, after_letter, b'0', b' ');
    let after_value = digits::hex_by(out, after_blank, table, value);
    byte(out, after_value, b'\n')
}

// An access's line, as far as the output goes.
pub fn put_line(
    out: &mut [u8],
    at: usize,
    number: LineNumber,
    write: bool,
    answer: u8,
    table: &HexTable,
    value: u16,
) -> usize
    ensures { output out.new result ≡ put (output out.old at) (line_by (numeral number) write answer (hex_by table.now value)) }
{
    if output::roomy(out.len(), at) {
        line_by(out, at, number, write, answer, table, value)
    } else {
        let mut text = [0u8; 64];
        let size = line_by(&mut text, 0, number, write, answer, table, value);
        output::put(out, at, &text[..size])
    }
}

// The line of an accepted access, as far as the output goes. A short number where there is room is the common case and goes straight to its place.
// By `put_line` alone an access took 46 instructions more, with both tests in one and one call of `put_line` 2 to 3 more.
pub fn put_accepted(
    out: &mut [u8],
    at: usize,
    number: LineNumber,
    write: bool,
    table: &HexTable,
    value: u16,
) -> usize
    ensures { output out.new result ≡ put (output out.old at) (line_by (numeral number) write 0 (hex_by table.now value)) }
{
    if 10000 <= number.value {
        put_line(out, at, number, write, 0, table, value)
    } else if output::roomy(out.len(), at) {
        accepted_line(out, at, number, write, table, value)
    } else {
        put_line(out, at, number, write, 0, table, value)
    }
}

// A number ends a line. Of a session, its last line alone.
#[cold]
fn put_number(out: &mut [u8], at: usize, n: u64) -> usize
    ensures { output out.new result ≡ put (output out.old at) (decimal n ++ (newline ∷ [])) }
{
    let mut text = [0u8; 64];
    let after_number = digits::decimal(&mut text, 0, n);
    let size = byte(&mut text, after_number, b'\n');
    output::put(out, at, &text[..size])
}

#[tactic(auto, unfolding(crate::specs::Lines::header))]
pub fn put_header(out: &mut [u8], at: usize) -> usize
    ensures { output out.new result ≡ put (output out.old at) header }
{
    output::put(out, at, b"n op answer value\n")
}

pub fn put_bad(out: &mut [u8], at: usize, place: u64) -> usize
    ensures { output out.new result ≡ put (output out.old at) (bad place) }
{
    let next = output::put(out, at, b"bad ");
    put_number(out, next, place)
}

pub fn put_unopened(out: &mut [u8], at: usize, number: u8) -> usize
    ensures { output out.new result ≡ put (output out.old at) (unopened number) }
{
    let next = output::put(out, at, b"open ");
    put_number(out, next, u64::from(number))
}
