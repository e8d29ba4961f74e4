// Numbers as text. An access's number is counted up with its last four digits, and hex digits are read two at a time from a table: neither takes a division.
ghost use Rattle.std.specs.Prelude.{◌≡◌, ◌+◌, ◌%◌, ◌<◌, ◌≤◌, length};
ghost use Rattle.text.specs.Digits.{digit_code, digit_count, last_digits, decimal, hex_digit, line_number, next_number, short_numeral, numeral, hex_table_bytes, hex_at, hex_table, hex_pair, hex_by};
ghost use Rattle.text.specs.Output.{written, Wrote};

use super::output::{byte, two};

// A hex digit above 9 is a letter, of which 10 is A.
const LETTERS_FROM: u8 = b'A' - 10;

// Two hex digits for each byte.
const HEX_TABLE_BYTES: usize = 512;

pub type HexTable = [u8; HEX_TABLE_BYTES];

// An access's number, and the text of its last four decimal digits as one number, the first in the lowest byte.
#[derive(Clone, Copy)]
pub struct LineNumber {
    pub value: u64,
    pub digits: u32,
}

impl LineNumber {
    pub fn of(n: u64) -> LineNumber
        ensures { result ≡ line_number n }
    {
        let digits = [
            last_digit(n / 1000),
            last_digit(n / 100),
            last_digit(n / 10),
            last_digit(n),
        ];
        LineNumber {
            value: n,
            digits: u32::from_le_bytes(digits),
        }
    }

    // The next number: its last digit goes up, or after a nine the last but one; else all are told anew. Past the last number comes 0.
    #[tactic(auto, unfolding(crate::specs::Digits::next_number))]
    pub fn next(self) -> LineNumber
        ensures { result ≡ next_number self }
    {
        let value = self.value.wrapping_add(1);
        if value == 0 {
            LineNumber::of(0)
        } else if self.digits < 0x39000000 {
            LineNumber {
                value,
                digits: self.digits + 0x1000000,
            }
        } else if self.digits % 0x1000000 < 0x390000 {
            LineNumber {
                value,
                digits: 0x30000000 + self.digits % 0x1000000 + 0x10000,
            }
        } else {
            LineNumber::of(value)
        }
    }
}

fn last_digit(n: u64) -> u8
    ensures { result ≡ digit_code (n % 10) }
{
    b'0' + (n % 10) as u8
}

// By `ilog10` an access took 8 to 14 instructions more: the shorter code is inlined in the loop over the accesses and takes registers there.
fn digit_count(n: u64) -> usize
    ensures { (result ≡ digit_count n) × (result ≤ 20) }
{
    let mut left = n;
    for count in 1..20 {
        if left < 10 {
            return count;
        }
        left /= 10;
    }
    20
}

// The last digit goes first to its place.
fn last_digits(out: &mut [u8], at: usize, count: usize, n: u64)
    requires { at + count ≤ length out.old }
    ensures { out.new ≡ written out.old at (last_digits count n) }
{
    let mut left = n;
    for k in (0..count).rev() {
        out[at + k] = last_digit(left);
        left /= 10;
    }
}

pub(crate) fn decimal(out: &mut [u8], at: usize, n: u64) -> usize
    requires { at + 20 ≤ length out.old }
    ensures { Wrote out.old at (decimal n) out.new result × (result ≤ at + 20) }
{
    let count = digit_count(n);
    last_digits(out, at, count, n);
    at + count
}

// A short number's text: no zeros in front.
#[tactic(auto, unfolding(crate::specs::Digits::short_numeral))]
pub(crate) fn short_numeral(out: &mut [u8], at: usize, number: LineNumber) -> usize
    requires { at + 4 ≤ length out.old }
    ensures { Wrote out.old at (short_numeral number) out.new result × (result ≤ at + 4) }
{
    let [thousands, hundreds, tens, ones] = number.digits.to_le_bytes();
    if 1000 <= number.value {
        let after_hundreds = two(out, at, thousands, hundreds);
        two(out, after_hundreds, tens, ones)
    } else if 100 <= number.value {
        let after_hundreds = byte(out, at, hundreds);
        two(out, after_hundreds, tens, ones)
    } else if 10 <= number.value {
        two(out, at, tens, ones)
    } else {
        byte(out, at, ones)
    }
}

#[tactic(auto, unfolding(crate::specs::Digits::numeral))]
pub(crate) fn numeral(out: &mut [u8], at: usize, number: LineNumber) -> usize
    requires { at + 20 ≤ length out.old }
    ensures { Wrote out.old at (numeral number) out.new result × (result ≤ at + 20) }
{
    if number.value < 10000 {
        short_numeral(out, at, number)
    } else {
        decimal(out, at, number.value)
    }
}

#[tactic(auto, unfolding(crate::specs::Digits::hex_digit))]
fn hex_digit(d: usize) -> u8
    requires { d < 16 }
    ensures { result ≡ hex_digit d }
{
    if d < 10 {
        b'0' + d as u8
    } else {
        LETTERS_FROM + d as u8
    }
}

// The place's digit in the table.
#[tactic(auto, unfolding(crate::specs::Digits::hex_at))]
fn hex_at(i: usize) -> u8
    requires { i < hex_table_bytes }
    ensures { result ≡ hex_at i }
{
    if i % 2 == 0 {
        hex_digit(i / 32)
    } else {
        hex_digit(i / 2 % 16)
    }
}

// The two hex digits of each byte in turn.
pub fn hex_table() -> HexTable
    ensures { result ≡ hex_table }
{
    let mut table = [0u8; HEX_TABLE_BYTES];
    for i in 0..HEX_TABLE_BYTES {
        table[i] = hex_at(i);
    }
    table
}

// The two hex digits of a byte.
fn hex_pair(out: &mut [u8], at: usize, table: &HexTable, b: u8) -> usize
    requires { at + 2 ≤ length out.old }
    ensures { Wrote out.old at (hex_pair table.now b) out.new result }
{
    let i = 2 * usize::from(b);
    two(out, at, table[i], table[i + 1])
}

pub(crate) fn hex_by(out: &mut [u8], at: usize, table: &HexTable, value: u16) -> usize
    requires { at + 4 ≤ length out.old }
    ensures { Wrote out.old at (hex_by table.now value) out.new result }
{
    let [high, low] = value.to_be_bytes();
    let next = hex_pair(out, at, table, high);
    hex_pair(out, next, table, low)
}
