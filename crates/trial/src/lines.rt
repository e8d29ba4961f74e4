// Lines of text, each written at once.
ghost use Rattle.std.specs.Prelude.{◌≤◌};

use card::Answer;
use std::fmt::{self, Display, InlineText, Write};
use trial_cards::places::{LINE, NUMBER, VALUE};

// The most bytes of a line of numbers: of an A line, which has a letter, 25 blanks, 66 digits, and the newline.
pub(crate) const NUMBERS: usize = 93;

// The most bytes of a line of bytes: a letter, a blank, two digits for each of 1,024 marks, and the newline.
pub(crate) const BYTES: usize = 2051;

const DIGITS: [u8; 16] = *b"0123456789ABCDEF";

// The digits of each field of an A line.
const ANSWER_DIGITS: [usize; 25] = [
    2, 4, 1, 2, 2, 2, 2, 2, 2, 2, 2, 2, 2, 1, 4, 4, 4, 1, 1, 4, 4, 4, 4, 4, 4,
];

// A line of at most N bytes.
pub(crate) fn print<const N: usize>(line: impl Display + Drop)
    requires { N ≤ BYTES }
{
    let text = InlineText::<N>::of(line);
    io::write_all(1, text.as_str().as_bytes());
}

// The last digits of a number, one in each place. With a `write!` for each number, and room for the longest line, a run of A lines took 2.7 times as long.
fn put_digits(places: &mut [u8], number: u16) {
    let mut rest = number;
    for place in places.iter_mut().rev() {
        *place = DIGITS[usize::from(rest % 16)];
        rest /= 16;
    }
}

// The A line: an answer, and the card after it.
#[derive(Clone, Copy)]
pub(crate) struct AnswerLine(pub(crate) Answer);

impl Display for AnswerLine {
    fn fmt<W: Write>(&self, f: &mut fmt::Formatter<W>) -> fmt::Result {
        let Answer {
            outcome,
            line,
            card,
        } = self.0;
        let mut row = trial_cards::rows::row_of(card);
        row[NUMBER] = u16::from(answers::number(outcome));
        row[VALUE] = answers::value(outcome);
        row[LINE] = u16::from(line);
        let mut text = [b' '; NUMBERS];
        text[0] = b'A';
        text[NUMBERS - 1] = b'\n';
        let mut at: usize = 2;
        for (digits, number) in ANSWER_DIGITS.iter().zip(row) {
            let end = at.saturating_add(*digits);
            if let Some(places) = text.get_mut(at..end) {
                put_digits(places, number);
            }
            at = end.saturating_add(1);
        }
        f.write_str(str::from_utf8(&text).unwrap_or_default())
    }
}

// The M line and the T line: a letter, and a row of bytes.
#[derive(Clone, Copy)]
pub(crate) struct BytesLine<'a>(pub(crate) char, pub(crate) &'a [u8]);

impl Display for BytesLine<'_> {
    fn fmt<W: Write>(&self, f: &mut fmt::Formatter<W>) -> fmt::Result {
        let BytesLine(letter, bytes) = *self;
        let mut row = [0; BYTES];
        for (places, byte) in row.chunks_exact_mut(2).zip(bytes) {
            put_digits(places, u16::from(*byte));
        }
        let length = (2 * bytes.len()).min(BYTES);
        let digits = str::from_utf8(&row[..length]).unwrap_or_default();
        writeln!(f, "{letter} {digits}")
    }
}
