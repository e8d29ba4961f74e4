// What the records are played on: the card, the rows of bytes, and the last entry of a list to be written.
use crate::lines::{self, AnswerLine, BYTES, BytesLine, NUMBERS};
use crate::lists;
use crate::records::{Kind, Record, low};
use crate::rows::{self, Row};
use card::{Answer, Card};
use maps::Access;
use tuples::Entry;

#[derive(Drop)]
pub(crate) struct Bench {
    card: Card,
    store: Row<524288>,
    marks: Row<1024>,
    tuples: Row<512>,
    bodies: Row<1024>,
    last: Entry,
}

// A record of kind 3 asks for one access at least, and for 256 at most.
const MOST_TIMES: u16 = 256;

fn next_value(value: u16, width: u8, step: u16) -> u16 {
    let next = value.wrapping_add(step);
    if width == 2 { next } else { next % 256 }
}

impl Bench {
    pub(crate) fn new() -> Bench {
        Bench {
            card: trial_cards::cards::zero(),
            store: Row::filled(0),
            marks: Row::filled(0),
            tuples: Row::filled(0xFF),
            bodies: Row::filled(0),
            last: tuples::NO_ENTRY,
        }
    }

    pub(crate) fn play(&mut self, record: Record) {
        let [number, w1, w2, w3, w4, w5, w6, w7] = record.words();
        let Ok(kind) = Kind::try_from(number) else {
            return;
        };
        match kind {
            Kind::Open => self.open(w1, w2, w3, w4),
            Kind::Mark => rows::put(&mut self.marks.bytes, w1, &[low(w2)]),
            Kind::Access => self.access(record.access(), w6, w7),
            Kind::Break => self.card = trial_cards::cards::broken_of(self.card, w1, w2),
            Kind::Fill => rows::fill(&mut self.store.bytes, w1, low(w2), low(w3)),
            Kind::ReadChain => lists::read(self.tuples.lent(), w1, record.entry()),
            Kind::WriteList => self.write_list(w1, record.entry()),
            Kind::Lend => {
                self.marks.lend(usize::from(w1));
                self.store.lend(usize::from(w2) + 65536 * usize::from(w3));
                self.tuples.lend(usize::from(w4));
                self.bodies.lend(usize::from(w5));
            }
            Kind::TupleBytes => rows::put(&mut self.tuples.bytes, w1, record.brought()),
            Kind::BodyBytes => rows::put(&mut self.bodies.bytes, w1, record.brought()),
            Kind::LastEntry => self.last = record.entry(),
            Kind::Show => self.show(),
            Kind::BufferBytes => rows::put(&mut self.card.buffer, w1, record.brought()),
            Kind::WriteBack => self.write_back(),
        }
    }

    fn take(&mut self, answer: Answer) {
        lines::print::<NUMBERS>(AnswerLine(answer));
        self.card = answer.card;
    }

    fn open(&mut self, cylinders: u16, heads: u16, sectors: u16, mode: u16) {
        let answer = Card::open(
            cylinders,
            heads,
            sectors,
            mode,
            self.store.lent(),
            self.marks.lent(),
            self.tuples.lent(),
        );
        self.take(answer);
    }

    fn access(&mut self, mut access: Access, times: u16, step: u16) {
        for _ in 0..times.clamp(1, MOST_TIMES) {
            let answer = self.card.access(
                access,
                self.store.lent_mut(),
                self.marks.lent_mut(),
                self.tuples.lent(),
            );
            self.take(answer);
            access.value = next_value(access.value, access.width, step);
        }
    }

    // All entries are the first, but for the last.
    fn write_list(&mut self, count: u16, first: Entry) {
        let outcome = trial_lists::write_made(
            first,
            self.last,
            usize::from(count),
            self.bodies.lent(),
            self.tuples.lent_mut(),
        );
        lists::show_written(outcome, self.tuples.lent());
    }

    fn write_back(&mut self) {
        let outcome = trial_lists::write_back(self.bodies.lent(), self.tuples.lent_mut());
        lists::show_written(outcome, self.tuples.lent());
    }

    // The S line and the M line.
    pub(crate) fn show(&self) {
        let store = rows::sum(self.store.lent());
        let buffer = rows::sum(&self.card.buffer);
        let tuples = rows::sum(self.tuples.lent());
        lines::print::<NUMBERS>(format_args!("S {store:04X} {buffer:04X} {tuples:04X}\n"));
        lines::print::<BYTES>(BytesLine('M', self.marks.lent()));
    }
}
