// The run of a part of a file: its accesses in turn, and their lines.
ghost use Rattle.std.specs.Prelude.{◌≡◌, ◌+◌, ◌<◌, length};
ghost use Rattle.ground.specs.Choice.{pick};
ghost use Rattle.registers.specs.Machine.{machine};
ghost use Rattle.port.specs.Data.{effect};
ghost use Rattle.card.specs.Step.{step};
ghost use Rattle.card.specs.Doors.{machine_of, card_of};
ghost use Rattle.answers.specs.Answers.{outcome_number};
ghost use Rattle.text.specs.Lines.{line, shown_value};
ghost use Rattle.text.specs.Digits.{line_number, hex_table};
ghost use Rattle.text.specs.Output.{output, put};
ghost use Rattle.session.specs.Run.{wrapped, script_from, result_of, shown_at, shown, ran_as};
ghost use Rattle.card.specs.Access.{asked_with, verdict_of};

use super::{Failure, Ran, Told};
use answers::Outcome;
use card::{Card, Verdict};
use ground::Sector;
use maps::Access;
use port::Done;
use registers::Core;
use text::digits::{HexTable, LineNumber};

fn written_or_read(write: bool, value: u16, read: u16) -> u16
    ensures { result ≡ pick write value read }
{
    if write { value } else { read }
}

// What a run leaves at a place of its part.
fn ran(
    core: Core,
    buffer: Sector,
    first: u64,
    at: usize,
    done: usize,
    end: Result<(), Failure>,
    text: usize,
) -> Ran
    ensures { result ≡ record { card = card_of core buffer; told = record { place = wrapped (first + at); done = done; end = end; text = text } } }
{
    Ran {
        card: Card {
            phase: core.phase,
            state: core.state,
            buffer,
        },
        told: Told {
            place: first.wrapping_add(at as u64),
            done,
            end,
            text,
        },
    }
}

// What a record asks for is done, by the verdict on the card, which stands.
fn access_done(
    verdict: Verdict,
    core: Core,
    access: Access,
    buffer: &mut Sector,
    store: &mut [u8],
    marks: &mut [u8],
    tuples: &[u8],
) -> Done
    requires { verdict ≡ verdict_of core.phase core.state store.old marks.old tuples.now }
    ensures marks_after { effect result buffer.new store.new marks.new ≡ step (machine core buffer.old store.old marks.old) (asked_with access tuples.now) }
    ensures verdict_value { verdict ≡ verdict_of result.core.phase result.core.state store.new marks.new tuples.now }
{
    card::step::by_verdict(verdict, core, access, buffer, store, marks, tuples)
}

// The line of an access, by its number's last digits.
fn put_answer(
    out: &mut [u8],
    at: usize,
    number: LineNumber,
    access: Access,
    outcome: Outcome,
    table: &HexTable,
) -> usize
    requires { (number ≡ line_number number.value) × (table.now ≡ hex_table) }
    ensures { output out.new result ≡ put (output out.old at) (line number.value access.write (outcome_number outcome) (shown_value outcome access.write access.value)) }
{
    match outcome {
        Ok(read) => {
            let shown = written_or_read(access.write, access.value, read);
            text::lines::put_accepted(out, at, number, access.write, table, shown)
        }
        Err(refusal) => {
            let answer = refusal.number();
            text::lines::put_line(out, at, number, access.write, answer, table, 0)
        }
    }
}

// The accesses of a part from a place on, their lines from a place of the output on. Core and buffer stay here from access to access.
// What is lent stays in parts, as `card`'s functions and `run` take it: a struct would be made for the call and taken apart for each access.
fn lines(
    verdict: Verdict,
    card: Card,
    part: &[u8],
    from: usize,
    first: u64,
    number: u64,
    store: &mut [u8],
    marks: &mut [u8],
    tuples: &[u8],
    out: &mut [u8],
    start: usize,
) -> Ran
    requires { verdict ≡ verdict_of card.phase card.state store.old marks.old tuples.now }
    ensures { ran_as result store.new marks.new out.new ≡ shown_at (output out.old start) (result_of first number (machine_of card store.old marks.old) (script_from (length part.now) part.now tuples.now from)) }
{
    let mut buffer = card.buffer;
    let mut core = Core {
        phase: card.phase,
        state: card.state,
    };
    let mut at = from;
    let mut counter = LineNumber::of(number);
    let mut count = 0;
    let mut text = start;
    let table = text::digits::hex_table();
    // No `for`: where the next record stands is known only once this one is read.
    while at < part.len() {
        match records::next_record(part, at) {
            Err(why) => {
                let place = first.wrapping_add(at as u64);
                let next = text::lines::put_bad(out, text, place);
                return ran(core, buffer, first, at, count, Err(why.into()), next);
            }
            Ok(access) => {
                let done = access_done(verdict, core, access, &mut buffer, store, marks, tuples);
                core = done.core;
                text = put_answer(out, text, counter, access, done.outcome, &table);
                counter = counter.next();
                at += usize::from(records::access_length(access.write));
                count += 1;
            }
        }
    }
    ran(core, buffer, first, at, count, Ok(()), text)
}

// The same of any card with anything lent.
pub(crate) fn run_from(
    card: Card,
    part: &[u8],
    from: usize,
    first: u64,
    number: u64,
    store: &mut [u8],
    marks: &mut [u8],
    tuples: &[u8],
    out: &mut [u8],
    start: usize,
) -> Ran
    ensures { ran_as result store.new marks.new out.new ≡ shown_at (output out.old start) (result_of first number (machine_of card store.old marks.old) (script_from (length part.now) part.now tuples.now from)) }
{
    let core = Core {
        phase: card.phase,
        state: card.state,
    };
    let verdict = card::access::verdict_of(core, store, marks, tuples);
    lines(
        verdict, card, part, from, first, number, store, marks, tuples, out, start,
    )
}

// 01, "Session file": a part of a file, whose first byte stands at the place `first` of the file and whose first access has this number.
pub fn run(
    card: Card,
    part: &[u8],
    first: u64,
    number: u64,
    store: &mut [u8],
    marks: &mut [u8],
    tuples: &[u8],
    out: &mut [u8],
) -> Ran
    ensures { ran_as result store.new marks.new out.new ≡ shown out.old (result_of first number (machine_of card store.old marks.old) (script_from (length part.now) part.now tuples.now 0)) }
{
    run_from(card, part, 0, first, number, store, marks, tuples, out, 0)
}
