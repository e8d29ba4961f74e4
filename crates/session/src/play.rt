// A whole file: the card from its opening, with a zero store, zero marks and tuples of FFH, and everything that is printed.
ghost use Rattle.std.specs.Prelude.{◌≡◌, ◌*◌};
ghost use Rattle.session.specs.declared.Failure.TheVariants.{Broken, Unopened};
ghost use Rattle.ground.specs.Sizes.{sector_bytes};
ghost use Rattle.text.specs.Output.{output, LiesIn};
ghost use Rattle.session.specs.Run.{printed_at, told_as};
ghost use Rattle.session.specs.Play.{file_start, stopped, opened_on, most_sectors, zero_bytes, no_tuples, opening, session_of, printed, end_number};

use super::{Failure, LONGEST_FILE, MOST_SECTORS, Told, run};
use answers::Refusal;
use card::{Answer, Card};
use geometry::Geometry;
use ground::{SECTOR_BYTES, TUPLE_BUFFER_BYTES};
use records::{Break, OPENING_LENGTH, Sizes};

// A file's first byte has the place 0; 01: an access has "its number from 1".
const FILE_START: u64 = 0;

const FIRST_NUMBER: u64 = 1;

fn bad(out: &mut [u8], at: usize, place: u64, why: Break) -> Told
    ensures { told_as result out.new ≡ printed_at (output out.old at) (stopped place (Err (Broken why))) }
{
    Told {
        place,
        done: 0,
        end: Err(why.into()),
        text: text::lines::put_bad(out, at, place),
    }
}

fn unopened(out: &mut [u8], at: usize, refusal: Refusal) -> Told
    ensures { told_as result out.new ≡ printed_at (output out.old at) (stopped file_start (Err (Unopened refusal))) }
{
    Told {
        place: FILE_START,
        done: 0,
        end: Err(refusal.into()),
        text: text::lines::put_unopened(out, at, refusal.number()),
    }
}

// The opening on what is lent, and the accesses after it.
fn opened_on(
    sizes: Sizes,
    file: &[u8],
    store: &mut [u8],
    marks: &mut [u8],
    tuples: &[u8],
    out: &mut [u8],
    at: usize,
) -> Told
    ensures { told_as result out.new ≡ printed_at (output out.old at) (opened_on sizes file.now store.old marks.old tuples.now) }
{
    let Answer { outcome, card, .. } = Card::open(
        sizes.cylinders,
        sizes.heads,
        sizes.sectors,
        sizes.mode,
        store,
        marks,
        tuples,
    );
    match outcome {
        Ok(_) => {
            let ran = run::run_from(
                card,
                file,
                usize::from(OPENING_LENGTH),
                FILE_START,
                FIRST_NUMBER,
                store,
                marks,
                tuples,
                out,
                at,
            );
            ran.told
        }
        Err(refusal) => unopened(out, at, refusal),
    }
}

// Three functions: the length of the first is a product, and no const argument can be one.
fn zero_store() -> [u8; SECTOR_BYTES * MOST_SECTORS]
    ensures { result ≡ zero_bytes (sector_bytes * most_sectors) }
{
    [0u8; SECTOR_BYTES * MOST_SECTORS]
}

fn zero_marks() -> [u8; MOST_SECTORS]
    ensures { result ≡ zero_bytes most_sectors }
{
    [0u8; MOST_SECTORS]
}

fn no_tuples() -> [u8; TUPLE_BUFFER_BYTES]
    ensures { result ≡ no_tuples }
{
    [0xFFu8; TUPLE_BUFFER_BYTES]
}

// 01: N at most 32.
fn opening(sizes: Sizes, file: &[u8], out: &mut [u8], at: usize) -> Told
    ensures { told_as result out.new ≡ printed_at (output out.old at) (opening sizes file.now) }
{
    let geometry = Geometry {
        cylinders: sizes.cylinders,
        heads: sizes.heads,
        sectors: sizes.sectors,
    };
    let total = geometry.capacity();
    if MOST_SECTORS < total {
        return unopened(out, at, Refusal::GeometryOrMode);
    }
    let size = SECTOR_BYTES * total;
    let mut store = zero_store();
    let mut marks = zero_marks();
    let tuples = no_tuples();
    opened_on(
        sizes,
        file,
        &mut store[..size],
        &mut marks[..total],
        &tuples,
        out,
        at,
    )
}

// What follows the header. That a file is too long is asked first: then the loop over its accesses takes fewer instructions.
fn session(file: &[u8], out: &mut [u8], at: usize) -> Told
    ensures { told_as result out.new ≡ printed_at (output out.old at) (session_of file.now) }
{
    if LONGEST_FILE < file.len() {
        return bad(out, at, LONGEST_FILE as u64, Break::TooLong);
    }
    if file.is_empty() {
        return bad(out, at, FILE_START, Break::Empty);
    }
    match records::first_record(file) {
        Ok(sizes) => opening(sizes, file, out, at),
        Err(why) => bad(out, at, FILE_START, why),
    }
}

// Everything that is printed of any bytes.
pub fn play(file: &[u8], out: &mut [u8]) -> Told
    ensures out_after { told_as result out.new ≡ printed out.old file.now }
    ensures lies_in { LiesIn result.text out.new }
{
    let at = text::lines::put_header(out, 0);
    session(file, out, at)
}

// 01: 17 is a broken file's; a refused opening has its own number.
pub fn end_number(end: Result<(), Failure>) -> u8
    ensures { result ≡ end_number end }
{
    match end {
        Ok(()) => 0,
        Err(Failure::Broken(_)) => Refusal::SessionBroken.number(),
        Err(Failure::Unopened(refusal)) => refusal.number(),
    }
}
