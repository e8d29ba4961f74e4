// The records of a session file: what stands at a place of it, or the first test that breaks it (document 01, "Session file").
#![tactic(auto)]

ghost use Rattle.std.specs.Prelude.{◌≡◌, ◌+◌, ◌-◌, ◌≤◌, ◌++◌, length, eqb, IfOk, Ok, Err};
ghost use Rattle.ground.specs.Rows.{first_of};
ghost use Rattle.records.specs.Record.{head_length, word_at, value_above, field_breaks, access_length, value_at, access_in, fit_breaks, after_breaks, access_breaks, kind_at, next_record, opening_breaks, sizes_in, first_record};

use maps::Access;

// 01: "total length (2 bytes), kind (2)": a record has these at least.
const HEAD_LENGTH: u16 = 4;

// 01: "Kind 1, length 12".
pub const OPENING_LENGTH: u16 = 12;

// Which test of the whole file, or of a record, broke it, in the order in which the tests stand first in the definitions.
#[derive(Clone, Copy, PartialEq, Eq, Debug)]
pub enum Break {
    Empty,
    TooLong,
    DoesNotFit,
    Length,
    Kind,
    Misplaced,
    Space,
    Width,
    Value,
}

// The opening's fields.
#[derive(Clone, Copy)]
pub struct Sizes {
    pub cylinders: u16,
    pub heads: u16,
    pub sectors: u16,
    pub mode: u16,
}

// What every record begins with.
#[derive(Clone, Copy)]
struct Head {
    size: u16,
    kind: u16,
}

// 01: all little-endian.
fn word_at(file: &[u8], at: usize) -> u16
    requires { at + 2 ≤ length file.now }
    ensures { result ≡ word_at file.now at }
{
    u16::from_le_bytes([file[at], file[at + 1]])
}

// The tests that every record has: it lies in the file, its length and its kind do too.
fn head_at(file: &[u8], at: usize) -> Result<Head, Break>
    ensures head { result ≡ first_of (fit_breaks (length file.now - at) (word_at file.now at)) Err (Ok (record { size = word_at file.now at; kind = kind_at file.now at })) }
    ensures fits { IfOk result (λ h. (head_length ≤ h.size) × (at + h.size ≤ length file.now)) }
{
    let left = file.len().saturating_sub(at);
    if left < usize::from(HEAD_LENGTH) {
        return Err(Break::DoesNotFit);
    }
    let size = word_at(file, at);
    if left < usize::from(size) {
        return Err(Break::DoesNotFit);
    }
    if size < HEAD_LENGTH {
        return Err(Break::Length);
    }
    Ok(Head {
        size,
        kind: word_at(file, at + 2),
    })
}

#[tactic(auto, unfolding(crate::specs::Record::value_above))]
fn value_above(width: u8, value: u16) -> bool
    ensures { result ≡ value_above width value }
{
    width == 1 && 255 < value
}

// The tests of an access's fields.
fn fields_tested(access: Access) -> Result<Access, Break>
    ensures { result ≡ first_of (field_breaks access) Err (Ok access) }
{
    if 3 < access.space {
        return Err(Break::Space);
    }
    // `(1..=2).contains` takes an instruction more an access.
    if access.width < 1 || 2 < access.width {
        return Err(Break::Width);
    }
    if value_above(access.width, access.value) {
        return Err(Break::Value);
    }
    Ok(access)
}

// The length of an access's record.
pub fn access_length(write: bool) -> u16
    ensures { (result ≡ access_length write) × (8 ≤ result) }
{
    if write { 10 } else { 8 }
}

// A write has a value, a read has 0.
fn value_at(file: &[u8], at: usize, write: bool) -> u16
    requires { at + access_length write ≤ length file.now }
    ensures { result ≡ value_at file.now at write }
{
    if write { word_at(file, at + 8) } else { 0 }
}

// The tests of a write's or a read's record that fits.
fn access_tested(file: &[u8], at: usize, size: u16, write: bool) -> Result<Access, Break>
    requires { at + size ≤ length file.now }
    ensures { result ≡ first_of (access_breaks size (access_in file.now at write)) Err (Ok (access_in file.now at write)) }
{
    if size != access_length(write) {
        return Err(Break::Length);
    }
    fields_tested(Access {
        space: file[at + 4],
        width: file[at + 5],
        address: word_at(file, at + 6),
        value: value_at(file, at, write),
        write,
    })
}

// What stands at a place of any bytes after the opening.
#[tactic(auto, using(crate::proofs::Heads::next_broke))]
pub fn next_record(file: &[u8], at: usize) -> Result<Access, Break>
    ensures { result ≡ next_record file.now at }
{
    let head = head_at(file, at)?;
    match head.kind {
        1 => Err(Break::Misplaced),
        2 => access_tested(file, at, head.size, true),
        3 => access_tested(file, at, head.size, false),
        _ => Err(Break::Kind),
    }
}

// An opening's record that fits, by its length.
fn opening_of(file: &[u8], size: u16) -> Result<Sizes, Break>
    requires { size ≤ length file.now }
    ensures { result ≡ first_of (opening_breaks 1 size) Err (Ok (sizes_in file.now)) }
{
    if size != OPENING_LENGTH {
        return Err(Break::Length);
    }
    Ok(Sizes {
        cylinders: word_at(file, 4),
        heads: word_at(file, 6),
        sectors: word_at(file, 8),
        mode: word_at(file, 10),
    })
}

// What stands at the start of any bytes, where an opening is due.
#[tactic(auto, using(crate::proofs::Heads::first_broke))]
pub fn first_record(file: &[u8]) -> Result<Sizes, Break>
    ensures { result ≡ first_record file.now }
{
    let head = head_at(file, 0)?;
    match head.kind {
        1 => opening_of(file, head.size),
        2 | 3 => Err(Break::Misplaced),
        _ => Err(Break::Kind),
    }
}
