// 01, "Tuples": the reader and the writer of a tuple chain, over a lent buffer and a lent list of entries.
#![tactic(auto)]

ghost use Rattle.std.specs.Prelude.{◌≡◌, ◌≤◌, ◌+◌, length};
ghost use Rattle.tuples.specs.Chain.{end_of};
ghost use Rattle.tuples.specs.Write.{good, body_of};

mod chain;
pub mod read;
pub mod write;

// A tuple: its code, and where its body starts and how long it is.
#[derive(Clone, Copy)]
pub struct Entry {
    pub code: u8,
    pub start: u16,
    pub length: u16,
}

// 01: "00H is one byte, skipped; FFH ends the chain".
pub(crate) const NULL_CODE: u8 = 0x00;

pub(crate) const END_MARK: u8 = 0xFF;

// 01, refusal 16: the places that a lent list must have.
pub const LIST_PLACES: usize = 127;

// 01, refusal 14: the bytes that the tuples to be written may take.
pub(crate) const MOST_BYTES: usize = 255;

// What a lent list may hold before it is filled: 00H is no tuple's code.
pub const NO_ENTRY: Entry = Entry {
    code: NULL_CODE,
    start: 0,
    length: 0,
};

impl Entry {
    // The place after the body.
    fn end(self) -> usize
        ensures { result ≡ end_of self }
    {
        usize::from(self.start) + usize::from(self.length)
    }

    // Whether a tuple may be written: refusal 15 otherwise.
    #[tactic(auto, unfolding(crate::specs::Write::good))]
    fn is_good(self, bodies: &[u8]) -> bool
        ensures { result ≡ good bodies.now self }
    {
        self.code != NULL_CODE && self.code != END_MARK && self.end() <= bodies.len()
    }

    // The bytes that a tuple takes: its code, its link and its body.
    fn size(self) -> usize
        ensures { result ≡ 2 + self.length }
    {
        2 + usize::from(self.length)
    }

    // The body, among the lent bytes.
    fn body<'a>(self, bodies: &'a [u8]) -> &'a [u8]
        requires { end_of self ≤ length bodies.now }
        ensures { result.now ≡ body_of bodies.now self }
    {
        &bodies[usize::from(self.start)..self.end()]
    }
}
