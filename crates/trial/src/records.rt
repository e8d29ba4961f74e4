// A record of a trial input: sixteen bytes, which are eight words, low byte first.
use maps::Access;
use tuples::Entry;

// What a record does.
#[derive(Clone, Copy)]
pub(crate) enum Kind {
    Open,
    Mark,
    Access,
    Break,
    Fill,
    ReadChain,
    WriteList,
    Lend,
    TupleBytes,
    BodyBytes,
    LastEntry,
    Show,
    BufferBytes,
    WriteBack,
}

// A number that is no kind's: such a record does nothing.
#[derive(Clone, Copy)]
pub(crate) struct UnknownKind;

impl TryFrom<u16> for Kind {
    type Error = UnknownKind;

    fn try_from(number: u16) -> Result<Kind, UnknownKind> {
        match number {
            1 => Ok(Kind::Open),
            2 => Ok(Kind::Mark),
            3 => Ok(Kind::Access),
            4 => Ok(Kind::Break),
            5 => Ok(Kind::Fill),
            6 => Ok(Kind::ReadChain),
            7 => Ok(Kind::WriteList),
            8 => Ok(Kind::Lend),
            9 => Ok(Kind::TupleBytes),
            10 => Ok(Kind::BodyBytes),
            11 => Ok(Kind::LastEntry),
            12 => Ok(Kind::Show),
            13 => Ok(Kind::BufferBytes),
            14 => Ok(Kind::WriteBack),
            _ => Err(UnknownKind),
        }
    }
}

#[derive(Clone, Copy)]
pub(crate) struct Record<'a>(pub(crate) &'a [u8; 16]);

impl<'a> Record<'a> {
    // The first is the kind's number.
    pub(crate) fn words(self) -> [u16; 8] {
        let Record(bytes) = self;
        std::array::from_fn(|i| u16::from_le_bytes([bytes[2 * i], bytes[2 * i + 1]]))
    }

    // The first access of kind 3.
    pub(crate) fn access(self) -> Access {
        let [_, space, width, write, address, value, ..] = self.words();
        Access {
            space: low(space),
            width: low(width),
            value,
            address,
            write: write != 0,
        }
    }

    // The entry of kinds 6, 7 and 11.
    pub(crate) fn entry(self) -> Entry {
        let [_, _, code, start, length, ..] = self.words();
        Entry {
            code: low(code),
            start,
            length,
        }
    }

    // The bytes of kinds 9, 10 and 13, at most 8.
    pub(crate) fn brought(self) -> &'a [u8] {
        let [_, _, count, ..] = self.words();
        let n = usize::from(count).min(8);
        let Record(bytes) = self;
        &bytes[6..6 + n]
    }
}

pub(crate) fn low(word: u16) -> u8 {
    let [low, _] = word.to_le_bytes();
    low
}
