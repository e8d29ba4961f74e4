// Where a row has each number: first an answer's, then the card's in the order of the A line, and then what that line does not show.
pub const NUMBER: usize = 0;

pub const VALUE: usize = 1;

pub const LINE: usize = 2;

pub(crate) const STATUS: usize = 3;

pub(crate) const ERROR: usize = 4;

pub(crate) const COUNT: usize = 5;

pub(crate) const SECTOR: usize = 6;

pub(crate) const CYLINDER_LOW: usize = 7;

pub(crate) const CYLINDER_HIGH: usize = 8;

pub(crate) const HEAD: usize = 9;

pub(crate) const OPTION: usize = 10;

pub(crate) const CONTROL: usize = 11;

pub(crate) const CODE: usize = 12;

pub(crate) const INTERRUPT: usize = 13;

pub(crate) const CYLINDERS: usize = 14;

pub(crate) const HEADS: usize = 15;

pub(crate) const SECTORS: usize = 16;

pub(crate) const PHASE: usize = 17;

pub(crate) const HALF: usize = 18;

pub(crate) const WORDS: usize = 19;

pub(crate) const LEFT: usize = 20;

pub(crate) const BAD: usize = 21;

pub(crate) const BLOCK: usize = 22;

pub(crate) const STRIDE_SHOWN: usize = 23;

pub(crate) const PLACE: usize = 24;

pub(crate) const LOAD: usize = 25;

pub(crate) const SETTING: usize = 26;

pub(crate) const SRESET: usize = 27;

pub(crate) const HELD: usize = 28;

pub(crate) const MASKED: usize = 29;

pub(crate) const DEFAULT_CYLINDERS: usize = 30;

pub(crate) const DEFAULT_HEADS: usize = 31;

pub(crate) const DEFAULT_SECTORS: usize = 32;

pub(crate) const MODE: usize = 33;

pub(crate) const STRIDE: usize = 34;
