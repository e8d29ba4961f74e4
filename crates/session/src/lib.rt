// The session: the run of a file's accesses, and the text that is printed of it (document 01, "Session file").
#![tactic(auto)]

ghost use Rattle.std.specs.Prelude.{◌≡◌};
ghost use Rattle.session.specs.declared.Failure.TheVariants.{Broken, Unopened};

use answers::Refusal;
use card::Card;
use records::Break;

pub mod play;
pub mod run;

// 01: the longest file, and the most sectors of its card.
pub const LONGEST_FILE: usize = 32768;

pub(crate) const MOST_SECTORS: usize = 32;

// Why a session or a part of one came to no good end: a broken record or file, or a refused opening.
#[derive(Clone, Copy)]
pub enum Failure {
    Broken(Break),
    Unopened(Refusal),
}

impl From<Break> for Failure {
    ghost from_gives = { λ why e. e ≡ Broken why };

    fn from(why: Break) -> Failure {
        Failure::Broken(why)
    }
}

impl From<Refusal> for Failure {
    ghost from_gives = { λ refusal e. e ≡ Unopened refusal };

    fn from(refusal: Refusal) -> Failure {
        Failure::Unopened(refusal)
    }
}

// What a session or a part of one comes to: the place reached, the accesses done, how it ended, and how much text the output holds.
#[derive(Clone, Copy)]
pub struct Told {
    pub place: u64,
    pub done: usize,
    pub end: Result<(), Failure>,
    pub text: usize,
}

// The same of a run, with the card that it leaves.
#[derive(Clone, Copy)]
pub struct Ran {
    pub card: Card,
    pub told: Told,
}
