// The data port: words and bytes, either half first.
#![tactic(auto)]

ghost use Rattle.std.specs.Prelude.{◌≡◌};

use answers::{Outcome, Refusal};
use registers::Core;

pub mod data;
pub mod halves;

// What of a word an access moves.
#[derive(Clone, Copy)]
pub enum Part {
    Low,
    High,
    Both,
}

// What becomes of the word with that part: it is begun, or full.
#[derive(Clone, Copy)]
pub enum Fill {
    Begun,
    Full,
}

// An access's outcome, and the card without its buffer after it.
#[derive(Clone, Copy)]
pub struct Done {
    pub outcome: Outcome,
    pub core: Core,
}

// A refusal, which leaves the core. Two functions: with an Outcome as its parameter one would have Ok or Err at each of its calls.
pub fn refused(core: Core, refusal: Refusal) -> Done
    ensures { result ≡ record { outcome = Err refusal; core = core } }
{
    Done {
        outcome: Err(refusal),
        core,
    }
}

pub fn accepted(core: Core, value: u16) -> Done
    ensures { result ≡ record { outcome = Ok value; core = core } }
{
    Done {
        outcome: Ok(value),
        core,
    }
}
