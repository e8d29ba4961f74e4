// What a mark allows, whether all marks are 0, 1 or 2, and how many are not 0.
ghost use Rattle.std.specs.Prelude.{◌≡◌, ◌≤◌, length};
ghost use Rattle.sectors.specs.Marks.{readable, writable, marks_fit, bad_in, lowered};

// 01: 1 is unreadable, and a mark above 2 counts as 1.
#[tactic(auto, unfolding(crate::specs::Marks::readable))]
pub fn readable(mark: u8) -> bool
    ensures { result ≡ readable mark }
{
    mark == 0 || mark == 2
}

// 01: 2 can't be written.
#[tactic(auto, unfolding(crate::specs::Marks::writable))]
pub fn writable(mark: u8) -> bool
    ensures { result ≡ writable mark }
{
    mark != 2
}

// What is found of all marks. No Option of the number: it is promised of marks above 2 too.
#[derive(Clone, Copy)]
pub struct Counted {
    pub bad: usize, // how many are not 0
    pub fit: bool, // whether none is above 2
}

pub fn count(marks: &[u8]) -> Counted
    ensures { (result ≡ record { bad = bad_in marks.now; fit = marks_fit marks.now }) × (result.bad ≤ length marks.now) }
{
    let mut bad = 0;
    let mut fit = true;
    for mark in marks {
        bad += usize::from(*mark != 0);
        fit = fit && *mark <= 2;
    }
    Counted { bad, fit }
}

// 02: one less once such a mark is set to 0, never below 0.
#[tactic(auto, unfolding(crate::specs::Marks::lowered))]
pub(crate) fn lowered(mark: u8, bad: u16) -> u16
    ensures { result ≡ lowered mark bad }
{
    bad.saturating_sub(u16::from(mark != 0))
}
