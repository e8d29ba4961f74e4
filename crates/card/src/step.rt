// One access: by the verdict on its card and what is lent, or with the verdict asked for first.
ghost use Rattle.std.specs.Prelude.{◌≡◌};
ghost use Rattle.registers.specs.Machine.{machine};
ghost use Rattle.port.specs.Data.{effect};
ghost use Rattle.card.specs.Access.{asked_with};
ghost use Rattle.card.specs.Step.{fit_step, step, by_verdict};

use super::Verdict;
use ground::Sector;
use maps::Access;
use port::Done;
use registers::Core;

// An access to a card that is known to be well made, with all that is lent of the right length: rows 8, 7, 6, 9, 10, 11, and what it does.
// The hint: a poll takes 134.8 instructions with it in place of 140.8.
#[inline(always)]
#[tactic(auto, unfolding(crate::specs::Step::fit_step))]
fn fit_step(
    core: Core,
    access: Access,
    buffer: &mut Sector,
    store: &mut [u8],
    marks: &mut [u8],
    tuples: &[u8],
) -> Done
    ensures { effect result buffer.new store.new marks.new ≡ fit_step (machine core buffer.old store.old marks.old) (asked_with access tuples.now) }
{
    let meaning = super::access::decide(core.state, access, tuples);
    super::perform::perform(core, meaning, buffer, store, marks)
}

// The one place where `fit_step` is called.
#[tactic(auto, unfolding(crate::specs::Perform::perform))]
pub fn by_verdict(
    verdict: Verdict,
    core: Core,
    access: Access,
    buffer: &mut Sector,
    store: &mut [u8],
    marks: &mut [u8],
    tuples: &[u8],
) -> Done
    ensures { effect result buffer.new store.new marks.new ≡ by_verdict verdict (machine core buffer.old store.old marks.old) (asked_with access tuples.now) }
{
    match verdict {
        Ok(()) => fit_step(core, access, buffer, store, marks, tuples),
        Err(refusal) => port::refused(core, refusal),
    }
}

// Any access to any card: rows 12, 2, 3, 5 first.
#[tactic(auto, using(crate::proofs::Verdicts::verdict_step))]
pub(crate) fn step(
    core: Core,
    access: Access,
    buffer: &mut Sector,
    store: &mut [u8],
    marks: &mut [u8],
    tuples: &[u8],
) -> Done
    ensures { effect result buffer.new store.new marks.new ≡ step (machine core buffer.old store.old marks.old) (asked_with access tuples.now) }
{
    let verdict = super::access::verdict_of(core, store, marks, tuples);
    by_verdict(verdict, core, access, buffer, store, marks, tuples)
}
