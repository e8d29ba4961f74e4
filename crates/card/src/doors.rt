// The doors by value: an access, and the two resets' registers. Each takes the buffer out of the card, lends it on, and puts it back.
ghost use Rattle.std.specs.Prelude.{◌≡◌};
ghost use Rattle.answers.specs.Answers.{Says};
ghost use Rattle.registers.specs.State.{line_of};
ghost use Rattle.card.specs.Access.{asked_with};
ghost use Rattle.card.specs.Step.{step};
ghost use Rattle.card.specs.Doors.{machine_of, core_in, card_of, answered, answer, option_answered, control_answered};

use super::{Answer, Card};
use answers::Refusal;
use ground::Sector;
use maps::{Access, Mode};
use port::Done;
use registers::Core;

// The answer that every door gives: 01: "Each answer says if the line is up", of the card that comes back.
pub(crate) fn answer(done: Done, buffer: Sector) -> Answer
    ensures { result ≡ answer done.outcome (card_of done.core buffer) }
{
    let Done { outcome, core } = done;
    Answer {
        outcome,
        line: core.state.line(),
        card: Card {
            phase: core.phase,
            state: core.state,
            buffer,
        },
    }
}

impl Card {
    // The card without its buffer.
    fn core(self) -> Core
        ensures { result ≡ core_in self }
    {
        Core {
            phase: self.phase,
            state: self.state,
        }
    }

    // Any access to any card value, with any store, marks and tuple buffer.
    pub fn access(self, access: Access, store: &mut [u8], marks: &mut [u8], tuples: &[u8]) -> Answer
        ensures marks_after { answered result store.new marks.new ≡ step (machine_of self store.old marks.old) (asked_with access tuples.now) }
        ensures line_value { result.line ≡ line_of result.card.state }
        ensures says { Says result.outcome (step (machine_of self store.old marks.old) (asked_with access tuples.now)).outcome }
    {
        let mut buffer = self.buffer;
        let done = super::step::step(self.core(), access, &mut buffer, store, marks, tuples);
        answer(done, buffer)
    }

    // The write of the Configuration Option Register, with SRESET in it: rows 12, 7, 10, and the write.
    #[tactic(auto, using(crate::proofs::Said::said), unfolding(crate::specs::Doors::option_answered, maps::specs::Spaces::answers_at, maps::specs::Spaces::card_answers))]
    pub fn write_option(self, value: u8) -> Answer
        ensures value { result ≡ option_answered value self }
        ensures says { Says result.outcome (option_answered value self).outcome }
    {
        let mut buffer = self.buffer;
        let core = self.core();
        if !core.well_made() {
            return answer(port::refused(core, Refusal::NotWellMade), buffer);
        }
        match self.state.made.mode {
            Mode::TrueIde => answer(port::refused(core, Refusal::SpaceSilent), buffer),
            Mode::PcCard => {
                if !registers::well_made::index_fits(value) {
                    return answer(port::refused(core, Refusal::IndexAboveThree), buffer);
                }
                let next = core.write_option(value, &mut buffer);
                answer(port::accepted(next, 0), buffer)
            }
        }
    }

    // The write of Device Control, with its reset bit: rows 12, 8, and the write; the buffer is kept.
    #[tactic(auto, using(crate::proofs::Said::said), unfolding(crate::specs::Doors::control_answered))]
    pub fn write_control(self, value: u8) -> Answer
        ensures value { result ≡ control_answered value self }
        ensures says { Says result.outcome (control_answered value self).outcome }
    {
        let buffer = self.buffer;
        let core = self.core();
        if !core.well_made() {
            return answer(port::refused(core, Refusal::NotWellMade), buffer);
        }
        if registers::states::sreset_in(self.state.option) {
            return answer(port::refused(core, Refusal::HeldBySreset), buffer);
        }
        answer(port::accepted(core.write_control(value), 0), buffer)
    }
}
