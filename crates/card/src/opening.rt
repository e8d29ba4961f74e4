// The opening.
ghost use Rattle.std.specs.Prelude.{◌≡◌};
ghost use Rattle.answers.specs.Answers.{Says};
ghost use Rattle.card.specs.Doors.{card_of};
ghost use Rattle.card.specs.Opening.{mode_of, zero_state, open_refused, powered, opened};
ghost use Rattle.registers.specs.PowerOn.{zeros};

use super::{Answer, Card};
use answers::Refusal;
use geometry::{Address, Geometry};
use ground::{SECTOR_BYTES, TUPLE_BUFFER_BYTES};
use maps::Mode;
use registers::{Control, Core, Made, Phase, Registers, State};

// 01: "Mode: 0 PC Card, 1 True IDE." No TryFrom: what it gives of a number above 1 stands in its promise.
pub fn mode_of(mode: u16) -> Mode
    ensures { result ≡ mode_of mode }
{
    match mode {
        0 => Mode::PcCard,
        _ => Mode::TrueIde,
    }
}

// Written out, and no Default: that would be derived on seven types of three crates, for this one value.
fn zero_state() -> State
    ensures { result ≡ zero_state }
{
    let none = Geometry {
        cylinders: 0,
        heads: 0,
        sectors: 0,
    };
    State {
        made: Made {
            mode: Mode::PcCard,
            default: none,
        },
        current: none,
        registers: Registers {
            status: 0,
            error: 0,
            count: 0,
            address: Address {
                sector: 0,
                low: 0,
                high: 0,
                head: 0,
            },
        },
        option: 0,
        control: Control {
            held: false,
            masked: false,
        },
        interrupt: false,
        code: 0,
        bad: 0,
        block: 0,
    }
}

// 01: a refused opening gives the all-zero card.
fn open_refused(refusal: Refusal) -> Answer
    ensures { result ≡ open_refused refusal }
{
    let core = Core {
        phase: Phase::Idle,
        state: zero_state(),
    };
    super::doors::answer(port::refused(core, refusal), [0u8; SECTOR_BYTES])
}

fn powered(geometry: Geometry, mode: Mode, bad: u16) -> Core
    ensures { card_of result zeros ≡ powered geometry mode bad }
{
    let made = Made {
        mode,
        default: geometry,
    };
    Core {
        phase: Phase::Idle,
        state: made.power_on(bad, 0),
    }
}

impl Card {
    // Any C, H, S and mode, with any store, marks and tuple buffer: rows 1, 2, 3, 5, 4, and power-on.
    // Once a session: kept out of the loop over its accesses, which is the faster for it.
    #[inline(never)]
    #[tactic(auto, using(crate::proofs::Said::said), unfolding(crate::specs::Opening::opened, registers::specs::PowerOn::zeros))]
    pub fn open(
        cylinders: u16,
        heads: u16,
        sectors: u16,
        mode: u16,
        store: &[u8],
        marks: &[u8],
        tuples: &[u8],
    ) -> Answer
        ensures value { result ≡ opened (record { cylinders = cylinders; heads = heads; sectors = sectors }) mode store.now marks.now tuples.now }
        ensures says { Says result.outcome (opened (record { cylinders = cylinders; heads = heads; sectors = sectors }) mode store.now marks.now tuples.now).outcome }
    {
        let geometry = Geometry {
            cylinders,
            heads,
            sectors,
        };
        if !geometry.fits() || 1 < mode {
            return open_refused(Refusal::GeometryOrMode);
        }
        let total = usize::from(geometry.total());
        if store.len() != SECTOR_BYTES * total {
            return open_refused(Refusal::StoreLength);
        }
        if marks.len() != total {
            return open_refused(Refusal::MarksLength);
        }
        if tuples.len() != TUPLE_BUFFER_BYTES {
            return open_refused(Refusal::TupleBufferLength);
        }
        let counted = sectors::marks::count(marks);
        if !counted.fit {
            return open_refused(Refusal::MarkAboveTwo);
        }
        let core = powered(geometry, mode_of(mode), counted.bad as u16);
        super::doors::answer(port::accepted(core, 0), [0u8; SECTOR_BYTES])
    }
}
