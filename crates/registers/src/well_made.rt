// 01, "A card value is well made if": each condition by itself, then all of them in 01's order.
ghost use Rattle.std.specs.Prelude.{◌≡◌};
ghost use Rattle.registers.specs.State.{total_in};
ghost use Rattle.registers.specs.WellMade.{index_fits, sreset_fits, at_rest, status_fits, in_reset, hold_fits, words_fit, sectors_fit, load_fits, run_fits, bad_fits, block_fits, stride_fits, pace_fits, load_pace_fits, run_pace_fits, well_made};

use super::{Core, DATA_STATUS, ERROR_STATUS, FAULT_STATUS, IDLE_STATUS, Load, Pace, Phase, State};
use maps::Mode;

// The map index is 0..3.
#[tactic(auto, unfolding(crate::specs::WellMade::index_fits))]
pub fn index_fits(option: u8) -> bool
    ensures { result ≡ index_fits option }
{
    super::states::index_in(option) <= 3
}

// SRESET is not set in mode 1.
#[tactic(auto, unfolding(crate::specs::WellMade::sreset_fits))]
fn sreset_fits(mode: Mode, option: u8) -> bool
    ensures { result ≡ sreset_fits mode option }
{
    match mode {
        Mode::PcCard => true,
        Mode::TrueIde => !super::states::sreset_in(option),
    }
}

// 50H, 51H or 71H.
#[tactic(auto, unfolding(crate::specs::WellMade::at_rest))]
fn at_rest(status: u8) -> bool
    ensures { result ≡ at_rest status }
{
    matches!(status, IDLE_STATUS | ERROR_STATUS | FAULT_STATUS)
}

// Status is 58H exactly while a transfer runs, else one of these.
#[tactic(auto, unfolding(crate::specs::WellMade::status_fits))]
fn status_fits(phase: Phase, status: u8) -> bool
    ensures { result ≡ status_fits phase status }
{
    match phase {
        Phase::Idle => at_rest(status),
        Phase::DataIn(_) | Phase::DataOut(_) => status == DATA_STATUS,
    }
}

impl State {
    // Whether SRESET or Device Control holds the card.
    #[tactic(auto, unfolding(crate::specs::WellMade::in_reset))]
    fn in_reset(self) -> bool
        ensures { result ≡ in_reset self }
    {
        super::states::sreset_in(self.option) || self.control.held
    }
}

impl Phase {
    // No transfer runs in a held reset.
    #[tactic(auto, unfolding(crate::specs::WellMade::hold_fits))]
    fn hold_fits(self, reset: bool) -> bool
        ensures { result ≡ hold_fits self reset }
    {
        !(reset && self.runs())
    }

    // Words already moved are 0..255.
    #[tactic(auto, unfolding(crate::specs::WellMade::words_fit))]
    fn words_fit(self) -> bool
        ensures { result ≡ words_fit self }
    {
        self.transfer().is_none_or(|t| t.words <= ground::LAST_WORD)
    }
}

impl State {
    // A valid address, and 1..256 sectors left, agreeing with Sector Count modulo 256.
    #[tactic(auto, unfolding(crate::specs::WellMade::sectors_fit, ground::specs::Choice::every))]
    fn sectors_fit(self, left: u16) -> bool
        ensures { result ≡ sectors_fit left self }
    {
        self.valid_address()
            && (1..=ground::MOST_COUNT).contains(&left)
            && left % 256 == u16::from(self.registers.count)
    }

    #[tactic(auto, unfolding(crate::specs::WellMade::load_fits))]
    fn load_fits(self, load: Load) -> bool
        ensures { result ≡ load_fits load self }
    {
        match load {
            Load::Buffer => true,
            Load::Sectors(left, _) => self.sectors_fit(left),
        }
    }

    #[tactic(auto, unfolding(crate::specs::WellMade::run_fits))]
    fn run_fits(self, phase: Phase) -> bool
        ensures { result ≡ run_fits phase self }
    {
        phase.transfer().is_none_or(|t| self.load_fits(t.load))
    }

    // 02: the number of marks that are not 0 is at most N.
    #[tactic(auto, unfolding(crate::specs::WellMade::bad_fits))]
    fn bad_fits(self) -> bool
        ensures { result ≡ bad_fits self.bad (total_in self) }
    {
        self.bad <= self.total()
    }
}

// 02: none, or a block of 1, 2, 4, 8 or 16 sectors.
#[tactic(auto, unfolding(crate::specs::WellMade::block_fits))]
fn block_fits(block: u16) -> bool
    ensures { result ≡ block_fits block }
{
    block == super::blocks::NO_BLOCK || super::blocks::block_size(block)
}

impl Pace {
    // By single sectors, or by the card's block.
    #[tactic(auto, unfolding(crate::specs::WellMade::stride_fits))]
    fn stride_fits(self, block: u16) -> bool
        ensures { result ≡ stride_fits self.stride block }
    {
        self.stride == super::blocks::SINGLE || self.stride == block
    }

    // With fewer sectors of the running block moved than it has.
    #[tactic(auto, unfolding(crate::specs::WellMade::pace_fits))]
    fn fits(self, block: u16) -> bool
        ensures { result ≡ pace_fits self block }
    {
        self.stride_fits(block) && self.place < self.stride
    }
}

impl Load {
    #[tactic(auto, unfolding(crate::specs::WellMade::load_pace_fits))]
    fn pace_fits(self, block: u16) -> bool
        ensures { result ≡ load_pace_fits self block }
    {
        match self {
            Load::Buffer => true,
            Load::Sectors(_, pace) => pace.fits(block),
        }
    }
}

impl Phase {
    #[tactic(auto, unfolding(crate::specs::WellMade::run_pace_fits))]
    fn pace_fits(self, block: u16) -> bool
        ensures { result ≡ run_pace_fits self block }
    {
        self.transfer().is_none_or(|t| t.load.pace_fits(block))
    }
}

impl Core {
    // Once a run: kept out of the loop over its accesses, which is the faster for it.
    #[inline(never)]
    #[tactic(auto, unfolding(crate::specs::WellMade::well_made, ground::specs::Choice::every))]
    pub fn well_made(self) -> bool
        ensures { result ≡ well_made self.phase self.state }
    {
        let Core { phase, state } = self;
        state.made.default.fits()
            && state.current.current_for(state.total())
            && index_fits(state.option)
            && sreset_fits(state.made.mode, state.option)
            && status_fits(phase, state.registers.status)
            && phase.hold_fits(state.in_reset())
            && phase.words_fit()
            && state.run_fits(phase)
            && state.bad_fits()
            && block_fits(state.block)
            && phase.pace_fits(state.block)
    }
}
