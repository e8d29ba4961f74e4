// 01, "Registers": power-on.
ghost use Rattle.std.specs.Prelude.{◌≡◌};
ghost use Rattle.registers.specs.PowerOn.{power_on};

use super::{Control, Made, Registers, State};
use geometry::Address;

impl Made {
    // 01, power-on, with a map setting; 02: and with a number of marks that are not 0, which the opening works out and a reset keeps; it forgets the block.
    pub fn power_on(self, bad: u16, option: u8) -> State
        ensures { result ≡ power_on self bad option }
    {
        State {
            made: self,
            current: self.default,
            registers: Registers {
                status: super::IDLE_STATUS,
                error: super::POWER_ON_ERROR,
                count: 1,
                address: Address {
                    sector: 1,
                    low: 0,
                    high: 0,
                    head: 0,
                },
            },
            option,
            control: Control {
                held: false,
                masked: false,
            },
            interrupt: false,
            code: 0x00,
            bad,
            block: super::blocks::NO_BLOCK,
        }
    }
}
