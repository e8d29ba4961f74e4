// However the host moves the data: what it may choose, that it comes to the end, the sectors at every moment, and calls of the code. Nothing
// here is run: two functions tie the theorems to the code that is.
#![tactic(auto)]

ghost use Rattle.std.specs.Prelude.{◌<◌};
ghost use Rattle.card.specs.Access.{asked_with};
ghost use Rattle.card.specs.Doors.{machine_of};
ghost use Rattle.account.specs.Claim.{Typed};
ghost use Rattle.hosts.specs.Running.{Promised};

use card::{Answer, Card};
use maps::Access;
use registers::Registers;

// `Card::access` promises what the theorem takes a call to be.
fn promised(card: Card, access: Access, store: &mut [u8], marks: &mut [u8], tuples: &[u8]) -> Answer
    ensures { Promised card store.old marks.old (asked_with access tuples.now) result store.new marks.new }
{
    card.access(access, store, marks, tuples)
}

// Registers have 8 bits.
fn eight_bits(registers: Registers)
    ensures { (registers.count < 256) × (registers.address.sector < 256) × (registers.address.low < 256) × (registers.address.high < 256) × (registers.address.head < 256) }
{}

// Every card and every lent store are as the theorem asks, by their types: registers of 8 bits, a buffer of 512, and bytes in both. (That a lent
// slice holds bytes is known where it is lent on.)
fn typed(card: Card, store: &[u8], marks: &[u8])
    ensures { Typed (machine_of card store.now marks.now) }
{
    eight_bits(card.state.registers);
    let _first = ground::byte_or_zero(store, 0);
}
