// The sector rules over a lent store and its marks: what a mark allows, how many are not 0, a sector read, a sector stored and its mark cleared.
#![tactic(auto)]

pub mod marks;
pub mod sectors;
