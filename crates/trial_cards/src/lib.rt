// Card values for the trial inputs of oracle/TRIAL.md: each is taken apart into a row of 35 numbers, and made of one, so that a record can set any field.
#![tactic(auto)]

pub mod cards;
pub mod places;
pub mod rows;
