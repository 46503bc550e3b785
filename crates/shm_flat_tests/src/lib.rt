//! The flat machine once more, without a proof, by docs/MACHINE.md alone: what tests of whole runs expect.
#![tactic(auto)]

mod flat;

pub use flat::Flat;
