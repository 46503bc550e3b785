//! Worked rows of the flat machine: sequences of calls, and the reply that it gives to each.
#![tactic(auto)]

mod rows;
