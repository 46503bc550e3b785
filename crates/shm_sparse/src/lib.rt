//! Lists of which most items are alike.
#![tactic(auto)]

mod sparse;

pub use sparse::SparseVec;
