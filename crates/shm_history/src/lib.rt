//! A system with the history of its calls, which is always legal, and a gauge of its counts.
#![tactic(auto)]

mod cell;
mod gauges;
mod publish;
mod world;

pub use cell::Reading;
pub use gauges::{Gauge, Keeper, ReaderSeat};
pub use publish::{GaugeRefused, gauge};
pub use shm_life::{Opening, StartError, System};
pub use world::World;
