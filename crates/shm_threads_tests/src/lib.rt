//! Tests of runs with threads and of their gauges, through what their crate makes public.
#![tactic(auto)]

#[cfg(test)]
mod gates;
#[cfg(test)]
mod gauged;
#[cfg(test)]
mod refused;
#[cfg(test)]
mod runs;
#[cfg(test)]
mod shared;
