//! Tests of whole runs, in file order and with threads: readers, writers and pagers that fail.
#![tactic(auto)]

#[cfg(test)]
mod ends;
#[cfg(test)]
mod rows;
#[cfg(test)]
mod sweeps;
#[cfg(test)]
mod threaded;
