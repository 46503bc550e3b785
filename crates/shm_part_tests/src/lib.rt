//! Tests of the parts below the machine, through what each crate makes public: sparse lists, frames, the clock,
//! identifiers, address spaces, attachments, scripts and printed texts.
#![tactic(auto)]

#[cfg(test)]
mod areas;
#[cfg(test)]
mod attaching;
#[cfg(test)]
mod calls;
#[cfg(test)]
mod clock;
#[cfg(test)]
mod frames;
#[cfg(test)]
mod identifiers;
#[cfg(test)]
mod mapping;
#[cfg(test)]
mod printing;
#[cfg(test)]
mod reading;
#[cfg(test)]
mod sparse;
#[cfg(test)]
mod texts;
