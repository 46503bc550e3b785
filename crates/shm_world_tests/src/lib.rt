//! Tests of the machine, with parameters and without, and of its history, through what their crates make public.
#![tactic(auto)]

#[cfg(test)]
mod boxes;
#[cfg(test)]
mod guests;
#[cfg(test)]
mod histories;
#[cfg(test)]
mod long;
#[cfg(test)]
mod methods;
#[cfg(test)]
mod pagings;
#[cfg(test)]
mod starts;
#[cfg(test)]
mod texts;
