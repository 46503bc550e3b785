//! Tests of swap and the page store, through what each crate makes public.
#![tactic(auto)]

#[cfg(test)]
mod paging;
#[cfg(test)]
mod swap;
