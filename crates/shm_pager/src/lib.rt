//! Pagers store pages by slot, and any of their reads and writes may fail. One trait has four kinds: pages in
//! memory, sparse pages, a pager that fails at chosen calls, and a mirror that keeps each page in two pagers.
//! [`AreaPager`] is a swap area of any of these kinds. Each kind can be copied: [`ClonePager`]. Those that fail at chosen calls
//! can be made to fail at others while they are in use: [`FailPager`].
#![tactic(auto)]

mod area;
mod asked;
mod fuse;
mod mirror;
mod ram;
mod sparse;

pub use area::{AreaKind, AreaPager, Failing};
pub use fuse::FusePager;
pub use mirror::{MirrorCause, MirrorPager, MirrorRefused};
pub use ram::RamPager;
pub use shm_pager_core::{
    AnyPager, ClonePager, ComingFailure, FailPager, FailRefused, Pager, PagerFault, Side, try_read,
    try_write,
};
pub use sparse::SparsePager;
