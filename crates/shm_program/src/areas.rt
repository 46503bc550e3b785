//! The pagers of the swap areas that the command line names.
ghost use Rattle.std.specs.Prelude.{◌≡◌, IfOk};
ghost use Rattle.std.specs.List.{AllZip};
ghost use Rattle.shm_pager.specs.Areas.{area_pages, failed_in, most_in, calls_in};
ghost use Rattle.shm_program.specs.Areas.{kind_of, size_of, reads_of, writes_of, IsAreaOf, areas_named};
ghost use Rattle.shm_program.specs.Runs.{handed_in};

use crate::options::SwapWord;
use shm_base::HostMemory;
use shm_pager::{AreaKind, AreaPager, Failing};
use std::alloc::Global;

impl SwapWord {
    // The kind of the word's area; a fuse is a ram area.
    fn kind(self) -> AreaKind
        ensures { result ≡ kind_of self }
    {
        match self {
            SwapWord::Ram(_) | SwapWord::FuseRead(..) | SwapWord::FuseWrite(..) => AreaKind::Ram,
            SwapWord::Sparse(_) => AreaKind::Sparse,
            SwapWord::Mirror(_) => AreaKind::Mirror,
        }
    }

    fn slots(self) -> u32
        ensures { result ≡ size_of self }
    {
        match self {
            SwapWord::Ram(slots) | SwapWord::Sparse(slots) | SwapWord::Mirror(slots) => slots,
            SwapWord::FuseRead(slots, _) | SwapWord::FuseWrite(slots, _) => slots,
        }
    }

    // The places of the area's failing calls.
    fn failing(self, alloc: Global) -> Result<Failing, HostMemory>
        ensures reads { IfOk result (λ f. f.reads.items ≡ reads_of self) }
        ensures writes { IfOk result (λ f. f.writes.items ≡ writes_of self) }
    {
        let (mut reads, mut writes) = (Vec::new(alloc), Vec::new(alloc));
        match self {
            SwapWord::Ram(_) | SwapWord::Sparse(_) | SwapWord::Mirror(_) => {}
            SwapWord::FuseRead(_, place) => reads.push(place)?,
            SwapWord::FuseWrite(_, place) => writes.push(place)?,
        }
        Ok(Failing { reads, writes })
    }
}

fn area_of(alloc: Global, swap: SwapWord) -> Result<AreaPager, HostMemory>
    ensures { IfOk result (IsAreaOf swap) }
{
    // The right side of a mirror does not fail.
    let right = Failing {
        reads: Vec::new(alloc),
        writes: Vec::new(alloc),
    };
    AreaPager::new(
        alloc,
        swap.kind(),
        swap.slots(),
        swap.failing(alloc)?,
        right,
    )
}

/// A pager for each of the words, in order. A fuse fails only at the read or the write that its word names.
/// HostMemory: the host refused memory.
pub fn areas_of(alloc: Global, swaps: &[SwapWord]) -> Result<Vec<AreaPager>, HostMemory>
    ensures each { IfOk result (λ pagers. AllZip IsAreaOf swaps.now pagers.items) }
    ensures seen { IfOk result (λ pagers.
        handed_in area_pages failed_in most_in calls_in pagers.items ≡ areas_named swaps.now) }
{
    let mut pagers = Vec::new(alloc);
    for swap in swaps {
        pagers.push(area_of(alloc, *swap)?)?;
    }
    Ok(pagers)
}
