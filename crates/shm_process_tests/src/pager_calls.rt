//! How often the lines of a script call each area's pager, in file order.
use crate::stop::Stop;
use shm_history::World;
use shm_pager::AreaPager;
use shm_pager_core::Pager;
use shm_pager_tests::{CountedPager, Counter};
use shm_program::{SwapWord, Values, areas_of, open_world, run_line};
use shm_text::Script;
use std::alloc::{AllocError, Global};

// Counts for this many areas.
fn all_asks(alloc: Global, areas: usize) -> Result<Vec<Counter>, AllocError> {
    let mut asks = Vec::new(alloc);
    for _ in 0..areas {
        asks.push(Counter::new(alloc)?)?;
    }
    Ok(asks)
}

// The areas that the words name, each with its counts.
fn counted(
    alloc: Global,
    swaps: &[SwapWord],
    asks: &[Counter],
) -> Result<Vec<CountedPager<AreaPager>>, Stop> {
    let areas = areas_of(alloc, swaps)?;
    let mut pagers = Vec::new(alloc);
    for (area, its) in areas.into_iter().zip(asks) {
        pagers.push(its.pager(area)?)?;
    }
    Ok(pagers)
}

// Appends a line to a text, with three numbers for each area.
fn push_asks(text: &mut String, asks: &[Counter]) -> Result<(), AllocError> {
    text.push_str("asked")?;
    for its in asks {
        let (reads, writes, discards) = its.asks();
        write!(text, " {reads} {writes} {discards}")?;
    }
    text.push_str("\n")
}

// The counts after each line.
fn run_lines<P: Pager>(
    alloc: Global,
    world: &mut World<P>,
    script: &Script,
    asks: &[Counter],
) -> Result<String, Stop> {
    let mut values = Values::new(alloc, &script.processes)?;
    let mut text = String::new(alloc);
    for line in &script.lines {
        let _action = run_line(world, &mut values, line)?;
        push_asks(&mut text, asks)?;
    }
    Ok(text)
}

fn run_over(
    alloc: Global,
    script: &Script,
    pagers: Vec<CountedPager<AreaPager>>,
    asks: &[Counter],
) -> Result<String, Stop> {
    let mut world = open_world(alloc, script, pagers)?;
    run_lines(alloc, &mut world, script, asks)
}

/// Runs the lines of the script, and prints after each how often each area's pager was called since the
/// start.
pub(crate) fn asks<R: Print>(
    rt: &R,
    alloc: Global,
    script: &Script,
    swaps: &[SwapWord],
) -> Result<(), Stop> {
    let asks = all_asks(alloc, swaps.len())?;
    let pagers = counted(alloc, swaps, &asks)?;
    let text = run_over(alloc, script, pagers, &asks)?;
    print!(rt; "{text}")?;
    Ok(())
}
