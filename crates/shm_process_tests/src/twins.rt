//! Two worlds that make the same calls. If memory is refused to one of them, it equals its twin, which always
//! had memory, and stays equal, whether the call is made again or not.
use crate::stop::{Part, Stop};
use shm_base::{Call, Reply};
use shm_history::World;
use shm_pager::AreaPager;
use shm_pager_core::Pager;
use shm_program::{Action, SwapWord, Values, areas_of, open_world, push_step};
use shm_text::{Line, Script};
use std::alloc::{AllocError, Global};

/// How two worlds are run: the room in their histories, and whether a call to which memory was refused is
/// made again or left out in both.
#[derive(Clone, Copy)]
pub(crate) struct Way {
    pub(crate) room: usize,
    pub(crate) again: bool,
}

/// The indexes that are compared: more than the scripts have segments.
const INDEXES: u32 = 64;

// All that a world prints: segments, processes and their pieces, frames, slots and counts.
fn shown<P: Pager>(alloc: Global, world: &World<P>) -> Result<String, AllocError> {
    let mut text = String::new(alloc);
    push_step(alloc, &mut text, 0, &Action::Start, world)?;
    Ok(text)
}

// Whether each index has the same segment in both, with its times and pids.
fn have_same_segments<P: Pager>(one: &World<P>, other: &World<P>) -> bool {
    for index in 0..INDEXES {
        if one.segment(index) != other.segment(index) {
            return false;
        }
    }
    true
}

// Whether both worlds show the same, and have the same history and tally.
fn are_same<P: Pager>(alloc: Global, one: &World<P>, other: &World<P>) -> Result<(), Stop> {
    if one.history() != other.history() {
        return Err(Stop::Differs(Part::Histories));
    }
    if one.tally() != other.tally() {
        return Err(Stop::Differs(Part::Tallies));
    }
    if !have_same_segments(one, other) {
        return Err(Stop::Differs(Part::Segments));
    }
    if shown(alloc, one)? != shown(alloc, other)? {
        return Err(Stop::Differs(Part::States));
    }
    Ok(())
}

// The world that the script opens. If memory is refused, it is opened again.
fn opened<R: Print>(
    rt: &R,
    alloc: Global,
    script: &Script,
    swaps: &[SwapWord],
) -> Result<World<AreaPager>, Stop> {
    let areas = areas_of(alloc, swaps)?;
    if let Ok(world) = open_world(alloc, script, areas) {
        return Ok(world);
    }
    println!(rt; "refused start")?;
    let areas = areas_of(alloc, swaps)?;
    Ok(open_world(alloc, script, areas)?)
}

// Makes room for this many calls. If memory is refused, the world equals its twin.
fn reserve<R: Print, P: Pager>(
    rt: &R,
    alloc: Global,
    world: &mut World<P>,
    twin: &World<P>,
    calls: usize,
) -> Result<(), Stop> {
    if world.reserve(calls).is_ok() {
        return Ok(());
    }
    println!(rt; "refused reserve")?;
    are_same(alloc, world, twin)?;
    Ok(world.reserve(calls)?)
}

// The result of a world's call: its reply, and whether memory was refused at first.
#[derive(Clone, Copy)]
struct Made {
    reply: Reply,
    was_refused: bool,
}

// Makes a call. If memory is refused, the world equals its twin, which has not made the call yet. The call is
// then made again, or left out.
fn first<R: Print, P: Pager>(
    rt: &R,
    alloc: Global,
    world: &mut World<P>,
    twin: &World<P>,
    pid: u32,
    call: &Call,
    again: bool,
) -> Result<Option<Made>, Stop> {
    if let Ok(reply) = world.call(pid, call) {
        return Ok(Some(Made {
            reply,
            was_refused: false,
        }));
    }
    println!(rt; "refused {}", world.history().len())?;
    are_same(alloc, world, twin)?;
    if !again {
        return Ok(None);
    }
    let reply = world.call(pid, call)?;
    Ok(Some(Made {
        reply,
        was_refused: true,
    }))
}

// Makes a call that the twin has made.
fn second<R: Print, P: Pager>(
    rt: &R,
    world: &mut World<P>,
    pid: u32,
    call: &Call,
) -> Result<Made, Stop> {
    if let Ok(reply) = world.call(pid, call) {
        return Ok(Made {
            reply,
            was_refused: false,
        });
    }
    println!(rt; "refused {} again", world.history().len())?;
    let reply = world.call(pid, call)?;
    Ok(Made {
        reply,
        was_refused: true,
    })
}

// Makes a call in both worlds, which are equal afterwards. There is no reply if it is left out.
fn call_both<R: Print, P: Pager>(
    rt: &R,
    alloc: Global,
    one: &mut World<P>,
    other: &mut World<P>,
    pid: u32,
    call: &Call,
    again: bool,
) -> Result<Option<Reply>, Stop> {
    let Some(made) = first(rt, alloc, one, other, pid, call, again)? else {
        return Ok(None);
    };
    let its = second(rt, other, pid, call)?;
    if its.reply != made.reply {
        return Err(Stop::Differs(Part::Replies));
    }
    // comparing takes memory itself, so it is done where memory was refused, and at the end
    if made.was_refused || its.was_refused {
        are_same(alloc, one, other)?;
    }
    Ok(Some(made.reply))
}

// Runs a line in both worlds.
fn run_line<R: Print, P: Pager>(
    rt: &R,
    alloc: Global,
    one: &mut World<P>,
    other: &mut World<P>,
    values: &mut Values,
    line: &Line,
    again: bool,
) -> Result<(), Stop> {
    match line {
        Line::Command(command) => {
            let call = values.call(command);
            let pid = command.pid();
            if let Some(reply) = call_both(rt, alloc, one, other, pid, &call, again)? {
                values.took(command, &reply);
            }
        }
        Line::Flush(round) => {
            let pages = u64::from(round.pages());
            if one.flush(pages) != other.flush(pages) {
                return Err(Stop::Differs(Part::Rounds));
            }
        }
    }
    Ok(())
}

fn run_lines<R: Print, P: Pager>(
    rt: &R,
    alloc: Global,
    one: &mut World<P>,
    other: &mut World<P>,
    script: &Script,
    way: Way,
) -> Result<(), Stop> {
    let mut values = Values::new(alloc, &script.processes)?;
    are_same(alloc, one, other)?;
    reserve(rt, alloc, one, other, way.room)?;
    reserve(rt, alloc, other, one, way.room)?;
    for line in &script.lines {
        run_line(rt, alloc, one, other, &mut values, line, way.again)?;
    }
    are_same(alloc, one, other)
}

/// Runs the lines of the script in two worlds. Prints where memory was refused, and how many calls both made
/// in the end.
pub(crate) fn twins<R: Print>(
    rt: &R,
    alloc: Global,
    script: &Script,
    swaps: &[SwapWord],
    way: Way,
) -> Result<(), Stop> {
    let mut one = opened(rt, alloc, script, swaps)?;
    let mut other = opened(rt, alloc, script, swaps)?;
    run_lines(rt, alloc, &mut one, &mut other, script, way)?;
    println!(rt; "same {}", one.history().len())?;
    Ok(())
}
