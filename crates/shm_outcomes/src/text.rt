//! The printed text of outcomes.
ghost use Rattle.std.specs.Prelude.{◌≡◌, ◌++◌, flat_map, OnOk, IfOk};
ghost use Rattle.shm_outcomes.specs.Text.{finding_text, outcomes_text, process_text};

use shm_base::{Event, Process};
use shm_schedules::{Finding, put, put_line_as, put_number, put_schedule};
use shm_text::Script;
use std::alloc::{AllocError, Global};

fn put_process(
    alloc: Global,
    text: &mut Vec<u8>,
    masks: bool,
    events: &[Event],
    process: &Process,
) -> Result<(), AllocError>
    ensures { OnOk result (text.new.items ≡ text.old.items ++ process_text masks events.now process.now) }
{
    for event in events {
        if event.pid == process.pid {
            put_line_as(alloc, text, masks, event)?;
        }
    }
    Ok(())
}

fn put_processes(
    alloc: Global,
    text: &mut Vec<u8>,
    masks: bool,
    script: &Script,
    events: &[Event],
) -> Result<(), AllocError>
    ensures { OnOk result (text.new.items
        ≡ text.old.items ++ flat_map (process_text masks events.now) script.now.processes) }
{
    for process in &script.processes {
        put_process(alloc, text, masks, events, process)?;
    }
    Ok(())
}

fn put_finding(
    alloc: Global,
    text: &mut Vec<u8>,
    masks: bool,
    script: &Script,
    number: u64,
    finding: &Finding,
) -> Result<(), AllocError>
    ensures { OnOk result (text.new.items
        ≡ text.old.items ++ finding_text masks script.now number finding.now) }
{
    put(text, b"outcome ")?;
    put_number(alloc, text, number)?;
    put(text, b"\n")?;
    put_processes(alloc, text, masks, script, &finding.events)?;
    put_schedule(alloc, text, &finding.events)
}

/// The text of all outcomes, and their number. If `masks`, a question mark replaces each identifier and each
/// address.
pub fn outcomes_text(
    alloc: Global,
    masks: bool,
    script: &Script,
    found: &[Finding],
) -> Result<Vec<u8>, AllocError>
    ensures { IfOk result (λ text. text.items ≡ outcomes_text masks script.now found.now) }
{
    let mut text = Vec::new(alloc);
    let mut number = 1u64;
    for finding in found {
        put_finding(alloc, &mut text, masks, script, number, finding)?;
        number += 1;
    }
    put(&mut text, b"outcomes ")?;
    put_number(alloc, &mut text, found.len() as u64)?;
    put(&mut text, b"\n")?;
    Ok(text)
}
