//! Outcomes without identifiers and addresses.
ghost use Rattle.std.specs.Prelude.{◌≡◌, IfOk, map};
ghost use Rattle.shm_text.specs.Script.{ScriptView};
ghost use Rattle.shm_outcomes.specs.Masking.{AreMaskedOutcomes, hidden, hidden_outcome};
ghost use Rattle.shm_schedules.specs.Schedules.{Run};
ghost use Rattle.shm_outcomes.specs.Search.{AreOutcomes};

use crate::findings::Findings;
use shm_base::Reply;
use shm_schedules::{Finding, Outcome, Replies};
use std::alloc::{AllocError, Global};

/// These outcomes without identifiers and addresses, each once.
pub fn masked_outcomes(alloc: Global, found: &[Finding]) -> Result<Vec<Finding>, AllocError>
    ensures { IfOk result (λ masked. (script : ScriptView) (first : Run) →
        AreOutcomes script first found.now → AreMaskedOutcomes script first masked.items) }
{
    let mut masked = Findings::new(alloc);
    for finding in found {
        let outcome = hidden_outcome(alloc, &finding.outcome)?;
        masked.insert(alloc, &finding.events, outcome)?;
    }
    let all = masked.into_all(alloc)?;
    Ok(all)
}

fn hidden(reply: &Reply) -> Reply
    ensures { result ≡ hidden reply.now }
{
    match reply {
        Reply::Id(_) => Reply::Id(0),
        Reply::Addr(_) => Reply::Addr(0),
        _ => *reply,
    }
}

fn hidden_replies(alloc: Global, replies: &[Reply]) -> Result<Vec<Reply>, AllocError>
    ensures { IfOk result (λ v. v.items ≡ map hidden replies.now) }
{
    let mut all = Vec::new(alloc);
    for reply in replies {
        all.push(hidden(reply))?;
    }
    Ok(all)
}

// The same list without identifiers and addresses.
fn hidden_list(alloc: Global, list: &Replies) -> Result<Replies, AllocError>
    ensures { IfOk result (λ t. t ≡ map hidden list.now) }
{
    let replies = hidden_replies(alloc, list.replies())?;
    Replies::new(alloc, replies)
}

fn hidden_lists(alloc: Global, lists: &[Replies]) -> Result<Vec<Replies>, AllocError>
    ensures { IfOk result (λ v. v.items ≡ hidden_outcome lists.now) }
{
    let mut all = Vec::new(alloc);
    for one in lists {
        let one = hidden_list(alloc, one)?;
        all.push(one)?;
    }
    Ok(all)
}

// The same outcome without identifiers and addresses.
fn hidden_outcome(alloc: Global, outcome: &Outcome) -> Result<Outcome, AllocError>
    ensures { IfOk result (λ o. o ≡ hidden_outcome outcome.now) }
{
    let lists = hidden_lists(alloc, outcome.replies())?;
    Ok(Outcome::new(lists))
}
