//! The replies that each process gets in a run, with the times of `stat` masked.
ghost use Rattle.std.specs.Prelude.{◌≡◌, ◌++◌, ◌∷◌, [], IfOk, slice_index_or};
ghost use Rattle.shm_schedules.specs.Outcomes.{masked, masked_ds, masked_time, masked_replies, replies_after, outcome_of};

use crate::digests::with_replies;
use crate::lines::reply_count;
use indexmap::IndexSet;
use shm_base::{Event, Process, Reply, ShmidDs};
use shm_text::Script;
use std::alloc::{AllocError, Global};
use std::hash::{Hash, Hasher};
use std::marker::Model;
use std::rc::Rc;

fn masked_time(time: u64) -> u64
    ensures { result ≡ masked_time time }
{
    if time == 0 { 0 } else { 1 }
}

fn masked_ds(ds: &ShmidDs) -> ShmidDs
    ensures { result ≡ masked_ds ds.now }
{
    ShmidDs {
        key: ds.key,
        perm: ds.perm,
        status: ds.status,
        size: ds.size,
        cpid: ds.cpid,
        lpid: ds.lpid,
        nattch: ds.nattch,
        atime: masked_time(ds.atime),
        dtime: masked_time(ds.dtime),
        ctime: masked_time(ds.ctime),
    }
}

fn masked(reply: &Reply) -> Reply
    ensures { result ≡ masked reply.now }
{
    match reply {
        Reply::Stat(ds) => Reply::Stat(masked_ds(ds)),
        _ => *reply,
    }
}

/// The replies to one process, in order. A time is 0, or 1 if it is set.
#[derive(Drop)]
pub struct Replies {
    replies: Rc<Vec<Reply>>,
    digest: u64,
}

impl Model for Replies {
    ghost use Rattle.std.specs.Prelude.{◌≡◌, List};
    ghost use Rattle.shm_base.specs.declared.call.Reply.{Reply};
    ghost use Rattle.shm_schedules.specs.Digests.{list_digest};

    ghost Value = { List Reply };

    ghost view = { λ t. t.replies.value.items };

    ghost invariant = { λ t. t.digest ≡ list_digest t.replies.value.items };
}

impl Replies {
    /// The replies.
    pub fn replies(&self) -> &[Reply]
        ensures { result.now ≡ self.now }
    {
        self.replies.as_ref().as_slice()
    }

    /// These replies, whose times are masked. AllocError: the host refused memory.
    pub fn new(alloc: Global, replies: Vec<Reply>) -> Result<Replies, AllocError>
        ensures { IfOk result (λ t. t ≡ replies.items) }
    {
        let digest = with_replies(1, &replies);
        let replies = Rc::new(alloc, replies)?;
        Ok(Replies { replies, digest })
    }

    // The same once more.
    fn copied(&self) -> Result<Replies, AllocError>
        ensures { IfOk result (λ t. t ≡ self.now) }
    {
        let replies = self.replies.clone()?;
        Ok(Replies {
            replies,
            digest: self.digest,
        })
    }

    // The replies to this process after one more call.
    fn after(
        &self,
        alloc: Global,
        process: &Process,
        event: &Event,
        lists: &mut Lists,
    ) -> Result<Replies, AllocError>
        ensures { IfOk result (λ t. t ≡ self.now ++ masked_replies (event.now ∷ []) process.now) }
    {
        if event.pid != process.pid {
            return self.copied();
        }
        let longer = with_one_more(alloc, self.replies(), masked(&event.reply))?;
        let replies = Replies::new(alloc, longer)?;
        shared(lists, replies)
    }
}

impl PartialEq for Replies {
    ghost use Rattle.std.specs.Cmp.{decided, partial_equiv_from_equiv};
    ghost use Rattle.shm_schedules.specs.Same.{replies_eq, same-replies};

    ghost eq = { replies_eq };

    ghost laws = { partial_equiv_from_equiv (decided replies_eq same-replies) };

    fn eq(&self, other: &Replies) -> bool {
        self.replies() == other.replies()
    }
}

impl Eq for Replies {
    ghost use Rattle.std.specs.Cmp.{decided};
    ghost use Rattle.shm_schedules.specs.Same.{replies_eq, same-replies};

    ghost laws = { decided replies_eq same-replies };
}

impl Hash for Replies {
    ghost use Rattle.std.specs.Hash.{same_Alike};
    ghost use Rattle.shm_schedules.specs.Digests.{list_hash};
    ghost use Rattle.shm_schedules.specs.Same.{same-replies};

    ghost hash_input = { list_hash };

    ghost respects_eq = { (same_Alike list_hash same-replies).fed };

    fn hash<H: Hasher>(&self, state: &mut H) {
        state.write_u64(self.digest);
    }
}

/// Lists of replies that runs share.
pub type Lists = IndexSet<Replies>;

// The list that is known already, if there is one, so that the same replies are stored once.
fn shared(lists: &mut Lists, list: Replies) -> Result<Replies, AllocError>
    ensures { IfOk result (λ t. t ≡ list) }
{
    if let Some(known) = lists.get(&list) {
        return known.copied();
    }
    let copy = list.copied()?;
    lists.insert(list)?;
    Ok(copy)
}

fn with_one_more(alloc: Global, replies: &[Reply], reply: Reply) -> Result<Vec<Reply>, AllocError>
    ensures { IfOk result (λ v. v.items ≡ replies.now ++ reply ∷ []) }
{
    let mut all = Vec::with_capacity(alloc, replies.len() + 1)?;
    all.extend_from_slice(replies)?;
    all.push(reply)?;
    Ok(all)
}

// The replies to one process in these events.
fn masked_replies(alloc: Global, events: &[Event], process: &Process) -> Result<Replies, AllocError>
    ensures { IfOk result (λ t. t ≡ masked_replies events.now process.now) }
{
    let mut replies = Vec::with_capacity(alloc, reply_count(events, process.pid))?;
    for event in events {
        if event.pid == process.pid {
            replies.push(masked(&event.reply))?;
        }
    }
    Replies::new(alloc, replies)
}

/// The replies to each declared process, in the script's order of processes.
#[derive(Drop)]
pub struct Outcome {
    replies: Vec<Replies>,
}

impl Model for Outcome {
    ghost use Rattle.std.specs.Prelude.{List};
    ghost use Rattle.shm_base.specs.declared.call.Reply.{Reply};

    ghost Value = { List (List Reply) };

    ghost view = { λ o. o.replies.items };
}

impl PartialEq for Outcome {
    ghost use Rattle.std.specs.Cmp.{decided, partial_equiv_from_equiv};
    ghost use Rattle.shm_schedules.specs.Same.{outcome_eq, same-outcomes};

    ghost eq = { outcome_eq };

    ghost laws = { partial_equiv_from_equiv (decided outcome_eq same-outcomes) };

    fn eq(&self, other: &Outcome) -> bool {
        self.replies == other.replies
    }
}

impl Eq for Outcome {
    ghost use Rattle.std.specs.Cmp.{decided};
    ghost use Rattle.shm_schedules.specs.Same.{outcome_eq, same-outcomes};

    ghost laws = { decided outcome_eq same-outcomes };
}

impl Hash for Outcome {
    ghost use Rattle.std.specs.Hash.{same_Alike};
    ghost use Rattle.shm_schedules.specs.Digests.{outcome_hash};
    ghost use Rattle.shm_schedules.specs.Same.{same-outcomes};

    ghost hash_input = { outcome_hash };

    ghost respects_eq = { (same_Alike outcome_hash same-outcomes).fed };

    fn hash<H: Hasher>(&self, state: &mut H) {
        self.replies.hash(state);
    }
}

fn copied_lists(alloc: Global, lists: &[Replies]) -> Result<Vec<Replies>, AllocError>
    ensures { IfOk result (λ v. v.items ≡ lists.now) }
{
    let mut all = Vec::with_capacity(alloc, lists.len())?;
    for one in lists {
        let copy = one.copied()?;
        all.push(copy)?;
    }
    Ok(all)
}

fn replies_after(
    alloc: Global,
    processes: &[Process],
    event: &Event,
    replies: &[Replies],
    lists: &mut Lists,
) -> Result<Vec<Replies>, AllocError>
    ensures { IfOk result (λ v. v.items ≡ replies_after processes.now event.now replies.now) }
{
    let mut all = Vec::with_capacity(alloc, processes.len())?;
    for (index, process) in processes.iter().enumerate() {
        let one = one_after(alloc, replies, index, process, event, lists)?;
        all.push(one)?;
    }
    Ok(all)
}

// The replies to the process at this place after one more call.
fn one_after(
    alloc: Global,
    all: &[Replies],
    index: usize,
    process: &Process,
    event: &Event,
    lists: &mut Lists,
) -> Result<Replies, AllocError>
    ensures { IfOk result (λ t. t ≡ slice_index_or all.now index [] ++ masked_replies (event.now ∷ []) process.now) }
{
    match all.get(index) {
        Some(one) => one.after(alloc, process, event, lists),
        None => masked_replies(alloc, &[*event], process),
    }
}

impl Outcome {
    /// The replies to each process.
    pub fn replies(&self) -> &[Replies]
        ensures { result.now ≡ self.now }
    {
        self.replies.as_slice()
    }

    /// An outcome of these replies, a list for each process.
    pub fn new(replies: Vec<Replies>) -> Outcome
        ensures { result ≡ replies.items }
    {
        Outcome { replies }
    }

    /// The outcome of these events. AllocError: the host refused memory.
    pub fn of(alloc: Global, script: &Script, events: &[Event]) -> Result<Outcome, AllocError>
        ensures { IfOk result (λ o. o ≡ outcome_of script.now events.now) }
    {
        let mut all = Vec::with_capacity(alloc, script.processes.len())?;
        for process in &script.processes {
            let one = masked_replies(alloc, events, process)?;
            all.push(one)?;
        }
        Ok(Outcome { replies: all })
    }

    /// The same once more. Both share their lists. AllocError: the host refused memory.
    pub fn copied(&self, alloc: Global) -> Result<Outcome, AllocError>
        ensures { IfOk result (λ o. o ≡ self.now) }
    {
        let replies = copied_lists(alloc, &self.replies)?;
        Ok(Outcome { replies })
    }

    /// The replies after one more call. Those to other processes are shared, and `lists` stores each new list once.
    /// AllocError: the host refused memory; `lists` may have the new list then.
    pub fn after(
        &self,
        alloc: Global,
        script: &Script,
        event: &Event,
        lists: &mut Lists,
    ) -> Result<Outcome, AllocError>
        ensures { IfOk result (λ o. o ≡ replies_after script.now.processes event.now self.now) }
    {
        let replies = replies_after(alloc, &script.processes, event, &self.replies, lists)?;
        Ok(Outcome { replies })
    }
}
