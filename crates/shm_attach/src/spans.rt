//! The spans of an access.
ghost use Rattle.std.specs.Prelude.{◌≡◌, ◌+◌, ◌%◌, ◌≤◌, ℕ, Option, length, [], ◌∷◌, None, IfSome, IfNone, IfOk, OnErr, All};
ghost use Rattle.shm_base.specs.declared.paging.Span.{Span as SpanValue};
ghost use Rattle.shm_areas.specs.Arranged.{bare_all};
ghost use Rattle.shm_attach.specs.Table.{AllTrue};
ghost use Rattle.shm_attach.specs.Tables.{HasTable};
ghost use Rattle.shm_base.specs.Spans.{page_of};
ghost use Rattle.shm_attach.specs.Spans.{wanted_in, AreSpans, IsSpan};

use crate::tables::Tables;
use shm_areas::Space;
use shm_base::{PAGE_SIZE, Span};
use std::marker::Model;
use thiserror::Error;

/// An address has no piece, or a write meets a read-only piece (SIGSEGV).
#[derive(Clone, Copy, Debug, PartialEq, Eq, Error)]
#[error("address not mapped, or not writable")]
pub struct Segv;

// One span or two.
#[derive(Debug, Drop)]
pub(crate) enum Parts {
    One([Span; 1]),
    Two([Span; 2]),
}

/// The spans of an access, one or two, in address order. Each is within one page of its segment.
#[derive(Debug, Drop)]
pub struct Spans {
    parts: Parts,
}

impl Model for Spans {
    ghost use Rattle.std.specs.Prelude.{◌≤◌, List, length};
    ghost use Rattle.shm_base.specs.declared.paging.Span.{Span};
    ghost use Rattle.shm_attach.specs.Spans.{span_list};

    ghost Value = { List Span };

    ghost view = { λ s. span_list s.parts };

    ghost invariant = { λ s. (1 ≤ length (span_list s.parts)) × (length (span_list s.parts) ≤ 2) };
}

impl Spans {
    #[inline(always)]
    fn one(first: Span) -> Spans
        ensures { result ≡ first ∷ [] }
    {
        Spans {
            parts: Parts::One([first]),
        }
    }

    #[inline(always)]
    fn two(first: Span, second: Span) -> Spans
        ensures { result ≡ first ∷ second ∷ [] }
    {
        Spans {
            parts: Parts::Two([first, second]),
        }
    }

    #[inline(always)]
    pub fn as_slice(&self) -> &[Span]
        ensures value { result.now ≡ self.now }
        ensures few { (1 ≤ length result.now) × (length result.now ≤ 2) }
    {
        match &self.parts {
            Parts::One(spans) => spans,
            Parts::Two(spans) => spans,
        }
    }
}

/// The span of an access within one page.
#[inline(always)]
fn span_in(space: &Space, tables: &Tables, addr: u64, len: u64, write: bool) -> Option<Span>
    requires some { 1 ≤ len }
    requires tables { All (HasTable tables.now.slab) space.now.pieces }
    requires page { addr % 4096 + len ≤ 4096 }
    ensures some { IfSome result (IsSpan write (bare_all space.now.pieces) addr len tables.now.slab) }
    ensures none { IfNone result (wanted_in write (bare_all space.now.pieces) addr len ≡ None) }
{
    let piece = space.piece_at(addr)?;
    if write && !piece.writable {
        return None;
    }
    let at = piece.byte_at(addr);
    Some(Span {
        seg: piece.seg,
        at,
        len,
        frame: tables.frame(piece.key, (at / PAGE_SIZE) as usize),
    })
}

/// The spans of an access of a process. An access of at most 4,096 bytes has at most two pages.
#[inline(always)]
pub(crate) fn spans_in(
    space: &Space,
    tables: &Tables,
    addr: u64,
    len: u64,
    write: bool,
) -> Result<Spans, Segv>
    requires size { (1 ≤ len) × (len ≤ 4096) }
    requires tables { All (HasTable tables.now.slab) space.now.pieces }
    ensures spans { IfOk result (λ s. AreSpans write (bare_all space.now.pieces) addr len s) }
    ensures none { OnErr result (wanted_in write (bare_all space.now.pieces) addr len ≡ None) }
    ensures frames { IfOk result (λ s. (at : ℕ → ℕ → Option ℕ) → AllTrue at tables.now.slab
        → All (λ (p : SpanValue). p.frame ≡ at p.seg (page_of p)) s) }
{
    let room = PAGE_SIZE - addr % PAGE_SIZE;
    let Some(first) = span_in(space, tables, addr, len.min(room), write) else {
        return Err(Segv);
    };
    if len <= room {
        return Ok(Spans::one(first));
    }
    let Some(second) = span_in(space, tables, addr + room, len - room, write) else {
        return Err(Segv);
    };
    Ok(Spans::two(first, second))
}
