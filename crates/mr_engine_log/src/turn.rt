//! What one record does.
ghost use Rattle.std.specs.Prelude.{◌≡◌, ◌==◌, ◌≤◌, ◌<◌, ◌+◌, ◌^◌, ℕ, List, length, IfOk, IfErr, OnOk, Ok, Err, ◌⊎◌, [], ◌++◌};
ghost use Rattle.mr_base.specs.declared.stop.Stop.{Stop};
ghost use Rattle.mr_wal.specs.EngineLog.{read_record as in_bytes};
ghost use Rattle.mr_engine_log.specs.Logged.{is_wrong_verdict, step, rest_of, decided, undecided, if_some, counted, with_body};
ghost use Rattle.mr_engine_log.specs.declared.batched.Batched.{Batched};

use crate::batched::{Batched, Counted, Prepared};
use mr_base::{DefAnswer, Stop};
use mr_wal::{WalBody, WalRecord, read_record};
use std::alloc::Global;

/// What the records so far leave, but for the batches that count.
#[derive(Drop)]
pub(crate) struct SoFar {
    pub(crate) pending: Option<Prepared>,
    pub(crate) last: u64,
    /// Whether each sequence number was one above the one before it.
    pub(crate) in_turn: bool,
}

/// Whether the body's verdict is on nothing, or missing.
fn is_wrong(pending: &Option<Prepared>, body: &[u8]) -> bool
    ensures { result ≡ is_wrong_verdict pending.now body.now }
{
    match body {
        [] => false,
        [verdict, ..] => {
            if pending.is_some() {
                *verdict == 0
            } else {
                *verdict > 0
            }
        }
    }
}

/// The record of a body, or the offence as a place in the file.
fn record_of(alloc: Global, file: u64, at: u64, body: &[u8]) -> Result<WalRecord, Stop>
    requires { at + 5 + length body.now < 2 ^ 64 }
    ensures ok { IfOk result (λ r. in_bytes body.now ≡ Ok r) }
    ensures err { IfErr result (λ e. (e ≡ Stop.Memory) ⊎ ((place : ℕ) × (e ≡ Stop.Damaged file (at + 5 + place)) × (in_bytes body.now ≡ Err place))) }
{
    match read_record(alloc, body) {
        Ok(record) => Ok(record),
        Err(DefAnswer::Memory) => Err(Stop::Memory),
        Err(DefAnswer::Malformed(place)) => Err(Stop::Damaged {
            file,
            at: (at + 5).saturating_add(place),
        }),
    }
}

/// The pending prepare where the verdict commits it. 1 commits it, 2 abandons it, 0 leaves it.
fn give_verdict(so_far: &mut SoFar, verdict: u8) -> Option<Batched>
    ensures batches { (bs : List Batched) → decided verdict so_far.old.pending bs ≡ bs ++ if_some result }
    ensures pending { so_far.new.pending ≡ undecided verdict so_far.old.pending }
    ensures last { so_far.new.last ≡ so_far.old.last }
    ensures in_turn { so_far.new.in_turn ≡ so_far.old.in_turn }
{
    if verdict == 0 {
        return None;
    }
    match so_far.pending.take() {
        Some(prepared) if verdict == 1 => Some(Batched {
            commit: Some(prepared.commit),
            sequence: prepared.sequence,
            operations: prepared.operations,
        }),
        _ => None,
    }
}

/// Whether the number is one above the last one.
fn is_next(last: u64, sequence: u64) -> bool
    ensures { result ≡ (sequence == last + 1) }
{
    sequence > last && sequence - last == 1
}

/// The batch that counts by what a record does itself.
fn take_body(so_far: &mut SoFar, body: WalBody) -> Option<Batched>
    ensures { (bs : List Batched) → with_body body (rest_of so_far.old.pending so_far.old.last so_far.old.in_turn bs) ≡ rest_of so_far.new.pending so_far.new.last so_far.new.in_turn (bs ++ if_some result) }
{
    match body {
        WalBody::Prepare { k, sequence, batch } => {
            so_far.in_turn = so_far.in_turn && is_next(so_far.last, sequence);
            so_far.last = sequence;
            so_far.pending = Some(Prepared {
                commit: k,
                sequence,
                operations: batch,
            });
            None
        }
        WalBody::Plain { sequence, batch } => {
            so_far.in_turn = so_far.in_turn && is_next(so_far.last, sequence);
            so_far.last = sequence;
            Some(Batched {
                commit: None,
                sequence,
                operations: batch,
            })
        }
        WalBody::Decided => None,
    }
}

/// Takes the record with this body, which stands at a place, and answers what it makes count.
pub(crate) fn take_record(
    alloc: Global,
    file: u64,
    so_far: &mut SoFar,
    at: u64,
    body: &[u8],
) -> Result<Counted, Stop>
    requires { at + 5 + length body.now < 2 ^ 64 }
    ensures ok { IfOk result (λ c. (bs : List Batched) → step at (rest_of so_far.old.pending so_far.old.last so_far.old.in_turn bs) body.now ≡ Ok (rest_of so_far.new.pending so_far.new.last so_far.new.in_turn (bs ++ counted c))) }
    ensures err { IfErr result (λ e. (e ≡ Stop.Memory) ⊎ ((place : ℕ) × (e ≡ Stop.Damaged file place) × ((bs : List Batched) → step at (rest_of so_far.old.pending so_far.old.last so_far.old.in_turn bs) body.now ≡ Err place))) }
{
    if is_wrong(&so_far.pending, body) {
        return Err(Stop::Damaged { file, at: at + 5 });
    }
    let record = record_of(alloc, file, at, body)?;
    let committed = give_verdict(so_far, record.verdict);
    let plain = take_body(so_far, record.body);
    Ok(Counted { committed, plain })
}
