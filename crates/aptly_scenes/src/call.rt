//! One call of `aptly`.
use crate::files::Files;
use crate::trouble::Trouble;
use ap_host::{MemHost, MemInbox, Op};
use aptly_core::{Status, aptly};
use command_words::Words;
use query_eval::MemPatterns;
use std::alloc::{AllocError, Global};

/// What is planned for a call: ordinals count from 0.
#[derive(Drop)]
pub(crate) struct Plan {
    /// The store is found taken.
    pub(crate) taken: bool,
    /// The calls of the host that fail.
    pub(crate) host: Vec<u64>,
    /// The calls of the inbox that fail.
    pub(crate) inbox: Vec<u64>,
    /// The calls of the pattern builder that fail.
    pub(crate) pattern: Vec<u64>,
}

/// What is planned for a call, to be read.
#[derive(Clone, Copy)]
pub(crate) struct Planned<'a> {
    /// The store is found taken.
    pub(crate) taken: bool,
    /// The calls of the host that fail.
    pub(crate) host: &'a [u64],
    /// The calls of the inbox that fail.
    pub(crate) inbox: &'a [u64],
    /// The calls of the pattern builder that fail.
    pub(crate) pattern: &'a [u64],
}

impl Plan {
    /// What is planned, to be read.
    pub(crate) fn as_planned(&self) -> Planned<'_> {
        Planned {
            taken: self.taken,
            host: self.host.as_slice(),
            inbox: self.inbox.as_slice(),
            pattern: self.pattern.as_slice(),
        }
    }

    /// Nothing is planned.
    pub(crate) fn new(alloc: Global) -> Plan {
        Plan {
            taken: false,
            host: Vec::new(alloc),
            inbox: Vec::new(alloc),
            pattern: Vec::new(alloc),
        }
    }
}

/// A call that was made.
#[derive(Drop)]
pub(crate) struct Call {
    /// How it ended.
    pub(crate) status: Status,
    /// Its host, which tells its operations.
    pub(crate) host: MemHost,
    /// How many calls of the inbox failed.
    pub(crate) inbox_faults: u64,
}

impl Call {
    /// What was said.
    pub(crate) fn said(&self, alloc: Global) -> Result<Vec<u8>, AllocError> {
        let mut text = Vec::new(alloc);
        for op in self.host.log() {
            if let Op::Say(bytes) = op {
                text.extend_from_slice(bytes.as_slice())?;
            }
        }
        Ok(text)
    }

    /// The store that it left live.
    pub(crate) fn live(&self) -> Result<Files, AllocError> {
        Files::image(&self.host, self.host.log().len(), 0)
    }
}

/// These ordinals once more.
fn ordinals(alloc: Global, planned: &[u64]) -> Result<Vec<u64>, AllocError> {
    Ok(Vec::from_slice(alloc, planned)?)
}

/// A host over these files.
fn host_over(alloc: Global, store: &Files, plan: Planned<'_>) -> Result<MemHost, AllocError> {
    let failing = ordinals(alloc, plan.host)?;
    let base = store.to_entries(alloc)?;
    MemHost::new(alloc, base, failing, plan.taken)
}

/// An inbox over these files.
fn inbox_over(alloc: Global, input: &Files, plan: Planned<'_>) -> Result<MemInbox, AllocError> {
    let failing = ordinals(alloc, plan.inbox)?;
    let files = input.to_entries(alloc)?;
    Ok(MemInbox::new(files, failing))
}

/// A status other than that memory was wanting.
fn judged(status: Status) -> Result<Status, Trouble> {
    match status {
        Status::OutOfMemory => Err(Trouble::OutOfMemory),
        status => Ok(status),
    }
}

/// Calls `aptly` over a host and an inbox.
fn status_over(
    alloc: Global,
    words: &Words,
    now: i64,
    host: &mut MemHost,
    inbox: &mut MemInbox,
    plan: Planned<'_>,
) -> Result<Status, Trouble> {
    let mut patterns = MemPatterns::new(alloc, ordinals(alloc, plan.pattern)?);
    judged(aptly(alloc, words, now, host, inbox, &mut patterns))
}

/// Calls `aptly` over these files and an inbox.
fn call_over(
    alloc: Global,
    words: &Words,
    now: i64,
    store: &Files,
    inbox: &mut MemInbox,
    plan: Planned<'_>,
) -> Result<Call, Trouble> {
    let mut host = host_over(alloc, store, plan)?;
    let status = status_over(alloc, words, now, &mut host, inbox, plan)?;
    Ok(Call {
        status,
        host,
        inbox_faults: inbox.faults(),
    })
}

/// Calls `aptly` over these files, at this moment in seconds since 1970.
pub(crate) fn make_call(
    alloc: Global,
    words: &Words,
    now: i64,
    store: &Files,
    input: &Files,
    plan: Planned<'_>,
) -> Result<Call, Trouble> {
    let mut inbox = inbox_over(alloc, input, plan)?;
    call_over(alloc, words, now, store, &mut inbox, plan)
}
