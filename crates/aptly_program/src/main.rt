//! `aptly`, the program: its arguments are the words of one call, the store is the folder `aptly-store` in the working
//! folder, and the inbox is the working folder.
#![tactic(auto)]

use aptly_core::{Damage, Status, aptly};
use command_words::Words;
use query_eval::RegexPatterns;
use real_edge::{FolderHost, FolderInbox};
use std::alloc::{AllocError, AllocFailed};
use std::fs::File;
use std::io::{Eprint, ErrorKind};
use std::process::ExitCode;
use std::rt::{Clock, Env, Files};
use std::time::SystemTime;
use std::{env, io};

/// Why no call was made.
#[derive(Clone, Copy)]
enum Unable {
    /// A word is no text.
    Words,
    /// The clock gives no time.
    Clock,
    OutOfMemory,
}

impl From<AllocError> for Unable {
    fn from(_: AllocError) -> Unable {
        Unable::OutOfMemory
    }
}

impl<T: Drop> From<AllocFailed<T>> for Unable {
    fn from(_: AllocFailed<T>) -> Unable {
        Unable::OutOfMemory
    }
}

/// The arguments behind the program's name.
fn words_given<R: Env + AllocGlobal>(rt: &R) -> Result<Words, Unable> {
    let given = match env::args(rt) {
        Ok(given) => given,
        Err(error) if error.kind() == ErrorKind::OutOfMemory => return Err(Unable::OutOfMemory),
        Err(_) => return Err(Unable::Words),
    };
    let mut words = Words::new(rt.alloc());
    for word in given.skip(1) {
        words.push(word.as_str())?;
    }
    Ok(words)
}

/// The seconds since 1970.
fn seconds_now<R: Clock>(rt: &R) -> Result<i64, Unable> {
    let Ok(now) = SystemTime::now(rt) else {
        return Err(Unable::Clock);
    };
    let Ok(since) = now.duration_since(SystemTime::UNIX_EPOCH) else {
        return Err(Unable::Clock);
    };
    match i64::try_from(since.as_secs()) {
        Ok(seconds) => Ok(seconds),
        Err(_) => Err(Unable::Clock),
    }
}

/// One call over the real store and inbox.
fn call<R: Files<File = File> + Print + AllocGlobal + Clone + Drop + Env + Clock>(
    rt: &R,
) -> Result<Status, Unable> {
    let words = words_given(rt)?;
    let now = seconds_now(rt)?;
    let mut host = FolderHost::new(rt, "aptly-store")?;
    let mut inbox = FolderInbox::new(rt, ".")?;
    let mut patterns = RegexPatterns::new(rt.alloc());
    Ok(aptly(
        rt.alloc(),
        &words,
        now,
        &mut host,
        &mut inbox,
        &mut patterns,
    ))
}

/// The file that a damage is at.
fn damaged_path(damage: &Damage) -> &str {
    match damage {
        Damage::Missing { path } => path.as_str(),
        Damage::Size { path, .. } => path.as_str(),
        Damage::Digest { path, .. } => path.as_str(),
        Damage::Unreadable { path, .. } => path.as_str(),
    }
}

/// Writes to standard error why a call broke off. What a call that ran to its end has to tell, it has said itself.
fn tell_status<R: Eprint>(rt: &R, status: &Status) -> io::Result<()> {
    match status {
        Status::Done | Status::Refused(_) | Status::Usage(_) => Ok(()),
        Status::HostFault => eprintln!(rt; "aptly: the store failed"),
        Status::InboxFault => eprintln!(rt; "aptly: the input failed"),
        Status::OutOfMemory => eprintln!(rt; "aptly: out of memory"),
        Status::Damaged(damage) => {
            let path = damaged_path(damage);
            eprintln!(rt; "aptly: the store is damaged at {path}")
        }
        Status::Busy => eprintln!(rt; "aptly: the store is busy"),
    }
}

/// Writes to standard error why no call was made.
fn tell_unable<R: Eprint>(rt: &R, unable: Unable) -> io::Result<()> {
    match unable {
        Unable::Words => eprintln!(rt; "aptly: the words can't be read"),
        Unable::Clock => eprintln!(rt; "aptly: the clock can't be read"),
        Unable::OutOfMemory => eprintln!(rt; "aptly: out of memory"),
    }
}

/// The exit code where no call was made.
fn unable_code(unable: Unable) -> u8 {
    match unable {
        Unable::Words => 8,
        Unable::Clock => 9,
        Unable::OutOfMemory => 5,
    }
}

fn main(rt: HostRuntime) -> ExitCode {
    // Where standard error fails too, the code alone tells what happened.
    match call(&rt) {
        Ok(status) => {
            let _told = tell_status(&rt, &status);
            ExitCode::from(status.code())
        }
        Err(unable) => {
            let _told = tell_unable(&rt, unable);
            ExitCode::from(unable_code(unable))
        }
    }
}
