//! Files of a store and of an inbox, read into memory.
ghost use Rattle.std.specs.Prelude.{◌≡◌, ◌+◌, ◌<◌, ◌≤◌, min, length, IfOk};
ghost use Rattle.std.specs.Option.{ForSome};
ghost use Rattle.ap_host.specs.Disk.{live_of};
ghost use Rattle.ap_host.specs.Calls.{HasCause, HasInboxCause};
ghost use Rattle.hash_pool.specs.Reading.{IsReadTo, ReadsOn};

use ap_host::{Bytes, Host, HostErr, Inbox, InboxErr};
use ap_text::SafePath;
use std::alloc::Global;

// how many bytes one read asks for at most
const PIECE: usize = 16384;

/// How many of the bytes that a read gave are kept, where so many are left up to the place that was asked for.
fn kept(given: usize, left: u64) -> usize
    ensures { result ≡ min given left }
{
    if (given as u64) < left {
        given
    } else {
        left as usize
    }
}

/// Reads what comes next of a file of the host, up to a place, into the bytes before it; says how many bytes that is.
fn read_more<H: Host>(
    host: &mut H,
    path: &SafePath,
    upto: u64,
    bytes: &mut Bytes,
) -> Result<usize, HostErr>
    requires { length bytes.old < upto }
    ensures grown { IfOk result (λ n. length bytes.new ≡ length bytes.old + n) }
    ensures bound { IfOk result (λ n. length bytes.new ≤ upto) }
    ensures told { IfOk result (λ n. ForSome (H.log host.old) (λ l. ReadsOn (live_of l path.now) bytes.old bytes.new n)) }
    ensures log { H.log host.new ≡ H.log host.old }
    ensures cause { HasCause (H.faults host.old) (H.faults host.new) result }
{
    let mut piece = [0u8; PIECE];
    let given = host.read_at(path, bytes.len() as u64, &mut piece)?;
    let n = kept(given, upto - bytes.len() as u64);
    bytes.extend(&piece[..n])?;
    Ok(n)
}

/// The bytes of a file of the host up to a place, or fewer: a read that gives nothing ends it. On a host that tells its log
/// they are exactly the file's first bytes, none where there is no file. `Failed` comes only where the host failed.
pub fn read_file<H: Host>(
    alloc: Global,
    host: &mut H,
    path: &SafePath,
    upto: u64,
) -> Result<Bytes, HostErr>
    ensures bound { IfOk result (λ bytes. length bytes ≤ upto) }
    ensures told { IfOk result (λ bytes. ForSome (H.log host.old) (λ l. IsReadTo upto (live_of l path.now) bytes)) }
    ensures log { H.log host.new ≡ H.log host.old }
    ensures cause { HasCause (H.faults host.old) (H.faults host.new) result }
{
    let mut bytes = Bytes::empty(alloc);
    'pieces: while (bytes.len() as u64) < upto {
        if read_more(host, path, upto, &mut bytes)? == 0 {
            return Ok(bytes);
        }
    }
    Ok(bytes)
}

/// A whole file of the host, or none where there is no such file. On a host that tells its log it is exactly what reads give.
/// `Failed` comes only where the host failed.
pub fn read_whole<H: Host>(
    alloc: Global,
    host: &mut H,
    path: &SafePath,
) -> Result<Option<Bytes>, HostErr>
    ensures told { IfOk result (λ file. ForSome (H.log host.old) (λ l. file ≡ live_of l path.now)) }
    ensures log { H.log host.new ≡ H.log host.old }
    ensures cause { HasCause (H.faults host.old) (H.faults host.new) result }
{
    match host.length(path)? {
        None => Ok(None),
        Some(length) => Ok(Some(read_file(alloc, host, path, length)?)),
    }
}

/// Reads what comes next of a file of the inbox, up to a place, into the bytes before it; says how many bytes that is.
fn take_more<I: Inbox>(
    inbox: &mut I,
    path: &SafePath,
    upto: u64,
    bytes: &mut Bytes,
) -> Result<usize, InboxErr>
    requires { length bytes.old < upto }
    ensures grown { IfOk result (λ n. length bytes.new ≡ length bytes.old + n) }
    ensures bound { IfOk result (λ n. length bytes.new ≤ upto) }
    ensures told { IfOk result (λ n. ForSome (I.map inbox.old) (λ f. ReadsOn (f path.now) bytes.old bytes.new n)) }
    ensures map { I.map inbox.new ≡ I.map inbox.old }
    ensures cause { HasInboxCause (I.faults inbox.old) (I.faults inbox.new) result }
{
    let mut piece = [0u8; PIECE];
    let given = inbox.read_at(path, bytes.len() as u64, &mut piece)?;
    let n = kept(given, upto - bytes.len() as u64);
    bytes.extend(&piece[..n])?;
    Ok(n)
}

/// The bytes of a file of the inbox up to a place, or fewer: a read that gives nothing ends it. In an inbox that tells its files
/// they are exactly the file's first bytes, none where there is no file. `Failed` comes only where the inbox failed.
pub fn read_input<I: Inbox>(
    alloc: Global,
    inbox: &mut I,
    path: &SafePath,
    upto: u64,
) -> Result<Bytes, InboxErr>
    ensures bound { IfOk result (λ bytes. length bytes ≤ upto) }
    ensures told { IfOk result (λ bytes. ForSome (I.map inbox.old) (λ f. IsReadTo upto (f path.now) bytes)) }
    ensures map { I.map inbox.new ≡ I.map inbox.old }
    ensures cause { HasInboxCause (I.faults inbox.old) (I.faults inbox.new) result }
{
    let mut bytes = Bytes::empty(alloc);
    'pieces: while (bytes.len() as u64) < upto {
        if take_more(inbox, path, upto, &mut bytes)? == 0 {
            return Ok(bytes);
        }
    }
    Ok(bytes)
}
