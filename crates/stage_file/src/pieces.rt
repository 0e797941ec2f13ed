// One file, written in pieces and synced.
ghost use Rattle.std.specs.Prelude.{IsSome};
ghost use Rattle.std.specs.Option.{ForSome};
ghost use Rattle.ap_host.specs.Disk.{live_of};
ghost use Rattle.ap_host.specs.Calls.{HasCause};
ghost use Rattle.ap_host.specs.Changes.{GoesOn};
ghost use Rattle.stage_file.specs.Stage.{Appends, Lays};

use ap_host::{Host, HostErr};
use ap_text::SafePath;

// the longest piece that one append takes, so that a host needs little memory for one
const PIECE: usize = 65536;

/// Appends bytes to a file that is there, in pieces, at least one.
fn append_all<H: Host>(host: &mut H, path: &SafePath, bytes: &[u8]) -> Result<(), HostErr>
    requires { ForSome (H.log host.old) (λ l. IsSome (live_of l path.now)) }
    ensures log { GoesOn (H.log host.old) (H.log host.new) (Appends path.now bytes.now result) }
    ensures cause { HasCause (H.faults host.old) (H.faults host.new) result }
{
    let mut at = bytes.len().min(PIECE);
    host.append(path, &bytes[..at])?;
    while at < bytes.len() {
        let end = at + (bytes.len() - at).min(PIECE);
        host.append(path, &bytes[at..end])?;
        at = end;
    }
    Ok(())
}

/// Makes a file with these bytes and syncs it.
pub fn lay_at<H: Host>(host: &mut H, path: &SafePath, bytes: &[u8]) -> Result<(), HostErr>
    ensures log { GoesOn (H.log host.old) (H.log host.new) (Lays path.now bytes.now result) }
    ensures cause { HasCause (H.faults host.old) (H.faults host.new) result }
{
    host.create(path)?;
    append_all(host, path, bytes)?;
    host.sync(path)?;
    Ok(())
}
