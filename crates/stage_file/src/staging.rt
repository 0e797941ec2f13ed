// The folder of staged files.
ghost use Rattle.std.specs.Prelude.{◌≡◌, true, false, IsSome, IfOk, OnOk, OnErr};
ghost use Rattle.std.specs.Option.{ForSome};
ghost use Rattle.ap_host.specs.Disk.{live_of};
ghost use Rattle.ap_host.specs.Calls.{HasCause};
ghost use Rattle.ap_host.specs.Changes.{GoesOn};
ghost use Rattle.stage_file.specs.Stage.{StageState, counted, stage_path, Lays, Places, Removes, Clears, Barriers};

use crate::pieces::lay_at;
use ap_host::{Host, HostErr};
use ap_text::SafePath;
use std::alloc::Global;
use std::marker::Model;

const FOLDER: &str = "stage";

/// The name of one staged file that was laid, to be placed once.
#[derive(Drop)]
pub struct StageName {
    path: SafePath,
}

impl Model for StageName {
    ghost use Rattle.std.specs.Prelude.{ℕ, List};

    ghost Value = { List ℕ };

    ghost view = { λ n. n.path };
}

/// Lays files and places them. It counts the files that it lays, from 0 and after 2^64 - 1 from 0 again, and knows whether it
/// has touched the host since its last barrier. After an error of a call it may have counted on, and it has touched the host
/// where the call may have.
#[derive(Drop)]
pub struct Stage {
    alloc: Global,
    next: u64,
    touched: bool,
}

impl Model for Stage {
    ghost use Rattle.stage_file.specs.Stage.{StageState};

    ghost Value = { StageState };

    ghost view = { λ s. record { next = s.next; touched = s.touched } };
}

impl Stage {
    /// A stage that has laid no file yet and touched nothing. `alloc` serves for the names of its files.
    pub fn new(alloc: Global) -> Stage
        ensures { result ≡ record { next = 0; touched = false } }
    {
        Stage {
            alloc,
            next: 0,
            touched: false,
        }
    }

    /// Lays the next staged file: creates it, appends the bytes in pieces of at most 65,536 bytes (empty bytes are one empty
    /// piece), and syncs it. A stop then leaves the file with these bytes or none. `Failed` comes only where the host failed.
    pub fn lay<H: Host>(&mut self, host: &mut H, bytes: &[u8]) -> Result<StageName, HostErr>
        ensures name { IfOk result (λ name. name ≡ stage_path self.old.next) }
        ensures stage { self.new ≡ counted self.old }
        ensures log { GoesOn (H.log host.old) (H.log host.new) (Lays (stage_path self.old.next) bytes.now result) }
        ensures cause { HasCause (H.faults host.old) (H.faults host.new) result }
    {
        let number = self.next;
        self.next = number.wrapping_add(1);
        self.touched = true;
        let folder = SafePath::fixed(self.alloc, FOLDER)?;
        let path = SafePath::numbered(self.alloc, &folder, number)?;
        lay_at(host, &path, bytes)?;
        Ok(StageName { path })
    }

    /// Renames a staged file to its path. It has to be there still, on a host that tells its log. A stop leaves at the path
    /// what it might have had, or the bytes that were laid.
    pub fn place<H: Host>(
        &mut self,
        host: &mut H,
        name: StageName,
        path: &SafePath,
    ) -> Result<(), HostErr>
        requires { ForSome (H.log host.old) (λ l. IsSome (live_of l name)) }
        ensures stage { self.new ≡ record self.old { touched = true } }
        ensures log { GoesOn (H.log host.old) (H.log host.new) (Places name path.now result) }
        ensures cause { HasCause (H.faults host.old) (H.faults host.new) result }
    {
        self.touched = true;
        host.rename(&name.path, path)
    }

    /// Removes a file, which has to be there, on a host that tells its log.
    pub fn remove<H: Host>(&mut self, host: &mut H, path: &SafePath) -> Result<(), HostErr>
        requires { ForSome (H.log host.old) (λ l. IsSome (live_of l path.now)) }
        ensures stage { self.new ≡ record self.old { touched = true } }
        ensures log { GoesOn (H.log host.old) (H.log host.new) (Removes path.now result) }
        ensures cause { HasCause (H.faults host.old) (H.faults host.new) result }
    {
        self.touched = true;
        host.remove(path)
    }

    /// Makes the host's barrier where a call of this stage touched the host since its last barrier, and does nothing
    /// otherwise. After it a stop changes no file, if before it that held of each file that this stage hadn't touched.
    pub fn barrier<H: Host>(&mut self, host: &mut H) -> Result<(), HostErr>
        ensures clean { OnOk result (self.new ≡ record self.old { touched = false }) }
        ensures same { OnErr result (self.new ≡ self.old) }
        ensures log { GoesOn (H.log host.old) (H.log host.new) (Barriers self.old result) }
        ensures cause { HasCause (H.faults host.old) (H.faults host.new) result }
    {
        if self.touched {
            host.barrier()?;
            self.touched = false;
        }
        Ok(())
    }

    /// Removes each file below the folder of staged files, whoever laid it.
    pub fn clear<H: Host>(&mut self, host: &mut H) -> Result<(), HostErr>
        ensures next { self.new.next ≡ self.old.next }
        ensures log { GoesOn (H.log host.old) (H.log host.new) (Clears self.old self.new result) }
        ensures cause { HasCause (H.faults host.old) (H.faults host.new) result }
    {
        let folder = SafePath::fixed(self.alloc, FOLDER)?;
        let names = host.names(&folder)?;
        for name in &names {
            self.remove(host, name)?;
        }
        Ok(())
    }
}
