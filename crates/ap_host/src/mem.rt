// A host in memory. It tells its log, and fails at the calls that it is told to.
ghost use Rattle.std.specs.Prelude.{◌≡◌, ◌≤◌, ℕ, [], ◌∷◌, ◌++◌, length, take, not, Some, IsTrue, IsSome, IfOk, OnOk, OnErr, IsErrOf, option_map};
ghost use Rattle.std.specs.Option.{ForSome};
ghost use Rattle.ap_host.specs.declared.host.HostErr.TheVariants.{Failed, OutOfMemory};
ghost use Rattle.ap_host.specs.declared.host.Op.TheVariants.{Create, Append, Sync, Rename, Remove, Barrier, Say, Claim};
ghost use Rattle.ap_host.specs.Disk.{live_of};
ghost use Rattle.ap_host.specs.Calls.{Added, Does, HasCause, Reads, Rose};
ghost use Rattle.ap_host.specs.Names.{NamesOf};
ghost use Rattle.ap_host.specs.Table.{files_of, IsOnce, SameFiles};
ghost use Rattle.ap_host.specs.Ordinals.{is_due, FailsInTurn};
ghost use Rattle.ap_host.specs.Images.{IsChoice};
ghost use Rattle.ap_host.specs.Mem.{MemState, MemDoes, log_of, stood};

use crate::bytes::Bytes;
use crate::host::{Host, HostErr, Op};
use crate::images::image_of;
use crate::names::names_below;
use crate::ordinals::Ordinals;
use crate::replay::apply;
use crate::table::{copy_entries, length_of, read_file};
use ap_text::SafePath;
use std::alloc::{AllocError, Global};
use std::marker::Model;

/// A host in memory. It tells its log; the calls at given ordinals fail, as those of a real disk may.
#[derive(Drop)]
pub struct MemHost {
    alloc: Global,
    base: Vec<(SafePath, Bytes)>,
    ops: Vec<Op>,
    table: Vec<(SafePath, Bytes)>,
    taken: bool,
    calls: Ordinals,
}

impl Model for MemHost {
    ghost use Rattle.ap_host.specs.Mem.{MemState, IsMem};

    ghost Value = { MemState };

    ghost view = { λ m. record { base = m.base.items; ops = m.ops.items; taken = m.taken; calls = m.calls } };

    ghost invariant = { λ m. IsMem m.base.items m.table.items m.ops.items };
}

impl MemHost {
    /// A host that holds these files, each path once, for sure. The calls whose ordinals are in `failing`, counted from 0
    /// over all calls, fail. Where it is `taken`, another run has the store, and `claim` answers false.
    pub fn new(
        alloc: Global,
        base: Vec<(SafePath, Bytes)>,
        failing: Vec<u64>,
        taken: bool,
    ) -> Result<MemHost, AllocError>
        requires { IsOnce base.items }
        ensures { IfOk result (λ m. m ≡ record { base = base.items; ops = []; taken = taken; calls = record { failing = failing.items; next = 0; faults = 0 } }) }
    {
        let table = copy_entries(alloc, &base)?;
        Ok(MemHost {
            alloc,
            base,
            ops: Vec::new(alloc),
            table,
            taken,
            calls: Ordinals::new(failing),
        })
    }

    /// All operations so far, the oldest first.
    pub fn log(&self) -> &[Op]
        ensures { result.now ≡ self.now.ops }
    {
        self.ops.as_slice()
    }

    /// How many calls have failed so far.
    pub fn faults(&self) -> u64
        ensures { result ≡ self.now.calls.faults }
    {
        self.calls.faults()
    }

    /// The image that a choice takes of the first `upto` operations: files that a stop after them may leave, in the order
    /// of their paths' bytes. Choice 0 takes the live value at each path. Choice 1 takes the value at the last barrier, or
    /// the one at first where there was no barrier, where a stop may leave it, and nothing elsewhere. A choice k from 2 on
    /// takes choice 0's value at the i-th path where bit `i % 16` of k is set, and choice 1's elsewhere; the paths, counted
    /// from 0 by bytes, are those that the first files have or one of these operations is on.
    pub fn image(&self, upto: usize, choice: u64) -> Result<Vec<(SafePath, Bytes)>, AllocError>
        requires { upto ≤ length self.now.ops }
        ensures { IfOk result (λ image. IsChoice (record { base = files_of self.now.base; ops = take upto self.now.ops }) choice image.items) }
    {
        image_of(self.alloc, &self.base, &self.ops[..upto], choice)
    }

    /// Counts a call, and says whether it is to fail.
    fn fails(&mut self) -> bool
        ensures due { result ≡ is_due self.old.calls }
        ensures state { self.new ≡ stood self.old }
        ensures later { self.old.calls.faults ≤ self.new.calls.faults }
        ensures rose { IsTrue result → Rose self.old.calls.faults self.new.calls.faults }
    {
        self.calls.fails()
    }

    /// Does an operation.
    fn enact(&mut self, op: Op) -> Result<(), HostErr>
        ensures ok { OnOk result (self.new ≡ record self.old { ops = self.old.ops ++ op ∷ [] }) }
        ensures err { OnErr result (self.new ≡ self.old) }
        ensures memory { IsErrOf result Failed → ⊥ }
    {
        self.ops.reserve(1)?;
        apply(self.alloc, &mut self.table, &op)?;
        self.ops.push(op).unwrap();
        Ok(())
    }
}

impl Host for MemHost {
    ghost log = { λ m. Some (log_of m) };

    ghost faults = { λ m. m.calls.faults };

    fn claim(&mut self) -> Result<bool, HostErr>
        ensures got { IfOk result (λ got. got ≡ not self.old.taken) }
        ensures log { IfOk result (λ got. Added (Claim got ∷ []) (Some (log_of self.old)) (Some (log_of self.new))) }
        ensures err { OnErr result (Added [] (Some (log_of self.old)) (Some (log_of self.new))) }
        ensures cause { HasCause self.old.calls.faults self.new.calls.faults result }
        ensures state { MemDoes (Claim (not self.old.taken)) result self.old self.new }
    {
        if self.fails() {
            return Err(HostErr::Failed);
        }
        let got = !self.taken;
        self.enact(Op::Claim(got))?;
        Ok(got)
    }

    fn length(&mut self, path: &SafePath) -> Result<Option<u64>, HostErr>
        ensures length { IfOk result (λ n. n ≡ option_map length (live_of (log_of self.old) path.now)) }
        ensures log { log_of self.new ≡ log_of self.old }
        ensures cause { HasCause self.old.calls.faults self.new.calls.faults result }
        ensures turn { FailsInTurn Failed result self.old.calls }
        ensures state { self.new ≡ stood self.old }
        ensures memory { IsErrOf result OutOfMemory → ⊥ }
    {
        if self.fails() {
            return Err(HostErr::Failed);
        }
        Ok(length_of(&self.table, path))
    }

    fn read_at(&mut self, path: &SafePath, at: u64, out: &mut [u8]) -> Result<usize, HostErr>
        ensures bound { IfOk result (λ n. n ≤ length out.new) }
        ensures read { IfOk result (λ n. Reads (live_of (log_of self.old) path.now) at out.new n) }
        ensures log { log_of self.new ≡ log_of self.old }
        ensures cause { HasCause self.old.calls.faults self.new.calls.faults result }
        ensures turn { FailsInTurn Failed result self.old.calls }
        ensures state { self.new ≡ stood self.old }
        ensures memory { IsErrOf result OutOfMemory → ⊥ }
    {
        if self.fails() {
            return Err(HostErr::Failed);
        }
        Ok(read_file(&self.table, path, at, out))
    }

    fn names(&mut self, folder: &SafePath) -> Result<Vec<SafePath>, HostErr>
        ensures names { IfOk result (λ v. NamesOf folder.now (live_of (log_of self.old)) v.items) }
        ensures log { log_of self.new ≡ log_of self.old }
        ensures cause { HasCause self.old.calls.faults self.new.calls.faults result }
        ensures turn { FailsInTurn Failed result self.old.calls }
        ensures state { self.new ≡ stood self.old }
    {
        if self.fails() {
            return Err(HostErr::Failed);
        }
        Ok(names_below(self.alloc, &self.table, folder)?)
    }

    fn create(&mut self, path: &SafePath) -> Result<(), HostErr>
        ensures log { Does (Create path.now) result (Some (log_of self.old)) (Some (log_of self.new)) }
        ensures cause { HasCause self.old.calls.faults self.new.calls.faults result }
        ensures state { MemDoes (Create path.now) result self.old self.new }
    {
        if self.fails() {
            return Err(HostErr::Failed);
        }
        let path = path.copy(self.alloc)?;
        self.enact(Op::Create(path))
    }

    fn append(&mut self, path: &SafePath, bytes: &[u8]) -> Result<(), HostErr>
        ensures log { Does (Append path.now bytes.now) result (Some (log_of self.old)) (Some (log_of self.new)) }
        ensures cause { HasCause self.old.calls.faults self.new.calls.faults result }
        ensures state { MemDoes (Append path.now bytes.now) result self.old self.new }
    {
        if self.fails() {
            let path = path.copy(self.alloc)?;
            let half = Bytes::new(self.alloc, &bytes[..bytes.len() / 2])?;
            self.enact(Op::Append(path, half))?;
            return Err(HostErr::Failed);
        }
        let path = path.copy(self.alloc)?;
        let bytes = Bytes::new(self.alloc, bytes)?;
        self.enact(Op::Append(path, bytes))
    }

    fn sync(&mut self, path: &SafePath) -> Result<(), HostErr>
        ensures log { Does (Sync path.now) result (Some (log_of self.old)) (Some (log_of self.new)) }
        ensures cause { HasCause self.old.calls.faults self.new.calls.faults result }
        ensures state { MemDoes (Sync path.now) result self.old self.new }
    {
        if self.fails() {
            return Err(HostErr::Failed);
        }
        let path = path.copy(self.alloc)?;
        self.enact(Op::Sync(path))
    }

    fn rename(&mut self, from: &SafePath, to: &SafePath) -> Result<(), HostErr>
        ensures log { Does (Rename from.now to.now) result (Some (log_of self.old)) (Some (log_of self.new)) }
        ensures cause { HasCause self.old.calls.faults self.new.calls.faults result }
        ensures state { MemDoes (Rename from.now to.now) result self.old self.new }
    {
        if self.fails() {
            return Err(HostErr::Failed);
        }
        let from = from.copy(self.alloc)?;
        let to = to.copy(self.alloc)?;
        self.enact(Op::Rename(from, to))
    }

    fn remove(&mut self, path: &SafePath) -> Result<(), HostErr>
        ensures log { Does (Remove path.now) result (Some (log_of self.old)) (Some (log_of self.new)) }
        ensures cause { HasCause self.old.calls.faults self.new.calls.faults result }
        ensures state { MemDoes (Remove path.now) result self.old self.new }
    {
        if self.fails() {
            return Err(HostErr::Failed);
        }
        let path = path.copy(self.alloc)?;
        self.enact(Op::Remove(path))
    }

    fn barrier(&mut self) -> Result<(), HostErr>
        ensures log { Does Barrier result (Some (log_of self.old)) (Some (log_of self.new)) }
        ensures cause { HasCause self.old.calls.faults self.new.calls.faults result }
        ensures state { MemDoes Barrier result self.old self.new }
    {
        if self.fails() {
            return Err(HostErr::Failed);
        }
        self.enact(Op::Barrier)
    }

    fn say(&mut self, bytes: &[u8]) -> Result<(), HostErr>
        ensures log { Does (Say bytes.now) result (Some (log_of self.old)) (Some (log_of self.new)) }
        ensures cause { HasCause self.old.calls.faults self.new.calls.faults result }
        ensures state { MemDoes (Say bytes.now) result self.old self.new }
    {
        if self.fails() {
            let half = Bytes::new(self.alloc, &bytes[..bytes.len() / 2])?;
            self.enact(Op::Say(half))?;
            return Err(HostErr::Failed);
        }
        let bytes = Bytes::new(self.alloc, bytes)?;
        self.enact(Op::Say(bytes))
    }
}
