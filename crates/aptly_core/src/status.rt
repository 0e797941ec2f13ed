//! How a call ends.
ghost use Rattle.std.specs.Prelude.{◌≡◌};
ghost use Rattle.aptly_core.specs.Status.{code_of};

use catalogue_root::Damage;
use machine_state::Refusal;

/// How a call ended.
#[derive(Drop)]
pub enum Status {
    /// Every command was done.
    Done,
    /// The commands before this one were done, and this one was refused.
    Refused(Refusal),
    /// The words spell no commands: the word at this index, from 0, can't stand there, or words are missing there.
    Usage(u64),
    /// A call of the host failed.
    HostFault,
    /// A call of the inbox failed.
    InboxFault,
    /// Memory was wanting.
    OutOfMemory,
    /// What the store holds stands for no state.
    Damaged(Damage),
    /// Another run has the store.
    Busy,
}

impl Status {
    /// The exit code of the program.
    pub fn code(&self) -> u8
        ensures { result ≡ code_of self.now }
    {
        match self {
            Status::Done => 0,
            Status::Refused(_) => 1,
            Status::Usage(_) => 2,
            Status::HostFault => 3,
            Status::InboxFault => 4,
            Status::OutOfMemory => 5,
            Status::Damaged(_) => 6,
            Status::Busy => 7,
        }
    }
}
