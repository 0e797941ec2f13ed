//! The flags that say which dependencies are followed.
ghost use Rattle.std.specs.Prelude.{◌≡◌};
ghost use Rattle.command_value.specs.Plain.{follows, plain_follow};

use crate::command::Follow;

/// Whether a flag of following is written, `-with-deps` among them. It takes no memory.
pub fn is_following(with_deps: &Option<bool>, follow: &Follow) -> bool
    ensures { result ≡ follows with_deps.now (plain_follow follow.now) }
{
    with_deps.is_some()
        || follow.architectures.is_some()
        || follow.recommends.is_some()
        || follow.suggests.is_some()
}
