//! What a command comes to.
ghost use Rattle.std.specs.Prelude.{◌≡◌, None, Some, IfOk};
ghost use Rattle.reply_text.specs.Refusals.{refusal_line as line_of};

use control_stanza::Text;
use machine_state::{Refusal, State};
use reply_text::refusal_line;
use std::alloc::{AllocError, Global};

/// What a command comes to.
#[derive(Drop)]
pub struct Outcome {
    /// The new state, or none where the state stays as it was.
    pub state: Option<State>,
    /// What is said: whole lines, at least one.
    pub reply: Text,
    /// Why the command was refused, if it was.
    pub refusal: Option<Refusal>,
}

fn copy_state(alloc: Global, state: &Option<State>) -> Result<Option<State>, AllocError>
    ensures { IfOk result (λ made. made ≡ state.now) }
{
    match state {
        None => Ok(None),
        Some(state) => Ok(Some(state.copy(alloc)?)),
    }
}

fn copy_refusal(alloc: Global, refusal: &Option<Refusal>) -> Result<Option<Refusal>, AllocError>
    ensures { IfOk result (λ made. made ≡ refusal.now) }
{
    match refusal {
        None => Ok(None),
        Some(refusal) => Ok(Some(refusal.copy(alloc)?)),
    }
}

impl Outcome {
    /// The same once more. Fails only for want of memory.
    pub fn copy(&self, alloc: Global) -> Result<Outcome, AllocError>
        ensures { IfOk result (λ made. made ≡ self.now) }
    {
        Ok(Outcome {
            state: copy_state(alloc, &self.state)?,
            reply: self.reply.copy(alloc)?,
            refusal: copy_refusal(alloc, &self.refusal)?,
        })
    }

    /// That of a refused command: its line is said, and the state stays as it was. Fails only for want of memory.
    pub fn refused(alloc: Global, refusal: Refusal) -> Result<Outcome, AllocError>
        ensures { IfOk result (λ outcome. outcome ≡ record { state = None; reply = line_of refusal; refusal = Some refusal }) }
    {
        Ok(Outcome {
            state: None,
            reply: refusal_line(alloc, &refusal)?,
            refusal: Some(refusal),
        })
    }
}
