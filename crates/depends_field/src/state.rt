ghost use Rattle.std.specs.Prelude.{◌≡◌, ◌<◌, IfOk, length};
ghost use Rattle.std.specs.Option.{option_map};
ghost use Rattle.depends_field.specs.Reading.{start, is_start as starts, parted as parted_read, barred as barred_read, stepped, finished, phased, rested as rested_phase, advanced as advanced_phase};

use crate::alternative::{Alternative, Group};
use crate::phase::{Kind, Phase, advanced, ended, rested};
use crate::pieces::is_blank;
use std::alloc::{AllocError, Global};
use std::marker::Model;

/// What was read of a field so far.
#[derive(Drop)]
pub struct State {
    groups: Vec<Group>,
    alternatives: Vec<Alternative>,
    phase: Phase,
}

impl Model for State {
    ghost use Rattle.depends_field.specs.Reading.{Read};

    ghost Value = { Read };

    ghost view = { λ s. record { groups = s.groups.items; alternatives = s.alternatives.items; phase = s.phase } };
}

fn is_start(phase: &Phase) -> bool
    ensures { result ≡ starts phase.now }
{
    match phase {
        Phase::Start => true,
        _ => false,
    }
}

impl State {
    /// Nothing yet.
    pub fn new(alloc: Global) -> State
        ensures { result ≡ start }
    {
        State {
            groups: Vec::new(alloc),
            alternatives: Vec::new(alloc),
            phase: Phase::Start,
        }
    }

    /// Behind a comma.
    #[tactic(auto, unfolding(crate::specs::Reading::parted))]
    fn parted(self, alloc: Global) -> Result<Option<State>, AllocError>
        ensures { IfOk result (λ state. state ≡ parted_read self) }
    {
        let State {
            mut groups,
            mut alternatives,
            phase,
        } = self;
        if is_start(&phase) {
            return Ok(Some(State {
                groups,
                alternatives,
                phase,
            }));
        }
        let Some(alternative) = ended(phase) else {
            return Ok(None);
        };
        alternatives.push(alternative)?;
        groups.push(Group { alternatives })?;
        Ok(Some(State {
            groups,
            alternatives: Vec::new(alloc),
            phase: Phase::Start,
        }))
    }

    /// Behind a bar.
    fn barred(self, kind: Kind) -> Result<Option<State>, AllocError>
        ensures { IfOk result (λ state. state ≡ barred_read kind self) }
    {
        let State {
            groups,
            mut alternatives,
            phase,
        } = self;
        match kind {
            Kind::Provides => Ok(None),
            Kind::Depends => {
                let Some(alternative) = ended(phase) else {
                    return Ok(None);
                };
                alternatives.push(alternative)?;
                Ok(Some(State {
                    groups,
                    alternatives,
                    phase: Phase::Barred,
                }))
            }
        }
    }

    /// Behind blanks.
    fn rested(self) -> Option<State>
        ensures { result ≡ phased self (rested_phase self.phase) }
    {
        let State {
            groups,
            alternatives,
            phase,
        } = self;
        match rested(phase) {
            Some(phase) => Some(State {
                groups,
                alternatives,
                phase,
            }),
            None => None,
        }
    }

    /// Behind any other piece.
    fn advanced(self, alloc: Global, kind: Kind, piece: &[u8]) -> Result<Option<State>, AllocError>
        ensures { IfOk result (λ state. state ≡ phased self (advanced_phase kind self.phase piece.now)) }
    {
        let State {
            groups,
            alternatives,
            phase,
        } = self;
        match advanced(alloc, kind, phase, piece)? {
            Some(phase) => Ok(Some(State {
                groups,
                alternatives,
                phase,
            })),
            None => Ok(None),
        }
    }

    /// Behind one more piece, if it may stand there.
    #[tactic(auto, unfolding(crate::specs::Reading::stepped))]
    pub fn step(self, alloc: Global, kind: Kind, piece: &[u8]) -> Result<Option<State>, AllocError>
        requires { 0 < length piece.now }
        ensures { IfOk result (λ state. state ≡ stepped kind self piece.now) }
    {
        if piece == b",".as_slice() {
            return self.parted(alloc);
        }
        if piece == b"|".as_slice() {
            return self.barred(kind);
        }
        if is_blank(piece[0]) {
            return Ok(self.rested());
        }
        self.advanced(alloc, kind, piece)
    }

    /// The groups, if the field may end here.
    #[tactic(auto, unfolding(crate::specs::Reading::finished))]
    pub fn finish(self, alloc: Global) -> Result<Option<Vec<Group>>, AllocError>
        ensures { IfOk result (λ groups. option_map (λ v. v.items) groups ≡ finished self) }
    {
        match self.parted(alloc)? {
            Some(State { groups, .. }) => Ok(Some(groups)),
            None => Ok(None),
        }
    }
}
