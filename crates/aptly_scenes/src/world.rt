//! What a scene has.
use crate::call::{Call, Plan, Planned, make_call};
use crate::files::Files;
use crate::trouble::Trouble;
use ap_host::MemHost;
use command_words::Words;
use std::alloc::{AllocError, Global};

/// What a scene has.
#[derive(Drop)]
pub(crate) struct World {
    pub(crate) alloc: Global,
    /// The moment of the calls, in seconds since 1970.
    pub(crate) now: i64,
    pub(crate) store: Files,
    pub(crate) inbox: Files,
    /// What is planned for the next call.
    pub(crate) plan: Plan,
    /// The last call's host; before the first call one without operations over no files.
    pub(crate) last: MemHost,
}

impl World {
    /// The beginning of a scene.
    pub(crate) fn new(alloc: Global) -> Result<World, AllocError> {
        let last = MemHost::new(alloc, Vec::new(alloc), Vec::new(alloc), false)?;
        Ok(World {
            alloc,
            now: 0,
            store: Files::new(alloc),
            inbox: Files::new(alloc),
            plan: Plan::new(alloc),
            last,
        })
    }

    /// A call by itself over this store. The scene stays as it is.
    pub(crate) fn aside(
        &self,
        words: &Words,
        store: &Files,
        plan: Planned<'_>,
    ) -> Result<Call, Trouble> {
        make_call(self.alloc, words, self.now, store, &self.inbox, plan)
    }

    /// The next call, as it is planned; nothing is planned any more then.
    pub(crate) fn forward(&mut self, words: &Words) -> Result<Call, Trouble> {
        let made = self.aside(words, &self.store, self.plan.as_planned());
        self.plan = Plan::new(self.alloc);
        made
    }
}
