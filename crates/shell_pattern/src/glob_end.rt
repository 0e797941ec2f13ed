//! Shell patterns, and what their first elements leave of them.

ghost use Rattle.std.specs.Prelude.{◌≡◌, ◌≢◌, ◌∷◌, IsTrue, IsFalse};
ghost use Rattle.std.specs.Str.{chars};
ghost use Rattle.shell_pattern.specs.GlobReading.{has_class_end};

use crate::class::behind_class;

/// A shell pattern or an end of one, and whether it is known that no class in it ends: then no `[` is looked at twice.
#[derive(Clone, Copy)]
pub(crate) struct GlobEnd<'p> {
    pub(crate) text: &'p str,
    pub(crate) is_open: bool,
    pub(crate) ghost open: { IsTrue is_open → IsFalse (has_class_end (chars text.now)) },
}

impl<'p> GlobEnd<'p> {
    /// The pattern, looked through for the end of a class.
    pub(crate) fn new(text: &'p str) -> GlobEnd<'p>
        ensures { result.text.now ≡ text.now }
    {
        let is_open = behind_class(false, text).is_none();
        GlobEnd { text, is_open }
    }

    /// An end of which nothing is known.
    pub(crate) fn unknown(text: &'p str) -> GlobEnd<'p>
        ensures { result.text.now ≡ text.now }
    {
        GlobEnd {
            text,
            is_open: false,
        }
    }

    /// The same end, looked through for the end of a class unless it is known to have none.
    pub(crate) fn looked_through(self) -> GlobEnd<'p>
        ensures { result.text.now ≡ self.entry.text.now }
    {
        if self.is_open {
            return self;
        }
        GlobEnd::new(self.text)
    }

    /// What follows a character that isn't `\\`.
    #[tactic(auto, using(crate::proofs::EndFacts::open_next))]
    pub(crate) fn behind(c: char, text: &'p str, is_open: bool) -> GlobEnd<'p>
        requires other { c ≢ 92 }
        requires open { IsTrue is_open → IsFalse (has_class_end (c ∷ chars text.now)) }
        ensures { result.text.now ≡ text.now }
    {
        let _ = c;
        GlobEnd { text, is_open }
    }

    /// What follows a character that a `\\` stands before.
    pub(crate) fn behind_escaped(c: char, text: &'p str, is_open: bool) -> GlobEnd<'p>
        requires { IsTrue is_open → IsFalse (has_class_end (92 ∷ c ∷ chars text.now)) }
        ensures { result.text.now ≡ text.now }
    {
        let _ = c;
        GlobEnd { text, is_open }
    }
}
