//! Who builds regular expressions.

ghost use Rattle.std.specs.Prelude.{◌≡◌, ◌⊎◌, ◌≤◌, ℕ, List, IfOk, Option, Some, None, string_bytes, option_map, IsTrue, IsFalse};
ghost use Rattle.ap_host.specs.Calls.{Rose};
ghost use Rattle.query_eval.specs.Build.{IsReadFrom, IsNoPattern, one_more, is_due};
ghost use Rattle.query_eval.specs.Builders.{IsCounted, IsBuilt, IsDueAnswer};

use regex::Regex;
use std::alloc::Global;

/// Why a regular expression wasn't built.
#[derive(Clone, Copy, PartialEq, Eq, Debug)]
pub enum PatternErr {
    /// The text is no pattern, or is nested too deep.
    Syntax,
    /// The pattern is too large once it is built.
    Size,
    /// There was no memory.
    OutOfMemory,
}

impl PatternErr {
    /// The same error once more.
    pub fn copy(&self) -> PatternErr
        ensures { result ≡ self.now }
    {
        *self
    }
}

/// Builds regular expressions, and counts those that it refuses for their size.
pub trait Patterns {
    // How many patterns were refused for their size.
    ghost refusals: { Self → ℕ };

    // The text of the last such pattern, if there was one.
    ghost refused: { Self → Option (List ℕ) };

    /// Builds the regular expression that a text is.
    fn build(&mut self, text: &str) -> Result<Regex, PatternErr>
        // The expression is what the grammar reads from the text.
        ensures read { IfOk result (IsReadFrom text.now) }
        ensures syntax { result ≡ Err PatternErr.Syntax → IsNoPattern text.now }
        ensures size { result ≡ Err PatternErr.Size → Rose (refusals self.old) (refusals self.new) }
        ensures named { result ≡ Err PatternErr.Size → refused self.new ≡ Some text.now }
        ensures never_falls { refusals self.old ≤ refusals self.new }
        // No other answer changes which text was refused.
        ensures kept { (result ≡ Err PatternErr.Size) ⊎ (refused self.new ≡ refused self.old) };
}

/// The patterns that the crate `regex` builds.
#[derive(Drop)]
pub struct RegexPatterns {
    alloc: Global,
    refusals: u64,
    refused: Option<String>,
}

impl RegexPatterns {
    /// A builder that has refused nothing.
    pub fn new(alloc: Global) -> RegexPatterns
        ensures refusals { result.refusals ≡ 0 }
        ensures refused { result.refused ≡ Option.None }
    {
        RegexPatterns {
            alloc,
            refusals: 0,
            refused: None,
        }
    }

    /// Counts one more refusal, of this text. The count stands still at its type's end.
    fn refuse(&mut self, text: &str) -> PatternErr
        ensures rose { result ≡ PatternErr.Size → Rose self.old.refusals self.new.refusals }
        ensures named { result ≡ PatternErr.Size → option_map string_bytes self.new.refused ≡ Some text.now }
        ensures never_falls { self.old.refusals ≤ self.new.refusals }
        ensures kept { (result ≡ PatternErr.Size) ⊎ (self.new.refused ≡ self.old.refused) }
        ensures syntax { (result ≡ PatternErr.Size) ⊎ (result ≡ PatternErr.OutOfMemory) }
        ensures counted { result ≡ PatternErr.Size → IsCounted text.now self.old self.new }
        ensures unchanged { (result ≡ PatternErr.Size) ⊎ (self.new ≡ self.old) }
    {
        let Ok(kept) = String::from_str(self.alloc, text) else {
            return PatternErr::OutOfMemory;
        };
        self.refused = Some(kept);
        self.refusals = self.refusals.saturating_add(1);
        PatternErr::Size
    }
}

impl Patterns for RegexPatterns {
    ghost use Rattle.std.specs.Prelude.{option_map, string_bytes};

    ghost refusals = { λ p. p.refusals };

    ghost refused = { λ p. option_map string_bytes p.refused };

    fn build(&mut self, text: &str) -> Result<Regex, PatternErr>
        ensures read { IfOk result (IsReadFrom text.now) }
        ensures syntax { result ≡ Err PatternErr.Syntax → IsNoPattern text.now }
        ensures size { result ≡ Err PatternErr.Size → Rose self.old.refusals self.new.refusals }
        ensures named { result ≡ Err PatternErr.Size → option_map string_bytes self.new.refused ≡ Some text.now }
        ensures never_falls { self.old.refusals ≤ self.new.refusals }
        ensures kept { (result ≡ Err PatternErr.Size) ⊎ (option_map string_bytes self.new.refused ≡ option_map string_bytes self.old.refused) }
        // Only a text that is a pattern is refused for its size, and only then anything changes.
        ensures built { IsBuilt text.now self.old self.new result }
    {
        match Regex::new(self.alloc, text) {
            Ok(regex) => Ok(regex),
            Err(regex::Error::Syntax(_)) => Err(PatternErr::Syntax),
            Err(regex::Error::CompiledTooBig) => Err(self.refuse(text)),
            Err(_) => Err(PatternErr::OutOfMemory),
        }
    }
}

/// The same, where chosen calls refuse their pattern for its size: those whose ordinals, counted from 0, are listed.
#[derive(Drop)]
pub struct MemPatterns {
    patterns: RegexPatterns,
    failing: Vec<u64>,
    calls: u64,
}

impl MemPatterns {
    /// A builder that has refused nothing.
    pub fn new(alloc: Global, failing: Vec<u64>) -> MemPatterns
        ensures refusals { result.patterns.refusals ≡ 0 }
        ensures refused { result.patterns.refused ≡ Option.None }
        ensures calls { result.calls ≡ 0 }
        ensures failing { result.failing ≡ failing }
    {
        MemPatterns {
            patterns: RegexPatterns::new(alloc),
            failing,
            calls: 0,
        }
    }

    /// Whether the next call fails. The ordinal stays at its type's end, where no call fails.
    #[tactic(auto, unfolding(crate::specs::Build::is_due))]
    fn fails_next(&mut self) -> bool
        ensures patterns { self.new.patterns ≡ self.old.patterns }
        ensures due { result ≡ is_due self.old.failing.items self.old.calls }
        ensures calls { self.new.calls ≡ one_more self.old.calls }
        ensures failing { self.new.failing ≡ self.old.failing }
    {
        if self.calls == u64::MAX {
            return false;
        }
        let fails = self.failing.contains(&self.calls);
        self.calls += 1;
        fails
    }
}

impl Patterns for MemPatterns {
    ghost use Rattle.std.specs.Prelude.{option_map, string_bytes};

    ghost refusals = { λ p. p.patterns.refusals };

    ghost refused = { λ p. option_map string_bytes p.patterns.refused };

    fn build(&mut self, text: &str) -> Result<Regex, PatternErr>
        ensures read { IfOk result (IsReadFrom text.now) }
        ensures syntax { result ≡ Err PatternErr.Syntax → IsNoPattern text.now }
        ensures size { result ≡ Err PatternErr.Size → Rose self.old.patterns.refusals self.new.patterns.refusals }
        ensures named { result ≡ Err PatternErr.Size → option_map string_bytes self.new.patterns.refused ≡ Some text.now }
        ensures never_falls { self.old.patterns.refusals ≤ self.new.patterns.refusals }
        ensures kept { (result ≡ Err PatternErr.Size) ⊎ (option_map string_bytes self.new.patterns.refused ≡ option_map string_bytes self.old.patterns.refused) }
        // A call whose turn it is refuses the pattern, unless memory runs out.
        ensures due { IsTrue (is_due self.old.failing.items self.old.calls) → IsDueAnswer text.now self.old.patterns self.new.patterns result }
        // Every other call answers as `regex` does.
        ensures undue { IsFalse (is_due self.old.failing.items self.old.calls) → IsBuilt text.now self.old.patterns self.new.patterns result }
        ensures calls { self.new.calls ≡ one_more self.old.calls }
        ensures failing { self.new.failing ≡ self.old.failing }
    {
        if self.fails_next() {
            return Err(self.patterns.refuse(text));
        }
        self.patterns.build(text)
    }
}
