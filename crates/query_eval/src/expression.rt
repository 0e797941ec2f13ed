//! One regular expression of a query.

ghost use Rattle.std.specs.Prelude.{◌≡◌, ◌⊎◌, ◌≤◌, IfOk, OnOk, MatchResult, Some};
ghost use Rattle.regex.specs.Strings.{regex_source};
ghost use Rattle.query_eval.specs.declared.patterns.PatternErr.TheVariants.{OutOfMemory};
ghost use Rattle.ap_host.specs.Calls.{Rose};
ghost use Rattle.query_eval.specs.Build.{IsNoPattern, IsReadFrom};
ghost use Rattle.query_eval.specs.Conditions.{IsPattern};
ghost use Rattle.query_eval.specs.Truth.{is_found};

use crate::patterns::{PatternErr, Patterns};
use regex::Regex;
use std::alloc::{AllocError, Global};
use std::marker::Model;
use std::rc::Rc;

/// A regular expression, which is what the grammar reads in its text. Its copies share what was built. Contracts see the
/// text.
#[derive(Drop)]
pub(crate) struct Expression {
    regex: Rc<Regex>,
}

impl Model for Expression {
    ghost use Rattle.std.specs.Prelude.{ℕ, List};
    ghost use Rattle.regex.specs.Strings.{regex_source};
    ghost use Rattle.query_eval.specs.Build.{IsReadFrom};

    ghost Value = { List ℕ };

    ghost view = { λ e. regex_source e.regex.value };

    ghost invariant = { λ e. IsReadFrom (regex_source e.regex.value) e.regex.value };
}

/// The expression that was built of its text.
fn shared(alloc: Global, regex: Regex) -> Result<Expression, PatternErr>
    requires { IsReadFrom (regex_source regex) regex }
    ensures { MatchResult result (λ made. made ≡ regex_source regex) (λ error. error ≡ OutOfMemory) }
{
    match Rc::new(alloc, regex) {
        Ok(regex) => Ok(Expression { regex }),
        Err(_) => Err(PatternErr::OutOfMemory),
    }
}

impl Expression {
    /// Has the expression built that a text is.
    pub(crate) fn build<M: Patterns>(
        alloc: Global,
        patterns: &mut M,
        text: &str,
    ) -> Result<Expression, PatternErr>
        ensures same { IfOk result (λ made. made ≡ text.now) }
        ensures read { OnOk result (IsPattern text.now) }
        ensures syntax { result ≡ Err PatternErr.Syntax → IsNoPattern text.now }
        ensures size { result ≡ Err PatternErr.Size → Rose (M.refusals patterns.old) (M.refusals patterns.new) }
        ensures named { result ≡ Err PatternErr.Size → M.refused patterns.new ≡ Some text.now }
        ensures never_falls { M.refusals patterns.old ≤ M.refusals patterns.new }
        ensures kept { (result ≡ Err PatternErr.Size) ⊎ (M.refused patterns.new ≡ M.refused patterns.old) }
    {
        match patterns.build(text) {
            Ok(regex) => shared(alloc, regex),
            Err(e) => Err(e),
        }
    }

    /// The same once more. Fails only for want of memory.
    pub(crate) fn copy(&self) -> Result<Expression, AllocError>
        ensures { IfOk result (λ made. made ≡ self.now) }
    {
        Ok(Expression {
            regex: self.regex.clone()?,
        })
    }

    /// Whether the expression is found somewhere in the value.
    pub(crate) fn is_found(&self, alloc: Global, value: &str) -> Result<bool, AllocError>
        ensures { IfOk result (λ b. b ≡ is_found self.now value.now) }
    {
        let mut matcher = self.regex.matcher(alloc)?;
        Ok(matcher.is_match(value))
    }
}
