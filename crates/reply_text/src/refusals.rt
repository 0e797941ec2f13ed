//! The lines of refusals.
ghost use Rattle.std.specs.Prelude.{◌≡◌, ◌++◌, IfOk, string_bytes, codes};
ghost use Rattle.std.specs.Fmt.{decimal};
ghost use Rattle.machine_state.specs.Limits.{limit_number};
ghost use Rattle.reply_text.specs.Words.{kind_word as word_of_kind, limit_word as word_of_limit, what_word as word_of_fact, prefix_word as word_of_prefix, shown as shown_text};
ghost use Rattle.reply_text.specs.Refusals.{refusal_text as text_of_refusal, refusal_line as line_of_refusal, usage_line as line_of_usage};

use crate::put::whole_line;
use crate::words::{limit_word, place_text, shown, what_word};
use ap_text::{Name, SafePath};
use control_stanza::Text;
use digest_set::{Digits, What};
use machine_state::{Kind, Limit, Refusal, kind_word, prefix_word};
use std::alloc::{AllocError, Global};

fn bad_name(alloc: Global, text: &Text) -> Result<String, AllocError>
    ensures { IfOk result (λ made. string_bytes made ≡ codes "bad name " ++ shown_text text.now) }
{
    let shown = shown(alloc, text.as_str())?;
    format!(in alloc; "bad name {}", shown.as_str())
}

/// That a named thing is there, or isn't.
fn named(alloc: Global, kind: Kind, name: &Name, how: &str) -> Result<String, AllocError>
    ensures { IfOk result (λ made. string_bytes made ≡ word_of_kind kind ++ (codes " " ++ (name.now ++ how.now))) }
{
    format!(in alloc; "{} {}{}", kind_word(kind), name.as_str(), how)
}

fn bad_query(alloc: Global, query: u64, place: u64) -> Result<String, AllocError>
    ensures { IfOk result (λ made. string_bytes made ≡ codes "bad query " ++ (decimal query ++ (codes " at " ++ decimal place))) }
{
    format!(in alloc; "bad query {} at {}", query, place)
}

fn bad_pattern(alloc: Global, query: u64, test: u64) -> Result<String, AllocError>
    ensures { IfOk result (λ made. string_bytes made ≡ codes "bad pattern " ++ (decimal test ++ (codes " in query " ++ decimal query))) }
{
    format!(in alloc; "bad pattern {} in query {}", test, query)
}

fn pattern_too_large(alloc: Global, query: u64, test: u64) -> Result<String, AllocError>
    ensures { IfOk result (λ made. string_bytes made ≡ codes "pattern " ++ (decimal test ++ (codes " in query " ++ (decimal query ++ codes " too large")))) }
{
    format!(in alloc; "pattern {} in query {} too large", test, query)
}

fn not_updated(alloc: Global, name: &Name) -> Result<String, AllocError>
    ensures { IfOk result (λ made. string_bytes made ≡ codes "mirror " ++ (name.now ++ codes " was never updated")) }
{
    format!(in alloc; "mirror {} was never updated", name.as_str())
}

fn in_use(
    alloc: Global,
    kind: Kind,
    name: &Name,
    prefix: &Option<SafePath>,
    dist: &Name,
) -> Result<String, AllocError>
    ensures { IfOk result (λ made. string_bytes made ≡ word_of_kind kind ++ (codes " " ++ (name.now ++ (codes " is used by " ++ (word_of_prefix prefix.now ++ (codes " " ++ dist.now)))))) }
{
    let user = place_text(alloc, prefix, dist)?;
    format!(in alloc;
        "{} {} is used by {}",
        kind_word(kind),
        name.as_str(),
        user.as_str()
    )
}

fn published(alloc: Global, prefix: &Option<SafePath>, dist: &Name) -> Result<String, AllocError>
    ensures { IfOk result (λ made. string_bytes made ≡ word_of_prefix prefix.now ++ (codes " " ++ (dist.now ++ codes " is published already"))) }
{
    format!(in alloc;
        "{} {} is published already",
        prefix_word(prefix),
        dist.as_str()
    )
}

fn not_published(
    alloc: Global,
    prefix: &Option<SafePath>,
    dist: &Name,
) -> Result<String, AllocError>
    ensures { IfOk result (λ made. string_bytes made ≡ codes "no such publication " ++ (word_of_prefix prefix.now ++ (codes " " ++ dist.now))) }
{
    format!(in alloc;
        "no such publication {} {}",
        prefix_word(prefix),
        dist.as_str()
    )
}

fn absent(alloc: Global, path: &SafePath) -> Result<String, AllocError>
    ensures { IfOk result (λ made. string_bytes made ≡ codes "input " ++ (path.now ++ codes " absent")) }
{
    format!(in alloc; "input {} absent", path.as_str())
}

fn malformed(alloc: Global, path: &SafePath, line: u64) -> Result<String, AllocError>
    ensures { IfOk result (λ made. string_bytes made ≡ codes "input " ++ (path.now ++ (codes " malformed at line " ++ decimal line))) }
{
    format!(in alloc; "input {} malformed at line {}", path.as_str(), line)
}

fn mismatch(
    alloc: Global,
    path: &SafePath,
    what: What,
    said: &Digits,
    found: &Digits,
) -> Result<String, AllocError>
    ensures { IfOk result (λ made. string_bytes made ≡ codes "input " ++ (path.now ++ (codes " has " ++ (word_of_fact what ++ (codes " " ++ (found.now ++ (codes ", not " ++ said.now))))))) }
{
    format!(in alloc;
        "input {} has {} {}, not {}",
        path.as_str(),
        what_word(what),
        found.as_str(),
        said.as_str()
    )
}

fn over(alloc: Global, limit: Limit) -> Result<String, AllocError>
    ensures { IfOk result (λ made. string_bytes made ≡ codes "over the limit of " ++ (decimal (limit_number limit) ++ (codes " " ++ word_of_limit limit))) }
{
    over_number(alloc, limit.number(), limit_word(limit))
}

fn over_number(alloc: Global, number: u64, word: &str) -> Result<String, AllocError>
    ensures { IfOk result (λ made. string_bytes made ≡ codes "over the limit of " ++ (decimal number ++ (codes " " ++ word.now))) }
{
    format!(in alloc; "over the limit of {} {}", number, word)
}

/// A text, and one behind it.
fn joined(alloc: Global, first: &str, second: &str) -> Result<String, AllocError>
    ensures { IfOk result (λ made. string_bytes made ≡ first.now ++ second.now) }
{
    format!(in alloc; "{}{}", first, second)
}

#[tactic(auto, unfolding(crate::specs::Refusals::refusal_text))]
fn refusal_text(alloc: Global, refusal: &Refusal) -> Result<String, AllocError>
    ensures { IfOk result (λ text. string_bytes text ≡ text_of_refusal refusal.now) }
{
    match refusal {
        Refusal::NotBuilt => String::from_str(alloc, "not built"),
        Refusal::BadName(text) => bad_name(alloc, text),
        Refusal::Exists(kind, name) => named(alloc, *kind, name, " exists"),
        Refusal::Unknown(kind, name) => named(alloc, *kind, name, " unknown"),
        Refusal::BadQuery { query, place } => bad_query(alloc, *query, *place),
        Refusal::BadPattern { query, test } => bad_pattern(alloc, *query, *test),
        Refusal::PatternTooLarge { query, test } => pattern_too_large(alloc, *query, *test),
        Refusal::NotUpdated(name) => not_updated(alloc, name),
        Refusal::InUse {
            kind,
            name,
            prefix,
            dist,
        } => in_use(alloc, *kind, name, prefix, dist),
        Refusal::AlreadyPublished { prefix, dist } => published(alloc, prefix, dist),
        Refusal::NotPublished { prefix, dist } => not_published(alloc, prefix, dist),
        Refusal::NoDistribution => String::from_str(alloc, "no distribution"),
        Refusal::InputAbsent(path) => absent(alloc, path),
        Refusal::InputMalformed { path, line } => malformed(alloc, path, *line),
        Refusal::InputMismatch {
            path,
            what,
            said,
            found,
        } => mismatch(alloc, path, *what, said, found),
        Refusal::Conflict(triple) => joined(alloc, "conflict on ", triple.as_str()),
        Refusal::NoArchitectures => String::from_str(alloc, "no architectures"),
        Refusal::FileClash(path) => joined(alloc, "other file stands at ", path.as_str()),
        Refusal::Limit(limit) => over(alloc, *limit),
    }
}

/// The line of a refusal, as `ERROR: repo local exists`. Of a bad name at most the first hundred characters are shown, each
/// that isn't printable ASCII as `?`. Fails only for want of memory.
#[tactic(auto, unfolding(crate::specs::Refusals::refusal_line))]
pub fn refusal_line(alloc: Global, refusal: &Refusal) -> Result<Text, AllocError>
    ensures { IfOk result (λ text. text ≡ line_of_refusal refusal.now) }
{
    let text = refusal_text(alloc, refusal)?;
    let text = format!(in alloc; "ERROR: {}", text.as_str())?;
    whole_line(alloc, text.as_str())
}

/// The line of words that spell no command, as `ERROR: usage at word 2`. Words count from 0. Fails only for want of memory.
#[tactic(auto, unfolding(crate::specs::Refusals::usage_line))]
pub fn usage_line(alloc: Global, place: u64) -> Result<Text, AllocError>
    ensures { IfOk result (λ text. text ≡ line_of_usage place) }
{
    let text = format!(in alloc; "ERROR: usage at word {}", place)?;
    whole_line(alloc, text.as_str())
}
