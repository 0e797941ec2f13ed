//! The repositories of a root.
ghost use Rattle.std.specs.Prelude.{◌≡◌, [], IfOk, IfErr};
ghost use Rattle.machine_state.specs.Ascending.{IsAscending};
ghost use Rattle.machine_state.specs.State.{repo_cmp};
ghost use Rattle.catalogue_text.specs.Root.{repo_pieces, repos_pieces};
ghost use Rattle.catalogue_lines.specs.PartForms.{Series};
ghost use Rattle.catalogue_text.specs.Grammar.{NextRepo, ReposPart};
ghost use Rattle.catalogue_lines.specs.Reading.{IfBefore, Stops, ReadsSeries, ReadsPart, IsIndexed, IdsApart};
ghost use Rattle.catalogue_text.specs.RootReading.{GoodRepo, GoodRepos};

use crate::repo_values::{comment_line, component_line, distribution_line};
use catalogue_lines::{Known, Stop, count_line, follows, name_line, read_set};
use machine_state::{Limit, Repo};
use std::alloc::Global;

/// A repository that may stand behind those before it, and the text behind it.
fn read_repo<'a>(
    alloc: Global,
    text: &'a [u8],
    known: &Known,
    done: &[Repo],
) -> Result<(Repo, &'a [u8]), Stop>
    requires indexed { IsIndexed known.now }
    requires sorted { IsAscending repo_cmp done.now }
    ensures read { IfOk result (λ p. ReadsPart repo_pieces (GoodRepo known.now.list done.now) text.now p.0 p.1.now) }
    ensures stops { IfErr result (λ stop. IfBefore stop (λ left. IdsApart known.now.list → Stops (NextRepo known.now.list done.now) text.now left)) }
{
    let Some((name, behind)) = name_line(alloc, text, "repo ")? else {
        return Err(Stop::Before(text.len()));
    };
    if !follows(done, &name) {
        return Err(Stop::Before(text.len()));
    }
    let Some((comment, rest)) = comment_line(alloc, behind)? else {
        return Err(Stop::Before(behind.len()));
    };
    let Some((distribution, behind)) = distribution_line(alloc, rest)? else {
        return Err(Stop::Before(rest.len()));
    };
    let Some((component, rest)) = component_line(alloc, behind)? else {
        return Err(Stop::Before(behind.len()));
    };
    let (list, rest) = match read_set(alloc, rest, known) {
        Ok(set) => set,
        Err(stop) => return Err(stop),
    };
    let repo = Repo {
        name,
        comment,
        distribution,
        component,
        list,
    };
    Ok((repo, rest))
}

/// So many repositories, and the text behind them.
fn read_each<'a>(
    alloc: Global,
    text: &'a [u8],
    known: &Known,
    count: u64,
) -> Result<(Vec<Repo>, &'a [u8]), Stop>
    requires { IsIndexed known.now }
    ensures read { IfOk result (λ p. ReadsSeries repo_pieces (GoodRepo known.now.list) count text.now p.0.items p.1.now) }
    ensures stops { IfErr result (λ stop. IfBefore stop (λ left. IdsApart known.now.list → Stops (Series count (NextRepo known.now.list) []) text.now left)) }
{
    let mut repos = Vec::new(alloc);
    let mut rest = text;
    for _read in 0..count {
        match read_repo(alloc, rest, known, &repos) {
            Err(stop) => return Err(stop),
            Ok((repo, behind)) => {
                repos.push(repo)?;
                rest = behind;
            }
        }
    }
    Ok((repos, rest))
}

/// The repositories, and the text behind them.
pub(crate) fn read_repos<'a>(
    alloc: Global,
    text: &'a [u8],
    known: &Known,
) -> Result<(Vec<Repo>, &'a [u8]), Stop>
    requires { IsIndexed known.now }
    ensures read { IfOk result (λ p. ReadsPart repos_pieces (GoodRepos known.now.list) text.now p.0.items p.1.now) }
    ensures stops { IfErr result (λ stop. IfBefore stop (λ left. IdsApart known.now.list → Stops (ReposPart known.now.list) text.now left)) }
{
    let most = Limit::Repos.number();
    let Some((count, rest)) = count_line(text, "repos ", most) else {
        return Err(Stop::Before(text.len()));
    };
    read_each(alloc, rest, known, count)
}
