//! The replies of commands on local repositories.
ghost use Rattle.std.specs.Prelude.{◌≡◌, ◌++◌, IfOk, OnOk, string_bytes, [], unwrap_or};
ghost use Rattle.reply_text.specs.Replies.{repo_created as created, repo_added as added_to, repo_show as shown, repo_lines, repo_list as listed, settings_lines};

use crate::put::{put_asked, put_count, put_line, put_listed, put_setting, whole_line};
use ap_text::Name;
use control_stanza::Text;
use machine_state::{Repo, State};
use std::alloc::{AllocError, Global};

/// The reply to a repository's making: `Repo <name> created.` Fails only for want of memory.
#[tactic(auto, unfolding(crate::specs::Replies::repo_created))]
pub fn repo_created(alloc: Global, name: &Name) -> Result<Text, AllocError>
    ensures { IfOk result (λ text. text ≡ created name.now) }
{
    let text = format!(in alloc; "Repo {} created.", name.as_str())?;
    whole_line(alloc, text.as_str())
}

/// The reply to an addition to a repository: `Repo <name>: <added> added, <packages> packages.`, which says how many
/// packages are new in its list, and how many it has now. Fails only for want of memory.
#[tactic(auto, unfolding(crate::specs::Replies::repo_added), using(std::proofs::Common::append_assoc))]
pub fn repo_added(alloc: Global, name: &Name, added: u64, packages: u64) -> Result<Text, AllocError>
    ensures { IfOk result (λ text. text ≡ added_to name.now added packages) }
{
    let text = format!(in alloc;
        "Repo {}: {} added, {} packages.",
        name.as_str(),
        added,
        packages
    )?;
    whole_line(alloc, text.as_str())
}

fn optional_text(name: &Option<Name>) -> &str
    ensures { result.now ≡ unwrap_or name.now [] }
{
    match name {
        None => "",
        Some(name) => name.as_str(),
    }
}

#[tactic(auto, unfolding(crate::specs::Replies::settings_lines), using(std::proofs::Common::append_assoc))]
fn put_settings(out: &mut String, repo: &Repo) -> Result<(), AllocError>
    ensures { OnOk result (string_bytes out.new ≡ string_bytes out.old ++ settings_lines repo.now) }
{
    put_line(out, "Name: ", repo.name.as_str())?;
    put_setting(out, "Comment:", repo.comment.as_str())?;
    put_setting(out, "Distribution:", optional_text(&repo.distribution))?;
    put_line(out, "Component: ", repo.component.as_str())
}

/// The reply of `repo show`: the lines `Name: <name>`, `Comment:`, `Distribution:`, `Component: <name>` and `Packages: <n>`,
/// a comment or distribution that is there behind a blank, and then, where the packages are asked for, a blank and
/// `name_version_arch` for each in the order of the list. Fails only for want of memory.
#[tactic(auto, unfolding(crate::specs::Replies::repo_show), using(std::proofs::Common::append_assoc))]
pub fn repo_show(alloc: Global, repo: &Repo, with_packages: bool) -> Result<Text, AllocError>
    ensures { IfOk result (λ text. text ≡ shown repo.now with_packages) }
{
    let mut out = String::new(alloc);
    put_settings(&mut out, repo)?;
    put_count(&mut out, repo.list.len())?;
    put_asked(alloc, &mut out, &repo.list, with_packages)?;
    Text::new(alloc, out.as_str())
}

#[tactic(auto, unfolding(crate::specs::Replies::repo_lines))]
fn put_repos(out: &mut String, repos: &[Repo]) -> Result<(), AllocError>
    ensures { OnOk result (string_bytes out.new ≡ string_bytes out.old ++ repo_lines repos.now) }
{
    for repo in repos {
        put_listed(out, &repo.name, repo.list.len())?;
    }
    Ok(())
}

/// The reply of `repo list`: `Repos: <n>`, and then ` * <name> [<packages>]` for each repository in the order of their names.
/// Fails only for want of memory.
#[tactic(auto, unfolding(crate::specs::Replies::repo_list, crate::specs::Words::line), using(std::proofs::Common::append_assoc))]
pub fn repo_list(alloc: Global, state: &State) -> Result<Text, AllocError>
    ensures { IfOk result (λ text. text ≡ listed state.now.repos) }
{
    let mut out = format!(in alloc; "Repos: {}\n", state.repos.len())?;
    put_repos(&mut out, &state.repos)?;
    Text::new(alloc, out.as_str())
}
