//! The commands on packages, by their verbs.
ghost use Rattle.std.specs.Prelude.{◌≡◌, ◌≤◌, Option, IfOk, IfErr, None};
ghost use Rattle.ap_host.specs.Disk.{Files};
ghost use Rattle.command_value.specs.Plain.{RepoCommand, plain, of_repo};
ghost use Rattle.machine_state.specs.State.{Valid};
ghost use Rattle.machine_state.specs.declared.arrived.Arrived.{Arrived as ArrivedOf};
ghost use Rattle.step_model.specs.Answers.{ChangesTo, FaultIs, IsNew, IsRefusedFor, KeepsBy, RefusedBy};
ghost use Rattle.repo_packages.specs.PackageCases.{ArrivesFor};
ghost use Rattle.local_repo.specs.Cases.{repo_case};
ghost use Rattle.local_repo.specs.Verbs.{IsAdd, IsRemove, IsCopy, IsMove, IsImport};

use command_value::Command;
use machine_state::{Arrived, Change, ChangeFault, Refusal, State};
use query_eval::Patterns;
use repo_packages::{add_packages, copy_packages, import_packages, move_packages, remove_packages};
use std::alloc::Global;

/// What `repo add` changes with what arrived of its folder. It needs a command of that verb.
pub fn taken(
    alloc: Global,
    state: &State,
    command: &Command,
    arrived: &Arrived,
) -> Result<Change, ChangeFault>
    ensures ok { (c : RepoCommand) (inbox : Option Files) → plain command.now ≡ of_repo c → IsAdd c → Valid state.now → ArrivesFor inbox state.now (repo_case state.now c) arrived.now → IfOk result (ChangesTo state.now (repo_case state.now c) arrived.now) }
    ensures fault { (c : RepoCommand) (inbox : Option Files) → plain command.now ≡ of_repo c → IsAdd c → Valid state.now → ArrivesFor inbox state.now (repo_case state.now c) arrived.now → IfErr result (FaultIs (IsRefusedFor None (repo_case state.now c) arrived.now)) }
    ensures new { (c : RepoCommand) (inbox : Option Files) → plain command.now ≡ of_repo c → IsAdd c → Valid state.now → ArrivesFor inbox state.now (repo_case state.now c) arrived.now → IfOk result (λ change. IsNew state.now change.state) }
{
    match command {
        Command::RepoAdd { name, folder } => add_packages(alloc, state, name, folder, arrived),
        _ => Err(ChangeFault::Refused(Refusal::NotBuilt)),
    }
}

/// `repo remove`: the packages of which some query is true leave the repository. A dry run makes the same checks, tells which would
/// leave, and changes nothing. It needs a command of that verb.
pub fn remove<M: Patterns>(
    alloc: Global,
    state: &State,
    command: &Command,
    patterns: &mut M,
) -> Result<Change, ChangeFault>
    ensures ok { (c : RepoCommand) (arrived : ArrivedOf) → plain command.now ≡ of_repo c → IsRemove c → Valid state.now → IfOk result (ChangesTo state.now (repo_case state.now c) arrived) }
    ensures fault { (c : RepoCommand) (arrived : ArrivedOf) → plain command.now ≡ of_repo c → IsRemove c → Valid state.now → IfErr result (RefusedBy M.Patterns patterns.old patterns.new (repo_case state.now c) arrived) }
    // A state that is told is another one.
    ensures new { Valid state.now → IfOk result (λ change. IsNew state.now change.state) }
    ensures never_falls { M.refusals patterns.old ≤ M.refusals patterns.new }
    // Which text was refused for its size changes only where such a pattern is told.
    ensures kept { KeepsBy M.Patterns patterns.old patterns.new result }
{
    match command {
        Command::RepoRemove {
            dry_run,
            name,
            queries,
        } => remove_packages(alloc, state, dry_run, name, queries, patterns),
        _ => Err(ChangeFault::Refused(Refusal::NotBuilt)),
    }
}

/// `repo copy`: the packages of the source of which some query is true join the destination. Of two equal ones the destination's stays.
/// It is refused as `Conflict` where one of them and another package of the destination have one name, version and architecture,
/// and then as `Limit(Packages)` where they are too many. A dry run makes the same checks, tells which would come, and changes
/// nothing. With `-with-deps` what they depend on of the source joins too. It needs a command of that verb.
pub fn copy<M: Patterns>(
    alloc: Global,
    state: &State,
    command: &Command,
    patterns: &mut M,
) -> Result<Change, ChangeFault>
    ensures ok { (c : RepoCommand) (arrived : ArrivedOf) → plain command.now ≡ of_repo c → IsCopy c → Valid state.now → IfOk result (ChangesTo state.now (repo_case state.now c) arrived) }
    ensures fault { (c : RepoCommand) (arrived : ArrivedOf) → plain command.now ≡ of_repo c → IsCopy c → Valid state.now → IfErr result (RefusedBy M.Patterns patterns.old patterns.new (repo_case state.now c) arrived) }
    // A state that is told is another one.
    ensures new { Valid state.now → IfOk result (λ change. IsNew state.now change.state) }
    ensures never_falls { M.refusals patterns.old ≤ M.refusals patterns.new }
    // Which text was refused for its size changes only where such a pattern is told.
    ensures kept { KeepsBy M.Patterns patterns.old patterns.new result }
{
    match command {
        Command::RepoCopy {
            dry_run,
            with_deps,
            follow,
            source,
            destination,
            queries,
        } => copy_packages(
            alloc,
            state,
            dry_run,
            with_deps,
            follow,
            source,
            destination,
            queries,
            patterns,
        ),
        _ => Err(ChangeFault::Refused(Refusal::NotBuilt)),
    }
}

/// `repo move`: the packages of the source of which some query is true join the destination, as `repo copy` has it, and leave the
/// source. A dry run makes the same checks, tells which would leave and which would come, and changes nothing. With
/// `-with-deps` what they depend on of the source moves with them. It needs a command of that verb.
pub fn transfer<M: Patterns>(
    alloc: Global,
    state: &State,
    command: &Command,
    patterns: &mut M,
) -> Result<Change, ChangeFault>
    ensures ok { (c : RepoCommand) (arrived : ArrivedOf) → plain command.now ≡ of_repo c → IsMove c → Valid state.now → IfOk result (ChangesTo state.now (repo_case state.now c) arrived) }
    ensures fault { (c : RepoCommand) (arrived : ArrivedOf) → plain command.now ≡ of_repo c → IsMove c → Valid state.now → IfErr result (RefusedBy M.Patterns patterns.old patterns.new (repo_case state.now c) arrived) }
    // A state that is told is another one.
    ensures new { Valid state.now → IfOk result (λ change. IsNew state.now change.state) }
    ensures never_falls { M.refusals patterns.old ≤ M.refusals patterns.new }
    // Which text was refused for its size changes only where such a pattern is told.
    ensures kept { KeepsBy M.Patterns patterns.old patterns.new result }
{
    match command {
        Command::RepoMove {
            dry_run,
            with_deps,
            follow,
            source,
            destination,
            queries,
        } => move_packages(
            alloc,
            state,
            dry_run,
            with_deps,
            follow,
            source,
            destination,
            queries,
            patterns,
        ),
        _ => Err(ChangeFault::Refused(Refusal::NotBuilt)),
    }
}

/// `repo import`: the packages of what the mirror fetched last of which some query is true join the repository, as `repo copy` has it. Of a
/// mirror that was never updated it is refused so. A dry run makes the same checks, tells which would come, and changes nothing. With
/// `-with-deps` what they depend on of what the mirror fetched joins too. It needs a command of that verb.
pub fn import<M: Patterns>(
    alloc: Global,
    state: &State,
    command: &Command,
    patterns: &mut M,
) -> Result<Change, ChangeFault>
    ensures ok { (c : RepoCommand) (arrived : ArrivedOf) → plain command.now ≡ of_repo c → IsImport c → Valid state.now → IfOk result (ChangesTo state.now (repo_case state.now c) arrived) }
    ensures fault { (c : RepoCommand) (arrived : ArrivedOf) → plain command.now ≡ of_repo c → IsImport c → Valid state.now → IfErr result (RefusedBy M.Patterns patterns.old patterns.new (repo_case state.now c) arrived) }
    // A state that is told is another one.
    ensures new { Valid state.now → IfOk result (λ change. IsNew state.now change.state) }
    ensures never_falls { M.refusals patterns.old ≤ M.refusals patterns.new }
    // Which text was refused for its size changes only where such a pattern is told.
    ensures kept { KeepsBy M.Patterns patterns.old patterns.new result }
{
    match command {
        Command::RepoImport {
            dry_run,
            with_deps,
            follow,
            mirror,
            repo,
            queries,
        } => import_packages(
            alloc, state, dry_run, with_deps, follow, mirror, repo, queries, patterns,
        ),
        _ => Err(ChangeFault::Refused(Refusal::NotBuilt)),
    }
}
