//! The lines that are said: the replies to commands, and the reasons of refusals.
#![tactic(auto)]

mod dry_runs;
mod mirrors;
mod packages;
mod publications;
mod put;
mod refusals;
mod repos;
mod snapshots;
mod words;

pub use dry_runs::dry_run_reply;
pub use mirrors::{
    mirror_created, mirror_dropped, mirror_list, mirror_renamed, mirror_show, mirror_updated,
};
pub use packages::{package_search, package_show};
pub use publications::{cleaned, publication_dropped, publish_list, publish_show, published};
pub use put::{put_count, put_line, put_setting, put_triples, whole_line};
pub use refusals::{refusal_line, usage_line};
pub use repos::{repo_added, repo_created, repo_list, repo_show};
pub use snapshots::{snapshot_list, snapshot_show};
