//! The real outside: a folder of the file system and standard output as the host, another folder as the inbox.
#![tactic(auto)]

mod changes;
mod folder;
mod folder_host;
mod folder_inbox;
mod store;

pub use folder_host::FolderHost;
pub use folder_inbox::FolderInbox;
