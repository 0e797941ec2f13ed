//! The real outside, tried on a folder. This crate has a test alone.
#![tactic(auto)]

#[cfg(test)]
mod folder;
