//! What each step of the kernel leaves of the pages and tables that a hart may rely on. It has no code.
#![tactic(auto)]

pub mod laws;
