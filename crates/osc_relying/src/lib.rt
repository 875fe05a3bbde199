//! What harts may rely on: the laws by which no access to a page that is dead reaches memory. It has no
//! code.
#![tactic(auto)]

pub mod laws;
