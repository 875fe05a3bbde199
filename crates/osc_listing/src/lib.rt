//! The listing of an image: for each word of its executable pages a line with its address, and the
//! instruction that it is, or its number where it is none.
#![tactic(auto)]

mod listing;

pub use listing::listing_of;

#[cfg(test)]
mod tests;
