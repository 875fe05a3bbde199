//! Reads ELF files as images: an entry address, and pages with their permissions and bytes.
#![tactic(auto)]

mod fields;
mod header;
mod image;
mod permitted;
mod pieces;
mod program_headers;
mod reader;
mod segment;

pub use image::Image;
pub use osc_image::{ImageFault, SegmentWhy};
pub use reader::read_image;

#[cfg(test)]
mod tests;
