//! Where the parts of every process lie. A page is an address divided by 4096; each range ends where
//! the next one named here, or its own end, begins.

use crate::Page;

/// The image, 0x10000 to 0x1_0000_0000.
pub const FIRST_IMAGE_PAGE: Page = 0x10;

pub const IMAGE_END_PAGE: Page = 0x10_0000;

/// The main stack, up to the address 0x1_0010_0000.
pub const FIRST_STACK_PAGE: Page = 0x10_00f0;

pub const STACK_PAGES: u64 = 16;

pub const STACK_END: u64 = 0x1_0010_0000;

/// Shared regions, 0x2_0000_0000 to 0x10_0000_0000.
pub const FIRST_SHARED_PAGE: Page = 0x20_0000;

/// Shadows, 0x10_0000_0000 to 0x20_0000_0000.
pub const FIRST_SHADOW_PAGE: Page = 0x100_0000;

/// Canonical pages, 0x20_0000_0000 to 0x40_0000_0000.
pub const FIRST_CANONICAL_PAGE: Page = 0x200_0000;

pub const CANONICAL_END_PAGE: Page = 0x400_0000;
