//! A segment that is loaded.

ghost use Rattle.std.specs.Prelude.{◌+◌, ◌<◌, ◌≤◌};

use osc_sv39::Access;

/// The bytes of a page.
pub const PAGE: u64 = 4096;

/// A loaded segment, its bytes by their place in the file.
#[derive(Drop)]
pub struct Segment {
    /// Its first address.
    pub address: u64,
    /// Its bytes in memory.
    pub size: u64,
    /// The place of its first byte in the file.
    pub offset: u64,
    /// Its bytes in the file. Those after them are zero.
    pub file_size: u64,
    pub readable: bool,
    pub writable: bool,
    pub executable: bool,
    ghost laid: { 0 < size },
    ghost in_range: { address + size ≤ 4294967296 },
    ghost in_file: { offset + file_size ≤ 16777216 },
}

impl Segment {
    ghost use Rattle.std.specs.Prelude.{◌≡◌, ◌+◌, ◌<◌, ◌≤◌};
    ghost use Rattle.osc_image.specs.Image as image;
    ghost use Rattle.osc_elf.specs.Segments.{shown, grants, first_page, end_page};

    /// The number of its first page.
    pub fn first_page(&self) -> usize
        ensures value { result ≡ first_page self.now }
        ensures below { result < end_page self.now }
    {
        (self.address / PAGE) as usize
    }

    /// The number of the page after its last.
    pub fn end_page(&self) -> u32
        ensures value { result ≡ end_page self.now }
        ensures bound { result ≤ 1048576 }
    {
        self.end().div_ceil(PAGE) as u32
    }

    /// The address after its last.
    pub fn end(&self) -> u64
        ensures { result ≡ self.now.address + self.now.size }
    {
        self.address + self.size
    }

    /// Whether it lets its pages be accessed so. What can be written can be read too.
    pub fn permits(&self, access: Access) -> bool
        ensures { result ≡ grants self.now access }
    {
        match access {
            Access::Fetch => self.executable,
            Access::Load => self.readable || self.writable,
            Access::Store => self.writable,
        }
    }

    /// The byte at an address of its own.
    pub fn byte(&self, file: &[u8], address: u64) -> u8
        requires { self.now.address ≤ address }
        ensures { result ≡ image.byte_in address (shown file.now self.now) }
    {
        let place = address - self.address;
        if place < self.file_size {
            let byte = file.get((self.offset + place) as usize);
            byte.copied().unwrap_or(0)
        } else {
            0
        }
    }
}
