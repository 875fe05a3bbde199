//! What an ELF image means: its entry, the permissions of its pages and their bytes, the first
//! refusal where a file is none, and the frames that a machine needs to boot it. The definitions
//! stand in `specs/`; the code here is the refusal that the readers share.
#![tactic(auto)]

use std::alloc::AllocError;
use thiserror::Error;

/// Why a program header is refused (ELF-64, "Program Header Table"), in the order in which a header
/// is looked at.
#[derive(Clone, Copy, Debug, PartialEq, Eq, Error)]
pub enum SegmentWhy {
    /// The header is not wholly in the file.
    #[error("table end")]
    TableEnd,
    /// PT_DYNAMIC: the image wants a dynamic linker.
    #[error("dynamic")]
    Dynamic,
    /// PT_INTERP: the image wants an interpreter.
    #[error("interpreter")]
    Interpreter,
    /// PT_TLS: the image has thread-local storage.
    #[error("thread storage")]
    ThreadStorage,
    /// p_filesz is above p_memsz.
    #[error("sizes")]
    Sizes,
    /// The segment's bytes are not wholly in the file.
    #[error("file end")]
    FileEnd,
    /// The segment has addresses below 0x10000, or at or above 0x1_0000_0000.
    #[error("range")]
    Range,
}

/// Why a file is no image that can be run, in the order in which a file is looked at.
#[derive(Clone, Copy, Debug, PartialEq, Eq, Error)]
pub enum ImageFault {
    /// The file has more than 16777216 bytes.
    #[error("too long")]
    TooLong,
    /// The file has fewer than the 64 bytes of the file header.
    #[error("truncated")]
    Truncated,
    /// The file does not begin with the ELF magic number.
    #[error("magic")]
    Magic,
    /// The file is not of 64 bits, or not little-endian.
    #[error("class")]
    Class,
    /// e_type is not ET_EXEC.
    #[error("type")]
    FileType,
    /// e_machine is not EM_RISCV.
    #[error("machine")]
    Machine,
    /// EI_VERSION or e_version is not 1.
    #[error("version")]
    Version,
    /// e_flags has RVC or a float ABI.
    #[error("flags")]
    Flags,
    /// e_ehsize is not 64, or there are program headers and e_phentsize is not 56.
    #[error("header size")]
    HeaderSize,
    /// The first program header, counted from 0, that is refused.
    #[error("segment {index} {why}")]
    Segment { index: u32, why: SegmentWhy },
    /// The least page, an address divided by 4096, that could be written and executed.
    #[error("write and execute at {:#x}", .page.saturating_mul(4096))]
    WriteExec { page: u64 },
    /// e_entry is not divisible by 4, or its page can't be executed.
    #[error("entry {address:#x}")]
    Entry { address: u64 },
    /// Memory ran out. It says nothing of the file.
    #[error("no memory")]
    Memory,
}

impl From<AllocError> for ImageFault {
    ghost use Rattle.std.specs.Prelude.{◌≡◌};
    ghost use Rattle.osc_image.specs.declared.ImageFault.TheVariants.{Memory};

    ghost from_gives = { λ _ fault. fault ≡ Memory };

    fn from(_error: AllocError) -> ImageFault {
        ImageFault::Memory
    }
}
