//! The headers of an ELF-64 file (ELF-64 Object File Format, "ELF Header" and "Program Header Table").

ghost use Rattle.std.specs.Prelude.{◌≡◌, ◌≤◌, ◌<◌, ◌^◌, ◌++◌, length, OnOk};
ghost use Rattle.byteorder.specs.Endian.{little_bytes};
ghost use Rattle.osc_asm.specs.File as spec;

use byteorder::{ByteOrder, LittleEndian};
use std::alloc::AllocError;

/// A little-endian field, by the names of the format's "Data Representation".
#[derive(Clone, Copy, Debug, PartialEq, Eq)]
pub enum ElfField {
    Byte(u8),
    Half(u16),
    Word(u32),
    Xword(u64),
}

/// Where the code stands in memory and in the file.
pub const CODE_ADDRESS: u64 = 0x10000;

pub const CODE_PLACE: u64 = 4096;

/// The bytes of a page, to which segments are aligned.
pub const PAGE: u64 = 4096;

const PT_LOAD: u32 = 1;

const PF_X: u32 = 1;

const PF_W: u32 = 2;

const PF_R: u32 = 4;

/// The flags of code and of bytes.
pub const READ_EXECUTE: u32 = PF_R + PF_X;

pub const READ_WRITE: u32 = PF_R + PF_W;

/// The file header, for so many program headers behind it.
pub fn file_header(count: u16) -> [ElfField; 22]
    ensures { result ≡ spec.file_header count }
{
    [
        ElfField::Byte(0x7f),
        ElfField::Byte(b'E'),
        ElfField::Byte(b'L'),
        ElfField::Byte(b'F'),
        // ELFCLASS64, ELFDATA2LSB, EV_CURRENT
        ElfField::Byte(2),
        ElfField::Byte(1),
        ElfField::Byte(1),
        ElfField::Byte(0),
        ElfField::Xword(0),
        // ET_EXEC, EM_RISCV, EV_CURRENT
        ElfField::Half(2),
        ElfField::Half(243),
        ElfField::Word(1),
        // e_entry, e_phoff, e_shoff
        ElfField::Xword(CODE_ADDRESS),
        ElfField::Xword(64),
        ElfField::Xword(0),
        // e_flags, e_ehsize, e_phentsize, e_phnum
        ElfField::Word(0),
        ElfField::Half(64),
        ElfField::Half(56),
        ElfField::Half(count),
        // No section headers.
        ElfField::Half(0),
        ElfField::Half(0),
        ElfField::Half(0),
    ]
}

/// The program header of a segment of `size` bytes, of which `file_size` are in the file.
pub fn load_header(flags: u32, address: u64, file_size: u64, size: u64) -> [ElfField; 8]
    requires low { 65536 ≤ address }
    requires high { address < 2 ^ 63 }
    ensures { result ≡ spec.load_header flags address file_size size }
{
    [
        ElfField::Word(PT_LOAD),
        ElfField::Word(flags),
        // p_offset, p_vaddr, p_paddr
        ElfField::Xword(address - CODE_ADDRESS + CODE_PLACE),
        ElfField::Xword(address),
        ElfField::Xword(0),
        // p_filesz, p_memsz, p_align
        ElfField::Xword(file_size),
        ElfField::Xword(size),
        ElfField::Xword(PAGE),
    ]
}

fn push_half(file: &mut Vec<u8>, value: u16) -> Result<(), AllocError>
    ensures { OnOk result (file.new.items ≡ file.old.items ++ little_bytes 2 value) }
{
    let mut bytes = [0; 2];
    LittleEndian::write_u16(&mut bytes, value);
    file.extend_from_slice(&bytes)
}

pub fn push_word(file: &mut Vec<u8>, value: u32) -> Result<(), AllocError>
    ensures { OnOk result (file.new.items ≡ file.old.items ++ little_bytes 4 value) }
{
    let mut bytes = [0; 4];
    LittleEndian::write_u32(&mut bytes, value);
    file.extend_from_slice(&bytes)
}

fn push_xword(file: &mut Vec<u8>, value: u64) -> Result<(), AllocError>
    ensures { OnOk result (file.new.items ≡ file.old.items ++ little_bytes 8 value) }
{
    let mut bytes = [0; 8];
    LittleEndian::write_u64(&mut bytes, value);
    file.extend_from_slice(&bytes)
}

fn push_field(file: &mut Vec<u8>, field: ElfField) -> Result<(), AllocError>
    ensures { OnOk result (file.new.items ≡ file.old.items ++ spec.field_bytes field) }
{
    match field {
        ElfField::Byte(value) => Ok(file.push(value)?),
        ElfField::Half(value) => push_half(file, value),
        ElfField::Word(value) => push_word(file, value),
        ElfField::Xword(value) => push_xword(file, value),
    }
}

/// Appends fields.
pub fn push_fields(file: &mut Vec<u8>, fields: &[ElfField]) -> Result<(), AllocError>
    ensures { OnOk result (file.new.items ≡ file.old.items ++ spec.fields_bytes fields.now) }
{
    for field in fields {
        push_field(file, *field)?;
    }
    Ok(())
}

/// Appends a piece at its place, with zeros before it. Nothing is done for an empty piece.
pub fn lay(file: &mut Vec<u8>, place: usize, piece: &[u8]) -> Result<(), AllocError>
    requires { length file.old.items ≤ place }
    ensures { OnOk result (file.new.items ≡ spec.laid place piece.now file.old.items) }
{
    if piece.is_empty() {
        return Ok(());
    }
    file.resize(place, 0)?;
    file.extend_from_slice(piece)
}
