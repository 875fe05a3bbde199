//! The file header.

ghost use Rattle.std.specs.Prelude.{◌≡◌, ◌≤◌, ◌==◌, ◌&&◌, ◌||◌, ◌%◌, nat_eq, length, None, Some, OnOk, MatchResult};
ghost use Rattle.std.specs.List.{starts_with};
ghost use Rattle.osc_image.specs.Form as form;

use crate::fields::{u8_at, u16_at, u32_at};
use osc_image::ImageFault;

/// The longest file that is read, in bytes.
const LONGEST_FILE: usize = 16_777_216;

/// The bytes of the file header.
const FILE_HEADER: usize = 64;

const MAGIC: [u8; 4] = [0x7f, b'E', b'L', b'F'];

const ELFCLASS64: u8 = 2;

const ELFDATA2LSB: u8 = 1;

const EV_CURRENT: u8 = 1;

const ET_EXEC: u16 = 2;

const EM_RISCV: u16 = 243;

/// EF_RISCV_RVC and the two bits of the float ABI (RISC-V ELF psABI, "File Header").
const REFUSED_FLAGS: u32 = 7;

fn has_magic(file: &[u8]) -> bool
    ensures { result ≡ starts_with nat_eq file.now form.magic }
{
    file.starts_with(&MAGIC)
}

fn is_class(file: &[u8]) -> bool
    requires { 64 ≤ length file.now }
    ensures { result ≡ (form.field 1 4 file.now == 2 && form.field 1 5 file.now == 1) }
{
    u8_at(file, 4) == ELFCLASS64 && u8_at(file, 5) == ELFDATA2LSB
}

fn is_version(file: &[u8]) -> bool
    requires { 64 ≤ length file.now }
    ensures { result ≡ (form.field 1 6 file.now == 1 && form.field 4 20 file.now == 1) }
{
    u8_at(file, 6) == EV_CURRENT && u32_at(file, 20) == u32::from(EV_CURRENT)
}

fn has_no_refused_flag(file: &[u8]) -> bool
    requires { 64 ≤ length file.now }
    ensures { result ≡ (form.e_flags file.now % 8 == 0) }
{
    u32_at(file, 48) & REFUSED_FLAGS == 0
}

/// e_phentsize says nothing where there are no program headers.
fn has_sizes(file: &[u8]) -> bool
    requires { 64 ≤ length file.now }
    ensures { result ≡ (form.field 2 52 file.now == 64 && (form.e_phnum file.now == 0 || form.field 2 54 file.now == 56)) }
{
    u16_at(file, 52) == 64 && (u16_at(file, 56) == 0 || u16_at(file, 54) == 56)
}

/// Looks at the file header, in the order of `ImageFault`.
#[tactic(auto, unfolding(osc_image::specs::Form::header_fault))]
pub fn check_header(file: &[u8]) -> Result<(), ImageFault>
    ensures first { MatchResult result
        (λ _. form.header_fault file.now ≡ None)
        (λ fault. form.header_fault file.now ≡ Some fault) }
    ensures long { OnOk result (64 ≤ length file.now) }
    ensures short { OnOk result (length file.now ≤ 16777216) }
{
    if file.len() > LONGEST_FILE {
        return Err(ImageFault::TooLong);
    }
    if file.len() < FILE_HEADER {
        return Err(ImageFault::Truncated);
    }
    if !has_magic(file) {
        return Err(ImageFault::Magic);
    }
    if !is_class(file) {
        return Err(ImageFault::Class);
    }
    if u16_at(file, 16) != ET_EXEC {
        return Err(ImageFault::FileType);
    }
    if u16_at(file, 18) != EM_RISCV {
        return Err(ImageFault::Machine);
    }
    if !is_version(file) {
        return Err(ImageFault::Version);
    }
    if !has_no_refused_flag(file) {
        return Err(ImageFault::Flags);
    }
    if !has_sizes(file) {
        return Err(ImageFault::HeaderSize);
    }
    Ok(())
}
