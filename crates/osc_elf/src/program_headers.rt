//! The program headers.

ghost use Rattle.std.specs.Prelude.{◌≡◌, ◌+◌, ◌<◌, ◌≤◌, length, option_map, None, Some, MatchOption, MatchResult};
ghost use Rattle.osc_image.specs.Form as form;
ghost use Rattle.osc_elf.specs.Segments.{shown, all_shown};
ghost use Rattle.osc_elf.specs.Refused.{Stops};

use crate::fields::{u16_at, u32_at, u64_at};
use crate::segment::Segment;
use osc_image::{ImageFault, SegmentWhy};
use std::alloc::{AllocError, Global};

/// The bytes of a program header.
const PROGRAM_HEADER: u64 = 56;

const PT_LOAD: u32 = 1;

const PT_DYNAMIC: u32 = 2;

const PT_INTERP: u32 = 3;

const PT_TLS: u32 = 7;

const PF_X: u32 = 1;

const PF_W: u32 = 2;

const PF_R: u32 = 4;

/// The first address of images, and the first after them.
const IMAGE_START: u64 = 0x1_0000;

const IMAGE_END: u64 = 0x1_0000_0000;

/// The place of a program header, None where it is not wholly in the file.
fn header_place(file: &[u8], index: u16) -> Option<usize>
    requires long { 64 ≤ length file.now }
    requires short { length file.now ≤ 16777216 }
    ensures { MatchOption result
        (length file.now < form.header_place file.now index + 56)
        (λ place. (place ≡ form.header_place file.now index) × (place + 56 ≤ length file.now)) }
{
    let skipped = PROGRAM_HEADER * u64::from(index);
    let place = u64_at(file, 32).checked_add(skipped)?;
    let end = place.checked_add(PROGRAM_HEADER)?;
    if end > file.len() as u64 {
        return None;
    }
    Some(place as usize)
}

/// Why the header of a PT_LOAD is refused.
fn load_why(file: &[u8], place: usize) -> Option<SegmentWhy>
    requires inside { place + 56 ≤ length file.now }
    requires short { length file.now ≤ 16777216 }
    ensures { result ≡ form.first_of (form.load_checks file.now place) }
{
    let offset = u64_at(file, place + 8);
    let address = u64_at(file, place + 16);
    let file_size = u64_at(file, place + 32);
    let size = u64_at(file, place + 40);
    let length = file.len() as u64;
    if file_size > size {
        Some(SegmentWhy::Sizes)
    } else if offset > length || file_size > length - offset {
        Some(SegmentWhy::FileEnd)
    } else if size > 0
        && (address < IMAGE_START || address > IMAGE_END || size > IMAGE_END - address)
    {
        Some(SegmentWhy::Range)
    } else {
        None
    }
}

/// Why a header that lies in the file is refused.
fn header_why(file: &[u8], place: usize) -> Option<SegmentWhy>
    requires inside { place + 56 ≤ length file.now }
    requires short { length file.now ≤ 16777216 }
    ensures { result ≡ form.first_of (form.segment_checks file.now place) }
{
    match u32_at(file, place) {
        PT_LOAD => load_why(file, place),
        PT_DYNAMIC => Some(SegmentWhy::Dynamic),
        PT_INTERP => Some(SegmentWhy::Interpreter),
        PT_TLS => Some(SegmentWhy::ThreadStorage),
        _ => None,
    }
}

/// The segment of a header that is not refused, None where it lays nothing.
#[tactic(auto, using(crate::proofs::Bits::flag_tests))]
fn laid_segment(file: &[u8], place: usize) -> Option<Segment>
    requires inside { place + 56 ≤ length file.now }
    requires short { length file.now ≤ 16777216 }
    requires taken { form.first_of (form.segment_checks file.now place) ≡ None }
    ensures { option_map (shown file.now) result ≡ form.laid_at file.now place }
{
    let size = u64_at(file, place + 40);
    if u32_at(file, place) != PT_LOAD || size == 0 {
        return None;
    }
    let flags = u32_at(file, place + 4);
    Some(Segment {
        address: u64_at(file, place + 16),
        size,
        offset: u64_at(file, place + 8),
        file_size: u64_at(file, place + 32),
        readable: flags & PF_R != 0,
        writable: flags & PF_W != 0,
        executable: flags & PF_X != 0,
    })
}

/// The segment of a program header, or why it is refused.
#[tactic(auto, unfolding(osc_image::specs::Form::segment_why, osc_image::specs::Form::laid_segment))]
fn read_header(file: &[u8], index: u16) -> Result<Option<Segment>, SegmentWhy>
    requires long { 64 ≤ length file.now }
    requires short { length file.now ≤ 16777216 }
    ensures { MatchResult result
        (λ kept. (form.segment_why file.now index ≡ None) × (option_map (shown file.now) kept ≡ form.laid_segment file.now index))
        (λ why. form.segment_why file.now index ≡ Some why) }
{
    let Some(place) = header_place(file, index) else {
        return Err(SegmentWhy::TableEnd);
    };
    match header_why(file, place) {
        Some(why) => Err(why),
        None => Ok(laid_segment(file, place)),
    }
}

/// The segments that the program headers lay, in the order of the table.
#[tactic(auto, using(crate::proofs::Walking::walk_steps))]
pub fn read_headers(alloc: Global, file: &[u8]) -> Result<Vec<Segment>, ImageFault>
    requires long { 64 ≤ length file.now }
    requires short { length file.now ≤ 16777216 }
    ensures { MatchResult result
        (λ kept. (form.table_fault file.now ≡ None)
        × (all_shown file.now kept.items ≡ form.segments_of file.now (form.e_phnum file.now)))
        (λ fault. Stops fault (form.table_fault file.now)) }
{
    let mut segments = Vec::new(alloc);
    for index in 0..u16_at(file, 56) {
        match read_header(file, index) {
            Err(why) => {
                return Err(ImageFault::Segment {
                    index: u32::from(index),
                    why,
                });
            }
            Ok(None) => {}
            Ok(Some(segment)) => segments.push(segment).map_err(AllocError::from)?,
        }
    }
    Ok(segments)
}
