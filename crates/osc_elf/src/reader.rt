//! Reads a file as an image.

ghost use Rattle.osc_image.specs.Form.{image_of};
ghost use Rattle.osc_image.specs.Reading.{Gives};

use crate::fields::u64_at;
use crate::header::check_header;
use crate::image::Image;
use crate::program_headers::read_headers;
use osc_image::ImageFault;
use std::alloc::Global;

/// Reads an ELF file as an image (ELF-64, "ELF Header" and "Program Header Table"). A refusal is the
/// first in the order of `ImageFault`, and of the program headers the first that is refused, for the
/// first reason in the order of `SegmentWhy`. `Memory` may come at any file.
#[tactic(auto, unfolding(osc_image::specs::Form::image_of))]
pub fn read_image(alloc: Global, bytes: &[u8]) -> Result<Image, ImageFault>
    ensures { Gives result (image_of bytes.now) }
{
    check_header(bytes)?;
    let segments = read_headers(alloc, bytes)?;
    let file = Vec::from_slice(alloc, bytes)?;
    let image = Image::new(alloc, u64_at(bytes, 24), file, segments)?;
    match image.fault() {
        Some(fault) => Err(fault),
        None => Ok(image),
    }
}
