//! The modes that run no machine: a text is assembled, and an image is listed.

ghost use Rattle.std.specs.Prelude.{◌≡◌, IfOk, Ok};
ghost use Rattle.osc_top.specs.Deciding.{Decides, DecidesFor};
ghost use Rattle.osc_top.specs.Making.{listed_due, listing_due, IsAssembled};

use crate::decision::Decision;
use crate::outcome::Outcome;
use osc_assemble::{TextFault, assemble};
use osc_cli::Task;
use osc_elf::{Image, ImageFault, read_image};
use osc_listing::listing_of;
use std::alloc::{AllocError, Global};

/// Assembles a text.
#[tactic(auto, using(crate::proofs::Files::text_steps))]
pub fn assembled(alloc: Global, text: &[u8]) -> Result<Decision, AllocError>
    ensures { IfOk result (λ d. DecidesFor d (IsAssembled text.now)) }
{
    match assemble(alloc, text) {
        Ok(file) => Ok(Decision::Made(file)),
        Err(TextFault::Memory) => Err(AllocError),
        Err(fault) => Ok(Decision::Refused(Outcome::BadText(fault))),
    }
}

/// Lists an image, if its pages fit the frames.
fn list_image(alloc: Global, task: &Task, image: &Image) -> Result<Decision, AllocError>
    ensures { IfOk result (λ d. Decides d (listing_due task.now (Ok image.now))) }
{
    let needed = image.page_count();
    let frames = task.config.frames;
    if u64::from(frames) < needed {
        return Ok(Decision::Refused(Outcome::NoRoom { needed, frames }));
    }
    Ok(Decision::Made(listing_of(alloc, image)?))
}

/// Lists a file, if it is an image.
#[tactic(auto, unfolding(crate::specs::Making::listed_due))]
pub fn listed(alloc: Global, task: &Task, file: &[u8]) -> Result<Decision, AllocError>
    ensures { IfOk result (λ d. Decides d (listed_due task.now file.now)) }
{
    match read_image(alloc, file) {
        Ok(image) => list_image(alloc, task, &image),
        Err(ImageFault::Memory) => Err(AllocError),
        Err(fault) => Ok(Decision::Refused(Outcome::BadImage(fault))),
    }
}
