//! The frames of a machine: all are taken, and then all are given back.

ghost use Rattle.std.specs.Prelude.{◌≡◌, length, IfOk};

use osc_frames::Frames;
use std::alloc::{AllocError, Global};

/// The frames of the machine.
const FRAMES: u32 = 4096;

/// The sum of the frames that were taken and given back, `count` of them, 4096 at a time.
pub fn paired(alloc: Global, count: u64) -> Result<u64, AllocError> {
    let mut frames = machine(alloc)?;
    let mut sum: u64 = 0;
    for _ in 0..count / u64::from(FRAMES) {
        take_all(&mut frames);
        sum = sum.wrapping_add(give_all(&mut frames));
    }
    Ok(sum)
}

/// All frames of the machine, free.
fn machine(alloc: Global) -> Result<Frames, AllocError>
    ensures { IfOk result (λ frames. length frames ≡ 4096) }
{
    Frames::new(alloc, FRAMES)
}

/// Takes each frame.
fn take_all(frames: &mut Frames)
    requires { length frames.old ≡ 4096 }
    ensures { length frames.new ≡ 4096 }
{
    for _ in 0..FRAMES {
        let _frame = frames.take();
    }
}

/// Gives each frame back that was taken, and sums them.
fn give_all(frames: &mut Frames) -> u64
    requires { length frames.old ≡ 4096 }
    ensures { length frames.new ≡ 4096 }
{
    let mut sum: u64 = 0;
    for frame in 0..FRAMES {
        if !frames.is_free(frame) {
            frames.give(frame);
            sum = sum.wrapping_add(u64::from(frame));
        }
    }
    sum
}
