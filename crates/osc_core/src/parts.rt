//! A machine in its parts.

use crate::boxes::BoxRoom;
use crate::machine::Machine;
use osc_turns::{HartBox, Kernel};
use osc_word::Config;

/// The parts of a machine of which no hart holds anything.
#[derive(Drop)]
pub struct Parts {
    /// The words of memory, 512 of each frame, frame by frame.
    pub words: Vec<u64>,
    /// How often the gate of each frame was opened.
    pub versions: Vec<u64>,
    /// The box of each hart, by its number.
    pub boxes: Vec<HartBox>,
    pub kernel: Kernel,
    /// The configuration that the machine began with.
    pub config: Config,
    /// Where the boxes stood, and can stand again.
    pub room: BoxRoom,
}

impl Machine {
    ghost use Rattle.std.specs.Prelude.{◌≡◌, ◌≤◌, length};
    ghost use Rattle.osc_core.specs.Parts.{AllHome, AreVersions, machine_of};

    /// The parts of a machine whose kernel, boxes and gates are all at home. It takes no memory.
    pub fn into_parts(self) -> Parts
        requires home { AllHome self }
        ensures machine { machine_of result ≡ self }
        ensures versions { AreVersions result.versions.items }
        ensures room { length result.boxes.items ≤ result.room }
    {
        let (boxes, room) = self.boxes.move_out();
        Parts {
            words: self.words,
            versions: self.gates,
            boxes,
            kernel: self.kernel.unwrap(),
            config: self.config,
            room,
        }
    }

    /// The machine of its parts, which have room for the boxes. It takes no memory.
    #[tactic(auto, using(crate::proofs::Moving::open_versions))]
    pub fn of_parts(parts: Parts) -> Machine
        requires versions { AreVersions parts.versions.items }
        requires room { length parts.boxes.items ≤ parts.room }
        ensures { result ≡ machine_of parts }
    {
        Machine {
            words: parts.words,
            gates: parts.versions,
            boxes: parts.room.settle(parts.boxes),
            kernel: Some(parts.kernel),
            config: parts.config,
        }
    }
}
