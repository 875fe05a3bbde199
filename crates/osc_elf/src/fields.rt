//! The little-endian fields of a file.

ghost use Rattle.std.specs.Prelude.{◌≡◌, ◌+◌, ◌<◌, ◌≤◌, length};
ghost use Rattle.osc_image.specs.Form.{field};

use byteorder::{ByteOrder, LittleEndian};

#[tactic(auto, unfolding(osc_image::specs::Form::field))]
pub fn u8_at(file: &[u8], place: usize) -> u8
    requires { place < length file.now }
    ensures { result ≡ field 1 place file.now }
{
    file[place]
}

#[tactic(auto, unfolding(osc_image::specs::Form::field))]
pub fn u16_at(file: &[u8], place: usize) -> u16
    requires { place + 2 ≤ length file.now }
    ensures { result ≡ field 2 place file.now }
{
    LittleEndian::read_u16(&file[place..])
}

#[tactic(auto, unfolding(osc_image::specs::Form::field))]
pub fn u32_at(file: &[u8], place: usize) -> u32
    requires { place + 4 ≤ length file.now }
    ensures { result ≡ field 4 place file.now }
{
    LittleEndian::read_u32(&file[place..])
}

#[tactic(auto, unfolding(osc_image::specs::Form::field))]
pub fn u64_at(file: &[u8], place: usize) -> u64
    requires { place + 8 ≤ length file.now }
    ensures { result ≡ field 8 place file.now }
{
    LittleEndian::read_u64(&file[place..])
}
