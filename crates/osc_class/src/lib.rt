//! Rooms: how much memory the block of a request gets, a size class or whole pages.
#![tactic(auto)]

ghost use Rattle.std.specs.Prelude.{◌≡◌};
ghost use Rattle.osc_class.specs.Rooms.{class_of, room_of, IsRoom, block_bytes, shadow_pages};

/// The room of a block.
#[derive(Clone, Copy, Debug, PartialEq, Eq)]
pub enum Room {
    /// A slot of the size class with this number, from 0 to 12.
    Small(u8),
    /// This many whole pages of 4096 bytes, at least 1.
    Pages(u64),
}

/// The size classes, in bytes.
const SIZES: [u16; 13] = [
    32, 48, 64, 96, 128, 192, 256, 384, 512, 768, 1024, 1536, 2048,
];

/// The bytes of a page.
const PAGE: u128 = 4096;

/// The bytes of a block's header.
const HEADER: u128 = 16;

/// The room for a request of `n` bytes: with the header, the least size class that holds it, and
/// whole pages above the greatest class.
#[tactic(auto, unfolding(crate::specs::Rooms::room_of))]
pub fn room_of(n: u64) -> Room
    ensures value { result ≡ room_of n }
    ensures is_room { IsRoom result }
{
    let bytes = u128::from(n) + HEADER;
    match class_of(bytes) {
        Some(class) => Room::Small(class as u8),
        None => Room::Pages(bytes.div_ceil(PAGE) as u64),
    }
}

// The least size class that holds this many bytes.
fn class_of(bytes: u128) -> Option<usize>
    ensures { result ≡ class_of bytes }
{
    SIZES.iter().position(|size| bytes <= u128::from(*size))
}

/// The bytes of a block of this room.
pub fn block_bytes(room: Room) -> u128
    requires { IsRoom room }
    ensures { result ≡ block_bytes room }
{
    match room {
        Room::Small(class) => u128::from(SIZES[class as usize]),
        Room::Pages(pages) => PAGE * u128::from(pages),
    }
}

/// How many shadow pages an object in this room has.
pub fn shadow_pages(room: Room) -> u64
    requires { IsRoom room }
    ensures { result ≡ shadow_pages room }
{
    match room {
        Room::Small(_) => 1,
        Room::Pages(pages) => pages,
    }
}

#[cfg(test)]
mod tests {
    use super::*;

    #[test]
    fn gives_the_least_room(rt: HostRuntime) {
        let rows = [
            (0, Room::Small(0), 32, 1),
            (16, Room::Small(0), 32, 1),
            (17, Room::Small(1), 48, 1),
            (2032, Room::Small(12), 2048, 1),
            (2033, Room::Pages(1), 4096, 1),
            (4080, Room::Pages(1), 4096, 1),
            (4081, Room::Pages(2), 8192, 2),
            (8_000_000, Room::Pages(1954), 8_003_584, 1954),
            (
                u64::MAX,
                Room::Pages((1 << 52) + 1),
                (1 << 64) + 4096,
                (1 << 52) + 1,
            ),
        ];
        for (n, room, bytes, pages) in rows {
            assert_eq!(rt; room_of(n), room, "room of {n}");
            assert_eq!(rt; block_bytes(room_of(n)), bytes, "bytes of {n}");
            assert_eq!(rt; shadow_pages(room_of(n)), pages, "pages of {n}");
        }
    }

    #[test]
    fn has_thirteen_classes(rt: HostRuntime) {
        let sizes = [
            32, 48, 64, 96, 128, 192, 256, 384, 512, 768, 1024, 1536, 2048,
        ];
        let mut class = 0;
        for size in sizes {
            if class < 13 {
                assert_eq!(rt; block_bytes(Room::Small(class)), size);
                class += 1;
            }
        }
        assert_eq!(rt; class, 13);
    }
}
