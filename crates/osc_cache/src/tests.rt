use crate::{Cache, HartBox, Look};
use bitflags::Flags;
use osc_sv39::{Access, Mapping, PteBits};
use osc_word::Order;
use std::test::Fail;

fn mapping(frame: u32, bits: u8) -> Mapping {
    Mapping {
        frame,
        bits: PteBits::from_bits_retain(bits),
    }
}

#[test]
fn latest_in_a_slot(rt: HostRuntime) {
    let mut cache = Cache::new();
    assert_eq!(rt; cache.look(0x10, Access::Load), Look::Miss);
    cache.fill(0x10, mapping(3, 0xd7));
    cache.fill(0x30, mapping(4, 0xd3));
    assert_eq!(rt; cache.look(0x10, Access::Load), Look::Miss);
    assert_eq!(rt; cache.look(0x30, Access::Load), Look::Hit(4));
    assert_eq!(rt; cache.look(0x30, Access::Store), Look::Miss);
    cache.fill(0x2f, mapping(9, 0xdb));
    assert_eq!(rt; cache.look(0x2f, Access::Fetch), Look::Hit(9));
    cache.clear();
    assert_eq!(rt; cache.look(0x30, Access::Load), Look::Miss);
    assert_eq!(rt; cache.look(0x2f, Access::Fetch), Look::Miss);
}

#[test]
fn boxes(rt: HostRuntime) -> Result<(), Fail> {
    let mut hart_box = HartBox::new(rt.alloc())?;
    assert_eq!(rt; *hart_box.order(), Order::Empty);
    hart_box.fill(7, mapping(1, 0xd7));
    hart_box.set_order(Order::Over);
    assert_eq!(rt; hart_box.look(7, Access::Store), Look::Hit(1));
    assert_eq!(rt; *hart_box.order(), Order::Over);
    hart_box.clear();
    assert_eq!(rt; hart_box.look(7, Access::Store), Look::Miss);
    assert_eq!(rt; *hart_box.order(), Order::Over);
    Ok(())
}
