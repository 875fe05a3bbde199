ghost use Rattle.std.specs.Prelude.{◌≡◌, ◌<◌};

use crate::{Marks, ObjectState};
use std::process::Abort;
use std::test::Fail;

/// The page at 0x10_0000_0000.
const FIRST_PAGE: u64 = 0x100_0000;

/// Grants pages, after looking whether that may be done.
fn grant_on(rt: &impl Abort, marks: &mut Marks, pages: u32, size: u64, canon: u64) -> u32
    ensures { marks.new.limit ≡ marks.old.limit }
{
    assert!(rt; pages >= 1);
    assert!(rt; pages <= marks.left());
    marks.grant(pages, size, canon)
}

/// Kills an object that is live.
fn kill_on(rt: &impl Abort, marks: &mut Marks, object: u32, call: u32)
    ensures { marks.new.limit ≡ marks.old.limit }
{
    assert!(rt; object < marks.next_object());
    let is_live = matches!(marks.fact(object).state, ObjectState::Live);
    assert!(rt; is_live);
    marks.kill(object, call);
}

/// The state of an object that was granted.
fn state_of(rt: &impl Abort, marks: &Marks, object: u32) -> ObjectState {
    assert!(rt; object < marks.next_object());
    marks.fact(object).state
}

#[test]
fn grants_follow_one_another(rt: HostRuntime) -> Result<(), Fail> {
    let mut marks = Marks::new(rt.alloc(), 3)?;
    assert_eq!(rt; marks.left(), 3);
    assert_eq!(rt; marks.next_page(), 0x100_0000);
    assert_eq!(rt; marks.owner(0x100_0000), None);
    assert_eq!(rt; grant_on(&rt, &mut marks, 1, 24, 0x20_0000_0010), 0);
    assert_eq!(rt; grant_on(&rt, &mut marks, 2, 5000, 0x20_0040_0010), 1);
    assert_eq!(rt; marks.left(), 0);
    assert_eq!(rt; marks.next_object(), 2);
    assert_eq!(rt; marks.next_page(), 0x100_0003);
    let second = marks.fact(1);
    assert_eq!(rt; second.first, 0x100_0001);
    assert_eq!(rt; second.pages, 2);
    assert_eq!(rt; second.size, 5000);
    assert_eq!(rt; second.user, 0x10_0000_1010);
    assert_eq!(rt; second.canon, 0x20_0040_0010);
    assert_eq!(rt; second.state, ObjectState::Live);
    assert_eq!(rt; marks.object_at(0x10_0000_0010), Some(0));
    assert_eq!(rt; marks.object_at(0x10_0000_0011), None);
    assert_eq!(rt; marks.object_at(0x10_0000_1010), Some(1));
    assert_eq!(rt; marks.object_at(0x10_0000_2010), None);
    assert_eq!(rt; marks.object_at(u64::MAX), None);
    assert_eq!(rt; marks.owner(0xff_ffff), None);
    assert_eq!(rt; marks.owner(0x100_0000), Some(0));
    assert_eq!(rt; marks.owner(0x100_0001), Some(1));
    assert_eq!(rt; marks.owner(0x100_0002), Some(1));
    assert_eq!(rt; marks.owner(0x100_0003), None);
    Ok(())
}

#[test]
fn leaf_dies_with_its_last_page(rt: HostRuntime) -> Result<(), Fail> {
    let mut marks = Marks::new(rt.alloc(), 1024)?;
    for i in 0..512 {
        assert_eq!(rt; grant_on(&rt, &mut marks, 1, 24, 0x20_0000_0010), i);
        assert!(rt; !marks.leaf_dead(0x8000));
    }
    for i in 0..512 {
        assert!(rt; !marks.leaf_dead(0x8000));
        kill_on(&rt, &mut marks, i, i);
        assert_eq!(rt; state_of(&rt, &marks, i), ObjectState::Dead(i));
    }
    assert!(rt; marks.leaf_dead(0x8000));
    assert!(rt; !marks.leaf_dead(0x7fff));
    assert!(rt; !marks.leaf_dead(0x8001));
    assert!(rt; !marks.leaf_dead(u64::MAX));
    assert_eq!(rt; marks.left(), 512);
    assert_eq!(rt; marks.next_page(), 0x100_0200);
    Ok(())
}

/// Grants and deaths written plainly: the object of each page, and whether each object lives.
#[derive(Drop)]
struct Plain {
    owners: Vec<u32>,
    live: Vec<bool>,
}

impl Plain {
    fn is_dead(&self, page: usize) -> bool {
        match self.owners.get(page) {
            Some(object) => self.live.get(*object as usize) == Some(&false),
            None => false,
        }
    }

    fn is_leaf_dead(&self, leaf: usize) -> bool
        requires { leaf < 1024 }
    {
        (leaf * 512..leaf * 512 + 512).all(|page| self.is_dead(page))
    }
}

/// Both say the same of each page and leaf table.
fn compare(rt: &impl Abort, marks: &Marks, plain: &Plain) {
    for page in 0..4096 {
        let owner = plain.owners.get(page).copied();
        assert_eq!(rt; marks.owner(FIRST_PAGE + page as u64), owner);
    }
    for leaf in 0..9 {
        assert_eq!(rt;
            marks.leaf_dead(0x8000 + leaf as u64),
            plain.is_leaf_dead(leaf)
        );
    }
}

#[test]
fn grants_and_kills_in_turn(rt: HostRuntime) -> Result<(), Fail> {
    let mut marks = Marks::new(rt.alloc(), 4096)?;
    let mut plain = Plain {
        owners: Vec::new(rt.alloc()),
        live: Vec::new(rt.alloc()),
    };
    let mut random: u64 = 7;
    for step in 0..4000u32 {
        random = random
            .wrapping_mul(6364136223846793005)
            .wrapping_add(1442695040888963407);
        let pages = (random >> 33) as u32 % 4 + 1;
        if (random >> 40) % 2 == 0 && pages <= marks.left() {
            let canon = 0x20_0000_0010 + (random >> 45);
            let object = marks.grant(pages, 8, canon);
            let user = marks.fact(object).user;
            assert_eq!(rt; marks.object_at(user), Some(object));
            assert_eq!(rt; object as usize, plain.live.len());
            for _ in 0..pages {
                plain.owners.push(object)?;
            }
            plain.live.push(true)?;
        } else {
            let near = (random >> 33) as usize % 64 + step as usize / 3;
            if near < plain.live.len() && plain.live[near] {
                kill_on(&rt, &mut marks, near as u32, step);
                assert_eq!(rt; state_of(&rt, &marks, near as u32), ObjectState::Dead(step));
                plain.live[near] = false;
            }
        }
        if step % 50 == 0 {
            compare(&rt, &marks, &plain);
        }
    }
    assert_eq!(rt; marks.next_object() as usize, plain.live.len());
    for object in 0..marks.next_object() {
        let at = object as usize;
        if at < plain.live.len() && plain.live[at] {
            kill_on(&rt, &mut marks, object, 4000);
            plain.live[at] = false;
        }
    }
    compare(&rt, &marks, &plain);
    assert!(rt; marks.leaf_dead(0x8006));
    Ok(())
}

#[test]
fn child_goes_on_alone(rt: HostRuntime) -> Result<(), Fail> {
    let mut parent = Marks::new(rt.alloc(), 2048)?;
    let mut child = Marks::new(rt.alloc(), 2048)?;
    let _first = grant_on(&rt, &mut parent, 512, 2_000_000, 0x20_0000_0010);
    let _second = grant_on(&rt, &mut parent, 700, 2_800_000, 0x20_0100_0010);
    kill_on(&rt, &mut parent, 0, 9);
    parent.copy_to(&mut child);
    assert_eq!(rt; child.left(), 836);
    assert_eq!(rt; child.next_page(), parent.next_page());
    assert_eq!(rt; child.owner(FIRST_PAGE + 1211), Some(1));
    assert_eq!(rt; child.owner(FIRST_PAGE + 1212), None);
    assert_eq!(rt; state_of(&rt, &child, 0), ObjectState::Dead(9));
    assert!(rt; child.leaf_dead(0x8000));
    assert_eq!(rt; grant_on(&rt, &mut child, 1, 24, 0x20_0000_0010), 2);
    kill_on(&rt, &mut child, 1, 10);
    assert!(rt; child.leaf_dead(0x8001));
    assert!(rt; !parent.leaf_dead(0x8001));
    assert_eq!(rt; parent.next_object(), 2);
    assert_eq!(rt; state_of(&rt, &parent, 1), ObjectState::Live);
    Ok(())
}
