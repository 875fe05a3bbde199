ghost use Rattle.std.specs.Prelude.{◌≡◌, ◌<◌, ◌≤◌, length, vec_len};

use crate::{BitRow, Frames, Steps, least};
use std::marker::Brand;
use std::sync::ledger::{Blank, Ledger};
use std::test::Fail;

#[test]
fn takes_the_least_free_frame(rt: HostRuntime) -> Result<(), Fail> {
    let mut frames = Frames::new(rt.alloc(), 64)?;
    for frame in 0..64 {
        assert_eq!(rt; frames.take(), Some(frame));
    }
    assert_eq!(rt; frames.take(), None);
    assert_eq!(rt; frames.free_count(), 0);
    Ok(())
}

fn give_back(frames: &mut Frames, frame: u32)
    requires { frame < length frames.old }
    ensures { length frames.new ≡ length frames.old }
{
    if !frames.is_free(frame) {
        frames.give(frame);
    }
}

#[test]
fn gives_frames_back(rt: HostRuntime) -> Result<(), Fail> {
    let mut frames = Frames::new(rt.alloc(), 4)?;
    assert_eq!(rt; frames.take(), Some(0));
    assert_eq!(rt; frames.take(), Some(1));
    assert_eq!(rt; frames.take(), Some(2));
    give_back(&mut frames, 1);
    assert_eq!(rt; frames.free_count(), 2);
    give_back(&mut frames, 0);
    assert_eq!(rt; frames.free_count(), 3);
    assert!(rt; frames.is_free(0));
    assert!(rt; !frames.is_free(2));
    assert_eq!(rt; frames.take(), Some(0));
    assert_eq!(rt; frames.take(), Some(1));
    assert_eq!(rt; frames.take(), Some(3));
    assert_eq!(rt; frames.take(), None);
    Ok(())
}

// As `take`, on a plain list. Whether both agree.
fn both_take(frames: &mut Frames, plain: &mut Vec<bool>) -> bool
    ensures { length frames.new ≡ length frames.old }
{
    let first = plain.iter().position(|free| *free);
    let Some(frame) = frames.take() else {
        return first.is_none();
    };
    let frame = frame as usize;
    if frame < plain.len() {
        plain[frame] = false;
    }
    first == Some(frame)
}

fn both_give(frames: &mut Frames, plain: &mut Vec<bool>, frame: u32)
    requires { frame < length frames.old }
    ensures { length frames.new ≡ length frames.old }
{
    give_back(frames, frame);
    if (frame as usize) < plain.len() {
        plain[frame as usize] = true;
    }
}

#[test]
fn agrees_with_a_plain_list(rt: HostRuntime) -> Result<(), Fail> {
    let mut frames = Frames::new(rt.alloc(), 200)?;
    let mut plain = vec![in rt.alloc(); true; 200]?;
    let mut number = 1u32;
    for _turn in 0..3000 {
        number = number.wrapping_mul(1664525).wrapping_add(1013904223);
        if (number >> 16) % 5 < 3 {
            assert!(rt; both_take(&mut frames, &mut plain));
        } else {
            both_give(&mut frames, &mut plain, (number >> 8) % 200);
        }
        let free = plain.iter().filter(|free| **free).count();
        assert_eq!(rt; frames.free_count() as usize, free);
    }
    Ok(())
}

// Shows that exactly two steps were taken.
fn two_steps<L: Ledger>(steps: &Steps<L>)
    requires { steps.now ≡ 2 }
{}

// Shows that one step was taken, or two.
fn one_or_two_steps<L: Ledger>(steps: &Steps<L>)
    requires one { 1 ≤ steps.now }
    requires two { steps.now ≤ 2 }
{}

fn counted_least<L: Ledger>(row: &BitRow, blank: Blank) -> Option<u32>
    requires name { blank.name ≡ L.name }
    requires parts { blank.parts ≡ L.parts }
    requires some { 0 < blank.parts }
{
    let mut steps = Steps::new(blank);
    let found = least::<BitRow, L>(row, &mut steps);
    match found {
        Some(_) => two_steps(&steps),
        None => one_or_two_steps(&steps),
    }
    found
}

fn least_of_row(row: &BitRow) -> Option<u32> {
    counted_least::<Brand>(row, Blank::new(1))
}

fn put(row: &mut BitRow, number: u32)
    requires { number < length row.old }
    ensures { length row.new ≡ length row.old }
{
    row.put(number);
}

#[test]
fn finds_the_last_number_in_two_steps(rt: HostRuntime) -> Result<(), Fail> {
    let mut row = BitRow::new(rt.alloc(), 4096, false)?;
    assert_eq!(rt; least_of_row(&row), None);
    put(&mut row, 4095);
    assert_eq!(rt; least_of_row(&row), Some(4095));
    row.drop_out(4095);
    assert_eq!(rt; least_of_row(&row), None);
    Ok(())
}

#[test]
fn fills_a_row_below_its_count(rt: HostRuntime) -> Result<(), Fail> {
    let mut row = BitRow::new(rt.alloc(), 65, true)?;
    for number in 0..65 {
        assert_eq!(rt; least_of_row(&row), Some(number));
        row.drop_out(number);
        assert!(rt; !row.contains(number));
    }
    assert_eq!(rt; least_of_row(&row), None);
    assert_eq!(rt; least_of_row(&BitRow::new(rt.alloc(), 0, true)?), None);
    let full = BitRow::new(rt.alloc(), 4096, true)?;
    assert!(rt; full.contains(4095));
    Ok(())
}
