use crate::{
    Object, Row, amo_value, is_amo_operand, is_taken_for, multiplied, operated, operated_imm,
    value_in,
};
use osc_rv::{AmoOp, BranchKind, ImmOp, MulOp, RegOp, Width};
use osc_world::{Byte, ObjectWhy, Value};
use std::test::Fail;

const THIRD: Value = Value::Ptr {
    object: 3,
    offset: 8,
};

#[test]
fn a_pointer_comes_back_whole_and_alone(rt: HostRuntime) -> Result<(), Fail> {
    let mut row = Row::zeros(rt.alloc(), 24)?;
    row.put(8, 8, THIRD);
    assert_eq!(rt; row.value_at(8, 8), Some(THIRD));
    assert_eq!(rt; row.value_at(8, 4), None);
    assert_eq!(rt; row.value_at(0, 8), Some(Value::Num(0)));
    row.put(9, 1, Value::Num(0x1ff));
    assert_eq!(rt; row.value_at(8, 8), None);
    assert_eq!(rt; row.byte_at(9), Some(Byte::Number(0xff)));
    assert_eq!(rt; row.byte_at(24), None);
    let longer = row.resized(rt.alloc(), 40)?;
    assert_eq!(rt; longer.size(), 40);
    assert_eq!(rt; longer.byte_at(9), Some(Byte::Number(0xff)));
    assert_eq!(rt; longer.byte_at(39), Some(Byte::Number(0)));
    let copy = longer.copied(rt.alloc())?;
    assert_eq!(rt; copy.byte_at(9), Some(Byte::Number(0xff)));
    let spelled = Row::of_numbers(rt.alloc(), &[1, 2, 0x80])?;
    assert_eq!(rt; spelled.size(), 3);
    assert_eq!(rt; spelled.value_at(1, 2), Some(Value::Num(0x8002)));
    Ok(())
}

#[test]
fn a_dead_object_has_a_size_alone(rt: HostRuntime) -> Result<(), Fail> {
    let mut object = Object::zeros(rt.alloc(), 24)?;
    object.put(16, 8, Value::Num(7));
    assert_eq!(rt; object.value_at(16, 8), Some(Value::Num(7)));
    assert_eq!(rt; object.reach(16, 8), Ok(()));
    assert_eq!(rt; object.reach(17, 8), Err(ObjectWhy::Outside));
    assert!(rt; object.is_live_start(0));
    let other = object.resized(rt.alloc(), 20)?;
    assert_eq!(rt; other.value_at(16, 4), Some(Value::Num(7)));
    object.kill();
    let dead = object.copied(rt.alloc())?;
    assert_eq!(rt; dead.reach(16, 8), Err(ObjectWhy::DeadObject));
    assert_eq!(rt; dead.byte_at(16), None);
    assert!(rt; dead.has_offset(24));
    assert!(rt; !dead.has_live_offset(24));
    assert!(rt; !dead.is_live_start(0));
    Ok(())
}

#[test]
fn pointers_have_few_rows(rt: HostRuntime) -> Result<(), Fail> {
    let mut objects = Vec::new(rt.alloc());
    objects.push(Object::zeros(rt.alloc(), 8)?)?;
    objects.push(Object::zeros(rt.alloc(), 8)?)?;
    let first = Value::Ptr {
        object: 0,
        offset: 8,
    };
    let second = Value::Ptr {
        object: 1,
        offset: 0,
    };
    let moved = Value::Ptr {
        object: 0,
        offset: 9,
    };
    assert_eq!(rt;
        operated(&objects, RegOp::Add, first, Value::Num(1)),
        Some(moved)
    );
    assert_eq!(rt;
        operated(&objects, RegOp::Sub, moved, first),
        Some(Value::Num(1))
    );
    assert_eq!(rt; operated(&objects, RegOp::Sub, moved, second), None);
    assert_eq!(rt;
        operated_imm(&objects, ImmOp::Sltiu, first, 1),
        Some(Value::Num(0))
    );
    assert_eq!(rt; operated_imm(&objects, ImmOp::Sltiu, moved, 1), None);
    assert_eq!(rt;
        is_taken_for(&objects, BranchKind::Bne, first, second),
        Some(true)
    );
    assert_eq!(rt;
        is_taken_for(&objects, BranchKind::Bltu, first, second),
        None
    );
    assert_eq!(rt;
        multiplied(MulOp::Mul, Value::Num(6), Value::Num(7)),
        Some(Value::Num(42))
    );
    assert_eq!(rt; multiplied(MulOp::Mul, first, Value::Num(1)), None);
    Ok(())
}

#[test]
fn a_pointer_is_exchanged_whole(rt: HostRuntime) -> Result<(), Fail> {
    assert!(rt; is_amo_operand(AmoOp::Swap, Width::D, THIRD));
    assert!(rt; !is_amo_operand(AmoOp::Swap, Width::W, THIRD));
    let zero = Value::Num(0);
    assert_eq!(rt; amo_value(AmoOp::Swap, Width::D, zero, THIRD), Some(THIRD));
    assert_eq!(rt; amo_value(AmoOp::Add, Width::D, THIRD, zero), None);
    assert_eq!(rt; value_in(&[], 0, 8), Some(zero));
    Ok(())
}
