use super::*;
use osc_rv::MulOp;
use std::test::Fail;

#[test]
fn products_and_quotients_at_the_edges(rt: HostRuntime) -> Result<(), Fail> {
    let all = u64::MAX;
    let top = 1 << 63;
    assert_eq!(rt; mul_value(MulOp::Mulhu, all, all), all - 1);
    assert_eq!(rt; mul_value(MulOp::Mulhsu, all, all), all);
    assert_eq!(rt; mul_value(MulOp::Mulh, all, all), 0);
    assert_eq!(rt; mul_value(MulOp::Div, top, all), top);
    assert_eq!(rt; mul_value(MulOp::Divuw, 5, 0), all);
    assert_eq!(rt;
        mul_value(MulOp::Remw, 0x8000_0000, 0),
        0xFFFF_FFFF_8000_0000
    );
    assert_eq!(rt; mul_value(MulOp::Rem, all - 6, 2), all);
    Ok(())
}
