use super::*;
use osc_word::Fault;
use std::test::Fail;

fn of_process(pid: u32, hart: u32, fault: Fault, place: Place) -> Report {
    Report {
        pid,
        hart,
        fault,
        place,
    }
}

fn of_first(fault: Fault) -> Report {
    of_process(0, 0, fault, Place::Nowhere)
}

fn access(cause: u8, address: u64) -> Fault {
    Fault::Access { cause, address }
}

fn dead(object: u32, offset: i64, call: u32) -> Place {
    Place::Dead {
        object,
        offset,
        call,
    }
}

fn double_free(pointer: u64) -> Fault {
    Fault::DoubleFree {
        pointer,
        object: 0,
        call: 1,
    }
}

fn header(kept: u64, found: u64) -> Fault {
    Fault::Header {
        object: 0,
        kept,
        found,
    }
}

#[test]
fn lines_of_accesses(rt: HostRuntime) -> Result<(), Fail> {
    let (most, least) = (u32::MAX, i64::MIN);
    let mut found = LineBuf::new();
    for (report, wanted) in [
        (
            of_process(0, 0, access(13, 0x10_0000_0018), dead(0, 8, 1)),
            "fault: process 0 hart 0 cause 13 at 0x1000000018: object 0 offset 8 freed by call 1",
        ),
        (
            of_process(1, 1, access(13, 0x10_0000_0010), dead(0, 0, 1)),
            "fault: process 1 hart 1 cause 13 at 0x1000000010: object 0 offset 0 freed by call 1",
        ),
        (
            of_process(most, most, access(255, u64::MAX), dead(most, least, most)),
            "fault: process 4294967295 hart 4294967295 cause 255 at 0xffffffffffffffff: object 4294967295 offset -9223372036854775808 freed by call 4294967295",
        ),
        (
            of_process(
                0,
                0,
                access(15, 0x10_0000_1FF8),
                Place::Live {
                    object: 12,
                    offset: -24,
                },
            ),
            "fault: process 0 hart 0 cause 15 at 0x1000001ff8: object 12 offset -24 live",
        ),
        (
            of_first(access(13, 0x20_0040_0010)),
            "fault: process 0 hart 0 cause 13 at 0x2000400010: no object",
        ),
        (
            of_first(access(13, u64::MAX - 3)),
            "fault: process 0 hart 0 cause 13 at 0xfffffffffffffffc: no object",
        ),
        (
            of_process(0, 1, access(0, 2), Place::Nowhere),
            "fault: process 0 hart 1 cause 0 at 0x2: no object",
        ),
        (
            of_first(access(13, 0x40_0000_0000)),
            "fault: process 0 hart 0 cause 13 at 0x4000000000: no object",
        ),
        (
            of_first(access(12, 0x40_0000_0000)),
            "fault: process 0 hart 0 cause 12 at 0x4000000000: no object",
        ),
        (
            of_first(access(12, 0)),
            "fault: process 0 hart 0 cause 12 at 0x0: no object",
        ),
    ] {
        line(&report, &mut found);
        assert_eq!(rt; found.as_bytes(), wanted.as_bytes());
    }
    Ok(())
}

#[test]
fn lines_of_calls(rt: HostRuntime) -> Result<(), Fail> {
    let mut found = LineBuf::new();
    for (fault, wanted) in [
        (
            double_free(0x10_0000_0010),
            "fault: process 0 hart 0 double free at 0x1000000010: object 0 freed by call 1",
        ),
        (
            Fault::BadFree {
                pointer: 0x10_0000_0020,
            },
            "fault: process 0 hart 0 bad free at 0x1000000020: no object starts there",
        ),
        (
            Fault::BadFree {
                pointer: 0x20_0040_0010,
            },
            "fault: process 0 hart 0 bad free at 0x2000400010: no object starts there",
        ),
        (
            header(0x18, 9),
            "fault: process 0 hart 0 header of object 0 kept 0x18 found 0x9",
        ),
        (
            header(0x20_0040_0010, 9),
            "fault: process 0 hart 0 header of object 0 kept 0x2000400010 found 0x9",
        ),
        (
            Fault::UnknownCall { number: 12 },
            "fault: process 0 hart 0 call 12 unknown",
        ),
        (
            Fault::UnknownCall { number: u64::MAX },
            "fault: process 0 hart 0 call 18446744073709551615 unknown",
        ),
    ] {
        line(&of_first(fault), &mut found);
        assert_eq!(rt; found.as_bytes(), wanted.as_bytes());
    }
    Ok(())
}
