//! The report of a process that ends by a fault.

ghost use Rattle.std.specs.Prelude.{◌≡◌, ◌+◌, ◌<◌, ◌-ℤ◌, ◌^◌, pos};
ghost use Rattle.osc_calls.specs.Reports.{fault_place, object_place, place_at, report_of};

use osc_calls::{Place, Report};
use osc_mark::{Marks, ObjectState};
use osc_word::{Fault, ObjectNo, Pid};

/// The bytes of a page.
const PAGE: u64 = 4096;

/// An address less another that is not far from it.
fn difference(address: u64, from: u64) -> i64
    requires above { address < from + 2 ^ 63 }
    requires below { from < address + 2 ^ 63 }
    ensures { result ≡ pos address -ℤ pos from }
{
    if address >= from {
        (address - from) as i64
    } else {
        -((from - address) as i64)
    }
}

/// The place of an address at an offset in an object.
fn object_place(object: ObjectNo, offset: i64, state: ObjectState) -> Place
    ensures { result ≡ object_place object offset state }
{
    match state {
        ObjectState::Live => Place::Live { object, offset },
        ObjectState::Dead(call) => Place::Dead {
            object,
            offset,
            call,
        },
    }
}

/// Whose address this is.
fn place_at(marks: &Marks, address: u64) -> Place
    ensures { result ≡ place_at marks.now.objects address }
{
    match marks.owner(address / PAGE) {
        None => Place::Nowhere,
        Some(object) => {
            let fact = marks.fact(object);
            object_place(object, difference(address, fact.user), fact.state)
        }
    }
}

/// The place of a fault; that of a fault that is no access is Nowhere.
fn fault_place(marks: &Marks, fault: Fault) -> Place
    ensures { result ≡ fault_place marks.now.objects fault }
{
    match fault {
        Fault::Access { address, .. } => place_at(marks, address),
        Fault::DoubleFree { .. }
        | Fault::BadFree { .. }
        | Fault::Header { .. }
        | Fault::UnknownCall { .. } => Place::Nowhere,
    }
}

/// The report of the end of a process with these marks, by a fault of its thread on this hart.
pub fn report(pid: Pid, hart: u32, marks: &Marks, fault: Fault) -> Report
    ensures { result ≡ report_of pid hart marks.now.objects fault }
{
    Report {
        pid,
        hart,
        fault,
        place: fault_place(marks, fault),
    }
}
