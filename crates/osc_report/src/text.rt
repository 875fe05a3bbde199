//! The text of a report.

ghost use Rattle.std.specs.Prelude.{◌≡◌, ◌<◌, ◌≤◌, ◌+◌, ◌++◌, length};
ghost use Rattle.std.specs.List.{concat};
ghost use Rattle.osc_calls.specs.Lines.{report_line, fault_text, place_text};

use crate::buffer::LineBuf;
use osc_calls::{Place, Report};
use osc_word::Fault;

/// Appends whose address an access met.
fn append_place(place: Place, into: &mut LineBuf)
    requires { length into.old ≤ 120 }
    ensures after { into.new ≡ into.old ++ concat (place_text place) }
    ensures length { length into.new ≤ length into.old + 90 }
{
    match place {
        Place::Dead {
            object,
            offset,
            call,
        } => {
            into.decimal(b"object ", u64::from(object));
            into.signed_decimal(b" offset ", offset);
            into.decimal(b" freed by call ", u64::from(call));
        }
        Place::Live { object, offset } => {
            into.decimal(b"object ", u64::from(object));
            into.signed_decimal(b" offset ", offset);
            into.text(b" live");
        }
        Place::Nowhere => into.text(b"no object"),
    }
}

/// Appends what the fault was.
fn append_fault(fault: Fault, place: Place, into: &mut LineBuf)
    requires { length into.old ≤ 64 }
    ensures after { into.new ≡ into.old ++ concat (fault_text fault place) }
    ensures length { length into.new ≤ length into.old + 140 }
{
    match fault {
        Fault::Access { cause, address } => {
            into.decimal(b"cause ", u64::from(cause));
            into.hexadecimal(b" at 0x", address);
            into.text(b": ");
            append_place(place, into);
        }
        Fault::DoubleFree {
            pointer,
            object,
            call: first,
        } => {
            into.hexadecimal(b"double free at 0x", pointer);
            into.decimal(b": object ", u64::from(object));
            into.decimal(b" freed by call ", u64::from(first));
        }
        Fault::BadFree { pointer } => {
            into.hexadecimal(b"bad free at 0x", pointer);
            into.text(b": no object starts there");
        }
        Fault::Header {
            object,
            kept,
            found,
        } => {
            into.decimal(b"header of object ", u64::from(object));
            into.hexadecimal(b" kept 0x", kept);
            into.hexadecimal(b" found 0x", found);
        }
        Fault::UnknownCall { number } => {
            into.decimal(b"call ", number);
            into.text(b" unknown");
        }
    }
}

/// The line of a report, without a newline, for which there is room; it replaces what the buffer held.
/// Numbers are decimal, and addresses and header words are hexadecimal in lower case.
#[tactic(auto, unfolding(osc_calls::specs::Lines::report_line))]
pub fn line(report: &Report, into: &mut LineBuf)
    ensures text { into.new ≡ report_line report.now }
    ensures fits { length into.new < 256 }
{
    into.clear();
    into.decimal(b"fault: process ", u64::from(report.pid));
    into.decimal(b" hart ", u64::from(report.hart));
    into.text(b" ");
    append_fault(report.fault, report.place, into);
}
