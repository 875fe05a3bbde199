//! The lines for err that are no reports, each with its newline. No memory is taken.

ghost use Rattle.std.specs.Prelude.{◌≡◌, ◌≤◌, ◌+◌, ◌++◌, length};
ghost use Rattle.std.specs.List.{concat};
ghost use Rattle.osc_machine.specs.Due.{summary_line};
ghost use Rattle.osc_top.specs.Due as due;
ghost use Rattle.osc_top.specs.Texts as texts;

use crate::outcome::{Outcome, Verdict};
use osc_assemble::TextFault;
use osc_cli::option_name;
use osc_elf::{ImageFault, SegmentWhy};
use osc_judge::ObjectWhy;
use osc_machine::Counts;
use osc_report::LineBuf;

/// The line of a call that found no memory.
pub const MEMORY_LINE: &str = "oscar: no memory\n";

/// Why a program header is refused, in words.
fn why_text(why: SegmentWhy) -> &'static str
    ensures text { result.now ≡ texts.why_text why }
    ensures length { length result.now ≤ 14 }
{
    match why {
        SegmentWhy::TableEnd => "table end",
        SegmentWhy::Dynamic => "dynamic",
        SegmentWhy::Interpreter => "interpreter",
        SegmentWhy::ThreadStorage => "thread storage",
        SegmentWhy::Sizes => "sizes",
        SegmentWhy::FileEnd => "file end",
        SegmentWhy::Range => "range",
    }
}

/// Appends why a program header is refused, with its number.
fn append_segment(index: u32, why: SegmentWhy, into: &mut LineBuf)
    requires { length into.old ≤ 64 }
    ensures after { into.new ≡ into.old ++ concat (texts.segment_text index why) }
    ensures length { length into.new ≤ length into.old + 64 }
{
    into.decimal(b"segment ", u64::from(index));
    into.text(b" ");
    into.text(why_text(why).as_bytes());
}

/// Appends why a file is no image.
fn append_fault(fault: ImageFault, into: &mut LineBuf)
    requires { length into.old ≤ 64 }
    ensures after { into.new ≡ into.old ++ concat (texts.fault_text fault) }
    ensures length { length into.new ≤ length into.old + 64 }
{
    match fault {
        ImageFault::TooLong => into.text(b"too long"),
        ImageFault::Truncated => into.text(b"truncated"),
        ImageFault::Magic => into.text(b"magic"),
        ImageFault::Class => into.text(b"class"),
        ImageFault::FileType => into.text(b"type"),
        ImageFault::Machine => into.text(b"machine"),
        ImageFault::Version => into.text(b"version"),
        ImageFault::Flags => into.text(b"flags"),
        ImageFault::HeaderSize => into.text(b"header size"),
        ImageFault::Segment { index, why } => append_segment(index, why, into),
        // a page's address has three more digits than its number
        ImageFault::WriteExec { page } => {
            into.hexadecimal(b"write and execute at 0x", page);
            into.text(b"000");
        }
        ImageFault::Entry { address } => into.hexadecimal(b"entry 0x", address),
        ImageFault::Memory => into.text(b"no memory"),
    }
}

/// Appends why a line of a text is refused.
fn append_line_fault(line: u32, why: &[u8], into: &mut LineBuf)
    requires room { length into.old ≤ 64 }
    requires why { length why.now ≤ 8 }
    ensures after { into.new ≡ into.old ++ concat (texts.line_fault line why.now) }
    ensures length { length into.new ≤ length into.old + 64 }
{
    into.decimal(b"line ", u64::from(line));
    into.text(why);
}

/// Appends why a text is not assembled.
fn append_text_fault(fault: TextFault, into: &mut LineBuf)
    requires { length into.old ≤ 64 }
    ensures after { into.new ≡ into.old ++ concat (texts.text_fault fault) }
    ensures length { length into.new ≤ length into.old + 64 }
{
    match fault {
        TextFault::TooLong => into.text(b"too long"),
        TextFault::Form { line } => append_line_fault(line, b" form", into),
        TextFault::Bound { line } => append_line_fault(line, b" bound", into),
        TextFault::Label { line } => append_line_fault(line, b" label", into),
        TextFault::Far { line } => append_line_fault(line, b" far", into),
        TextFault::FileTooLong => into.text(b"file too long"),
        TextFault::Memory => into.text(b"no memory"),
    }
}

/// Appends an option's name to the front of its line.
fn append_option(place: u8, into: &mut LineBuf)
    requires { length into.old ≤ 64 }
    ensures after { into.new ≡ into.old ++ concat (due.option_text place) }
    ensures length { length into.new ≤ length into.old + 64 }
{
    into.text(b"oscar: usage: --");
    into.text(option_name(place).as_bytes());
}

/// Appends the line of an outcome, without its newline.
fn append_refusal(outcome: Outcome, into: &mut LineBuf)
    requires { length into.old ≤ 1 }
    ensures after { into.new ≡ into.old ++ concat (due.refusal_text outcome) }
    ensures length { length into.new ≤ 200 }
{
    match outcome {
        Outcome::UnknownWords => into.text(b"oscar: usage: words"),
        Outcome::BadOption(place) => append_option(place, into),
        Outcome::BadImage(fault) => {
            into.text(b"oscar: image: ");
            append_fault(fault, into);
        }
        Outcome::NoRoom { needed, frames } => {
            into.decimal(b"oscar: image needs ", needed);
            into.decimal(b" frames of ", u64::from(frames));
        }
        Outcome::SourceFault => into.text(b"oscar: source fault"),
        Outcome::NoMemory => into.text(b"oscar: no memory"),
        Outcome::Spent { picks } => into.decimal(b"oscar: spent: picks ", picks),
        Outcome::BadText(fault) => {
            into.text(b"oscar: text: ");
            append_text_fault(fault, into);
        }
        Outcome::Fault | Outcome::Exit(_) | Outcome::Done => {}
    }
}

/// The line that says why nothing was run, or that a run is not over. It replaces what the buffer held.
pub fn refusal_line(outcome: Outcome, into: &mut LineBuf)
    ensures { into.new ≡ due.refusal_line outcome }
{
    into.clear();
    append_refusal(outcome, into);
    into.text(b"\n");
}

/// The summary of a run of so many picks. It replaces what the buffer held.
#[tactic(auto, unfolding(osc_machine::specs::Due::summary_line))]
pub fn summary_line(picks: u64, counts: &Counts, into: &mut LineBuf)
    ensures { into.new ≡ summary_line picks counts.now }
{
    into.clear();
    into.decimal(b"run: picks ", picks);
    into.decimal(b" retired ", counts.retired);
    into.decimal(b" calls ", u64::from(counts.calls));
    into.decimal(b" hits ", counts.hits);
    into.decimal(b" walks ", counts.walks);
    into.decimal(b" clears ", counts.clears);
    into.decimal(b" marks ", counts.marks);
    into.decimal(b" peak ", u64::from(counts.peak));
    into.text(b"\n");
}

/// Why an event has no meaning, in words.
fn object_text(why: ObjectWhy) -> &'static str
    ensures text { result.now ≡ texts.object_text why }
    ensures length { length result.now ≤ 24 }
{
    match why {
        ObjectWhy::Trap => "trap",
        ObjectWhy::PointerUse => "pointer use",
        ObjectWhy::DeadObject => "dead object",
        ObjectWhy::Outside => "outside",
        ObjectWhy::PointerBytes => "pointer bytes",
        ObjectWhy::PointerShared => "pointer in shared region",
        ObjectWhy::BadFree => "bad free",
        ObjectWhy::BadCall => "bad call",
    }
}

/// Appends what is said of a run that was judged, without a newline.
fn append_verdict(verdict: Verdict, into: &mut LineBuf)
    requires { length into.old ≤ 1 }
    ensures after { into.new ≡ into.old ++ concat (due.verdict_text verdict) }
    ensures length { length into.new ≤ 100 }
{
    match verdict {
        Verdict::Clean => into.text(b"object: clean"),
        Verdict::Error(error) => {
            into.decimal(b"object: error at event ", error.event);
            into.text(b": ");
            into.text(object_text(error.why).as_bytes());
        }
    }
}

/// The line of what is said of a run, or nothing where it was not judged. It replaces what the buffer held.
pub fn verdict_line(verdict: Option<Verdict>, into: &mut LineBuf)
    ensures { into.new ≡ due.verdict_line verdict }
{
    into.clear();
    match verdict {
        None => {}
        Some(verdict) => {
            append_verdict(verdict, into);
            into.text(b"\n");
        }
    }
}
