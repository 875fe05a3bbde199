//! Writes texts to sinks.

ghost use Rattle.std.specs.Prelude.{◌≡◌, ◌≢◌, OnErr, OnOk};
ghost use Rattle.osc_calls.specs.Lines.{report_line};
ghost use Rattle.osc_machine.specs.Due.{ended_line, report_lines, summary_line};
ghost use Rattle.osc_machine.specs.Views.{counts_of};
ghost use Rattle.osc_core.specs.Sound.{Sound};
ghost use Rattle.osc_outside.specs.Bytes.{Appends};
ghost use Rattle.osc_outside.specs.Faults.{Rose};
ghost use Rattle.osc_top.specs.Due.{HasGuestStatus, mode_lines, over_due, refusal_line, sink_fault};
ghost use Rattle.osc_top.specs.Due as due;
ghost use Rattle.osc_top.specs.Answer.{AppendsFront, Broken, Delivered};
ghost use Rattle.osc_top.specs.Deciding.{due_in, state_in, IsSound};

use crate::decision::{Decision, Over};
use crate::lines::{refusal_line, summary_line, verdict_line};
use crate::outcome::{Outcome, Status, Verdict};
use osc_outside::{Failed, Sink};
use osc_report::{LineBuf, Report, line};

/// The status where a sink failed.
const SINK_FAULT: u8 = 67;

/// Writes all of a text. `Failed` comes only where the sink failed, and then the sink got the front of
/// the text.
fn write_all<K: Sink>(sink: &mut K, text: &[u8]) -> Result<(), Failed>
    ensures done { OnOk result (K.faults sink.new ≡ K.faults sink.old) }
    ensures cause { OnErr result (Rose (K.faults sink.old) (K.faults sink.new)) }
    ensures part { OnErr result (AppendsFront (K.holds sink.old) (K.holds sink.new) text.now) }
    ensures all { OnOk result (Appends (K.holds sink.old) (K.holds sink.new) text.now) }
{
    let mut at = 0;
    while at < text.len() {
        let taken = sink.write(&text[at..])?;
        at += taken;
    }
    Ok(())
}

/// Writes the line of a report.
fn write_report<K: Sink>(sink: &mut K, report: &Report) -> Result<(), Failed>
    ensures done { OnOk result (K.faults sink.new ≡ K.faults sink.old) }
    ensures cause { OnErr result (Rose (K.faults sink.old) (K.faults sink.new)) }
    ensures part { OnErr result (AppendsFront (K.holds sink.old) (K.holds sink.new) (ended_line (report_line report.now))) }
    ensures all { OnOk result (Appends (K.holds sink.old) (K.holds sink.new) (ended_line (report_line report.now))) }
{
    let mut text = LineBuf::new();
    line(report, &mut text);
    text.text(b"\n");
    write_all(sink, text.as_bytes())
}

/// Writes a line for each report, in their order.
fn write_reports<K: Sink>(sink: &mut K, reports: &[Report]) -> Result<(), Failed>
    ensures done { OnOk result (K.faults sink.new ≡ K.faults sink.old) }
    ensures cause { OnErr result (Rose (K.faults sink.old) (K.faults sink.new)) }
    ensures part { OnErr result (AppendsFront (K.holds sink.old) (K.holds sink.new) (report_lines reports.now)) }
    ensures all { OnOk result (Appends (K.holds sink.old) (K.holds sink.new) (report_lines reports.now)) }
{
    for report in reports {
        write_report(sink, report)?;
    }
    Ok(())
}

/// Writes the summary of a run that is over.
fn write_summary<K: Sink>(sink: &mut K, over: &Over) -> Result<(), Failed>
    requires { Sound (state_in over.now) }
    ensures done { OnOk result (K.faults sink.new ≡ K.faults sink.old) }
    ensures cause { OnErr result (Rose (K.faults sink.old) (K.faults sink.new)) }
    ensures part { OnErr result (AppendsFront (K.holds sink.old) (K.holds sink.new) (summary_line over.now.picks (counts_of (state_in over.now)))) }
    ensures all { OnOk result (Appends (K.holds sink.old) (K.holds sink.new) (summary_line over.now.picks (counts_of (state_in over.now)))) }
{
    let counts = over.machine.counts(&over.harts);
    let mut text = LineBuf::new();
    summary_line(over.picks, &counts, &mut text);
    write_all(sink, text.as_bytes())
}

/// Writes the line of what is said of a run, if it was judged.
fn write_verdict<K: Sink>(sink: &mut K, verdict: Option<Verdict>) -> Result<(), Failed>
    ensures done { OnOk result (K.faults sink.new ≡ K.faults sink.old) }
    ensures cause { OnErr result (Rose (K.faults sink.old) (K.faults sink.new)) }
    ensures part { OnErr result (AppendsFront (K.holds sink.old) (K.holds sink.new) (due.verdict_line verdict)) }
    ensures all { OnOk result (Appends (K.holds sink.old) (K.holds sink.new) (due.verdict_line verdict)) }
{
    let mut text = LineBuf::new();
    verdict_line(verdict, &mut text);
    write_all(sink, text.as_bytes())
}

/// Writes the lines of the mode of a run that is over: its summary, then what is said of it.
fn write_mode<K: Sink>(sink: &mut K, over: &Over) -> Result<(), Failed>
    requires { Sound (state_in over.now) }
    ensures done { OnOk result (K.faults sink.new ≡ K.faults sink.old) }
    ensures cause { OnErr result (Rose (K.faults sink.old) (K.faults sink.new)) }
    ensures part { OnErr result (AppendsFront (K.holds sink.old) (K.holds sink.new) (mode_lines over.now.picks (state_in over.now) over.now.verdict)) }
    ensures all { OnOk result (Appends (K.holds sink.old) (K.holds sink.new) (mode_lines over.now.picks (state_in over.now) over.now.verdict)) }
{
    write_summary(sink, over)?;
    write_verdict(sink, over.verdict)
}

/// Writes the text of a run that is over: its reports, then the lines of its mode.
fn write_over<K: Sink>(sink: &mut K, over: &Over) -> Result<(), Failed>
    requires { Sound (state_in over.now) }
    ensures done { OnOk result (K.faults sink.new ≡ K.faults sink.old) }
    ensures cause { OnErr result (Rose (K.faults sink.old) (K.faults sink.new)) }
    ensures part { OnErr result (AppendsFront (K.holds sink.old) (K.holds sink.new) (over_due over.now.picks (state_in over.now) over.now.verdict).text) }
    ensures all { OnOk result (Appends (K.holds sink.old) (K.holds sink.new) (over_due over.now.picks (state_in over.now) over.now.verdict).text) }
{
    write_reports(sink, over.reports())?;
    write_mode(sink, over)
}

/// Writes the line of a refusal.
fn write_refusal<K: Sink>(sink: &mut K, outcome: Outcome) -> Result<(), Failed>
    ensures done { OnOk result (K.faults sink.new ≡ K.faults sink.old) }
    ensures cause { OnErr result (Rose (K.faults sink.old) (K.faults sink.new)) }
    ensures part { OnErr result (AppendsFront (K.holds sink.old) (K.holds sink.new) (refusal_line outcome)) }
    ensures all { OnOk result (Appends (K.holds sink.old) (K.holds sink.new) (refusal_line outcome)) }
{
    let mut text = LineBuf::new();
    refusal_line(outcome, &mut text);
    write_all(sink, text.as_bytes())
}

/// Writes the text of a decision.
fn write_text<K: Sink>(sink: &mut K, decision: &Decision) -> Result<(), Failed>
    requires { IsSound decision.now }
    ensures done { OnOk result (K.faults sink.new ≡ K.faults sink.old) }
    ensures cause { OnErr result (Rose (K.faults sink.old) (K.faults sink.new)) }
    ensures part { OnErr result (AppendsFront (K.holds sink.old) (K.holds sink.new) (due_in decision.now).text) }
    ensures all { OnOk result (Appends (K.holds sink.old) (K.holds sink.new) (due_in decision.now).text) }
{
    match decision {
        Decision::Refused(outcome) => write_refusal(sink, *outcome),
        Decision::Ran(over) => write_over(sink, over),
        Decision::Made(_) => Ok(()),
    }
}

/// Writes the output to `out`, then the text to `err`. `Failed` comes only where one of them failed.
/// Then the text has not begun unless `out` got all of the output.
fn write_both<O: Sink, E: Sink>(decision: &Decision, out: &mut O, err: &mut E) -> Result<(), Failed>
    requires { IsSound decision.now }
    ensures broken { OnErr result (Broken (O.holds out.old) (O.holds out.new) (E.holds err.old) (E.holds err.new)
        (Rose (O.faults out.old) (O.faults out.new)) (Rose (E.faults err.old) (E.faults err.new))
        (due_in decision.now).output (due_in decision.now).text) }
    ensures done { OnOk result ((O.faults out.new ≡ O.faults out.old) × (E.faults err.new ≡ E.faults err.old)) }
    ensures out { OnOk result (Appends (O.holds out.old) (O.holds out.new) (due_in decision.now).output) }
    ensures err { OnOk result (Appends (E.holds err.old) (E.holds err.new) (due_in decision.now).text) }
{
    write_all(out, decision.output())?;
    write_text(err, decision)
}

/// Delivers what is due, and answers the status: that of the outcome, or 67 where a sink failed.
pub fn deliver<O: Sink, E: Sink>(decision: &Decision, out: &mut O, err: &mut E) -> Status
    requires guest { HasGuestStatus (due_in decision.now).outcome }
    requires sound { IsSound decision.now }
    ensures delivered { Delivered (O.holds out.old) (O.holds out.new) (E.holds err.old) (E.holds err.new)
        (Rose (O.faults out.old) (O.faults out.new)) (Rose (E.faults err.old) (E.faults err.new))
        (due_in decision.now) result.0 }
    ensures done { result.0 ≢ sink_fault → (O.faults out.new ≡ O.faults out.old) × (E.faults err.new ≡ E.faults err.old) }
{
    match write_both(decision, out, err) {
        Ok(()) => Status(decision.outcome().status()),
        Err(Failed) => Status(SINK_FAULT),
    }
}
