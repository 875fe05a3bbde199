//! The gates of the frames.

ghost use Rattle.std.specs.Prelude.{◌≡◌, ◌<◌, ◌≤◌, true, false, Some, map, option_map, slice_get, slice_set};
ghost use Rattle.osc_guest.specs.Fits.{last_version};
ghost use Rattle.osc_core.specs.Acting.{gate_told, gates_told, takes_gate};
ghost use Rattle.osc_core.specs.Shared.{gate_of};
ghost use Rattle.osc_turns.specs.Answers.{said};

use osc_turns::HartTold;
use osc_word::Frame;

/// A gate that is taken has this beside its version.
const TAKEN: u64 = 1 << 63;

/// A gate with this version is never taken again.
const LAST_VERSION: u64 = TAKEN - 1;

/// What is told of a gate that stands in a word, where it can be had or has another version.
fn told(word: u64, only: Option<u64>) -> Option<HartTold>
    ensures told { option_map said result ≡ gate_told only (Some (gate_of word)) }
    ensures within { takes_gate (option_map said result) ≡ true → word < last_version }
{
    if word >= LAST_VERSION {
        return None;
    }
    match only {
        Some(only) if only != word => Some(HartTold::OldVersion),
        _ => Some(HartTold::Gate(word)),
    }
}

/// Whether it is told that the gate was taken.
fn takes_gate(told: &Option<HartTold>) -> bool
    ensures { result ≡ takes_gate (option_map said told.now) }
{
    matches!(told, Some(HartTold::Gate(_)))
}

/// Takes a gate, where it is not taken, its version is not the last one, and it is the version that
/// is asked for, if one is. None where it is taken or its version is the last one.
pub fn take(gates: &mut [u64], frame: Frame, only: Option<u64>) -> Option<HartTold>
    ensures told { option_map said result ≡ gate_told only (slice_get (map gate_of gates.old) frame) }
    ensures gates { map gate_of gates.new ≡ gates_told (map gate_of gates.old) frame (gate_told only (slice_get (map gate_of gates.old) frame)) }
{
    let index = frame as usize;
    if index >= gates.len() {
        return None;
    }
    let word = gates[index];
    let told = told(word, only);
    if takes_gate(&told) {
        gates[index] = word + TAKEN;
    }
    told
}

/// Opens a gate, which has this version from then on.
#[tactic(auto, using(crate::proofs::Opening::set_open))]
pub fn open(gates: &mut [u64], frame: Frame, version: u64)
    requires { version ≤ last_version }
    ensures { map gate_of gates.new ≡ slice_set (map gate_of gates.old) frame (record { version = version; taken = false }) }
{
    let index = frame as usize;
    if index < gates.len() {
        gates[index] = version;
    }
}
