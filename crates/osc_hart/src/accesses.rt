//! Accesses to memory, as instructions make them.
ghost use Rattle.std.specs.Prelude.{◌≡◌, ◌<◌, ◌^◌, ◌/◌, IfSome, true};
ghost use Rattle.osc_isa.specs.Integer as integer;
ghost use Rattle.osc_isa.specs.Atomic as atomic;
ghost use Rattle.osc_guest.specs.Accesses as accesses;
ghost use Rattle.osc_guest.specs.Asks as asks;
ghost use Rattle.osc_guest.specs.Looking as looking;
ghost use Rattle.osc_guest.specs.AccessLaws.{is_access_width};
ghost use Rattle.osc_hart.specs.Sound.{IsAccess, IsFormed, StageFits, WhatFits, DoneFits};

use crate::words::{part_of, with_part};
use osc_amo::{amo, widen};
use osc_guest::{MemoryAccess, Reservation, Stage, What};
use osc_int::{IntDone, extended};
use osc_rv::{Instr, LoadKind, Width};
use osc_sv39::Access;
use osc_word::{Choice, WordAt};

/// The fetch of the instruction at a pc.
pub fn fetch_at(pc: u64) -> MemoryAccess
    ensures value { result ≡ accesses.fetch_at pc }
    ensures formed { IsFormed result }
{
    MemoryAccess {
        address: pc,
        width: 4,
        rd: 0,
        what: What::Fetch,
    }
}

/// The bytes of a load.
fn load_width(kind: LoadKind) -> u8
    ensures { result ≡ integer.load_width kind }
{
    match kind {
        LoadKind::Lb | LoadKind::Lbu => 1,
        LoadKind::Lh | LoadKind::Lhu => 2,
        LoadKind::Lw | LoadKind::Lwu => 4,
        LoadKind::Ld => 8,
    }
}

/// The bytes of an atomic access.
fn width_of(width: Width) -> u8
    ensures { result ≡ atomic.width_of width }
{
    match width {
        Width::W => 4,
        Width::D => 8,
    }
}

/// The low bits of a number that a width takes.
fn narrowed(width: Width, number: u64) -> u64
    ensures value { result ≡ atomic.narrowed width number }
    ensures fits { result < 256 ^ atomic.width_of width }
{
    match width {
        Width::W => number % (1 << 32),
        Width::D => number,
    }
}

/// The access of an atomic instruction; None exactly for any other.
#[inline(never)]
fn atomic_at(instr: &Instr, address: u64, operand: u64) -> Option<MemoryAccess>
    ensures value { result ≡ accesses.atomic_at instr.now address operand }
    ensures formed { IfSome result IsFormed }
{
    let (width, rd, what) = match *instr {
        Instr::Amo { op, width, rd, .. } => (width, rd, What::Amo { op, width, operand }),
        Instr::Lr { width, rd, .. } => (width, rd, What::Lr(width)),
        Instr::Sc { width, rd, .. } => (width, rd, What::Sc(narrowed(width, operand))),
        _ => return None,
    };
    Some(MemoryAccess {
        address,
        width: width_of(width),
        rd: rd.value() as u8,
        what,
    })
}

/// The access of an instruction that does this; None where it makes none.
#[inline(always)]
pub fn access_of(instr: &Instr, done: &IntDone) -> Option<MemoryAccess>
    requires { DoneFits done.now }
    ensures value { result ≡ accesses.access_of instr.now done.now }
    ensures formed { IfSome result IsFormed }
{
    match *done {
        IntDone::Load { rd, kind, address } => Some(MemoryAccess {
            address,
            width: load_width(kind),
            rd,
            what: What::Load(kind),
        }),
        IntDone::Store {
            width,
            address,
            value,
        } => Some(MemoryAccess {
            address,
            width,
            rd: 0,
            what: What::Store(value),
        }),
        IntDone::Atomic { address, operand } => atomic_at(instr, address, operand),
        _ => None,
    }
}

/// What an access needs of a page.
pub fn kind_of(what: What) -> Access
    ensures { result ≡ accesses.kind_of what }
{
    match what {
        What::Fetch => Access::Fetch,
        What::Load(_) | What::Lr(_) => Access::Load,
        What::Store(_) | What::Amo { .. } | What::Sc(_) => Access::Store,
    }
}

/// The same, as a label says it.
pub fn touched_kind(kind: Access) -> osc_word::Access
    ensures { result ≡ accesses.touched_kind kind }
{
    match kind {
        Access::Fetch => osc_word::Access::Fetch,
        Access::Load => osc_word::Access::Load,
        Access::Store => osc_word::Access::Store,
    }
}

/// The cause of an access without a translation.
pub fn page_fault(kind: Access) -> u8
    ensures { result ≡ accesses.page_fault kind }
{
    match kind {
        Access::Fetch => 12,
        Access::Load => 13,
        Access::Store => 15,
    }
}

/// The cause of a misaligned access.
pub fn misaligned(kind: Access) -> u8
    ensures { result ≡ accesses.misaligned kind }
{
    match kind {
        Access::Fetch => 0,
        Access::Load => 4,
        Access::Store => 6,
    }
}

/// The page of an access.
pub fn page_of(access: &MemoryAccess) -> u64
    ensures value { result ≡ accesses.access_page access.now }
    ensures range { result < 2 ^ 52 }
{
    access.address / 4096
}

/// The word of a frame that holds the bytes of an access.
#[inline(always)]
pub fn word_place(access: &MemoryAccess, frame: u32) -> WordAt
    ensures { result ≡ asks.word_place access.now frame }
{
    WordAt {
        frame,
        index: (access.address % 4096 / 8) as u16,
    }
}

/// What an access finds in the word that holds its bytes.
pub fn found_by(access: &MemoryAccess, word: u64) -> u64
    requires { IsFormed access.now }
    ensures value { result ≡ accesses.found_by access.now word }
    ensures fits { result < 256 ^ access.now.width }
{
    part_of(access.address, access.width, word)
}

/// The number that goes into the bytes, by the number that was found there.
fn number_stored(what: What, width: u8, found: u64) -> u64
    requires what { WhatFits what width }
    requires found { found < 256 ^ width }
    ensures value { result ≡ accesses.number_stored what found }
    ensures fits { result < 256 ^ width }
{
    match what {
        What::Fetch | What::Load(_) | What::Lr(_) => found,
        What::Store(value) | What::Sc(value) => value,
        What::Amo { op, width, operand } => amo(op, width, found, operand),
    }
}

/// The word that is stored where this one was found.
pub fn word_stored(access: &MemoryAccess, word: u64) -> u64
    requires { IsAccess access.now }
    ensures { result ≡ accesses.word_stored access.now word }
{
    let number = number_stored(access.what, access.width, found_by(access, word));
    with_part(access.address, access.width, word, number)
}

/// What a load puts into its register, by the number that it found.
fn loaded(kind: LoadKind, number: u64) -> u64
    requires { number < 256 ^ integer.load_width kind }
    ensures { result ≡ integer.loaded kind number }
{
    match kind {
        LoadKind::Lb => extended(8, number),
        LoadKind::Lh => extended(16, number),
        LoadKind::Lw => extended(32, number),
        LoadKind::Ld | LoadKind::Lbu | LoadKind::Lhu | LoadKind::Lwu => number,
    }
}

/// What goes into the register of an access that found this word.
pub fn number_kept(access: &MemoryAccess, word: u64) -> u64
    requires { IsFormed access.now }
    ensures { result ≡ accesses.number_kept access.now.what (accesses.found_by access.now word) }
{
    let found = found_by(access, word);
    match access.what {
        What::Fetch | What::Store(_) | What::Sc(_) => 0,
        What::Load(kind) => loaded(kind, found),
        What::Amo { width, .. } | What::Lr(width) => widen(width, found),
    }
}

/// The choice with which an access commits.
pub fn choice_of(what: What) -> Choice
    ensures { result ≡ accesses.choice_of what }
{
    match what {
        What::Sc(_) => Choice::Success,
        _ => Choice::Plain,
    }
}

/// The version that a reservation asks for, where it is for this access.
pub fn reserved_version(
    reservation: Option<Reservation>,
    access: &MemoryAccess,
    frame: u32,
) -> Option<u64>
    ensures { result ≡ accesses.reserved_version reservation access.now frame }
{
    let reserved = reservation?;
    if reserved.address == access.address
        && reserved.width == access.width
        && reserved.frame == frame
    {
        Some(reserved.version)
    } else {
        None
    }
}

/// The reservation once an access was done in a frame whose gate had this version.
pub fn reservation_after(
    access: &MemoryAccess,
    frame: u32,
    version: u64,
    before: Option<Reservation>,
) -> Option<Reservation>
    ensures { result ≡ accesses.reservation_after access.now.what
        (accesses.reservation_of access.now frame version) before }
{
    match access.what {
        What::Lr(_) => Some(Reservation {
            address: access.address,
            width: access.width,
            frame,
            version,
        }),
        What::Sc(_) => None,
        _ => before,
    }
}

/// How an access begins in its frame, by the version of the reservation for it; None for a
/// store-conditional without one.
pub fn first_stage(access: &MemoryAccess, reserved: Option<u64>) -> Option<Stage>
    requires { IsFormed access.now }
    ensures value { result ≡ looking.first_stage access.now.what reserved }
    ensures fits { IfSome result (λ stage. StageFits stage access.now.width) }
{
    match access.what {
        What::Fetch => Some(Stage::Fetch),
        What::Load(_) => Some(Stage::Load),
        What::Store(_) | What::Amo { .. } | What::Lr(_) => Some(Stage::TakeGate { only: None }),
        What::Sc(_) => Some(Stage::TakeGate {
            only: Some(reserved?),
        }),
    }
}
