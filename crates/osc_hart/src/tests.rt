//! Programs of a few instructions, in a machine of 64 frames without a kernel. The code's page stands in
//! frame 4, and the page of the data, 0x1000000000, in frame 22.

ghost use Rattle.std.specs.Prelude.{◌≡◌, IfOk, IfSome};
ghost use Rattle.osc_guest.specs.Fits.{Fits};
ghost use Rattle.osc_guest.specs.Ranges.{BoxIn, OrderIn, StartIn, ToldIn};
ghost use Rattle.osc_hart.specs.Answers.{said};
ghost use Rattle.osc_hart.specs.Within.{Driven};

use crate::{Ask, HartBox, Told, UserHart, boxes_fit, stays_driven};
use osc_cache::has_32_slots;
use osc_guest::places_ask;
use osc_word::{Access, Call, Fault, Order, Regs, Request, Resume, Start, WordAt};
use std::alloc::{AllocError, AllocGlobal, Global};
use std::process::Abort;
use std::test::Fail;

const CODE: u64 = 0x10000;

const DATA: u64 = 0x10_0000_0010;

/// The words of all frames, the version of each gate, and the hart's box while it is at home.
#[derive(Drop)]
struct World {
    words: Vec<u64>,
    versions: Vec<u64>,
    home: Option<HartBox>,
}

/// A new box, which names no frame.
fn at_home(alloc: Global) -> Result<HartBox, AllocError>
    ensures { IfOk result (BoxIn 64) }
{
    boxes_fit();
    let hart_box = HartBox::new(alloc)?;
    Ok(hart_box)
}

impl World {
    /// Tables, and the code.
    fn new(rt: &(impl Abort + AllocGlobal), code: &[u64]) -> Result<World, Fail>
        ensures { IfOk result (λ world. IfSome world.home (BoxIn 64)) }
    {
        let mut words = vec![in rt.alloc(); 0; 64 * 512]?;
        for (at, word) in [
            (0, 0x401),
            (64, 0x401),
            (512, 0x801),
            (1024, 0x58d7),
            (1040, 0x10db),
        ] {
            assert!(rt; at < words.len());
            words[at] = word;
        }
        assert!(rt; 2048 <= words.len());
        for (word, value) in words[2048..].iter_mut().zip(code.iter()) {
            *word = *value;
        }
        Ok(World {
            words,
            versions: vec![in rt.alloc(); 5; 64]?,
            home: Some(at_home(rt.alloc())?),
        })
    }

    /// What a gate answers to a hart that takes it with this version only, or with any.
    fn take_gate(&self, rt: &impl Abort, frame: u32, only: Option<u64>) -> Told
        ensures fits { Fits (Ask.TakeGate frame only) (said result) }
        ensures machine { ToldIn 64 (said result) }
    {
        assert!(rt; (frame as usize) < self.versions.len());
        let version = self.versions[frame as usize];
        assert!(rt; version < 1000);
        match only {
            Some(wanted) if wanted != version => Told::OldVersion,
            _ => Told::Gate(version),
        }
    }

    /// Another hart stores so often in the data's frame.
    fn store_elsewhere(&mut self, rt: &impl Abort, times: u32)
        ensures { self.new.home ≡ self.old.home }
    {
        assert!(rt; 22 < self.versions.len() && self.versions[22] < 1000);
        self.versions[22] += u64::from(times);
    }

    fn tell(&mut self, order: Order)
        requires order { OrderIn 64 order }
        requires home { IfSome self.old.home (BoxIn 64) }
        ensures { IfSome self.new.home (BoxIn 64) }
    {
        if let Some(hart_box) = &mut self.home {
            hart_box.set_order(order);
        }
    }
}

/// A thread at the code, with its data's address in a0 and a number in t0.
fn start(pc: u64, a0: u64) -> Start
    ensures { StartIn 64 result }
{
    let mut regs = Regs::new();
    regs.set(10, a0);
    regs.set(5, 9);
    Start {
        pid: 0,
        root: 0,
        regs,
        pc,
        levels: 3,
        frames: 64,
    }
}

/// The order, if a thread that it starts is one of this machine.
fn of_machine(rt: &impl Abort, order: Order) -> Order
    ensures { OrderIn 64 result }
{
    match order {
        Order::Start(thread) => {
            assert!(rt; thread.frames == 64 && thread.root < 64);
            Order::Start(thread)
        }
        other => other,
    }
}

/// A hart that runs a thread at this pc, with this address in a0, or an idle one.
fn placed(running: bool, pc: u64, a0: u64, world: &World) -> UserHart
    requires { IfSome world.now.home (BoxIn 64) }
    ensures { Driven 64 result.hart world.now.home }
{
    stays_driven();
    if running {
        UserHart::begin(&start(pc, a0))
    } else {
        UserHart::idle()
    }
}

/// Does what the hart asks for, and tells it so. A call returns the data's
/// address.
fn step(rt: &impl Abort, hart: &mut UserHart, world: &mut World)
    requires { Driven 64 hart.old.hart world.old.home }
    ensures { Driven 64 hart.new.hart world.new.home }
{
    places_ask();
    boxes_fit();
    stays_driven();
    match hart.ask() {
        Ask::TakeBox => {
            if let Some(hart_box) = world.home.take() {
                has_32_slots(&hart_box);
                hart.told(Told::Box(hart_box));
            }
        }
        Ask::Load(at) => {
            let place = at.frame as usize * 512 + at.index as usize;
            assert!(rt; place < world.words.len());
            hart.told(Told::Word(world.words[place]));
        }
        Ask::TakeGate { frame, only } => {
            hart.told(world.take_gate(rt, frame, only));
        }
        Ask::Store { at, value } => {
            let place = at.frame as usize * 512 + at.index as usize;
            assert!(rt; place < world.words.len());
            world.words[place] = value;
            hart.told(Told::Done);
        }
        Ask::OpenGate { frame, version } => {
            assert!(rt; (frame as usize) < world.versions.len());
            world.versions[frame as usize] = version;
            hart.told(Told::Done);
        }
        Ask::GiveBox => {
            world.home = Some(hart.hand_back());
            hart.told(Told::Done);
        }
        Ask::Kernel(_) => {
            hart.told(Told::Resumed(Resume::Return(DATA)));
        }
        Ask::Rest => {}
    }
}

/// The hart asks for exactly this, one after another.
fn expect_asks(rt: &impl Abort, hart: &mut UserHart, world: &mut World, asks: &[Ask])
    requires { Driven 64 hart.old.hart world.old.home }
    ensures { Driven 64 hart.new.hart world.new.home }
{
    for ask in asks {
        assert_eq!(rt; hart.ask(), *ask);
        step(rt, hart, world);
    }
}

fn expect_three(rt: &impl Abort, hart: &mut UserHart, world: &mut World, asks: [Ask; 3])
    requires { Driven 64 hart.old.hart world.old.home }
{
    expect_asks(rt, hart, world, &asks);
}

/// What the hart asks the kernel for, within 20 steps.
fn request(rt: &impl Abort, hart: &mut UserHart, world: &mut World) -> Option<Request>
    requires { Driven 64 hart.old.hart world.old.home }
{
    'steps: for _ in 0..20 {
        if let Ask::Kernel(request) = hart.ask() {
            return Some(request);
        }
        step(rt, hart, world);
    }
    None
}

fn load(frame: u32, index: u16) -> Ask {
    Ask::Load(WordAt { frame, index })
}

fn store(value: u64) -> Ask {
    Ask::Store {
        at: WordAt {
            frame: 22,
            index: 2,
        },
        value,
    }
}

fn gate(only: Option<u64>) -> Ask {
    Ask::TakeGate { frame: 22, only }
}

fn opened(version: u64) -> Ask {
    Ask::OpenGate { frame: 22, version }
}

/// sd t0, 0(a0); ld t1, 0(a0); amoadd.w t1, t0, (a0); lr.d t1, (a0); sc.d a1, t0, (a0) twice; ecall.
const EACH_KIND: [u64; 4] = [
    0x0005_3303_0055_3023,
    0x1005_332f_0055_232f,
    0x1855_35af_1855_35af,
    0x73,
];

#[test]
fn each_kind(rt: HostRuntime) -> Result<(), Fail> {
    let mut world = World::new(&rt, &EACH_KIND)?;
    let mut hart = placed(true, CODE, DATA, &world);
    expect_asks(
        &rt,
        &mut hart,
        &mut world,
        &[
            Ask::TakeBox,
            load(0, 0),
            load(1, 0),
            load(2, 16),
            load(4, 0),
            load(0, 64),
            load(1, 0),
            load(2, 0),
            gate(None),
            load(22, 2),
            store(9),
            opened(6),
            Ask::GiveBox,
        ],
    );
    expect_asks(
        &rt,
        &mut hart,
        &mut world,
        &[Ask::TakeBox, load(4, 0), load(22, 2)],
    );
    let touch = hart.touched().map(|touch| (touch.address, touch.width, touch.kind, touch.done));
    assert_eq!(rt; touch, Some((DATA, 8, Access::Load, true)));
    expect_asks(
        &rt,
        &mut hart,
        &mut world,
        &[
            Ask::GiveBox,
            Ask::TakeBox,
            load(4, 1),
            gate(None),
            load(22, 2),
            store(18),
            opened(7),
            Ask::GiveBox,
        ],
    );
    expect_asks(
        &rt,
        &mut hart,
        &mut world,
        &[
            Ask::TakeBox,
            load(4, 1),
            gate(None),
            load(22, 2),
            opened(7),
            Ask::GiveBox,
        ],
    );
    expect_asks(
        &rt,
        &mut hart,
        &mut world,
        &[
            Ask::TakeBox,
            load(4, 2),
            gate(Some(7)),
            load(22, 2),
            store(9),
            opened(8),
            Ask::GiveBox,
        ],
    );
    expect_asks(
        &rt,
        &mut hart,
        &mut world,
        &[Ask::TakeBox, load(4, 2), Ask::GiveBox],
    );
    expect_asks(
        &rt,
        &mut hart,
        &mut world,
        &[
            Ask::TakeBox,
            load(4, 3),
            Ask::GiveBox,
            Ask::Kernel(Request::Call(Call::Unknown(0))),
            Ask::TakeBox,
        ],
    );
    assert_eq!(rt;
        [hart.regs().get(6), hart.regs().get(11), hart.regs().get(10)],
        [18, 1, DATA]
    );
    assert_eq!(rt;
        [hart.retired(), hart.hits(), hart.walks(), hart.pc()],
        [6, 12, 2, 0x1001c]
    );
    Ok(())
}

#[test]
fn causes(rt: HostRuntime) -> Result<(), Fail> {
    for (word, pc, a0, cause, address) in [
        (0x2000ef, CODE, DATA, 0, 0x10002),
        (0x53303, CODE + 2, DATA, 0, 0x10002),
        (0, CODE, DATA, 2, CODE),
        (0x100073, CODE, DATA, 3, CODE),
        (0x152303, CODE, DATA, 4, DATA + 1),
        (0x5520a3, CODE, DATA, 6, DATA + 1),
        (0x1855_35af, CODE, DATA + 4, 6, DATA + 4),
        (0x53303, 0x2000_0000, DATA, 12, 0x2000_0000),
        (0x53303, CODE, 0x2000_0000, 13, 0x2000_0000),
        (0x53303, CODE, 0x40_0000_0000, 13, 0x40_0000_0000),
        (0x553023, CODE, 0x2000_0000, 15, 0x2000_0000),
        (0x553023, CODE, CODE, 15, CODE),
    ] {
        let mut world = World::new(&rt, &[word])?;
        let mut hart = placed(true, pc, a0, &world);
        let fault = Fault::Access { cause, address };
        assert_eq!(rt;
            request(&rt, &mut hart, &mut world),
            Some(Request::Call(Call::End(fault)))
        );
        assert_eq!(rt;
            [
                hart.regs().get(1),
                hart.regs().get(6),
                hart.pc(),
                hart.retired()
            ],
            [0, 0, pc, 1]
        );
    }
    Ok(())
}

/// lr.d t1, (a0); the word here; sc.d a1, t0, (a0); ecall.
fn reserved(rt: &(impl Abort + AllocGlobal), between: u64, stores: u32) -> Result<u64, Fail> {
    let mut world = World::new(rt, &[0x1005_332f | between << 32, 0x73_1855_35af])?;
    let mut hart = placed(true, CODE, DATA, &world);
    'steps: for _ in 0..13 {
        step(rt, &mut hart, &mut world);
    }
    world.store_elsewhere(rt, stores);
    'others: for _ in 0..11 {
        step(rt, &mut hart, &mut world);
    }
    Ok(hart.regs().get(11))
}

#[test]
fn reservations(rt: HostRuntime) -> Result<(), Fail> {
    // An instruction that does nothing, a call, and another store-conditional of 4 bytes.
    for (between, stores, fails) in [
        (0x13, 0, 0),
        (0x13, 1, 1),
        (0x13, 2, 1),
        (0x73, 0, 1),
        (0x1855_25af, 0, 1),
    ] {
        assert_eq!(rt; reserved(&rt, between, stores)?, fails);
    }
    Ok(())
}

#[test]
fn orders(rt: HostRuntime) -> Result<(), Fail> {
    let idle = Ask::Kernel(Request::Idle);
    for (order, running, asks) in [
        (
            Order::Empty,
            false,
            [Ask::GiveBox, Ask::TakeBox, Ask::GiveBox],
        ),
        (Order::Stop, false, [Ask::GiveBox, idle, Ask::TakeBox]),
        (Order::Over, false, [Ask::GiveBox, Ask::Rest, Ask::Rest]),
        (
            Order::Start(start(CODE, DATA)),
            false,
            [load(0, 0), load(1, 0), load(2, 16)],
        ),
        (Order::Empty, true, [load(0, 0), load(1, 0), load(2, 16)]),
        (Order::Stop, true, [Ask::GiveBox, idle, Ask::TakeBox]),
        (Order::Over, true, [Ask::GiveBox, Ask::Rest, Ask::Rest]),
        (
            Order::Start(start(CODE + 2, DATA)),
            true,
            [load(0, 0), load(1, 0), load(2, 16)],
        ),
    ] {
        let mut world = World::new(&rt, &[0x13])?;
        world.tell(of_machine(&rt, order));
        let mut hart = placed(running, CODE, DATA, &world);
        expect_asks(&rt, &mut hart, &mut world, &[Ask::TakeBox]);
        expect_three(&rt, &mut hart, &mut world, asks);
    }
    Ok(())
}

#[test]
fn taken_by_another(rt: HostRuntime) {
    let mut hart = UserHart::idle();
    if let Ask::TakeBox = hart.ask() {
        assert_eq!(rt; hart.told(Told::Busy), None);
    }
    assert_eq!(rt; hart.ask(), Ask::TakeBox);
}
