//! How the hart of a call goes on once the call has returned.

ghost use Rattle.std.specs.Prelude.{◌≡◌};
ghost use Rattle.osc_calls.specs.Finish.{object_of, pointer_of, refused_number, resume_of, unknown_resume};

use osc_mark::Marks;
use osc_word::{Answer, Call, Fault, MINUS_ONE, ObjectNo, Resume};

/// The exception code of a load page fault: RISC-V Privileged manual, table "Supervisor cause register
/// (scause) values after trap".
const LOAD_PAGE_FAULT: u8 = 13;

/// The number that a refusal answers.
fn refused_number(call: Call) -> u64
    ensures { result ≡ refused_number call }
{
    match call {
        Call::Fork | Call::Spawn { .. } => MINUS_ONE,
        _ => 0,
    }
}

/// What was joined or waited for is unknown, or else the call is.
fn unknown_resume(call: Call) -> Resume
    ensures { result ≡ unknown_resume call }
{
    match call {
        Call::Unknown(number) => Resume::Fault(Fault::UnknownCall { number }),
        _ => Resume::Return(MINUS_ONE),
    }
}

/// The pointer that a call gives back.
fn pointer_of(call: Call) -> u64
    ensures { result ≡ pointer_of call }
{
    match call {
        Call::Free(pointer) | Call::Realloc { pointer, .. } => pointer,
        _ => 0,
    }
}

/// The object at the pointer that a call gives back.
fn object_of(marks: &Marks, call: Call) -> ObjectNo
    ensures { result ≡ object_of marks.now.objects call }
{
    marks.object_at(pointer_of(call)).unwrap_or(0)
}

/// How the hart goes on after a call of a process with these marks and this answer.
pub fn resume(marks: &Marks, call: Call, answer: Answer) -> Resume
    ensures { result ≡ resume_of marks.now.objects call answer }
{
    match answer {
        Answer::Number(number) => Resume::Return(number),
        Answer::Given { pointer, .. }
        | Answer::Placed { pointer }
        | Answer::Moved { pointer, .. } => Resume::Return(pointer),
        Answer::Freed { .. } | Answer::Nothing => Resume::Return(0),
        Answer::Ended => Resume::Idle,
        Answer::Unknown => unknown_resume(call),
        Answer::DoubleFree {
            object,
            call: since,
        } => Resume::Fault(Fault::DoubleFree {
            pointer: pointer_of(call),
            object,
            call: since,
        }),
        Answer::NotAnObject => Resume::Fault(Fault::BadFree {
            pointer: pointer_of(call),
        }),
        Answer::HeaderDamaged { kept, found } => Resume::Fault(Fault::Header {
            object: object_of(marks, call),
            kept,
            found,
        }),
        Answer::BadBuffer { address } => Resume::Fault(Fault::Access {
            cause: LOAD_PAGE_FAULT,
            address,
        }),
        Answer::NoShadow
        | Answer::NoFrames
        | Answer::NoHart
        | Answer::NoProcess
        | Answer::NoThread
        | Answer::Empty => Resume::Return(refused_number(call)),
    }
}
