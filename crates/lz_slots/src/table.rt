ghost use Rattle.std.specs.Prelude.{ℕ, ◌≡◌, ◌+◌, ◌*◌, ◌<◌, ◌^◌, Option, IsSome};
ghost use Rattle.lz_tree.specs.ScopedTrees.{scoped_index_of};
ghost use Rattle.lz_slots.specs.Nesting.{saturated};
ghost use Rattle.lz_slots.specs.CostTable as table;
ghost use Rattle.lz_slots.specs.Costs as costs;

use crate::saturate::{plus, times};
use lz_tree::{Binary, KnownName, Object, ScopedTarget, Unary};

/// A cast.
pub const CAST: u64 = 256;

/// `?:`.
pub const CHOOSE: u64 = 3072;

/// An `if`.
pub const IF: u64 = 2048;

/// Each turn of a loop, and once more its end.
pub const TURN: u64 = 2048;

/// `break`, `continue` and `return`.
pub const JUMP: u64 = 1024;

/// Each thread, beside the cost of its body.
pub const THREAD: u64 = 4096;

/// The elements of an object: its length, and 1 for what has none.
pub fn length_of(object: Object) -> u32
    ensures { result ≡ costs.length_of object }
{
    match object {
        Object::Local { len, .. } | Object::Cell { len, .. } => len,
        Object::Mutex { len, .. } | Object::Cond { len, .. } | Object::Handle { len, .. } => len,
        Object::Routine { .. } | Object::Known { .. } => 1,
    }
}

/// A read of an integer object; a thread object or a function is handed on without a read.
pub fn object_number(target: &ScopedTarget) -> u64
    ensures { result ≡ costs.object_number target.now.object (scoped_index_of target.now.index) }
{
    match target.object {
        Object::Local { len, .. } | Object::Cell { len, .. } => match target.index {
            None => 1024,
            Some(_) => 2048 + 256 * len as u64,
        },
        _ => 0,
    }
}

/// `=`.
pub fn assign_number(target: &ScopedTarget) -> u64
    ensures { result ≡ table.assign_number (scoped_index_of target.now.index) (costs.length_of target.now.object) }
{
    match target.index {
        None => 1024,
        Some(_) => 2048 + 256 * length_of(target.object) as u64,
    }
}

/// An assignment with an operator, beside the operator's number.
pub fn update_number(target: &ScopedTarget) -> u64
    ensures { result ≡ table.update_number (scoped_index_of target.now.index) (costs.length_of target.now.object) }
{
    match target.index {
        None => 2048,
        Some(_) => 4096 + 512 * length_of(target.object) as u64,
    }
}

/// `++` or `--`.
pub fn step_number(target: &ScopedTarget) -> u64
    ensures { result ≡ table.step_number (scoped_index_of target.now.index) (costs.length_of target.now.object) }
{
    match target.index {
        None => 3072,
        Some(_) => 5120 + 512 * length_of(target.object) as u64,
    }
}

/// A unary operator.
pub fn unary_number(op: Unary) -> u64
    ensures { result ≡ table.unary_number op }
{
    match op {
        Unary::Plus => 0,
        Unary::Minus | Unary::Invert | Unary::Not => 512,
    }
}

/// A binary operator.
pub fn binary_number(op: Binary) -> u64
    ensures { result ≡ table.binary_number op }
{
    match op {
        Binary::Mul => 8192,
        Binary::Div | Binary::Rem => 16384,
        Binary::Shl | Binary::Shr | Binary::Both | Binary::Either => 2048,
        _ => 1024,
    }
}

/// `=`, or an assignment with an operator.
pub fn assignment_number(op: Option<Binary>, target: &ScopedTarget) -> u64
    ensures { result ≡ saturated (costs.assignment_number op target.now.object (scoped_index_of target.now.index)) }
{
    match op {
        None => assign_number(target),
        Some(op) => plus(update_number(target), binary_number(op)),
    }
}

/// The declaration of an object.
pub fn declarator_number(object: Object) -> u64
    ensures { result ≡ table.declarator_number (costs.length_of object) }
{
    1024 * length_of(object) as u64
}

/// A call of a function of the file with so many parameters, beside the cost of its body.
pub fn call_number(parameters: u64) -> u64
    ensures { result ≡ saturated (table.call_number parameters) }
{
    times(1024, plus(parameters, 1))
}

/// A call of a known name, by the number of threads and the elements of the objects that are the first and the
/// second argument.
pub fn known_number(name: KnownName, threads: u64, first: u32, second: u32) -> u64
    ensures { result ≡ saturated (table.known_number name threads first second) }
{
    let own = 256 * first as u64;
    match name {
        KnownName::Printf => 0,
        KnownName::AtomicBegin | KnownName::AtomicEnd => 2048,
        KnownName::MutexInit
        | KnownName::MutexDestroy
        | KnownName::MutexLock
        | KnownName::MutexUnlock
        | KnownName::CondInit
        | KnownName::CondDestroy => 2048 + own,
        KnownName::CondWait => 8192 + own + 256 * second as u64,
        KnownName::CondSignal | KnownName::CondBroadcast => plus(2048 + own, times(512, threads)),
        KnownName::Create => 8192 + own,
        KnownName::Join => plus(4096 + own, times(512, threads)),
        _ => 1024,
    }
}
