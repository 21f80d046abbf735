use lz_base::Memory;

/// The rules of the language, in the order of their numbers from 1 to 26.
#[derive(Clone, Copy, Debug, PartialEq, Eq)]
pub enum Rule {
    /// A name used as an object has no declaration before it in an enclosing scope (C99 6.5.1).
    Undeclared,
    /// A name is declared a second time in one scope (C99 6.7).
    DeclaredTwice,
    /// A called name means an object, or is no function of the file and not known (C99 6.5.2.2).
    NoFunction,
    /// A call has another number of arguments than its function (C99 6.5.2.2).
    ArgumentCount,
    /// A known name is declared as something of the file's own.
    KnownNameTaken,
    /// An expression without value stands where a value is needed (C99 6.3.2.2).
    NoValue,
    /// A type does not fit its place (C99 6.5).
    TypeMisfit,
    /// The length of an array is no constant, or outside its range (C99 6.7.5.2).
    BadLength,
    /// An initializer at file scope is not made of constant expressions (C99 6.7.8).
    NotConstant,
    /// The form of an initializer does not fit its object (C99 6.7.8).
    BadInitializer,
    /// A constant is too large for its type (C99 6.4.4.1).
    LargeConstant,
    /// `break` or `continue` stands outside a loop (C99 6.8.6).
    OutsideLoop,
    /// A `return` does not fit its function's result (C99 6.8.6.4).
    BadReturn,
    /// Through a call a function can reach itself.
    Recursive,
    /// The file has no `int main(void)` (C99 5.1.2.2.1).
    NoMain,
    /// What `pthread_create` is to start is no start routine of the file.
    NoStartRoutine,
    /// Threads are made or joined, or a thread object declared, where a start routine can come.
    ThreadInThread,
    /// A `void *` is a parameter or a result outside a start routine, or such a routine or `main` is called.
    PointerOutsideStart,
    /// A mutex or a condition is declared in a block or as a parameter.
    LocalMutex,
    /// `&` stands elsewhere than it may, or an object argument is none.
    MisplacedAddress,
    /// An attribute, or what a join is to write, is not left out by `NULL` or 0.
    BadAttribute,
    /// A text stands elsewhere than first in a `printf`, or no text stands there.
    MisplacedText,
    /// The elements at file scope are too many.
    ManyElements,
    /// A type or a suffix is spelled that the language leaves out.
    RefusedType,
    /// A prototype and the definition of its name differ (C99 6.7.5.3).
    OtherPrototype,
    /// A function's body is too high, with the bodies that it calls.
    TooHigh,
}

/// A broken rule, with the line of the node that it belongs to.
#[derive(Clone, Copy, Debug, PartialEq, Eq)]
pub struct Fault {
    pub line: u32,
    pub rule: Rule,
}

/// Why a program is refused.
#[derive(Clone, Copy, Debug, PartialEq, Eq)]
pub enum TypeError {
    /// The number of the first rule that the program breaks, with its line.
    Rule { line: u32, number: u32 },
    /// Want of memory.
    Memory,
}

impl From<Memory> for TypeError {
    ghost use Rattle.std.specs.Prelude.{◌≡◌};
    ghost use Rattle.lz_scopes.specs.declared.fault.TypeError.TheVariants as errors;

    ghost from_gives = { λ _ e. e ≡ errors.Memory };

    fn from(_memory: Memory) -> TypeError {
        TypeError::Memory
    }
}
