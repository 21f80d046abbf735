ghost use Rattle.std.specs.Prelude.{◌≡◌};
ghost use Rattle.lz_scopes.specs.ValueTypes as spec;
ghost use Rattle.lz_scopes.specs.RuleLists.{rule_list};

use crate::fault::Rule;
use lz_base::IntType;
use lz_tree::TypeName;

/// What an expression or a declared name is: a value of a kind of integers, a `void *`, without value, or an
/// object or a function that is no value by itself.
#[derive(Clone, Copy, Debug, PartialEq, Eq)]
pub enum ValueType {
    /// An integer of 32 bits (C99 6.2.5).
    Integer { kind: IntType },
    /// A `void *`.
    Pointer,
    /// `void`.
    Nothing,
    /// A `pthread_t`.
    Thread,
    /// A `pthread_mutex_t`.
    Mutex,
    /// A `pthread_cond_t`.
    Cond,
    /// A function.
    Function,
}

/// What a place of an expression wants of it.
#[derive(Clone, Copy, Debug, PartialEq, Eq)]
pub enum Want {
    /// Nothing: its value is not used.
    Unneeded,
    /// A value.
    Any,
    /// An integer.
    Integer,
    /// A `void *`.
    Pointer,
    /// `&` of an object of this type, as a call on threads wants it.
    Reference { to: ValueType },
    /// A thread object.
    Handle,
    /// The name of a start routine.
    Start,
    /// `NULL` or the constant 0.
    Null,
    /// A text.
    Format,
}

/// Whether the language leaves the type out.
pub fn is_refused(name: TypeName) -> bool
    ensures { result ≡ spec.is_refused name }
{
    match name {
        TypeName::Int | TypeName::Signed | TypeName::SignedInt => false,
        TypeName::Unsigned | TypeName::UnsignedInt => false,
        TypeName::Void | TypeName::VoidPointer => false,
        TypeName::Thread | TypeName::Mutex | TypeName::Cond => false,
        _ => true,
    }
}

/// What an object of the type is.
pub fn value_type(name: TypeName) -> ValueType
    ensures { result ≡ spec.value_type name }
{
    match name {
        TypeName::Unsigned | TypeName::UnsignedInt => ValueType::Integer {
            kind: IntType::Unsigned,
        },
        TypeName::Void => ValueType::Nothing,
        TypeName::VoidPointer => ValueType::Pointer,
        TypeName::Thread => ValueType::Thread,
        TypeName::Mutex => ValueType::Mutex,
        TypeName::Cond => ValueType::Cond,
        _ => ValueType::Integer { kind: IntType::Int },
    }
}

/// One spelling for each type.
fn same_type(name: TypeName) -> TypeName
    ensures { result ≡ spec.same_type name }
{
    match name {
        TypeName::Signed | TypeName::SignedInt => TypeName::Int,
        TypeName::UnsignedInt => TypeName::Unsigned,
        TypeName::SignedChar => TypeName::Char,
        TypeName::ShortInt => TypeName::Short,
        TypeName::UnsignedShortInt => TypeName::UnsignedShort,
        TypeName::LongInt => TypeName::Long,
        TypeName::UnsignedLongInt => TypeName::UnsignedLong,
        TypeName::LongLongInt => TypeName::LongLong,
        TypeName::UnsignedLongLongInt => TypeName::UnsignedLongLong,
        other => other,
    }
}

/// Whether two spellings are one type.
#[tactic(auto, unfolding(crate::specs::ValueTypes::are_one_type))]
pub fn are_one_type(a: TypeName, b: TypeName) -> bool
    ensures { result ≡ spec.are_one_type a b }
{
    same_type(a) == same_type(b)
}

impl ValueType {
    /// Whether it is a `void *`.
    pub fn is_pointer(self) -> bool
        ensures { result ≡ spec.is_pointer self }
    {
        matches!(self, ValueType::Pointer)
    }

    /// Whether it is `void`.
    pub fn is_nothing(self) -> bool
        ensures { result ≡ spec.is_nothing self }
    {
        matches!(self, ValueType::Nothing)
    }

    /// Whether it is a mutex or a condition.
    pub fn is_lock(self) -> bool
        ensures { result ≡ spec.is_lock self }
    {
        matches!(self, ValueType::Mutex | ValueType::Cond)
    }

    /// Whether no expression reads or writes it.
    pub fn is_no_operand(self) -> bool
        ensures { result ≡ spec.is_no_operand self }
    {
        match self {
            ValueType::Integer { .. } | ValueType::Pointer | ValueType::Nothing => false,
            _ => true,
        }
    }

    /// The kind of its words.
    pub fn kind(self) -> IntType
        ensures { result ≡ spec.kind_of self }
    {
        match self {
            ValueType::Integer { kind } => kind,
            _ => IntType::Unsigned,
        }
    }

    /// What a place wants that takes a value of it.
    pub fn want(self) -> Want
        ensures { result ≡ spec.want_of self }
    {
        match self {
            ValueType::Integer { .. } => Want::Integer,
            ValueType::Pointer => Want::Pointer,
            _ => Want::Any,
        }
    }
}

/// The rule that is broken where something of a type stands at a place.
pub fn clash(want: Want, of: ValueType) -> Option<Rule>
    ensures { rule_list result ≡ spec.clash want of }
{
    match of {
        ValueType::Integer { .. } => match want {
            Want::Pointer => Some(Rule::TypeMisfit),
            _ => None,
        },
        ValueType::Pointer => match want {
            Want::Integer => Some(Rule::TypeMisfit),
            _ => None,
        },
        ValueType::Nothing => match want {
            Want::Unneeded => None,
            _ => Some(Rule::NoValue),
        },
        _ => Some(Rule::TypeMisfit),
    }
}
