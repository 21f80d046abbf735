ghost use Rattle.std.specs.Prelude.{◌≡◌, drop, length, slice_get, map, Some};
ghost use Rattle.lz_tree.specs.Trees.{expression, index_of};
ghost use Rattle.lz_scopes.specs.ValueTypes.{want_of, value_type};
ghost use Rattle.lz_scopes.specs.RuleLists.{rule_list};
ghost use Rattle.lz_scopes.specs.declared.value_types.Want.TheVariants as wants;
ghost use Rattle.lz_scopes.specs.Scopes as scopes;
ghost use Rattle.lz_scopes.specs.KnownNames.{wants_of_known, takes_more, given_by_known};
ghost use Rattle.lz_scopes.specs.ExpressionTypes as spec;

use crate::fault::Rule;
use crate::file::WholeFile;
use crate::place::Place;
use crate::value_types::{ValueType, Want, value_type};
use lz_base::IntType;
use lz_tree::{KnownName, Object, TypeName};

/// What a name that is used as an object is: what it is or its elements are, and whether it is an array.
#[derive(Clone, Copy, Debug, PartialEq, Eq)]
pub struct Named {
    pub of: ValueType,
    pub array: bool,
}

/// What the name is at the place, where it is declared before it.
pub fn name_at(place: &Place, name: u32) -> Option<Named>
    ensures { result ≡ scopes.named place.now name }
{
    match place.names.nearest(name) {
        Some(e) => Some(Named {
            of: e.of,
            array: e.array,
        }),
        None => {
            if place.functions.has(name) {
                Some(Named {
                    of: ValueType::Function,
                    array: false,
                })
            } else {
                None
            }
        }
    }
}

/// Whether a target is not fit for its place.
fn misfits(assigned: bool, named: Named, indexed: bool) -> bool
    ensures { result ≡ spec.misfits assigned named indexed }
{
    named.array != indexed || (assigned && named.of.is_no_operand())
}

/// The rule that a target breaks.
pub fn misuse(assigned: bool, named: Option<Named>, indexed: bool) -> Option<Rule>
    ensures { rule_list result ≡ spec.misuse assigned named indexed }
{
    match named {
        None => Some(Rule::Undeclared),
        Some(n) => {
            if misfits(assigned, n, indexed) {
                Some(Rule::TypeMisfit)
            } else {
                None
            }
        }
    }
}

/// What an expression counts as that has a fault.
pub fn counted() -> ValueType
    ensures { result ≡ Rattle.lz_scopes.specs.ValueTypes.counted }
{
    ValueType::Integer { kind: IntType::Int }
}

/// What a target is.
pub fn target_type(assigned: bool, named: Option<Named>, indexed: bool) -> ValueType
    ensures { result ≡ spec.target_type assigned named indexed }
{
    match named {
        None => counted(),
        Some(n) => {
            if misfits(assigned, n, indexed) {
                counted()
            } else {
                n.of
            }
        }
    }
}

/// What a name means that no object has.
fn function_meant(known: Option<KnownName>, defined: Option<u32>) -> Option<Object>
    ensures { result ≡ scopes.function_meant known defined }
{
    match known {
        None => {
            let function = defined?;
            Some(Object::Routine { function })
        }
        Some(KnownName::ReachError) => match defined {
            None => Some(Object::Known {
                name: KnownName::ReachError,
            }),
            Some(function) => Some(Object::Routine { function }),
        },
        Some(name) => Some(Object::Known { name }),
    }
}

/// What a called name means at the place, where it means a function.
pub fn callee(file: &WholeFile, place: &Place, name: u32) -> Option<Object>
    ensures { result ≡ spec.callee file.now place.now name }
{
    match place.names.nearest(name) {
        Some(_) => None,
        None => function_meant(file.known(name), file.function_named(name)),
    }
}

/// What a known name wants for its first arguments.
pub fn known_wants(name: KnownName) -> &'static [Want]
    ensures { result.now ≡ wants_of_known name }
{
    match name {
        KnownName::Assert | KnownName::Assume => &[Want::Integer],
        KnownName::Create => &[
            Want::Reference {
                to: ValueType::Thread,
            },
            Want::Null,
            Want::Start,
            Want::Pointer,
        ],
        KnownName::Join => &[Want::Handle, Want::Null],
        KnownName::Exit => &[Want::Pointer],
        KnownName::MutexInit => &[
            Want::Reference {
                to: ValueType::Mutex,
            },
            Want::Null,
        ],
        KnownName::MutexDestroy | KnownName::MutexLock | KnownName::MutexUnlock => {
            &[Want::Reference {
                to: ValueType::Mutex,
            }]
        }
        KnownName::CondInit => &[
            Want::Reference {
                to: ValueType::Cond,
            },
            Want::Null,
        ],
        KnownName::CondWait => &[
            Want::Reference {
                to: ValueType::Cond,
            },
            Want::Reference {
                to: ValueType::Mutex,
            },
        ],
        KnownName::CondDestroy | KnownName::CondSignal | KnownName::CondBroadcast => {
            &[Want::Reference {
                to: ValueType::Cond,
            }]
        }
        KnownName::Printf => &[Want::Format],
        _ => &[],
    }
}

/// What a call of a known name gives.
fn given_by(name: KnownName) -> ValueType
    ensures { result ≡ given_by_known name }
{
    match name {
        KnownName::Assert | KnownName::Assume => ValueType::Nothing,
        KnownName::NondetUint => ValueType::Integer {
            kind: IntType::Unsigned,
        },
        KnownName::Error | KnownName::ReachError | KnownName::Abort => ValueType::Nothing,
        KnownName::AtomicBegin | KnownName::AtomicEnd | KnownName::Exit => ValueType::Nothing,
        _ => counted(),
    }
}

/// Whether it takes any number of further arguments.
pub fn takes_further(callee: Option<Object>) -> bool
    ensures { result ≡ spec.takes_further callee }
{
    matches!(
        callee,
        Some(Object::Known {
            name: KnownName::Printf
        })
    )
}

/// What it wants for each further argument.
pub fn further_want(callee: Option<Object>) -> Want
    ensures { result ≡ spec.further_want callee }
{
    if takes_further(callee) {
        Want::Integer
    } else {
        Want::Any
    }
}

/// How many arguments it wants at least.
fn want_count(file: &WholeFile, callee: Option<Object>) -> usize
    ensures { result ≡ length (spec.wants_of file.now callee) }
{
    match callee {
        Some(Object::Routine { function }) => file.params(function).len(),
        Some(Object::Known { name }) => known_wants(name).len(),
        _ => 0,
    }
}

/// What a function of the file wants for an argument.
fn param_want(params: &[TypeName], argument: usize) -> Want
    ensures { result ≡ spec.first_want (drop argument (map (λ t. want_of (value_type t)) params.now)) wants.Any }
{
    match params.get(argument) {
        None => Want::Any,
        Some(param) => value_type(*param).want(),
    }
}

/// What it wants for an argument.
pub fn want_at(file: &WholeFile, callee: Option<Object>, argument: usize) -> Want
    ensures { result ≡ spec.first_want (drop argument (spec.wants_of file.now callee)) (spec.further_want callee) }
{
    match callee {
        Some(Object::Routine { function }) => param_want(file.params(function), argument),
        Some(Object::Known { name }) => match known_wants(name).get(argument) {
            None => further_want(callee),
            Some(want) => *want,
        },
        _ => Want::Any,
    }
}

/// Whether it takes so many arguments.
pub fn takes(file: &WholeFile, callee: Option<Object>, args: usize) -> bool
    ensures { result ≡ spec.takes file.now callee args }
{
    let count = want_count(file, callee);
    if takes_further(callee) {
        count <= args
    } else {
        count == args
    }
}

/// What a result of a type is.
fn as_result(of: ValueType) -> ValueType
    ensures { result ≡ spec.as_result of }
{
    if of.is_no_operand() { counted() } else { of }
}

/// What a call gives.
pub fn given(file: &WholeFile, callee: Option<Object>) -> ValueType
    ensures { result ≡ spec.given file.now callee }
{
    match callee {
        Some(Object::Routine { function }) => match file.gives(function) {
            None => counted(),
            Some(gives) => as_result(value_type(gives)),
        },
        Some(Object::Known { name }) => given_by(name),
        _ => counted(),
    }
}

/// Whether the function has the form of a start routine.
pub fn is_start_at(file: &WholeFile, function: u32) -> bool
    ensures { result ≡ scopes.is_start_at (slice_get file.now.functions function) }
{
    match file.gives(function) {
        None => false,
        Some(gives) => value_type(gives).is_pointer() && is_one_pointer(file.params(function)),
    }
}

/// Whether there is one parameter, a `void *`.
pub fn is_one_pointer(params: &[TypeName]) -> bool
    ensures { result ≡ scopes.is_one_pointer params.now }
{
    match params {
        [param] => value_type(*param).is_pointer(),
        _ => false,
    }
}
