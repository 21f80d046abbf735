ghost use Rattle.std.specs.Prelude.{◌≡◌, map};
ghost use Rattle.lz_tree.specs.Trees.{expression, expressions_of, index_of};
ghost use Rattle.lz_scopes.specs.ExpressionTypes as spec;

use crate::fault::Rule;
use crate::file::WholeFile;
use crate::meaning::{callee, is_start_at, name_at, want_at};
use crate::place::Place;
use crate::value_types::{ValueType, Want};
use lz_tree::{Expr, Object, Target};

/// Whether a target is an element.
pub fn has_index(target: &Target) -> bool
    ensures { result ≡ spec.has_index (index_of target.now.index) }
{
    target.index.is_some()
}

/// Whether it is `NULL` or the constant 0.
fn is_null(e: &Expr) -> bool
    ensures { result ≡ spec.is_null (expression e.now) }
{
    match e {
        Expr::Null { .. } => true,
        Expr::Constant { value, .. } => *value == 0,
        _ => false,
    }
}

/// Whether it is a text.
fn is_text(e: &Expr) -> bool
    ensures { result ≡ spec.is_text (expression e.now) }
{
    matches!(e, Expr::Text { .. })
}

/// Whether an object is of the type that a place for `&` wants.
fn is_wanted(to: ValueType, of: ValueType) -> bool
    ensures { result ≡ spec.is_wanted to of }
{
    match to {
        ValueType::Thread => matches!(of, ValueType::Thread),
        ValueType::Mutex => matches!(of, ValueType::Mutex),
        ValueType::Cond => matches!(of, ValueType::Cond),
        _ => false,
    }
}

/// Whether it is `&` of an object of the type.
fn is_reference(place: &Place, to: ValueType, e: &Expr) -> bool
    ensures { result ≡ spec.is_reference place.now to (expression e.now) }
{
    match e {
        Expr::Address { target, .. } => match name_at(place, target.name) {
            None => false,
            Some(named) => is_wanted(to, named.of),
        },
        _ => false,
    }
}

/// Whether it is a thread object.
pub fn is_handle(place: &Place, e: &Expr) -> bool
    ensures { result ≡ spec.is_handle place.now (expression e.now) }
{
    match e {
        Expr::Object { target } => match name_at(place, target.name) {
            None => false,
            Some(named) => matches!(named.of, ValueType::Thread),
        },
        _ => false,
    }
}

/// The function of the file that a bare name means.
fn routine_named(file: &WholeFile, place: &Place, e: &Expr) -> Option<u32>
    ensures { result ≡ spec.routine_named file.now place.now (expression e.now) }
{
    match e {
        Expr::Object { target } => {
            if has_index(target) {
                return None;
            }
            match callee(file, place, target.name) {
                Some(Object::Routine { function }) => Some(function),
                _ => None,
            }
        }
        _ => None,
    }
}

/// Whether it is the name of a function of the file.
pub fn is_function_name(file: &WholeFile, place: &Place, e: &Expr) -> bool
    ensures { result ≡ spec.is_function_name file.now place.now (expression e.now) }
{
    routine_named(file, place, e).is_some()
}

/// Whether it is the name of a start routine.
fn is_start_name(file: &WholeFile, place: &Place, e: &Expr) -> bool
    ensures { result ≡ spec.is_start_name file.now place.now (expression e.now) }
{
    match routine_named(file, place, e) {
        None => false,
        Some(function) => is_start_at(file, function),
    }
}

/// The rule that is broken unless the test holds.
fn unless(test: bool, rule: Rule) -> Option<Rule>
    ensures { result ≡ spec.unless test rule }
{
    if test { None } else { Some(rule) }
}

/// The rule that an argument breaks at its call.
fn misplaced(file: &WholeFile, place: &Place, want: Want, e: &Expr) -> Option<Rule>
    ensures { result ≡ spec.misplaced file.now place.now want (expression e.now) }
{
    match want {
        Want::Reference { to } => unless(is_reference(place, to, e), Rule::MisplacedAddress),
        Want::Handle => unless(is_handle(place, e), Rule::MisplacedAddress),
        Want::Start => unless(is_start_name(file, place, e), Rule::NoStartRoutine),
        Want::Null => unless(is_null(e), Rule::BadAttribute),
        Want::Format => unless(is_text(e), Rule::MisplacedText),
        _ => None,
    }
}

/// Whether this rule is broken.
fn is_broken(rule: Rule, found: Option<Rule>) -> bool
    ensures { result ≡ spec.is_broken rule found }
{
    match found {
        None => false,
        Some(other) => other == rule,
    }
}

/// Whether one of the arguments breaks the rule at their call.
pub fn breaks_at_call(
    file: &WholeFile,
    place: &Place,
    rule: Rule,
    callee: Option<Object>,
    args: &[Expr],
) -> bool
    ensures { result ≡ spec.breaks_at_call file.now place.now rule callee (expressions_of (map expression args.now)) }
{
    let mut argument = 0;
    for e in args {
        let want = want_at(file, callee, argument);
        if is_broken(rule, misplaced(file, place, want, e)) {
            return true;
        }
        argument += 1;
    }
    false
}
