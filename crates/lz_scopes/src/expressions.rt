ghost use Rattle.std.specs.Prelude.{◌≡◌, map, not, slice_get, Some};
ghost use Rattle.lz_tree.specs.Trees.{expression, expressions_of, index_of};
ghost use Rattle.lz_tree.specs.declared.scoped.Object.TheVariants.{Known};
ghost use Rattle.lz_scopes.specs.RuleLists.{rule_list};
ghost use Rattle.lz_scopes.specs.Constants.{constant_kind};
ghost use Rattle.lz_scopes.specs.Scopes as scopes;
ghost use Rattle.lz_scopes.specs.ExpressionTypes as spec;

use crate::arguments::{breaks_at_call, has_index};
use crate::constant::{binary_kind, constant_kind, joint, unary_kind};
use crate::fault::Rule;
use crate::file::WholeFile;
use crate::meaning::{callee, counted, given, is_start_at, name_at, takes, target_type};
use crate::place::Place;
use crate::value_types::{ValueType, value_type};
use lz_base::IntType;
use lz_tree::{Expr, KnownName, Object, Target};

/// What a target is at the place.
pub fn type_at(place: &Place, assigned: bool, target: &Target) -> ValueType
    ensures { result ≡ spec.type_at place.now assigned target.now.name (index_of target.now.index) }
{
    target_type(assigned, name_at(place, target.name), has_index(target))
}

/// The function around the place.
pub fn around(place: &Place) -> Option<u32>
    ensures { result ≡ scopes.around place.now }
{
    if place.depth == 0 {
        None
    } else {
        Some(place.function)
    }
}

/// Whether a start routine reaches the function around the place.
pub fn is_in_thread(file: &WholeFile, place: &Place) -> bool
    ensures { result ≡ spec.is_in_thread file.now (scopes.around place.now) }
{
    match around(place) {
        None => false,
        Some(function) => file.is_reached(function),
    }
}

/// Whether a function can reach the one around the place.
pub fn can_return(file: &WholeFile, place: &Place, function: u32) -> bool
    ensures { result ≡ spec.can_return file.now (scopes.around place.now) function }
{
    match around(place) {
        None => false,
        Some(from) => file.returns_to(from, function),
    }
}

/// Whether a function may not be called directly.
pub fn is_only_started(file: &WholeFile, function: u32) -> bool
    ensures { result ≡ spec.is_only_started file.now (slice_get file.now.functions function) }
{
    match file.name(function) {
        None => false,
        Some(name) => is_start_at(file, function) || file.is_main(name),
    }
}

/// The rule up to that of types that a call breaks.
pub fn wrong_call(file: &WholeFile, callee: Option<Object>, args: usize) -> Option<Rule>
    ensures { rule_list result ≡ spec.wrong_call file.now callee args }
{
    match callee {
        None => Some(Rule::NoFunction),
        Some(_) => {
            if takes(file, callee, args) {
                None
            } else {
                Some(Rule::ArgumentCount)
            }
        }
    }
}

/// Whether a call makes or joins threads where a start routine can come.
pub fn is_thread_call(file: &WholeFile, place: &Place, name: KnownName) -> bool
    ensures { result ≡ spec.is_thread_call file.now place.now name }
{
    match name {
        KnownName::Create | KnownName::Join => is_in_thread(file, place),
        _ => false,
    }
}

/// Whether a call breaks a rule behind that of types.
fn breaks_late(file: &WholeFile, place: &Place, callee: Option<Object>, args: &[Expr]) -> bool
    ensures { result ≡ not (spec.is_none_of (spec.late_call file.now place.now callee (expressions_of (map expression args.now)))) }
{
    match callee {
        Some(Object::Routine { function }) => {
            can_return(file, place, function) || is_only_started(file, function)
        }
        Some(Object::Known { name }) => {
            breaks_at_call(file, place, Rule::NoStartRoutine, callee, args)
                || is_thread_call(file, place, name)
                || breaks_at_call(file, place, Rule::MisplacedAddress, callee, args)
                || breaks_at_call(file, place, Rule::BadAttribute, callee, args)
                || breaks_at_call(file, place, Rule::MisplacedText, callee, args)
        }
        _ => false,
    }
}

/// What an assignment or a step gives.
fn assigned_type(of: ValueType) -> ValueType
    ensures { result ≡ spec.assigned_type of }
{
    if of.is_pointer() { counted() } else { of }
}

/// What stands in parentheses.
fn as_inner(of: ValueType) -> ValueType
    ensures { result ≡ spec.as_inner of }
{
    if of.is_no_operand() { counted() } else { of }
}

/// The kind of what stands where an integer is wanted.
fn integer_kind(of: ValueType) -> IntType
    ensures { result ≡ spec.integer_kind of }
{
    match of {
        ValueType::Integer { kind } => kind,
        _ => IntType::Int,
    }
}

/// What one of two is that a test chooses.
pub fn chosen(first: ValueType, second: ValueType) -> ValueType
    ensures { result ≡ spec.chosen first second }
{
    if first.is_pointer() || second.is_pointer() {
        ValueType::Pointer
    } else {
        ValueType::Integer {
            kind: joint(integer_kind(first), integer_kind(second)),
        }
    }
}

/// Whether a call breaks no rule by itself, wherever it stands.
fn is_right_call(file: &WholeFile, place: &Place, callee: Option<Object>, args: &[Expr]) -> bool
    ensures { result ≡ spec.is_right_call file.now place.now callee (expressions_of (map expression args.now)) }
{
    match wrong_call(file, callee, args.len()) {
        Some(_) => false,
        None => {
            let wrong = breaks_late(file, place, callee, args);
            !wrong
        }
    }
}

/// What a call gives.
fn given_at(file: &WholeFile, place: &Place, callee: Option<Object>, args: &[Expr]) -> ValueType
    ensures { result ≡ spec.given_at file.now place.now callee (expressions_of (map expression args.now)) }
{
    if is_right_call(file, place, callee, args) {
        given(file, callee)
    } else {
        counted()
    }
}

/// What an expression is at the place. Its parts are looked at again at each node above them, of which there are
/// at most as many as the tree is high.
#[tactic(auto, unfolding(crate::specs::ExpressionTypes::type_of))]
pub fn type_of(file: &WholeFile, place: &Place, e: &Expr) -> ValueType
    ensures { result ≡ spec.type_of file.now place.now (expression e.now) }
{
    match e {
        Expr::Constant { value, form, .. } => ValueType::Integer {
            kind: constant_kind(*value, *form),
        },
        Expr::Null { .. } => ValueType::Pointer,
        Expr::Text { .. } | Expr::Address { .. } => counted(),
        Expr::Object { target } => type_at(place, false, target),
        Expr::Paren { inner, .. } => as_inner(type_of(file, place, inner)),
        Expr::Unary { op, of, .. } => ValueType::Integer {
            kind: unary_kind(*op, integer_kind(type_of(file, place, of))),
        },
        Expr::Cast { to, .. } => value_type(*to),
        Expr::Binary {
            op,
            left,
            right,
            ..
        } => {
            let left = integer_kind(type_of(file, place, left));
            let right = integer_kind(type_of(file, place, right));
            ValueType::Integer {
                kind: binary_kind(*op, left, right),
            }
        }
        Expr::Choose { yes, no, .. } => {
            let yes = type_of(file, place, yes);
            let no = type_of(file, place, no);
            chosen(yes, no)
        }
        Expr::Assign { target, .. } | Expr::Step { target, .. } => {
            assigned_type(type_at(place, true, target))
        }
        Expr::Call { name, args, .. } => given_at(file, place, callee(file, place, *name), args),
    }
}
