ghost use Rattle.std.specs.Prelude.{◌≡◌, ◌++◌, [], map, option_map, OnOk};
ghost use Rattle.lz_tree.specs.Trees.{expression, expressions_of, index_of, object};
ghost use Rattle.lz_scopes.specs.RuleLists.{rule_list};
ghost use Rattle.lz_scopes.specs.ExpressionTypes as spec;
ghost use Rattle.lz_types.specs.Faults as faults_of;

use crate::note::{line_of, push_rule, push_when};
use lz_base::Memory;
use lz_scopes::{
    Fault, Place, Rule, Want, WholeFile, breaks_at_call, callee, can_return, chosen, clash,
    has_index, is_function_name, is_handle, is_large, is_only_started, is_refused, is_thread_call,
    misuse, name_at, type_at, type_of, want_at, wrong_call,
};
use lz_tree::{Expr, Object, Target};

/// The rule up to that of types that a call breaks.
fn early_call(file: &WholeFile, place: &Place, name: u32, args: &[Expr]) -> Option<Rule>
    ensures { rule_list result ≡ spec.wrong_call file.now (spec.callee file.now place.now name) (spec.count (expressions_of (map expression args.now))) }
{
    wrong_call(file, callee(file, place, name), args.len())
}

/// The rule up to that of types that a node breaks.
fn early(file: &WholeFile, place: &Place, e: &Expr) -> Option<Rule>
    ensures { rule_list result ≡ spec.early file.now place.now (expression e.now) }
{
    match e {
        Expr::Assign { target, .. } | Expr::Step { target, .. } => {
            if type_at(place, true, target).is_pointer() {
                Some(Rule::TypeMisfit)
            } else {
                None
            }
        }
        Expr::Call { name, args, .. } => early_call(file, place, *name, args),
        _ => None,
    }
}

/// Whether a node stands rightly at a place though its type is none that fits.
fn is_right(file: &WholeFile, place: &Place, want: Want, e: &Expr) -> bool
    ensures { result ≡ spec.is_right file.now place.now want (expression e.now) }
{
    match e {
        Expr::Constant { value, .. } => matches!(want, Want::Pointer) && *value == 0,
        Expr::Text { .. } => matches!(want, Want::Format),
        Expr::Address { .. } => matches!(want, Want::Reference { .. }),
        Expr::Object { .. } => {
            (matches!(want, Want::Handle) && is_handle(place, e))
                || (matches!(want, Want::Start) && is_function_name(file, place, e))
        }
        _ => false,
    }
}

/// The rule that the type of a node breaks at a place.
fn clash_at(file: &WholeFile, place: &Place, want: Want, e: &Expr) -> Option<Rule>
    ensures { rule_list result ≡ spec.clash_at file.now place.now want (expression e.now) }
{
    if is_right(file, place, want, e) {
        None
    } else {
        clash(want, type_of(file, place, e))
    }
}

/// The rule behind that of types that a node breaks other than a call.
fn late_alone(want: Want, e: &Expr) -> Option<Rule>
    ensures { rule_list result ≡ spec.late_alone want (expression e.now) }
{
    match e {
        Expr::Constant { value, form, .. } => {
            if form.longs != 0 {
                return Some(Rule::RefusedType);
            }
            if is_large(*value, *form) {
                return Some(Rule::LargeConstant);
            }
            None
        }
        Expr::Text { .. } => match want {
            Want::Format => None,
            _ => Some(Rule::MisplacedText),
        },
        Expr::Address { .. } => match want {
            Want::Reference { .. } => None,
            _ => Some(Rule::MisplacedAddress),
        },
        Expr::Cast { to, .. } => {
            if is_refused(*to) {
                Some(Rule::RefusedType)
            } else {
                None
            }
        }
        _ => None,
    }
}

/// Notes the rules behind that of types that a call breaks.
#[tactic(auto, using(crate::proofs::WalkLemmas::at_append))]
fn note_late_call(
    file: &WholeFile,
    place: &Place,
    line: u32,
    callee: Option<Object>,
    args: &[Expr],
    faults: &mut Vec<Fault>,
) -> Result<(), Memory>
    ensures { OnOk result (faults.new.items ≡ faults.old.items ++ faults_of.at line (spec.late_call file.now place.now callee (expressions_of (map expression args.now)))) }
{
    match callee {
        Some(Object::Routine { function }) => {
            let recursive = can_return(file, place, function);
            push_when(faults, line, recursive, Rule::Recursive)?;
            let started = is_only_started(file, function);
            push_when(faults, line, started, Rule::PointerOutsideStart)?;
            Ok(())
        }
        Some(Object::Known { name }) => {
            let start = breaks_at_call(file, place, Rule::NoStartRoutine, callee, args);
            push_when(faults, line, start, Rule::NoStartRoutine)?;
            let thread = is_thread_call(file, place, name);
            push_when(faults, line, thread, Rule::ThreadInThread)?;
            let address = breaks_at_call(file, place, Rule::MisplacedAddress, callee, args);
            push_when(faults, line, address, Rule::MisplacedAddress)?;
            let attribute = breaks_at_call(file, place, Rule::BadAttribute, callee, args);
            push_when(faults, line, attribute, Rule::BadAttribute)?;
            let text = breaks_at_call(file, place, Rule::MisplacedText, callee, args);
            push_when(faults, line, text, Rule::MisplacedText)?;
            Ok(())
        }
        _ => Ok(()),
    }
}

/// Notes the rules behind that of types that a node breaks.
fn note_late(
    file: &WholeFile,
    place: &Place,
    want: Want,
    e: &Expr,
    faults: &mut Vec<Fault>,
) -> Result<(), Memory>
    ensures { OnOk result (faults.new.items ≡ faults.old.items ++ faults_of.at (faults_of.line_of (expression e.now)) (spec.late file.now place.now want (expression e.now))) }
{
    match e {
        Expr::Call { line, name, args } => {
            let callee = callee(file, place, *name);
            note_late_call(file, place, *line, callee, args, faults)
        }
        Expr::Constant { .. } | Expr::Null { .. } | Expr::Text { .. } | Expr::Object { .. } => {
            push_rule(faults, line_of(e), late_alone(want, e))
        }
        Expr::Address { .. } | Expr::Paren { .. } | Expr::Unary { .. } | Expr::Cast { .. } => {
            push_rule(faults, line_of(e), late_alone(want, e))
        }
        Expr::Binary { .. } | Expr::Choose { .. } | Expr::Assign { .. } | Expr::Step { .. } => {
            push_rule(faults, line_of(e), late_alone(want, e))
        }
    }
}

/// Notes the rules that a node breaks by itself.
#[tactic(auto, using(crate::proofs::WalkLemmas::at_append))]
fn note(
    file: &WholeFile,
    place: &Place,
    want: Want,
    e: &Expr,
    faults: &mut Vec<Fault>,
) -> Result<(), Memory>
    ensures { OnOk result (faults.new.items ≡ faults.old.items ++ faults_of.node file.now place.now want (expression e.now)) }
{
    push_rule(faults, line_of(e), early(file, place, e))?;
    push_rule(faults, line_of(e), clash_at(file, place, want, e))?;
    note_late(file, place, want, e, faults)?;
    Ok(())
}

/// Notes the rule that a target breaks.
fn note_target(
    place: &Place,
    assigned: bool,
    target: &Target,
    faults: &mut Vec<Fault>,
) -> Result<(), Memory>
    ensures { OnOk result (faults.new.items ≡ faults.old.items ++ faults_of.target place.now assigned target.now.line target.now.name (index_of target.now.index)) }
{
    let rule = misuse(assigned, name_at(place, target.name), has_index(target));
    push_rule(faults, target.line, rule)
}

/// Notes the rule that an object breaks that is read: the name of a function where it is wanted is none.
fn note_object(
    file: &WholeFile,
    place: &Place,
    want: Want,
    e: &Expr,
    target: &Target,
    faults: &mut Vec<Fault>,
) -> Result<(), Memory>
    requires { expression e.now ≡ object target.now.line target.now.name (index_of target.now.index) }
    ensures { OnOk result (faults.new.items ≡ faults.old.items ++ faults_of.object_target file.now place.now want target.now.line target.now.name (index_of target.now.index)) }
{
    if matches!(want, Want::Start) && is_function_name(file, place, e) {
        return Ok(());
    }
    note_target(place, false, target, faults)
}

/// What the two that a test chooses from are wanted as.
fn choice_want(file: &WholeFile, place: &Place, first: &Expr, second: &Expr) -> Want
    ensures { result ≡ spec.choice_want (spec.type_of file.now place.now (expression first.now)) (spec.type_of file.now place.now (expression second.now)) }
{
    chosen(type_of(file, place, first), type_of(file, place, second)).want()
}

/// Notes the faults of an index.
#[cycle(walk)]
#[tactic(auto, unfolding(crate::specs::Faults::faults))]
fn walk_index(
    file: &WholeFile,
    place: &Place,
    target: &Target,
    faults: &mut Vec<Fault>,
) -> Result<(), Memory>
    ensures { OnOk result (faults.new.items ≡ faults.old.items ++ faults_of.index_faults file.now place.now (index_of target.now.index)) }
{
    match &target.index {
        None => Ok(()),
        Some(index) => walk(file, place, Want::Integer, index, faults),
    }
}

/// Notes the faults of the arguments of a call.
#[cycle(walk)]
#[tactic(auto, unfolding(crate::specs::Faults::faults))]
fn walk_args(
    file: &WholeFile,
    place: &Place,
    callee: Option<Object>,
    args: &[Expr],
    faults: &mut Vec<Fault>,
) -> Result<(), Memory>
    ensures { OnOk result (faults.new.items ≡ faults.old.items ++ faults_of.all_faults file.now place.now (spec.wants_of file.now callee) (spec.further_want callee) (expressions_of (map expression args.now))) }
{
    let mut argument = 0;
    for e in args {
        let want = want_at(file, callee, argument);
        walk(file, place, want, e, faults)?;
        argument += 1;
    }
    Ok(())
}

/// Notes the faults of an expression at a place that wants something of it.
#[cycle(walk)]
#[tactic(auto, unfolding(crate::specs::Faults::faults))]
pub fn walk(
    file: &WholeFile,
    place: &Place,
    want: Want,
    e: &Expr,
    faults: &mut Vec<Fault>,
) -> Result<(), Memory>
    ensures { OnOk result (faults.new.items ≡ faults.old.items ++ faults_of.faults file.now place.now want (expression e.now)) }
{
    note(file, place, want, e, faults)?;
    match e {
        Expr::Constant { .. } | Expr::Null { .. } | Expr::Text { .. } => Ok(()),
        Expr::Object { target } => {
            note_object(file, place, want, e, target, faults)?;
            walk_index(file, place, target, faults)?;
            Ok(())
        }
        Expr::Address { target, .. } => {
            note_target(place, false, target, faults)?;
            walk_index(file, place, target, faults)?;
            Ok(())
        }
        Expr::Paren { inner, .. } => {
            walk(file, place, Want::Unneeded, inner, faults)?;
            Ok(())
        }
        Expr::Unary { of, .. } => {
            walk(file, place, Want::Integer, of, faults)?;
            Ok(())
        }
        Expr::Cast { of, .. } => {
            walk(file, place, Want::Any, of, faults)?;
            Ok(())
        }
        Expr::Binary { left, right, .. } => {
            walk(file, place, Want::Integer, left, faults)?;
            walk(file, place, Want::Integer, right, faults)?;
            Ok(())
        }
        Expr::Choose { test, yes, no, .. } => {
            walk(file, place, Want::Integer, test, faults)?;
            let choice = choice_want(file, place, yes, no);
            walk(file, place, choice, yes, faults)?;
            walk(file, place, choice, no, faults)?;
            Ok(())
        }
        Expr::Assign { target, value, .. } => {
            note_target(place, true, target, faults)?;
            walk_index(file, place, target, faults)?;
            let wanted = type_at(place, true, target).want();
            walk(file, place, wanted, value, faults)?;
            Ok(())
        }
        Expr::Step { target, .. } => {
            note_target(place, true, target, faults)?;
            walk_index(file, place, target, faults)?;
            Ok(())
        }
        Expr::Call { name, args, .. } => {
            let callee = callee(file, place, *name);
            walk_args(file, place, callee, args, faults)?;
            Ok(())
        }
    }
}
