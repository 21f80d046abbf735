ghost use Rattle.std.specs.Prelude.{◌≡◌, ◌+◌, ◌≤◌, IfOk, nat_lt, true, map, Some};
ghost use Rattle.lz_base.specs.Words.{value_bound};
ghost use Rattle.lz_tree.specs.ScopedTrees.{scoped_expression, scoped_expressions_of, scoped_statement, scoped_declarator, scoped_initializer};
ghost use Rattle.lz_turns.specs.Stages.{locals_of};
ghost use Rattle.lz_turns.specs.Moves.{argument_at};
ghost use Rattle.lz_stations.specs.StationMoves as spec;
ghost use Rattle.lz_stations.specs.StationMoves.{declared_by};
ghost use Rattle.lz_stations.specs.StationsHeld.{station_of};
ghost use Rattle.lz_turns.specs.Fits.{HasNumbers, HaveNumbers};

use crate::statements::declarators;
use crate::station::Station;
use lz_base::Memory;
use lz_tree::{Object, ScopedDeclarator, ScopedExpr, ScopedFirst, ScopedStmt};
use lz_turns::{Locals, converted, kind_of, set_word};

/// Clears a local for which a list has no value.
fn clear_unlisted(
    values: &[ScopedExpr],
    local: u32,
    element: u32,
    locals: &mut Locals,
) -> Result<(), Memory>
    ensures { IfOk result (λ _. locals_of locals.new ≡ spec.cleared true (argument_at (scoped_expressions_of (map scoped_expression values.now)) element) local (locals_of locals.old)) }
{
    if (element as usize) < values.len() {
        return Ok(());
    }
    set_word(&mut locals.frame, local, 0)?;
    Ok(())
}

/// Clears an element of an integer object where its list has no value for it.
fn clear_integer(
    first: u32,
    len: u32,
    init: &ScopedFirst,
    element: u32,
    locals: &mut Locals,
) -> Result<(), Memory>
    requires { first + len ≤ value_bound }
    ensures { IfOk result (λ _. locals_of locals.new ≡ spec.cleared_integer (nat_lt element len) (scoped_initializer init.now) (first + element) element (locals_of locals.old)) }
{
    match init {
        ScopedFirst::Nothing | ScopedFirst::Value { .. } => Ok(()),
        ScopedFirst::Listed { values } => {
            if element < len {
                clear_unlisted(values, first + element, element, locals)
            } else {
                Ok(())
            }
        }
    }
}

/// Clears an object for a thread.
fn clear_handle(first: u32, len: u32, element: u32, locals: &mut Locals) -> Result<(), Memory>
    requires { first + len ≤ value_bound }
    ensures { IfOk result (λ _. locals_of locals.new ≡ spec.emptied (nat_lt element len) (first + element) (locals_of locals.old)) }
{
    if element < len {
        set_word(&mut locals.handles, first + element, 0)
    } else {
        Ok(())
    }
}

/// Clears an element of an object that begins as 0.
fn clear_object(
    object: Object,
    init: &ScopedFirst,
    element: u32,
    locals: &mut Locals,
) -> Result<(), Memory>
    requires { HasNumbers object }
    ensures { IfOk result (λ _. locals_of locals.new ≡ spec.cleared_object object (scoped_initializer init.now) element (locals_of locals.old)) }
{
    match object {
        Object::Local { first, len, .. } => clear_integer(first, len, init, element, locals),
        Object::Handle { first, len } => clear_handle(first, len, element, locals),
        Object::Cell { .. }
        | Object::Mutex { .. }
        | Object::Cond { .. }
        | Object::Routine { .. }
        | Object::Known { .. } => Ok(()),
    }
}

/// Clears an element of the object of a declarator.
fn clear_element(
    declarators: &[ScopedDeclarator],
    at: usize,
    element: u32,
    locals: &mut Locals,
) -> Result<(), Memory>
    requires { HaveNumbers (map scoped_declarator declarators.now) }
    ensures { IfOk result (λ _. locals_of locals.new ≡ spec.cleared_by (spec.declarator_at (map scoped_declarator declarators.now) at) element (locals_of locals.old)) }
{
    if at < declarators.len() {
        let d = &declarators[at];
        clear_object(d.object, &d.first, element, locals)?;
        return Ok(());
    }
    Ok(())
}

/// Gives an element in range this value.
fn keep(object: Object, element: u32, value: u32, locals: &mut Locals) -> Result<(), Memory>
    requires { HasNumbers object }
    ensures { IfOk result (λ _. locals_of locals.new ≡ spec.arbitrary_object object element value (locals_of locals.old)) }
{
    match object {
        Object::Local { first, len, .. } => {
            if element < len {
                set_word(&mut locals.frame, first + element, value)
            } else {
                Ok(())
            }
        }
        Object::Handle { .. }
        | Object::Cell { .. }
        | Object::Mutex { .. }
        | Object::Cond { .. }
        | Object::Routine { .. }
        | Object::Known { .. } => Ok(()),
    }
}

/// Gives an element in range this value, as its object takes it.
fn keep_converted(
    object: Object,
    e: &ScopedExpr,
    element: u32,
    value: u32,
    locals: &mut Locals,
) -> Result<(), Memory>
    requires { HasNumbers object }
    ensures { IfOk result (λ _. locals_of locals.new ≡ spec.filled_one object (Some (scoped_expression e.now)) element value (locals_of locals.old)) }
{
    match object {
        Object::Local { first, len, kind } => {
            if element < len {
                set_word(
                    &mut locals.frame,
                    first + element,
                    converted(value, kind_of(e), kind),
                )
            } else {
                Ok(())
            }
        }
        Object::Handle { .. }
        | Object::Cell { .. }
        | Object::Mutex { .. }
        | Object::Cond { .. }
        | Object::Routine { .. }
        | Object::Known { .. } => Ok(()),
    }
}

/// Gives an element the value of its place in a list.
fn fill_listed(
    object: Object,
    values: &[ScopedExpr],
    element: u32,
    value: u32,
    locals: &mut Locals,
) -> Result<(), Memory>
    requires { HasNumbers object }
    ensures { IfOk result (λ _. locals_of locals.new ≡ spec.filled_one object (argument_at (scoped_expressions_of (map scoped_expression values.now)) element) element value (locals_of locals.old)) }
{
    if (element as usize) < values.len() {
        keep_converted(object, &values[element as usize], element, value, locals)?;
        return Ok(());
    }
    Ok(())
}

/// Gives an element its value.
fn fill_object(
    object: Object,
    init: &ScopedFirst,
    element: u32,
    value: u32,
    locals: &mut Locals,
) -> Result<(), Memory>
    requires { HasNumbers object }
    ensures { IfOk result (λ _. locals_of locals.new ≡ spec.filled_one object (spec.element_value (scoped_initializer init.now) element) element value (locals_of locals.old)) }
{
    match init {
        ScopedFirst::Nothing | ScopedFirst::Value { .. } => Ok(()),
        ScopedFirst::Listed { values } => fill_listed(object, values, element, value, locals),
    }
}

/// Gives an object its one value.
fn initialize(object: Object, e: &ScopedExpr, value: u32, locals: &mut Locals) -> Result<(), Memory>
    ensures { IfOk result (λ _. locals_of locals.new ≡ spec.single_one object (Some (scoped_expression e.now)) value (locals_of locals.old)) }
{
    match object {
        Object::Local { first, kind, .. } => {
            set_word(&mut locals.frame, first, converted(value, kind_of(e), kind))
        }
        Object::Handle { .. }
        | Object::Cell { .. }
        | Object::Mutex { .. }
        | Object::Cond { .. }
        | Object::Routine { .. }
        | Object::Known { .. } => Ok(()),
    }
}

/// Gives an object its one value, where it has one.
fn initialize_object(
    object: Object,
    init: &ScopedFirst,
    value: u32,
    locals: &mut Locals,
) -> Result<(), Memory>
    ensures { IfOk result (λ _. locals_of locals.new ≡ spec.single_one object (spec.single_value (scoped_initializer init.now)) value (locals_of locals.old)) }
{
    match init {
        ScopedFirst::Nothing | ScopedFirst::Listed { .. } => Ok(()),
        ScopedFirst::Value { value: e } => initialize(object, e, value, locals),
    }
}

/// Gives an element of the object of a declarator its input.
fn keep_element(
    declarators: &[ScopedDeclarator],
    at: usize,
    element: u32,
    value: u32,
    locals: &mut Locals,
) -> Result<(), Memory>
    requires { HaveNumbers (map scoped_declarator declarators.now) }
    ensures { IfOk result (λ _. locals_of locals.new ≡ spec.arbitrary_by (spec.declarator_at (map scoped_declarator declarators.now) at) element value (locals_of locals.old)) }
{
    if at < declarators.len() {
        let d = &declarators[at];
        keep(d.object, element, value, locals)?;
        return Ok(());
    }
    Ok(())
}

/// Gives an element of the object of a declarator its value.
fn fill_element(
    declarators: &[ScopedDeclarator],
    at: usize,
    element: u32,
    value: u32,
    locals: &mut Locals,
) -> Result<(), Memory>
    requires { HaveNumbers (map scoped_declarator declarators.now) }
    ensures { IfOk result (λ _. locals_of locals.new ≡ spec.filled_by (spec.declarator_at (map scoped_declarator declarators.now) at) element value (locals_of locals.old)) }
{
    if at < declarators.len() {
        let d = &declarators[at];
        fill_object(d.object, &d.first, element, value, locals)?;
        return Ok(());
    }
    Ok(())
}

/// Gives the object of a declarator its one value.
fn initialize_element(
    declarators: &[ScopedDeclarator],
    at: usize,
    value: u32,
    locals: &mut Locals,
) -> Result<(), Memory>
    ensures { IfOk result (λ _. locals_of locals.new ≡ spec.initialized_by (spec.declarator_at (map scoped_declarator declarators.now) at) value (locals_of locals.old)) }
{
    if at < declarators.len() {
        let d = &declarators[at];
        initialize_object(d.object, &d.first, value, locals)?;
        return Ok(());
    }
    Ok(())
}

/// What the step of a statement at a station writes to the local values, behind an expression or an input with this
/// value.
pub fn station_writes(
    s: &ScopedStmt,
    station: Station,
    value: u32,
    locals: &mut Locals,
) -> Result<(), Memory>
    requires { HaveNumbers (declared_by (scoped_statement s.now)) }
    ensures { IfOk result (λ _. locals_of locals.new ≡ spec.station_leaves (scoped_statement s.now) (station_of station) value (locals_of locals.old)) }
{
    match station {
        Station::Filling { at, element } => clear_element(declarators(s), at, element, locals),
        Station::Arbitrary { at, element } => keep_element(
            declarators(s),
            at,
            element,
            value,
            locals,
        ),
        Station::Filled { at, element } => fill_element(declarators(s), at, element, value, locals),
        Station::Initialized { at } => initialize_element(declarators(s), at, value, locals),
        Station::Start
        | Station::Led { .. }
        | Station::Evaluated
        | Station::Listing { .. }
        | Station::Listed { .. }
        | Station::Declaring { .. }
        | Station::Tested
        | Station::Taken
        | Station::Other
        | Station::Opened
        | Station::Turning { .. }
        | Station::Turned { .. }
        | Station::Bodied { .. }
        | Station::Changed { .. }
        | Station::Doing { .. }
        | Station::Returned
        | Station::Labelled => Ok(()),
    }
}
