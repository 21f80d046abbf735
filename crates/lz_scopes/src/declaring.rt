ghost use Rattle.std.specs.Prelude.{◌≡◌, ◌+◌, ◌<◌, ◌≤◌, ◌-◌, length, take, map, option_map, is_some, IfOk, OnOk};
ghost use Rattle.lz_tree.specs.Trees.{expression, expressions_of, init_declarator};
ghost use Rattle.lz_scopes.specs.Constants as constants;
ghost use Rattle.lz_scopes.specs.Scopes as spec;
ghost use Rattle.lz_scopes.specs.ValueTypes as values;
ghost use Rattle.lz_scopes.specs.Views.{ended, within};

use crate::constant::{Word, constant_value};
use crate::names::Entry;
use crate::place::{Counts, Place};
use crate::value_types::{ValueType, value_type};
use lz_base::Memory;
use lz_tree::{Declarator, Expr, Object, TypeName};

/// The most elements that an array may have.
const LENGTH_LIMIT: u64 = 4096;

/// The length that a constant gives to an array, where it is one.
pub fn length_in(word: Option<Word>) -> Option<u32>
    ensures { result ≡ constants.length_in word }
{
    let word = word?;
    if 1 <= word.value && word.value <= LENGTH_LIMIT {
        Some(word.value as u32)
    } else {
        None
    }
}

/// The number of elements of an object.
pub fn elements(length: &Option<Expr>) -> u32
    ensures { result ≡ constants.elements (option_map expression length.now) }
{
    match length {
        None => 1,
        Some(e) => match length_in(constant_value(e)) {
            None => 1,
            Some(elements) => elements,
        },
    }
}

/// Whether it is an array without a right length.
pub fn is_bad_length(length: &Option<Expr>) -> bool
    ensures { result ≡ constants.is_bad_length (option_map expression length.now) }
{
    match length {
        None => false,
        Some(e) => length_in(constant_value(e)).is_none(),
    }
}

/// A sum that fits.
pub fn sum_of(a: u32, b: u32) -> Result<u32, Memory>
    ensures { IfOk result (λ n. n ≡ a + b) }
{
    match a.checked_add(b) {
        None => Err(Memory),
        Some(sum) => Ok(sum),
    }
}

/// Whether the place is at file scope.
pub fn is_outside(place: &Place) -> bool
    ensures { result ≡ spec.is_outside place.now }
{
    place.depth == 0
}

/// Whether elements of the type are counted at file scope.
fn is_counted(of: ValueType) -> bool
    ensures { result ≡ spec.is_counted of }
{
    !matches!(of, ValueType::Pointer | ValueType::Nothing)
}

/// The object that a declarator at the place declares.
pub fn object_from(place: &Place, of: ValueType, len: u32) -> Object
    ensures { result ≡ spec.object_from place.now of len }
{
    match of {
        ValueType::Thread => Object::Handle {
            first: place.counts.handles,
            len,
        },
        ValueType::Mutex => Object::Mutex {
            first: place.counts.mutexes,
            len,
        },
        ValueType::Cond => Object::Cond {
            first: place.counts.conds,
            len,
        },
        _ => {
            if is_outside(place) {
                Object::Cell {
                    first: place.counts.cells,
                    len,
                    kind: of.kind(),
                }
            } else {
                Object::Local {
                    first: place.counts.locals,
                    len,
                    kind: of.kind(),
                }
            }
        }
    }
}

/// What was counted behind an object, of its kind.
fn counted_kind(outside: bool, counts: Counts, of: ValueType, len: u32) -> Result<Counts, Memory>
    ensures { IfOk result (λ new. new ≡ spec.counted_kind outside counts of len) }
{
    match of {
        ValueType::Thread => {
            let handles = sum_of(counts.handles, len)?;
            Ok(Counts { handles, ..counts })
        }
        ValueType::Mutex => {
            let mutexes = sum_of(counts.mutexes, len)?;
            Ok(Counts { mutexes, ..counts })
        }
        ValueType::Cond => {
            let conds = sum_of(counts.conds, len)?;
            Ok(Counts { conds, ..counts })
        }
        _ => {
            if outside {
                let cells = sum_of(counts.cells, len)?;
                Ok(Counts { cells, ..counts })
            } else {
                let locals = sum_of(counts.locals, len)?;
                Ok(Counts { locals, ..counts })
            }
        }
    }
}

/// What was counted behind an object.
fn counted_more(outside: bool, counts: Counts, of: ValueType, len: u32) -> Result<Counts, Memory>
    ensures { IfOk result (λ new. new ≡ spec.counted_more outside counts of len) }
{
    let now = counted_kind(outside, counts, of, len)?;
    if outside && is_counted(of) {
        let elements = sum_of(counts.elements, len)?;
        Ok(Counts { elements, ..now })
    } else {
        Ok(Counts {
            elements: counts.elements,
            ..now
        })
    }
}

/// Declares an object at the place.
pub fn declare(
    place: &mut Place,
    name: u32,
    of: ValueType,
    array: bool,
    len: u32,
) -> Result<(), Memory>
    ensures { OnOk result (place.new ≡ spec.with_object place.old name of array len) }
{
    if place.names.len() >= 4_294_967_295 {
        return Err(Memory);
    }
    let counts = counted_more(is_outside(place), place.counts, of, len)?;
    let entry = Entry {
        name,
        depth: place.depth,
        of,
        array,
        object: object_from(place, of, len),
    };
    place.names.declare(entry)?;
    place.counts = counts;
    Ok(())
}

/// Declares the object of a declarator.
pub fn declare_one(place: &mut Place, base: TypeName, d: &Declarator) -> Result<(), Memory>
    ensures { OnOk result (place.new ≡ spec.with_declarator place.old base (init_declarator d.now)) }
{
    let of = value_type(base);
    declare(place, d.name, of, d.length.is_some(), elements(&d.length))
}

/// Begins a scope, which is the body of a loop or not. The number is for its end.
pub fn begin(place: &mut Place, in_loop: bool) -> Result<usize, Memory>
    ensures mark { IfOk result (λ mark. mark ≡ length place.old.names) }
    ensures place { OnOk result (place.new ≡ within in_loop place.old) }
{
    let depth = sum_of(place.depth, 1)?;
    place.depth = depth;
    let mark = place.names.len();
    if in_loop {
        place.in_loop = true;
        return Ok(mark);
    }
    Ok(mark)
}

/// Ends a scope, within or without a loop again.
pub fn end(place: &mut Place, mark: usize, in_loop: bool)
    requires mark { mark ≤ length place.old.names }
    requires depth { 0 < place.old.depth }
    ensures { place.new ≡ ended mark in_loop place.old }
{
    place.names.close(mark);
    place.depth -= 1;
    place.in_loop = in_loop;
}

/// The number of elements at file scope behind a declarator.
pub fn elements_behind(place: &Place, base: TypeName, d: &Declarator) -> Result<u32, Memory>
    ensures { IfOk result (λ n. n ≡ (spec.with_declarator place.now base (init_declarator d.now)).counts.elements) }
{
    let of = value_type(base);
    let counts = counted_more(is_outside(place), place.counts, of, elements(&d.length))?;
    Ok(counts.elements)
}
