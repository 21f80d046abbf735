ghost use Rattle.std.specs.Prelude.{◌≡◌, ◌<◌, true, nat_lt, map, option_map, Some};
ghost use Rattle.lz_base.specs.Words.{is_true};
ghost use Rattle.lz_tree.specs.ScopedTrees.{scoped_expression, scoped_expressions_of, scoped_statement, scoped_statements_of, scoped_declarator, scoped_initializer};
ghost use Rattle.lz_turns.specs.Moves.{argument_at};
ghost use Rattle.lz_stations.specs.StationMoves as spec;
ghost use Rattle.lz_stations.specs.StationsHeld.{flow_of, station_of, station_move_of};

use crate::station::{Flow, Station, StationMove};
use lz_base::IntType;
use lz_tree::{Object, ScopedDeclarator, ScopedExpr, ScopedFirst, ScopedStmt};
use lz_turns::kind_of;

/// Whether a test holds.
fn holds(value: u32) -> bool
    ensures { result ≡ is_true value }
{
    value != 0
}

/// A `return` before its first action.
fn begin_return(value: &Option<ScopedExpr>) -> StationMove
    ensures { station_move_of result ≡ spec.begin_return (option_map scoped_expression value.now) }
{
    match value {
        None => StationMove::Leads {
            flow: Flow::Returns {
                kind: IntType::Int,
                value: 0,
            },
        },
        Some(_) => StationMove::EntersValue {
            station: Station::Returned,
        },
    }
}

/// A statement before its first action, where a loop has at most `bound` turns.
fn begin_statement(s: &ScopedStmt, bound: u32) -> StationMove
    ensures { station_move_of result ≡ spec.begin_statement bound (scoped_statement s.now) }
{
    match s {
        ScopedStmt::Empty => StationMove::Leads { flow: Flow::Normal },
        ScopedStmt::Eval { .. } => StationMove::EntersValue {
            station: Station::Evaluated,
        },
        ScopedStmt::Block { .. } => StationMove::MovesOn {
            station: Station::Listing { at: 0 },
        },
        ScopedStmt::Declare { .. } => StationMove::MovesOn {
            station: Station::Declaring { at: 0 },
        },
        ScopedStmt::If { .. } => StationMove::EntersValue {
            station: Station::Tested,
        },
        ScopedStmt::While { .. } => StationMove::MovesOn {
            station: Station::Turning { left: bound },
        },
        ScopedStmt::Do { .. } => StationMove::MovesOn {
            station: Station::Doing { left: bound },
        },
        ScopedStmt::For { .. } => StationMove::EntersPart {
            station: Station::Opened,
        },
        ScopedStmt::Break { .. } => StationMove::Leads { flow: Flow::Breaks },
        ScopedStmt::Continue { .. } => StationMove::Leads {
            flow: Flow::Continues,
        },
        ScopedStmt::Return { value, .. } => begin_return(value),
        ScopedStmt::Label { .. } => StationMove::EntersPart {
            station: Station::Labelled,
        },
    }
}

/// What follows a statement that led on so is at this station.
fn follow_move(flow: Flow, next: Station) -> StationMove
    ensures { station_move_of result ≡ spec.follow_move (flow_of flow) (station_of next) }
{
    match flow {
        Flow::Normal => StationMove::MovesOn { station: next },
        Flow::Breaks => StationMove::Leads { flow: Flow::Breaks },
        Flow::Continues => StationMove::Leads {
            flow: Flow::Continues,
        },
        Flow::Returns { kind, value } => StationMove::Leads {
            flow: Flow::Returns { kind, value },
        },
    }
}

/// The parts of a block.
pub fn parts(s: &ScopedStmt) -> &[ScopedStmt]
    ensures { scoped_statements_of (map scoped_statement result.now) ≡ spec.parts_of (scoped_statement s.now) }
{
    match s {
        ScopedStmt::Block { parts } => parts,
        ScopedStmt::Empty
        | ScopedStmt::Eval { .. }
        | ScopedStmt::Declare { .. }
        | ScopedStmt::If { .. }
        | ScopedStmt::While { .. }
        | ScopedStmt::Do { .. }
        | ScopedStmt::For { .. }
        | ScopedStmt::Break { .. }
        | ScopedStmt::Continue { .. }
        | ScopedStmt::Return { .. }
        | ScopedStmt::Label { .. } => &[],
    }
}

/// Before a part of a block.
fn list_move(parts: &[ScopedStmt], at: usize) -> StationMove
    ensures { station_move_of result ≡ spec.list_move (spec.statement_at (scoped_statements_of (map scoped_statement parts.now)) at) at }
{
    if at < parts.len() {
        StationMove::EntersPart {
            station: Station::Listed { at },
        }
    } else {
        StationMove::Leads { flow: Flow::Normal }
    }
}

/// Behind a part of a block, which led on so.
fn listed_move(parts: &[ScopedStmt], at: usize, flow: Flow) -> StationMove
    ensures { station_move_of result ≡ spec.listed_so (spec.statement_at (scoped_statements_of (map scoped_statement parts.now)) at) (flow_of flow) at }
{
    if at < parts.len() {
        follow_move(flow, Station::Listing { at: at + 1 })
    } else {
        StationMove::Stops
    }
}

/// What a declaration declares.
pub fn declarators(s: &ScopedStmt) -> &[ScopedDeclarator]
    ensures { map scoped_declarator result.now ≡ spec.declared_by (scoped_statement s.now) }
{
    match s {
        ScopedStmt::Declare { of } => of.declarators.items(),
        ScopedStmt::Empty
        | ScopedStmt::Eval { .. }
        | ScopedStmt::Block { .. }
        | ScopedStmt::If { .. }
        | ScopedStmt::While { .. }
        | ScopedStmt::Do { .. }
        | ScopedStmt::For { .. }
        | ScopedStmt::Break { .. }
        | ScopedStmt::Continue { .. }
        | ScopedStmt::Return { .. }
        | ScopedStmt::Label { .. } => &[],
    }
}

/// An integer object before its first action.
fn integer_move(first: &ScopedFirst, at: usize) -> StationMove
    ensures { station_move_of result ≡ spec.integer_move (scoped_initializer first.now) at }
{
    match first {
        ScopedFirst::Nothing => StationMove::MovesOn {
            station: Station::Filling { at, element: 0 },
        },
        ScopedFirst::Value { .. } => StationMove::EntersValue {
            station: Station::Initialized { at },
        },
        ScopedFirst::Listed { .. } => StationMove::MovesOn {
            station: Station::Filling { at, element: 0 },
        },
    }
}

/// A declared object before its first action.
fn object_move(object: Object, first: &ScopedFirst, at: usize) -> StationMove
    ensures { station_move_of result ≡ spec.object_move object (scoped_initializer first.now) at }
{
    match object {
        Object::Local { .. } => integer_move(first, at),
        Object::Handle { .. } => StationMove::MovesOn {
            station: Station::Filling { at, element: 0 },
        },
        Object::Cell { .. }
        | Object::Mutex { .. }
        | Object::Cond { .. }
        | Object::Routine { .. }
        | Object::Known { .. } => StationMove::Stops,
    }
}

/// Before a declarator.
fn declare_move(declarators: &[ScopedDeclarator], at: usize) -> StationMove
    ensures { station_move_of result ≡ spec.declare_move (spec.declarator_at (map scoped_declarator declarators.now) at) at }
{
    if at < declarators.len() {
        let d = &declarators[at];
        object_move(d.object, &d.first, at)
    } else {
        StationMove::Leads { flow: Flow::Normal }
    }
}

/// An element of an object with a list of values.
fn listed_element(values: &[ScopedExpr], at: usize, element: u32) -> StationMove
    requires next { element < 4294967295 }
    ensures { station_move_of result ≡ spec.listed_move (argument_at (scoped_expressions_of (map scoped_expression values.now)) element) at element }
{
    if (element as usize) < values.len() {
        StationMove::EntersValue {
            station: Station::Filled { at, element },
        }
    } else {
        StationMove::MovesOn {
            station: Station::Filling {
                at,
                element: element + 1,
            },
        }
    }
}

/// An element of an integer object in range.
fn element_move(kind: IntType, first: &ScopedFirst, at: usize, element: u32) -> StationMove
    requires next { at < 18446744073709551615 }
    requires more { element < 4294967295 }
    ensures { station_move_of result ≡ spec.fill_integer true kind (scoped_initializer first.now) at element }
{
    match first {
        ScopedFirst::Nothing => StationMove::Asks {
            kind,
            station: Station::Arbitrary { at, element },
        },
        ScopedFirst::Value { .. } => StationMove::MovesOn {
            station: Station::Declaring { at: at + 1 },
        },
        ScopedFirst::Listed { values } => listed_element(values, at, element),
    }
}

/// An element of an integer object, behind whose last the next declarator comes.
fn fill_integer(
    len: u32,
    kind: IntType,
    first: &ScopedFirst,
    at: usize,
    element: u32,
) -> StationMove
    requires next { at < 18446744073709551615 }
    ensures { station_move_of result ≡ spec.fill_integer (nat_lt element len) kind (scoped_initializer first.now) at element }
{
    if element < len {
        element_move(kind, first, at, element)
    } else {
        StationMove::MovesOn {
            station: Station::Declaring { at: at + 1 },
        }
    }
}

/// An element of an object for threads.
fn fill_handle(len: u32, at: usize, element: u32) -> StationMove
    requires next { at < 18446744073709551615 }
    ensures { station_move_of result ≡ spec.fill_handle (nat_lt element len) at element }
{
    if element < len {
        StationMove::MovesOn {
            station: Station::Filling {
                at,
                element: element + 1,
            },
        }
    } else {
        StationMove::MovesOn {
            station: Station::Declaring { at: at + 1 },
        }
    }
}

/// An element of a declared object.
fn fill_object(object: Object, first: &ScopedFirst, at: usize, element: u32) -> StationMove
    requires next { at < 18446744073709551615 }
    ensures { station_move_of result ≡ spec.fill_object object (scoped_initializer first.now) at element }
{
    match object {
        Object::Local { len, kind, .. } => fill_integer(len, kind, first, at, element),
        Object::Handle { len, .. } => fill_handle(len, at, element),
        Object::Cell { .. }
        | Object::Mutex { .. }
        | Object::Cond { .. }
        | Object::Routine { .. }
        | Object::Known { .. } => StationMove::Stops,
    }
}

/// Before an element of the object of a declarator.
fn fill_move(declarators: &[ScopedDeclarator], at: usize, element: u32) -> StationMove
    ensures { station_move_of result ≡ spec.fill_move (spec.declarator_at (map scoped_declarator declarators.now) at) at element }
{
    if at < declarators.len() {
        let d = &declarators[at];
        fill_object(d.object, &d.first, at, element)
    } else {
        StationMove::Stops
    }
}

/// An element whose value, or input, is there.
fn filled_object(object: Object, at: usize, element: u32) -> StationMove
    ensures { station_move_of result ≡ spec.filled_object object at element }
{
    match object {
        Object::Local { len, .. } => {
            if element < len {
                StationMove::MovesOn {
                    station: Station::Filling {
                        at,
                        element: element + 1,
                    },
                }
            } else {
                StationMove::Stops
            }
        }
        Object::Cell { .. }
        | Object::Mutex { .. }
        | Object::Cond { .. }
        | Object::Handle { .. }
        | Object::Routine { .. }
        | Object::Known { .. } => StationMove::Stops,
    }
}

/// Behind the input of an element.
fn arbitrary_move(declarators: &[ScopedDeclarator], at: usize, element: u32) -> StationMove
    ensures { station_move_of result ≡ spec.arbitrary_move (spec.declarator_at (map scoped_declarator declarators.now) at) at element }
{
    if at < declarators.len() {
        let d = &declarators[at];
        filled_object(d.object, at, element)
    } else {
        StationMove::Stops
    }
}

/// An element that has a value in a list.
fn value_move(object: Object, values: &[ScopedExpr], at: usize, element: u32) -> StationMove
    ensures { station_move_of result ≡ spec.valued_move object (argument_at (scoped_expressions_of (map scoped_expression values.now)) element) at element }
{
    if (element as usize) < values.len() {
        filled_object(object, at, element)
    } else {
        StationMove::Stops
    }
}

/// An element that has a value.
fn valued_move(object: Object, first: &ScopedFirst, at: usize, element: u32) -> StationMove
    ensures { station_move_of result ≡ spec.valued_move object (spec.element_value (scoped_initializer first.now) element) at element }
{
    match first {
        ScopedFirst::Listed { values } => value_move(object, values, at, element),
        ScopedFirst::Nothing | ScopedFirst::Value { .. } => StationMove::Stops,
    }
}

/// Behind the value of an element.
fn filled_move(declarators: &[ScopedDeclarator], at: usize, element: u32) -> StationMove
    ensures { station_move_of result ≡ spec.filled_move (spec.declarator_at (map scoped_declarator declarators.now) at) at element }
{
    if at < declarators.len() {
        let d = &declarators[at];
        valued_move(d.object, &d.first, at, element)
    } else {
        StationMove::Stops
    }
}

/// An object whose one value is there.
fn single_object(object: Object, at: usize) -> StationMove
    requires next { at < 18446744073709551615 }
    ensures { station_move_of result ≡ spec.single_object object at }
{
    match object {
        Object::Local { .. } => StationMove::MovesOn {
            station: Station::Declaring { at: at + 1 },
        },
        Object::Cell { .. }
        | Object::Mutex { .. }
        | Object::Cond { .. }
        | Object::Handle { .. }
        | Object::Routine { .. }
        | Object::Known { .. } => StationMove::Stops,
    }
}

/// An object that has one value.
fn single_move(object: Object, first: &ScopedFirst, at: usize) -> StationMove
    requires next { at < 18446744073709551615 }
    ensures { station_move_of result ≡ spec.single_move object (spec.single_value (scoped_initializer first.now)) at }
{
    match first {
        ScopedFirst::Value { .. } => single_object(object, at),
        ScopedFirst::Nothing | ScopedFirst::Listed { .. } => StationMove::Stops,
    }
}

/// Behind the one value of an object.
fn initialized_move(declarators: &[ScopedDeclarator], at: usize) -> StationMove
    ensures { station_move_of result ≡ spec.initialized_move (spec.declarator_at (map scoped_declarator declarators.now) at) at }
{
    if at < declarators.len() {
        let d = &declarators[at];
        single_move(d.object, &d.first, at)
    } else {
        StationMove::Stops
    }
}

/// Behind the test of `if`.
fn tested_move(s: &ScopedStmt, value: u32) -> StationMove
    ensures { station_move_of result ≡ spec.tested_move (scoped_statement s.now) value }
{
    match s {
        ScopedStmt::If { no, .. } => {
            if holds(value) {
                return StationMove::EntersPart {
                    station: Station::Taken,
                };
            }
            match no {
                None => StationMove::Leads { flow: Flow::Normal },
                Some(_) => StationMove::EntersPart {
                    station: Station::Other,
                },
            }
        }
        ScopedStmt::Empty
        | ScopedStmt::Eval { .. }
        | ScopedStmt::Block { .. }
        | ScopedStmt::Declare { .. }
        | ScopedStmt::While { .. }
        | ScopedStmt::Do { .. }
        | ScopedStmt::For { .. }
        | ScopedStmt::Break { .. }
        | ScopedStmt::Continue { .. }
        | ScopedStmt::Return { .. }
        | ScopedStmt::Label { .. } => StationMove::Stops,
    }
}

/// A turn that the test of its loop begins, where so many are left.
fn turn_move(again: bool, left: u32) -> StationMove
    ensures { station_move_of result ≡ spec.turn_move again left }
{
    if !again {
        return StationMove::Leads { flow: Flow::Normal };
    }
    if left == 0 {
        StationMove::Stops
    } else {
        StationMove::EntersPart {
            station: Station::Bodied { left: left - 1 },
        }
    }
}

/// Before the test of a loop that may have none.
fn ask_move(test: &Option<ScopedExpr>, left: u32) -> StationMove
    ensures { station_move_of result ≡ spec.ask_move (option_map scoped_expression test.now) left }
{
    match test {
        None => turn_move(true, left),
        Some(_) => StationMove::EntersValue {
            station: Station::Turned { left },
        },
    }
}

/// Before a turn of `while` or `for`.
fn turning_move(s: &ScopedStmt, left: u32) -> StationMove
    ensures { station_move_of result ≡ spec.turning_move (spec.loop_of (scoped_statement s.now)) left }
{
    match s {
        ScopedStmt::While { .. } => StationMove::EntersValue {
            station: Station::Turned { left },
        },
        ScopedStmt::For { test, .. } => ask_move(test, left),
        ScopedStmt::Empty
        | ScopedStmt::Eval { .. }
        | ScopedStmt::Block { .. }
        | ScopedStmt::Declare { .. }
        | ScopedStmt::If { .. }
        | ScopedStmt::Do { .. }
        | ScopedStmt::Break { .. }
        | ScopedStmt::Continue { .. }
        | ScopedStmt::Return { .. }
        | ScopedStmt::Label { .. } => StationMove::Stops,
    }
}

/// Behind the test of `do`.
fn do_again(again: bool, left: u32) -> StationMove
    ensures { station_move_of result ≡ spec.do_again again left }
{
    if again {
        StationMove::MovesOn {
            station: Station::Doing { left },
        }
    } else {
        StationMove::Leads { flow: Flow::Normal }
    }
}

/// Behind the test of a loop that may have none.
fn turned_so(test: &Option<ScopedExpr>, left: u32, value: u32) -> StationMove
    ensures { station_move_of result ≡ spec.turned_so (option_map scoped_expression test.now) left value }
{
    match test {
        None => StationMove::Stops,
        Some(_) => turn_move(holds(value), left),
    }
}

/// Behind the test of a loop.
fn turned_move(s: &ScopedStmt, left: u32, value: u32) -> StationMove
    ensures { station_move_of result ≡ spec.turned_move (spec.loop_of (scoped_statement s.now)) left value }
{
    match s {
        ScopedStmt::While { .. } => turn_move(holds(value), left),
        ScopedStmt::For { test, .. } => turned_so(test, left, value),
        ScopedStmt::Do { .. } => do_again(holds(value), left),
        ScopedStmt::Empty
        | ScopedStmt::Eval { .. }
        | ScopedStmt::Block { .. }
        | ScopedStmt::Declare { .. }
        | ScopedStmt::If { .. }
        | ScopedStmt::Break { .. }
        | ScopedStmt::Continue { .. }
        | ScopedStmt::Return { .. }
        | ScopedStmt::Label { .. } => StationMove::Stops,
    }
}

/// Before the step of a loop that may have none.
fn step_move(step: &Option<ScopedExpr>, left: u32) -> StationMove
    ensures { station_move_of result ≡ spec.step_move (option_map scoped_expression step.now) left }
{
    match step {
        None => StationMove::MovesOn {
            station: Station::Turning { left },
        },
        Some(_) => StationMove::EntersValue {
            station: Station::Changed { left },
        },
    }
}

/// Behind the body of a loop, which led on so.
fn behind_body(flow: Flow, next: StationMove) -> StationMove
    ensures { station_move_of result ≡ spec.behind_body (flow_of flow) (station_move_of next) }
{
    match flow {
        Flow::Normal | Flow::Continues => next,
        Flow::Breaks => StationMove::Leads { flow: Flow::Normal },
        Flow::Returns { kind, value } => StationMove::Leads {
            flow: Flow::Returns { kind, value },
        },
    }
}

/// Behind the body of a turn.
fn bodied_move(s: &ScopedStmt, left: u32, flow: Flow) -> StationMove
    ensures { station_move_of result ≡ spec.bodied_move (spec.loop_of (scoped_statement s.now)) left (flow_of flow) }
{
    match s {
        ScopedStmt::While { .. } => behind_body(
            flow,
            StationMove::MovesOn {
                station: Station::Turning { left },
            },
        ),
        ScopedStmt::For { step, .. } => behind_body(flow, step_move(step, left)),
        ScopedStmt::Do { .. } => behind_body(
            flow,
            StationMove::EntersValue {
                station: Station::Turned { left },
            },
        ),
        ScopedStmt::Empty
        | ScopedStmt::Eval { .. }
        | ScopedStmt::Block { .. }
        | ScopedStmt::Declare { .. }
        | ScopedStmt::If { .. }
        | ScopedStmt::Break { .. }
        | ScopedStmt::Continue { .. }
        | ScopedStmt::Return { .. }
        | ScopedStmt::Label { .. } => StationMove::Stops,
    }
}

/// Behind the step of a turn.
fn changed_move(s: &ScopedStmt, left: u32) -> StationMove
    ensures { station_move_of result ≡ spec.changed_move (spec.loop_of (scoped_statement s.now)) left }
{
    match s {
        ScopedStmt::While { .. } | ScopedStmt::For { .. } => StationMove::MovesOn {
            station: Station::Turning { left },
        },
        ScopedStmt::Empty
        | ScopedStmt::Eval { .. }
        | ScopedStmt::Block { .. }
        | ScopedStmt::Declare { .. }
        | ScopedStmt::If { .. }
        | ScopedStmt::Do { .. }
        | ScopedStmt::Break { .. }
        | ScopedStmt::Continue { .. }
        | ScopedStmt::Return { .. }
        | ScopedStmt::Label { .. } => StationMove::Stops,
    }
}

/// Before a turn of `do`, where so many are left.
fn do_move(left: u32) -> StationMove
    ensures { station_move_of result ≡ spec.do_move left }
{
    if left == 0 {
        StationMove::Stops
    } else {
        StationMove::EntersPart {
            station: Station::Bodied { left: left - 1 },
        }
    }
}

/// Before a turn of `do`.
fn doing_move(s: &ScopedStmt, left: u32) -> StationMove
    ensures { station_move_of result ≡ spec.doing_move (spec.loop_of (scoped_statement s.now)) left }
{
    match s {
        ScopedStmt::Do { .. } => do_move(left),
        ScopedStmt::Empty
        | ScopedStmt::Eval { .. }
        | ScopedStmt::Block { .. }
        | ScopedStmt::Declare { .. }
        | ScopedStmt::If { .. }
        | ScopedStmt::While { .. }
        | ScopedStmt::For { .. }
        | ScopedStmt::Break { .. }
        | ScopedStmt::Continue { .. }
        | ScopedStmt::Return { .. }
        | ScopedStmt::Label { .. } => StationMove::Stops,
    }
}

/// A value that is returned.
fn returns(value: &ScopedExpr, v: u32) -> StationMove
    ensures { station_move_of result ≡ spec.return_move (Some (scoped_expression value.now)) v }
{
    StationMove::Leads {
        flow: Flow::Returns {
            kind: kind_of(value),
            value: v,
        },
    }
}

/// A value that may be returned.
fn may_return(value: &Option<ScopedExpr>, v: u32) -> StationMove
    ensures { station_move_of result ≡ spec.return_move (option_map scoped_expression value.now) v }
{
    match value {
        None => StationMove::Stops,
        Some(value) => returns(value, v),
    }
}

/// Behind the value of `return`.
fn return_move(s: &ScopedStmt, v: u32) -> StationMove
    ensures { station_move_of result ≡ spec.return_move (spec.value_of (scoped_statement s.now)) v }
{
    match s {
        ScopedStmt::Eval { value } => returns(value, v),
        ScopedStmt::If { test, .. } => returns(test, v),
        ScopedStmt::Return { value, .. } => may_return(value, v),
        ScopedStmt::Empty
        | ScopedStmt::Block { .. }
        | ScopedStmt::Declare { .. }
        | ScopedStmt::While { .. }
        | ScopedStmt::Do { .. }
        | ScopedStmt::For { .. }
        | ScopedStmt::Break { .. }
        | ScopedStmt::Continue { .. }
        | ScopedStmt::Label { .. } => StationMove::Stops,
    }
}

/// What a statement does at a station, where a loop has at most `bound` turns, behind an expression with this value, or
/// behind a statement that led on so.
pub fn station_move(
    s: &ScopedStmt,
    station: Station,
    value: u32,
    flow: Flow,
    bound: u32,
) -> StationMove
    ensures { station_move_of result ≡ spec.station_move bound (scoped_statement s.now) (station_of station) value (flow_of flow) }
{
    match station {
        Station::Start => begin_statement(s, bound),
        Station::Led { flow: own } => StationMove::Leads { flow: own },
        Station::Evaluated => StationMove::Leads { flow: Flow::Normal },
        Station::Listing { at } => list_move(parts(s), at),
        Station::Listed { at } => listed_move(parts(s), at, flow),
        Station::Declaring { at } => declare_move(declarators(s), at),
        Station::Filling { at, element } => fill_move(declarators(s), at, element),
        Station::Arbitrary { at, element } => arbitrary_move(declarators(s), at, element),
        Station::Filled { at, element } => filled_move(declarators(s), at, element),
        Station::Initialized { at } => initialized_move(declarators(s), at),
        Station::Tested => tested_move(s, value),
        Station::Taken | Station::Other | Station::Labelled => StationMove::Leads { flow },
        Station::Opened => follow_move(flow, Station::Turning { left: bound }),
        Station::Turning { left } => turning_move(s, left),
        Station::Turned { left } => turned_move(s, left, value),
        Station::Bodied { left } => bodied_move(s, left, flow),
        Station::Changed { left } => changed_move(s, left),
        Station::Doing { left } => doing_move(s, left),
        Station::Returned => return_move(s, value),
    }
}
