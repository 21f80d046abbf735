ghost use Rattle.std.specs.Prelude.{◌≡◌, IfOk, option_map};
ghost use Rattle.lz_tree.specs.ScopedTrees.{scoped_statement};
ghost use Rattle.lz_turns.specs.Stages.{point_of, came_of, locals_of};
ghost use Rattle.lz_turns.specs.Resumed.{PartComes};
ghost use Rattle.lz_stations.specs.Stations.{in_value, pauses};
ghost use Rattle.lz_stations.specs.StationMoves as spec;
ghost use Rattle.lz_stations.specs.StationsHeld.{flow_of, station_of};
ghost use Rattle.lz_stations.specs.StationRanks.{station_rank};
ghost use Rattle.lz_stations.specs.StatementFits.{IsFitStatement};
ghost use Rattle.lz_stations.specs.Walks.{StatementComes, InnerComes, again, stopped, Steps, stepped_by_value, stepped_by_part, EnteredValue, EnteredPart, ComesBehind, GoesDown};
ghost use Rattle.lz_stations.specs.WalksHeld.{footing_of, pause_of, reached_of, went_of, led_of, stepped_of};

use crate::footing::{Footing, Pause, Reached};
use crate::places::{statement_part_at, value_at};
use crate::statements::station_move;
use crate::station::{Flow, Station, StationMove};
use crate::writes::station_writes;
use lz_base::{BreakKind, Memory};
use lz_tree::ScopedStmt;
use lz_turns::{Came, Locals, Place, Stage, advance};
use std::alloc::Global;
use std::mem;

/// How far a statement came, but for where it stands behind a pause.
#[derive(Drop)]
pub enum Went {
    Leads { flow: Flow },
    Pauses { pause: Pause },
    Fails { kind: BreakKind, line: u32 },
    Refuses { line: u32 },
    Exits,
    Stops,
}

/// What one step leads to.
#[derive(Drop)]
pub enum Stepped {
    /// To another station, behind an expression with this value and a statement that led on so.
    Again {
        station: Station,
        value: u32,
        flow: Flow,
    },
    Stopped {
        went: Went,
    },
}

/// A pause, behind which a statement stands here.
fn waits(pause: Pause, here: Footing, footing: &mut Footing) -> Stepped
    ensures { stepped_of result (footing_of footing.new) ≡ stopped (pauses (pause_of pause) (footing_of here)) }
{
    *footing = here;
    Stepped::Stopped {
        went: Went::Pauses { pause },
    }
}

/// A statement the expression of which came so far.
fn behind_value(station: Station, came: Came, footing: &mut Footing) -> Stepped
    ensures { stepped_of result (footing_of footing.new) ≡ stepped_by_value (station_of station) (came_of came) }
{
    match came {
        Came::Done { value } => Stepped::Again {
            station,
            value,
            flow: Flow::Normal,
        },
        Came::Acts {
            action,
            line,
            place: inner,
        } => waits(
            Pause::Acts { action, line },
            Footing::InValue { station, inner },
            footing,
        ),
        Came::Reads {
            cell,
            line,
            place: inner,
        } => waits(
            Pause::Reads { cell, line },
            Footing::InValue { station, inner },
            footing,
        ),
        Came::Asks {
            line,
            kind,
            place: inner,
        } => waits(
            Pause::Asks { line, kind },
            Footing::InValue { station, inner },
            footing,
        ),
        Came::Signals {
            cond,
            line,
            place: inner,
        } => waits(
            Pause::Signals { cond, line },
            Footing::InValue { station, inner },
            footing,
        ),
        Came::Creates {
            start,
            value,
            line,
            place: inner,
        } => waits(
            Pause::Creates { start, value, line },
            Footing::InValue { station, inner },
            footing,
        ),
        Came::Calls {
            function,
            kinds,
            values,
            place: inner,
        } => waits(
            Pause::Calls {
                function,
                kinds,
                values,
            },
            Footing::InValue { station, inner },
            footing,
        ),
        Came::Fails { kind, line } => Stepped::Stopped {
            went: Went::Fails { kind, line },
        },
        Came::Refuses { line } => Stepped::Stopped {
            went: Went::Refuses { line },
        },
        Came::Exits => Stepped::Stopped { went: Went::Exits },
        Came::Stops => Stepped::Stopped { went: Went::Stops },
    }
}

/// How a statement led on, if it did.
fn led_on(went: &Went) -> Option<Flow>
    ensures { option_map flow_of result ≡ led_of went.now }
{
    match went {
        Went::Leads { flow } => Some(*flow),
        Went::Pauses { .. }
        | Went::Fails { .. }
        | Went::Refuses { .. }
        | Went::Exits
        | Went::Stops => None,
    }
}

/// A statement that entered a part, which came so far and stands here.
fn behind_entered(
    alloc: Global,
    station: Station,
    went: Went,
    inner: Footing,
    footing: &mut Footing,
) -> Result<Stepped, Memory>
    ensures { IfOk result (λ t. stepped_of t (footing_of footing.new) ≡ stepped_by_part (station_of station) (went_of went (footing_of inner))) }
{
    match went {
        Went::Leads { flow } => Ok(Stepped::Again {
            station,
            value: 0,
            flow,
        }),
        Went::Pauses { pause } => {
            let inner = Box::new(alloc, inner)?;
            Ok(waits(pause, Footing::InPart { station, inner }, footing))
        }
        Went::Fails { kind, line } => Ok(Stepped::Stopped {
            went: Went::Fails { kind, line },
        }),
        Went::Refuses { line } => Ok(Stepped::Stopped {
            went: Went::Refuses { line },
        }),
        Went::Exits => Ok(Stepped::Stopped { went: Went::Exits }),
        Went::Stops => Ok(Stepped::Stopped { went: Went::Stops }),
    }
}

/// Goes on in the expression behind which a statement comes to this station.
fn value(
    alloc: Global,
    s: &ScopedStmt,
    station: Station,
    place: Place,
    given: u32,
    locals: &mut Locals,
) -> Result<Came, Memory>
    requires { IsFitStatement (scoped_statement s.now) }
    ensures { IfOk result (λ came. PartComes (spec.value_at (scoped_statement s.now) (station_of station)) (point_of place) given (locals_of locals.old) (came_of came) (locals_of locals.new)) }
{
    match value_at(s, station) {
        None => Ok(Came::Stops),
        Some(e) => {
            let came = advance(alloc, e, place, given, locals)?;
            Ok(came)
        }
    }
}

/// Enters the expression behind which a statement comes to this station.
fn enter_value(
    alloc: Global,
    s: &ScopedStmt,
    station: Station,
    footing: &mut Footing,
    locals: &mut Locals,
) -> Result<Stepped, Memory>
    requires { IsFitStatement (scoped_statement s.now) }
    ensures { IfOk result (λ t. EnteredValue (scoped_statement s.now) (station_of station) (locals_of locals.old) (stepped_of t (footing_of footing.new)) (locals_of locals.new)) }
{
    let came = value(
        alloc,
        s,
        station,
        Place::At {
            stage: Stage::Start,
        },
        0,
        locals,
    )?;
    Ok(behind_value(station, came, footing))
}

/// Goes on in the statement behind which a statement comes to this station, and leaves in `went` how far it came.
#[cycle(walk)]
fn part(
    alloc: Global,
    s: &ScopedStmt,
    station: Station,
    inner: &mut Footing,
    given: u32,
    bound: u32,
    went: &mut Went,
    locals: &mut Locals,
) -> Result<(), Memory>
    requires { IsFitStatement (scoped_statement s.now) }
    ensures { IfOk result (λ _. InnerComes bound (spec.part_at (scoped_statement s.now) (station_of station)) (footing_of inner.old) given (locals_of locals.old) (went_of went.new (footing_of inner.new)) (locals_of locals.new)) }
{
    match statement_part_at(s, station) {
        None => {
            *went = Went::Stops;
            Ok(())
        }
        Some(of) => walk(alloc, of, inner, given, bound, went, locals),
    }
}

/// Enters the statement behind which a statement comes to this station.
#[cycle(walk)]
fn enter_part(
    alloc: Global,
    s: &ScopedStmt,
    station: Station,
    bound: u32,
    footing: &mut Footing,
    locals: &mut Locals,
) -> Result<Stepped, Memory>
    requires { IsFitStatement (scoped_statement s.now) }
    ensures { IfOk result (λ t. EnteredPart bound (scoped_statement s.now) (station_of station) (locals_of locals.old) (stepped_of t (footing_of footing.new)) (locals_of locals.new)) }
{
    let mut inner = Footing::At {
        station: Station::Start,
    };
    let mut went = Went::Stops;
    part(alloc, s, station, &mut inner, 0, bound, &mut went, locals)?;
    let stepped = behind_entered(alloc, station, went, inner, footing)?;
    Ok(stepped)
}

/// One step of a statement from a station on, behind an expression with this value and a statement that led on so.
#[cycle(walk)]
fn step(
    alloc: Global,
    s: &ScopedStmt,
    station: Station,
    value: u32,
    flow: Flow,
    bound: u32,
    footing: &mut Footing,
    locals: &mut Locals,
) -> Result<Stepped, Memory>
    requires { IsFitStatement (scoped_statement s.now) }
    ensures same { IfOk result (λ t. Steps bound (scoped_statement s.now) (station_of station) value (flow_of flow) (locals_of locals.old) (stepped_of t (footing_of footing.new)) (locals_of locals.new)) }
    ensures down { IfOk result (λ t. GoesDown bound (scoped_statement s.now) (station_rank bound (scoped_statement s.now) (station_of station)) (stepped_of t (footing_of footing.new))) }
{
    station_writes(s, station, value, locals)?;
    match station_move(s, station, value, flow, bound) {
        StationMove::EntersValue { station: next } => {
            let stepped = enter_value(alloc, s, next, footing, locals)?;
            Ok(stepped)
        }
        StationMove::EntersPart { station: next } => {
            let stepped = enter_part(alloc, s, next, bound, footing, locals)?;
            Ok(stepped)
        }
        StationMove::MovesOn { station: next } => Ok(Stepped::Again {
            station: next,
            value: 0,
            flow: Flow::Normal,
        }),
        StationMove::Leads { flow: own } => Ok(Stepped::Stopped {
            went: Went::Leads { flow: own },
        }),
        StationMove::Asks {
            kind,
            station: next,
        } => Ok(waits(
            Pause::Asks { line: 0, kind },
            Footing::At { station: next },
            footing,
        )),
        StationMove::Stops => Ok(Stepped::Stopped { went: Went::Stops }),
    }
}

/// Goes on from a station, behind an expression with this value and a statement that led on so, up to the next pause,
/// and leaves in `footing` where the statement stands behind it, in `went` how far it came.
#[cycle(walk)]
#[inline(never)]
fn go_on(
    alloc: Global,
    s: &ScopedStmt,
    station: Station,
    value: u32,
    flow: Flow,
    bound: u32,
    footing: &mut Footing,
    went: &mut Went,
    locals: &mut Locals,
) -> Result<(), Memory>
    requires { IsFitStatement (scoped_statement s.now) }
    ensures { IfOk result (λ _. ComesBehind bound (scoped_statement s.now) (again (station_of station) value (flow_of flow)) (locals_of locals.old) (went_of went.new (footing_of footing.new)) (locals_of locals.new)) }
{
    let mut now = station;
    let mut held = value;
    let mut led = flow;
    loop {
        match step(alloc, s, now, held, led, bound, footing, locals)? {
            Stepped::Again {
                station: next,
                value: given,
                flow: way,
            } => {
                now = next;
                held = given;
                led = way;
            }
            Stepped::Stopped { went: last } => {
                *went = last;
                return Ok(());
            }
        }
    }
}

/// Goes on in the expression behind which a statement comes to this station, and behind it.
#[cycle(walk)]
#[inline(never)]
fn walk_value(
    alloc: Global,
    s: &ScopedStmt,
    station: Station,
    place: Place,
    footing: &mut Footing,
    given: u32,
    bound: u32,
    went: &mut Went,
    locals: &mut Locals,
) -> Result<(), Memory>
    requires { IsFitStatement (scoped_statement s.now) }
    ensures { IfOk result (λ _. StatementComes bound (scoped_statement s.now) (in_value (station_of station) (point_of place)) given (locals_of locals.old) (went_of went.new (footing_of footing.new)) (locals_of locals.new)) }
{
    let came = value(alloc, s, station, place, given, locals)?;
    match behind_value(station, came, footing) {
        Stepped::Again {
            station: next,
            value: held,
            flow,
        } => go_on(alloc, s, next, held, flow, bound, footing, went, locals),
        Stepped::Stopped { went: last } => {
            *went = last;
            Ok(())
        }
    }
}

/// Goes on from a footing of a statement, in place: the footings of the parts around the next pause stay where they
/// are, and only what is left or entered is written. How far the statement came is left in `went`: it is written once,
/// however many statements are around the pause. The frame of a level on the way down is kept small.
#[cycle(walk)]
fn walk(
    alloc: Global,
    s: &ScopedStmt,
    footing: &mut Footing,
    given: u32,
    bound: u32,
    went: &mut Went,
    locals: &mut Locals,
) -> Result<(), Memory>
    requires { IsFitStatement (scoped_statement s.now) }
    ensures { IfOk result (λ _. StatementComes bound (scoped_statement s.now) (footing_of footing.old) given (locals_of locals.old) (went_of went.new (footing_of footing.new)) (locals_of locals.new)) }
{
    match footing {
        Footing::At { station } => {
            let station = *station;
            go_on(
                alloc,
                s,
                station,
                given,
                Flow::Normal,
                bound,
                footing,
                went,
                locals,
            )
        }
        Footing::InValue { station, inner } => {
            let station = *station;
            let place = mem::replace(
                inner,
                Place::At {
                    stage: Stage::Start,
                },
            );
            walk_value(
                alloc, s, station, place, footing, given, bound, went, locals,
            )
        }
        Footing::InPart { station, inner } => {
            let station = *station;
            part(alloc, s, station, inner, given, bound, went, locals)?;
            match led_on(went) {
                None => Ok(()),
                Some(flow) => go_on(alloc, s, station, 0, flow, bound, footing, went, locals),
            }
        }
    }
}

/// How far a statement came, and where it stands behind a pause.
fn reached(went: Went, footing: Footing) -> Reached
    ensures { reached_of result ≡ went_of went (footing_of footing) }
{
    match went {
        Went::Leads { flow } => Reached::Leads { flow },
        Went::Pauses { pause } => Reached::Pauses { pause, footing },
        Went::Fails { kind, line } => Reached::Fails { kind, line },
        Went::Refuses { line } => Reached::Refuses { line },
        Went::Exits => Reached::Exits,
        Went::Stops => Reached::Stops,
    }
}

/// Goes on from a footing of a statement, where this value is given and a loop has at most `bound` turns, up to the next
/// pause or to the end. What the statement may do from there is what it may do where it came so far, Loc left out,
/// however deep its calls may go. The time is that of the way down to the place, and of the steps that are no actions.
pub fn advance_statement(
    alloc: Global,
    s: &ScopedStmt,
    footing: Footing,
    given: u32,
    bound: u32,
    locals: &mut Locals,
) -> Result<Reached, Memory>
    requires { IsFitStatement (scoped_statement s.now) }
    ensures { IfOk result (λ reached. StatementComes bound (scoped_statement s.now) (footing_of footing) given (locals_of locals.old) (reached_of reached) (locals_of locals.new)) }
{
    let mut here = footing;
    let mut went = Went::Stops;
    walk(alloc, s, &mut here, given, bound, &mut went, locals)?;
    Ok(reached(went, here))
}
