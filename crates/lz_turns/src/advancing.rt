ghost use Rattle.std.specs.Prelude.{◌≡◌, IfOk};
ghost use Rattle.lz_tree.specs.ScopedTrees.{scoped_expression};
ghost use Rattle.lz_turns.specs.Stages.{stage_of, point_of, came_of, move_of, locals_of};
ghost use Rattle.lz_turns.specs.Stages as stages;
ghost use Rattle.lz_turns.specs.Moves as spec;
ghost use Rattle.lz_turns.specs.Moves.{turn_of, left_by, slot_of, part_of};
ghost use Rattle.lz_turns.specs.Fits.{IsFit};
ghost use Rattle.lz_turns.specs.Resumed.{Comes, PartComes, Turns};
ghost use Rattle.lz_turns.specs.Ranks.{rank, count};
ghost use Rattle.lz_turns.specs.Turning.{turned_of, turned_by, Entered, GoesDown};
ghost use Rattle.lz_turns.specs.Wents.{went_of};

use crate::calls::{
    argued_move, arguing_move, argument_move, arguments, called, calling_move, handed_move,
    made_move, made_writes, passing_move, woken_move,
};
use crate::nodes::{
    begin_move, branch_move, first_move, indexed_move, old_move, old_writes, operand_move,
    ready_move, second_move, valued_move, writing_move, writing_writes,
};
use crate::parts::part_at;
use crate::stage::{Came, Locals, Move, Place, Stage};
use crate::went::{Went, came_at, stand_behind, stand_within, value_of};
use lz_base::Memory;
use lz_tree::ScopedExpr;
use std::alloc::Global;
use std::mem;

/// A node that is done with this value.
fn done(value: u32) -> Move
    ensures { move_of result ≡ stages.comes (stages.settles value) }
{
    Move::Comes {
        came: Came::Done { value },
    }
}

/// A step of a node at a stage, with this value.
fn moved(
    alloc: Global,
    e: &ScopedExpr,
    stage: Stage,
    value: u32,
    locals: &mut Locals,
) -> Result<Move, Memory>
    requires { IsFit (scoped_expression e.now) }
    ensures step { IfOk result (λ m. move_of m ≡ turn_of (scoped_expression e.now) (stage_of stage) value (locals_of locals.old)) }
    ensures left { IfOk result (λ _. locals_of locals.new ≡ left_by (scoped_expression e.now) (stage_of stage) value (locals_of locals.old)) }
{
    match stage {
        Stage::Start => Ok(begin_move(alloc, e)),
        Stage::Given => Ok(done(value)),
        Stage::Settled { value: own } => Ok(done(own)),
        Stage::Indexed => Ok(indexed_move(e, value)),
        Stage::Ready { element } => Ok(ready_move(e, element, locals)),
        Stage::Old { element } => {
            old_writes(e, element, value, locals)?;
            Ok(old_move(e, element, value))
        }
        Stage::Valued { at } => Ok(valued_move(e, at, value)),
        Stage::Writing {
            element,
            value: own,
        } => {
            writing_writes(e, element, own, locals)?;
            Ok(writing_move(e, element, own))
        }
        Stage::Operand { element, old } => Ok(operand_move(e, element, old, value)),
        Stage::First => Ok(first_move(e, value)),
        Stage::Second { a } => Ok(second_move(e, a, value)),
        Stage::Taken => Ok(branch_move(true, e, value)),
        Stage::Other => Ok(branch_move(false, e, value)),
        Stage::Calling { values } => calling_move(alloc, called(e), arguments(e), values),
        Stage::Argument { values } => argument_move(called(e), values, value),
        Stage::Passing { objects, at } => Ok(passing_move(
            alloc,
            called(e),
            arguments(e),
            objects,
            at,
        )),
        Stage::Handed { objects, at } => handed_move(called(e), arguments(e), objects, at, value),
        Stage::Arguing {
            objects,
            values,
            at,
        } => { Ok(arguing_move(called(e), arguments(e), objects, values, at, locals)) }
        Stage::Argued {
            objects,
            values,
            at,
        } => { argued_move(called(e), arguments(e), objects, values, at, value) }
        Stage::Woken { cond, mutex } => Ok(woken_move(called(e), cond, mutex)),
        Stage::Made { handle } => {
            made_writes(called(e), handle, value, locals)?;
            Ok(made_move(called(e)))
        }
    }
}

/// How far one turn of a node came.
#[derive(Drop)]
pub enum Turned {
    /// To another stage, with this value.
    Again { stage: Stage, value: u32 },
    Stopped { went: Went },
}

/// What a turn leads to where the part behind which its node comes to this stage came so far, and stands at this place.
fn behind_part(
    alloc: Global,
    stage: Stage,
    went: Went,
    inner: Place,
    place: &mut Place,
) -> Result<Turned, Memory>
    ensures { IfOk result (λ t. turned_of t (point_of place.new) ≡ turned_by (stage_of stage) (went_of went (point_of inner))) }
{
    match value_of(&went) {
        Some(value) => Ok(Turned::Again { stage, value }),
        None => {
            stand_within(alloc, stage, inner, place)?;
            Ok(Turned::Stopped { went })
        }
    }
}

/// Goes on in the part behind which a node comes to this stage.
#[cycle(advance_in)]
fn part(
    alloc: Global,
    e: &ScopedExpr,
    stage: &Stage,
    place: &mut Place,
    given: u32,
    locals: &mut Locals,
) -> Result<Went, Memory>
    requires { IsFit (scoped_expression e.now) }
    ensures { IfOk result (λ went. PartComes (part_of (scoped_expression e.now) (slot_of (stage_of stage.now))) (point_of place.old) given (locals_of locals.old) (went_of went (point_of place.new)) (locals_of locals.new)) }
{
    match part_at(e, stage) {
        None => Ok(Went::Stops),
        Some(inner) => {
            let went = advance_in(alloc, inner, place, given, locals)?;
            Ok(went)
        }
    }
}

/// Enters the part behind which a node comes to this stage.
#[cycle(advance_in)]
fn enter(
    alloc: Global,
    e: &ScopedExpr,
    stage: Stage,
    place: &mut Place,
    locals: &mut Locals,
) -> Result<Turned, Memory>
    requires { IsFit (scoped_expression e.now) }
    ensures { IfOk result (λ t. Entered (scoped_expression e.now) (stage_of stage) (locals_of locals.old) (turned_of t (point_of place.new)) (locals_of locals.new)) }
{
    let mut inner = Place::At {
        stage: Stage::Start,
    };
    let went = part(alloc, e, &stage, &mut inner, 0, locals)?;
    let turned = behind_part(alloc, stage, went, inner, place)?;
    Ok(turned)
}

/// One turn of a node from a stage on, with this value.
#[cycle(advance_in)]
fn turn(
    alloc: Global,
    e: &ScopedExpr,
    stage: Stage,
    value: u32,
    place: &mut Place,
    locals: &mut Locals,
) -> Result<Turned, Memory>
    requires { IsFit (scoped_expression e.now) }
    ensures same { IfOk result (λ t. Turns (scoped_expression e.now) (stage_of stage) value (locals_of locals.old) (turned_of t (point_of place.new)) (locals_of locals.new)) }
    ensures down { IfOk result (λ t. GoesDown (count (spec.arguments_of (scoped_expression e.now))) (rank (scoped_expression e.now) (stage_of stage)) (turned_of t (point_of place.new))) }
{
    match moved(alloc, e, stage, value, locals)? {
        Move::Comes { came } => {
            let went = stand_behind(came, place);
            Ok(Turned::Stopped { went })
        }
        Move::Goes {
            stage: next,
            value: held,
        } => Ok(Turned::Again {
            stage: next,
            value: held,
        }),
        Move::Enters { stage: next } => {
            let turned = enter(alloc, e, next, place, locals)?;
            Ok(turned)
        }
    }
}

/// Goes on from a stage, with this value, up to the next action. Where it stands then is written to this place.
#[cycle(advance_in)]
fn go_on(
    alloc: Global,
    e: &ScopedExpr,
    stage: Stage,
    value: u32,
    place: &mut Place,
    locals: &mut Locals,
) -> Result<Went, Memory>
    requires { IsFit (scoped_expression e.now) }
    ensures { IfOk result (λ went. Comes (scoped_expression e.now) (stages.at_stage (stage_of stage)) value (locals_of locals.old) (went_of went (point_of place.new)) (locals_of locals.new)) }
{
    let mut now = stage;
    let mut held = value;
    loop {
        match turn(alloc, e, now, held, place, locals)? {
            Turned::Again {
                stage: next,
                value: given,
            } => {
                now = next;
                held = given;
            }
            Turned::Stopped { went } => return Ok(went),
        }
    }
}

/// Goes on from this place, which becomes the one behind the next action. The places of the nodes around that action
/// stay as they are.
#[cycle(advance_in)]
fn advance_in(
    alloc: Global,
    e: &ScopedExpr,
    place: &mut Place,
    given: u32,
    locals: &mut Locals,
) -> Result<Went, Memory>
    requires { IsFit (scoped_expression e.now) }
    ensures { IfOk result (λ went. Comes (scoped_expression e.now) (point_of place.old) given (locals_of locals.old) (went_of went (point_of place.new)) (locals_of locals.new)) }
{
    match place {
        Place::At { stage } => {
            let stage = mem::replace(stage, Stage::Start);
            let went = go_on(alloc, e, stage, given, place, locals)?;
            Ok(went)
        }
        Place::Within { stage, inner } => {
            let went = part(alloc, e, stage, inner, given, locals)?;
            match value_of(&went) {
                None => Ok(went),
                Some(value) => {
                    let stage = mem::replace(stage, Stage::Start);
                    let went = go_on(alloc, e, stage, value, place, locals)?;
                    Ok(went)
                }
            }
        }
    }
}

/// Goes on from a place of an expression, where this value is given, up to the next action or to the end. What the
/// expression may do from there is what it may do where it came so far, Loc left out, however deep its calls may go.
/// The time is that of the way down to the place, and of the steps that are no actions.
pub fn advance(
    alloc: Global,
    e: &ScopedExpr,
    place: Place,
    given: u32,
    locals: &mut Locals,
) -> Result<Came, Memory>
    requires { IsFit (scoped_expression e.now) }
    ensures { IfOk result (λ came. Comes (scoped_expression e.now) (point_of place) given (locals_of locals.old) (came_of came) (locals_of locals.new)) }
{
    let mut place = place;
    let went = advance_in(alloc, e, &mut place, given, locals)?;
    Ok(came_at(went, place))
}
