ghost use Rattle.std.specs.Prelude.{◌≡◌, IfOk, option_map, slice_get, map, ◌∷◌};
ghost use Rattle.lz_base.specs.Words as words;
ghost use Rattle.lz_tree.specs.ScopedTrees.{scoped_program, scoped_definition};
ghost use Rattle.lz_model.specs.Programs as model;
ghost use Rattle.lz_model.specs.CodeTraces as traces;
ghost use Rattle.lz_stations.specs.StationsHeld.{flow_of};
ghost use Rattle.lz_stations.specs.WalksHeld.{pause_of, reached_of};
ghost use Rattle.lz_machine.specs.Turns as spec;
ghost use Rattle.lz_machine.specs.Threads.{AreOf};
ghost use Rattle.lz_machine.specs.Weights.{Advances, Arrives};
ghost use Rattle.lz_machine.specs.Starts.{IsRunnable};
ghost use Rattle.lz_machine.specs.Held.{caller_of, callers_of, running_of, turned_of, is_again};

use crate::running::{Caller, Running};
use lz_base::{BreakKind, IntType, Memory, Value, convert};
use lz_stations::{Flow, Footing, Pause, Reached, Station, advance_statement};
use lz_tree::{Scoped, ScopedFunction};
use std::alloc::Global;
use std::mem;

/// What one turn of a thread leads to.
#[derive(Drop)]
pub enum Turned {
    /// It called or came back, and goes on.
    Again,
    /// Its next action, which is no call.
    Pauses { pause: Pause },
    /// A check of 0, behind which nothing comes.
    Fails { kind: BreakKind, line: u32 },
    /// An assumption of 0, behind which nothing comes.
    Refuses { line: u32 },
    /// The thread leaves its code.
    Leaves,
    /// Nothing more.
    Stops,
    /// All its calls are done.
    Ends,
}

/// The value of a word in another kind.
fn converted(a: u32, from: IntType, to: IntType) -> u32
    ensures { result ≡ words.converted a from to }
{
    convert(a as Value, from, to) as u32
}

/// The kind that stands for none: `int`.
fn kind_or(kind: Option<IntType>) -> IntType
    ensures { result ≡ traces.kind_or kind }
{
    match kind {
        Some(kind) => kind,
        None => IntType::Int,
    }
}

/// The value that a function gives whose body led on so.
fn value_of(gives: Option<IntType>, flow: Flow) -> u32
    ensures { result ≡ model.value_of gives (flow_of flow) }
{
    match flow {
        Flow::Normal | Flow::Breaks | Flow::Continues => 0,
        Flow::Returns { kind, value } => converted(value, kind, kind_or(gives)),
    }
}

/// Puts arguments into the kinds of the parameters.
fn pass(values: &mut Vec<u32>, kinds: &[IntType], params: &[IntType])
    ensures { values.new.items ≡ traces.passed kinds.now params.now values.old.items }
{
    let mut at = 0;
    while at < values.len() && at < kinds.len() && at < params.len() {
        values[at] = converted(values[at], kinds[at], params[at]);
        at += 1;
    }
}

/// The function of a call that is under way.
fn function_of(program: &Scoped, function: u32) -> Option<&ScopedFunction>
    ensures { option_map (λ f. scoped_definition f.now) result ≡ slice_get (scoped_program program.now).functions function }
{
    program.functions.items().get(function as usize)
}

/// Goes on in the innermost of the calls that wait.
fn resume(running: &mut Running, caller: Caller)
    ensures { running_of running.new ≡ spec.running_with (caller_of caller ∷ callers_of running.old.callers.items) running.old.locals.handles.items running.old.given running.old.made }
{
    running.function = caller.function;
    running.footing = caller.footing;
    running.locals.frame = caller.values;
}

/// Comes back from the innermost call with this value.
fn come_back(running: &mut Running, value: u32) -> Turned
    ensures { turned_of result running.new ≡ spec.come_back (callers_of running.old.callers.items) running.old.locals.handles.items value running.old.made }
{
    running.given = value;
    match running.callers.pop() {
        None => Turned::Ends,
        Some(caller) => {
            resume(running, caller);
            Turned::Again
        }
    }
}

/// Begins a call with these arguments, in the kinds of the parameters.
fn begin(running: &mut Running, function: u32, values: Vec<u32>) -> Result<(), Memory>
    ensures { IfOk result (λ _. running_of running.new ≡ spec.begun (running_of running.old) function values.items) }
{
    let waits = Caller {
        function: running.function,
        footing: mem::replace(
            &mut running.footing,
            Footing::At {
                station: Station::Start,
            },
        ),
        values: mem::replace(&mut running.locals.frame, values),
    };
    running.callers.push(waits)?;
    running.function = function;
    running.given = 0;
    Ok(())
}

/// Puts arguments into the kinds of the parameters of this function.
fn pass_to(program: &Scoped, function: u32, kinds: &[IntType], values: &mut Vec<u32>)
    ensures { values.new.items ≡ traces.passed kinds.now (model.function_at (scoped_program program.now) function).params values.old.items }
{
    match function_of(program, function) {
        None => {}
        Some(callee) => pass(values, kinds, callee.params.items()),
    }
}

/// Makes a call with these arguments, which have these kinds.
fn call(
    program: &Scoped,
    function: u32,
    kinds: &[IntType],
    mut values: Vec<u32>,
    running: &mut Running,
) -> Result<(), Memory>
    ensures { let p = scoped_program program.now in IfOk result (λ _. running_of running.new ≡ spec.begun (running_of running.old) function (traces.passed kinds.now (model.function_at p function).params values.items)) }
{
    pass_to(program, function, kinds, &mut values);
    begin(running, function, values)
}

/// Behind a pause of the innermost call, which stands there: a call of its begins, and at an action it waits.
fn paused(program: &Scoped, pause: Pause, running: &mut Running) -> Result<Turned, Memory>
    ensures { let r = running_of running.old in IfOk result (λ t. turned_of t running.new ≡ spec.turned_pause (scoped_program program.now) (pause_of pause) r.frames r.handles r.made) }
{
    running.given = 0;
    match pause {
        Pause::Calls {
            function,
            kinds,
            values,
        } => {
            call(program, function, &kinds, values, running)?;
            Ok(Turned::Again)
        }
        Pause::Acts { action, line } => Ok(Turned::Pauses {
            pause: Pause::Acts { action, line },
        }),
        Pause::Reads { cell, line } => Ok(Turned::Pauses {
            pause: Pause::Reads { cell, line },
        }),
        Pause::Asks { line, kind } => Ok(Turned::Pauses {
            pause: Pause::Asks { line, kind },
        }),
        Pause::Signals { cond, line } => Ok(Turned::Pauses {
            pause: Pause::Signals { cond, line },
        }),
        Pause::Creates { start, value, line } => Ok(Turned::Pauses {
            pause: Pause::Creates { start, value, line },
        }),
    }
}

/// Where the body of the innermost call came so far, of a function that gives a value of this kind.
fn came(
    program: &Scoped,
    gives: Option<IntType>,
    reached: Reached,
    running: &mut Running,
) -> Result<Turned, Memory>
    ensures { let r = running.old in IfOk result (λ t. turned_of t running.new ≡ spec.turned_by (scoped_program program.now) gives r.function r.locals.frame.items (callers_of r.callers.items) r.locals.handles.items r.made (reached_of reached)) }
{
    match reached {
        Reached::Leads { flow } => Ok(come_back(running, value_of(gives, flow))),
        Reached::Pauses { pause, footing } => {
            running.footing = footing;
            paused(program, pause, running)
        }
        Reached::Fails { kind, line } => Ok(Turned::Fails { kind, line }),
        Reached::Refuses { line } => Ok(Turned::Refuses { line }),
        Reached::Exits => Ok(Turned::Leaves),
        Reached::Stops => Ok(Turned::Stops),
    }
}

/// One turn of a thread: its innermost call goes on up to an action, a call or its end.
fn turn(
    alloc: Global,
    program: &Scoped,
    order: &[u32],
    bound: u32,
    running: &mut Running,
) -> Result<Turned, Memory>
    requires program { IsRunnable (scoped_program program.now) order.now }
    requires of { AreOf (scoped_program program.now).functions (running_of running.old).frames }
    ensures { IfOk result (λ t. Advances (scoped_program program.now) order.now bound (running_of running.old) (turned_of t running.new)) }
{
    let _order = order;
    match function_of(program, running.function) {
        None => Ok(Turned::Stops),
        Some(function) => {
            let footing = mem::replace(
                &mut running.footing,
                Footing::At {
                    station: Station::Start,
                },
            );
            let given = running.given;
            let reached = advance_statement(
                alloc,
                &function.body,
                footing,
                given,
                bound,
                &mut running.locals,
            )?;
            let turned = came(program, function.gives, reached, running)?;
            Ok(turned)
        }
    }
}

/// Whether a thread that came so far goes on.
fn goes_again(turned: &Turned) -> bool
    ensures { result ≡ is_again turned.now }
{
    match turned {
        Turned::Again => true,
        Turned::Pauses { .. }
        | Turned::Fails { .. }
        | Turned::Refuses { .. }
        | Turned::Leaves
        | Turned::Stops
        | Turned::Ends => false,
    }
}

/// Goes on up to the next action, or to the end of the thread. It comes there, since no function recurs and a loop has at
/// most `bound` turns.
pub fn run(
    alloc: Global,
    program: &Scoped,
    order: &[u32],
    bound: u32,
    running: &mut Running,
) -> Result<Turned, Memory>
    requires program { IsRunnable (scoped_program program.now) order.now }
    requires of { AreOf (scoped_program program.now).functions (running_of running.old).frames }
    ensures { IfOk result (λ t. Arrives (scoped_program program.now) bound (running_of running.old) (turned_of t running.new)) }
{
    loop {
        let turned = turn(alloc, program, order, bound, running)?;
        if !goes_again(&turned) {
            return Ok(turned);
        }
    }
}
