//! The calls of the walks that may want memory, each by itself on a tree made by hand.

ghost use Rattle.std.specs.Prelude.{IfOk};
ghost use Rattle.lz_tree.specs.ScopedTrees.{scoped_expression, scoped_statement};
ghost use Rattle.lz_turns.specs.Fits.{IsFit, HaveNumbers};
ghost use Rattle.lz_stations.specs.StationMoves.{declared_by};

use lz_base::{IntType, Memory};
use lz_stations::{Station, station_writes};
use lz_tree::{
    Object, ScopedDeclarator, ScopedDeclarators, ScopedExpr, ScopedFirst, ScopedObjects,
    ScopedStmt, ScopedTarget,
};
use lz_turns::{Came, Locals, Place, Stage, advance, set_word};
use std::alloc::Global;
use std::test::Fail;

fn locals_of(alloc: Global, words: &[u32]) -> Result<Locals, Memory> {
    let mut frame = Vec::new(alloc);
    for word in words {
        frame.push(*word)?;
    }
    Ok(Locals {
        frame,
        handles: Vec::new(alloc),
    })
}

/// A place, a word, the words before and behind, and the reason of the row.
const WORDS: [(u32, u32, &[u32], &[u32], &str); 3] = [
    (1, 7, &[4, 9], &[4, 7], "a word in the middle"),
    (2, 7, &[4, 9], &[4, 9, 7], "one behind the last"),
    (3, 7, &[4], &[4, 0, 0, 7], "further behind, with 0 between"),
];

#[test]
fn words_are_set(rt: HostRuntime) -> Result<(), Fail> {
    for (place, word, before, behind, reason) in WORDS {
        let mut locals = locals_of(rt.alloc(), before).ok().ok_or("memory")?;
        set_word(&mut locals.frame, place, word)
            .ok()
            .ok_or("memory")?;
        assert!(rt; locals.frame.as_slice() == behind, "{reason}");
    }
    Ok(())
}

/// A read of the second local.
fn second() -> ScopedExpr
    ensures { IsFit (scoped_expression result) }
{
    ScopedExpr::Object {
        target: ScopedTarget {
            line: 1,
            object: Object::Local {
                first: 1,
                len: 1,
                kind: IntType::Int,
            },
            index: None,
            checked: false,
        },
        kind: Some(IntType::Int),
    }
}

/// The value of an expression that has no action.
fn value_of(alloc: Global, e: &ScopedExpr, locals: &mut Locals) -> Result<Option<u32>, Memory>
    requires { IsFit (scoped_expression e.now) }
{
    let place = Place::At {
        stage: Stage::Start,
    };
    match advance(alloc, e, place, 0, locals)? {
        Came::Done { value } => Ok(Some(value)),
        _ => Ok(None),
    }
}

#[test]
fn a_local_is_read(rt: HostRuntime) -> Result<(), Fail> {
    let mut locals = locals_of(rt.alloc(), &[4, 9]).ok().ok_or("memory")?;
    let value = value_of(rt.alloc(), &second(), &mut locals)
        .ok()
        .ok_or("memory")?;
    assert!(rt; value == Some(9), "the second local");
    Ok(())
}

/// A declaration of the third local with a value.
fn third(alloc: Global) -> Result<ScopedStmt, Memory>
    ensures { IfOk result (λ s. HaveNumbers (declared_by (scoped_statement s))) }
{
    let mut declarators = ScopedDeclarators::new(alloc);
    declarators.push(ScopedDeclarator {
        line: 1,
        object: Object::Local {
            first: 2,
            len: 1,
            kind: IntType::Int,
        },
        length: None,
        first: ScopedFirst::Value { value: second() },
    })?;
    Ok(ScopedStmt::Declare {
        of: ScopedObjects {
            line: 1,
            declarators,
        },
    })
}

/// Initializes the third local with a value.
fn initialize(alloc: Global, value: u32, locals: &mut Locals) -> Result<(), Memory> {
    let s = third(alloc)?;
    station_writes(&s, Station::Initialized { at: 0 }, value, locals)
}

#[test]
fn a_local_is_initialized(rt: HostRuntime) -> Result<(), Fail> {
    let mut locals = locals_of(rt.alloc(), &[4, 9]).ok().ok_or("memory")?;
    initialize(rt.alloc(), 6, &mut locals).ok().ok_or("memory")?;
    assert!(rt;
        locals.frame.as_slice() == [4, 9, 6].as_slice(),
        "the third local"
    );
    Ok(())
}
