ghost use Rattle.std.specs.Prelude.{◌≡◌, ◌&&◌, true, option_map, map};
ghost use Rattle.std.specs.List.{All};
ghost use Rattle.lz_tree.specs.ScopedTrees.{scoped_expression, scoped_expressions_of, scoped_target, scoped_initializer, scoped_declarator, scoped_declaration, scoped_statement, scoped_statements_of, scoped_branch_of, scoped_definition, scoped_program};
ghost use Rattle.lz_stations.specs.StatementFits.{IsFitStatement};
ghost use Rattle.lz_model.specs.CodeTraces as model;
ghost use Rattle.lz_fits.specs.Fits as spec;

use lz_base::VALUE_BOUND;
use lz_tree::{
    Object, Scoped, ScopedDeclarator, ScopedExpr, ScopedFirst, ScopedFunction, ScopedObjects,
    ScopedStmt, ScopedTarget,
};

/// Whether both hold.
fn both(a: bool, b: bool) -> bool
    ensures { result ≡ (a && b) }
{
    a && b
}

/// The number of elements of an object.
fn len_of(object: Object) -> u32
    ensures { result ≡ model.len_of object }
{
    match object {
        Object::Local { len, .. }
        | Object::Cell { len, .. }
        | Object::Mutex { len, .. }
        | Object::Cond { len, .. }
        | Object::Handle { len, .. } => len,
        Object::Routine { .. } | Object::Known { .. } => 0,
    }
}

/// The number of the first element of an object.
fn first_of(object: Object) -> u32
    ensures { result ≡ model.first_of object }
{
    match object {
        Object::Local { first, .. }
        | Object::Cell { first, .. }
        | Object::Mutex { first, .. }
        | Object::Cond { first, .. }
        | Object::Handle { first, .. } => first,
        Object::Routine { function } => function,
        Object::Known { .. } => 0,
    }
}

/// Whether the elements of an object have numbers below 2^32.
fn has_numbers(object: Object) -> bool
    ensures { result ≡ spec.has_numbers object }
{
    let end = first_of(object) as u64 + len_of(object) as u64;
    !(VALUE_BOUND < end)
}

/// Whether the index of a target fits.
#[cycle(expression_fits)]
fn index_fits(target: &ScopedTarget) -> bool
    ensures { result ≡ spec.place_fits (scoped_target target.now) }
{
    let numbers = has_numbers(target.object);
    match &target.index {
        None => numbers,
        Some(index) => both(numbers, expression_fits(index)),
    }
}

/// Whether all of these fit.
#[cycle(expression_fits)]
fn all_fit(items: &[ScopedExpr]) -> bool
    ensures { result ≡ spec.all_fit (scoped_expressions_of (map scoped_expression items.now)) }
{
    let mut fit = true;
    for item in items {
        fit = both(fit, expression_fits(item));
    }
    fit
}

/// Whether the constants of an expression are words, and the elements of its objects have numbers below 2^32.
#[cycle(expression_fits)]
fn expression_fits(e: &ScopedExpr) -> bool
    ensures { result ≡ spec.fits (scoped_expression e.now) }
{
    match e {
        ScopedExpr::Constant { value, .. } => *value < VALUE_BOUND,
        ScopedExpr::Null { .. } | ScopedExpr::Text { .. } => true,
        ScopedExpr::Object { target, .. } => index_fits(target),
        ScopedExpr::Address { target, .. } => index_fits(target),
        ScopedExpr::Step { target, .. } => index_fits(target),
        ScopedExpr::Paren { inner, .. } => expression_fits(inner),
        ScopedExpr::Unary { of, .. } => expression_fits(of),
        ScopedExpr::Cast { of, .. } => expression_fits(of),
        ScopedExpr::Binary { left, right, .. } => {
            both(expression_fits(left), expression_fits(right))
        }
        ScopedExpr::Choose { test, yes, no, .. } => {
            let either = both(expression_fits(yes), expression_fits(no));
            both(expression_fits(test), either)
        }
        ScopedExpr::Assign { target, value, .. } => {
            let place = index_fits(target);
            both(place, expression_fits(value))
        }
        ScopedExpr::Call { args, .. } => all_fit(args),
    }
}

/// Whether an expression that may be missing fits.
fn may_fit(e: &Option<ScopedExpr>) -> bool
    ensures { result ≡ spec.may_fit (option_map scoped_expression e.now) }
{
    match e {
        None => true,
        Some(e) => expression_fits(e),
    }
}

/// Whether what an object begins with fits.
fn first_fits(first: &ScopedFirst) -> bool
    ensures { result ≡ spec.first_fits (scoped_initializer first.now) }
{
    match first {
        ScopedFirst::Nothing => true,
        ScopedFirst::Value { value } => expression_fits(value),
        ScopedFirst::Listed { values } => all_fit(values),
    }
}

/// Whether a declared object fits.
fn declarator_fits(declarator: &ScopedDeclarator) -> bool
    ensures { result ≡ spec.declarator_fits (scoped_declarator declarator.now) }
{
    let numbers = has_numbers(declarator.object);
    both(numbers, first_fits(&declarator.first))
}

/// Whether all of these declarators fit.
fn declarators_fit(items: &[ScopedDeclarator]) -> bool
    ensures { result ≡ spec.declared_fit (map scoped_declarator items.now) }
{
    let mut fit = true;
    for item in items {
        fit = both(fit, declarator_fits(item));
    }
    fit
}

/// Whether what a declaration declares fits.
fn declaration_fits(objects: &ScopedObjects) -> bool
    ensures { result ≡ spec.declared_fit (scoped_declaration objects.now).declarators }
{
    declarators_fit(objects.declarators.items())
}

/// Whether a branch fits.
#[cycle(statement_fits)]
fn branch_fits(branch: &Option<Box<ScopedStmt>>) -> bool
    ensures { result ≡ spec.branch_fits (scoped_branch_of branch.now) }
{
    match branch {
        None => true,
        Some(s) => statement_fits(s),
    }
}

/// Whether all of these statements fit.
#[cycle(statement_fits)]
fn parts_fit(items: &[ScopedStmt]) -> bool
    ensures { result ≡ spec.parts_fit (scoped_statements_of (map scoped_statement items.now)) }
{
    let mut fit = true;
    for item in items {
        fit = both(fit, statement_fits(item));
    }
    fit
}

/// Whether the constants of a statement are words, and the elements of its objects have numbers below 2^32.
#[cycle(statement_fits)]
fn statement_fits(s: &ScopedStmt) -> bool
    ensures { result ≡ spec.statement_fits (scoped_statement s.now) }
{
    match s {
        ScopedStmt::Empty | ScopedStmt::Break { .. } | ScopedStmt::Continue { .. } => true,
        ScopedStmt::Eval { value } => expression_fits(value),
        ScopedStmt::Block { parts } => parts_fit(parts),
        ScopedStmt::Declare { of } => declaration_fits(of),
        ScopedStmt::If { test, yes, no, .. } => {
            let either = both(statement_fits(yes), branch_fits(no));
            both(expression_fits(test), either)
        }
        ScopedStmt::While { test, body, .. } => both(expression_fits(test), statement_fits(body)),
        ScopedStmt::Do { body, test, .. } => both(statement_fits(body), expression_fits(test)),
        ScopedStmt::For {
            first,
            test,
            step,
            body,
            ..
        } => {
            let turn = both(may_fit(step), statement_fits(body));
            both(statement_fits(first), both(may_fit(test), turn))
        }
        ScopedStmt::Return { value, .. } => may_fit(value),
        ScopedStmt::Label { of, .. } => statement_fits(of),
    }
}

/// Whether a thread can run a body: its constants are words, and the elements of its objects have numbers below 2^32. It
/// takes time in the body's size.
pub fn body_fits(s: &ScopedStmt) -> bool
    ensures fits { result ≡ true → IsFitStatement (scoped_statement s.now) }
    ensures only { IsFitStatement (scoped_statement s.now) → result ≡ true }
{
    statement_fits(s)
}

/// Whether the bodies of these functions fit.
fn bodies_fit(items: &[ScopedFunction]) -> bool
    ensures { result ≡ spec.bodies_fit (map scoped_definition items.now) }
{
    let mut fit = true;
    for item in items {
        fit = both(fit, statement_fits(&item.body));
    }
    fit
}

/// Whether a thread can run a program: the constants of its functions are words, and the elements of their objects have
/// numbers below 2^32. It takes time in the program's size.
pub fn program_fits(program: &Scoped) -> bool
    ensures fits { result ≡ true → All (λ d. IsFitStatement d.body) (scoped_program program.now).functions }
    ensures only { All (λ d. IsFitStatement d.body) (scoped_program program.now).functions → result ≡ true }
{
    bodies_fit(program.functions.items())
}
