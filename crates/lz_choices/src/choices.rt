ghost use Rattle.std.specs.Prelude.{◌≡◌, option_map, map};
ghost use Rattle.lz_tree.specs.ScopedTrees.{scoped_expression, scoped_expressions_of, scoped_target, scoped_initializer, scoped_declarator, scoped_declaration, scoped_statement, scoped_statements_of, scoped_branch_of, scoped_definition, scoped_program};
ghost use Rattle.lz_choices.specs.Choices as spec;

use lz_tree::{
    KnownName, Object, Scoped, ScopedDeclarator, ScopedExpr, ScopedFirst, ScopedFunction,
    ScopedObjects, ScopedStmt, ScopedTarget,
};

/// The earlier of two lines, where the first part of a text stands before the second.
fn first_of(one: Option<u32>, two: Option<u32>) -> Option<u32>
    ensures { result ≡ spec.first_of_two one two }
{
    match one {
        None => two,
        Some(line) => Some(line),
    }
}

/// The line of a call of a known name, where it chooses.
fn in_known_name(name: KnownName, line: u32) -> Option<u32>
    ensures { result ≡ spec.in_known_name name line }
{
    match name {
        KnownName::NondetInt | KnownName::NondetUint | KnownName::Create => Some(line),
        KnownName::Assert
        | KnownName::Assume
        | KnownName::Error
        | KnownName::ReachError
        | KnownName::Abort
        | KnownName::AtomicBegin
        | KnownName::AtomicEnd
        | KnownName::Join
        | KnownName::Exit
        | KnownName::MutexInit
        | KnownName::MutexDestroy
        | KnownName::MutexLock
        | KnownName::MutexUnlock
        | KnownName::CondInit
        | KnownName::CondDestroy
        | KnownName::CondWait
        | KnownName::CondSignal
        | KnownName::CondBroadcast
        | KnownName::Printf => None,
    }
}

/// The line of a call, where what is called chooses.
fn in_callee(callee: Object, line: u32) -> Option<u32>
    ensures { result ≡ spec.in_callee callee line }
{
    match callee {
        Object::Known { name } => in_known_name(name, line),
        Object::Local { .. }
        | Object::Cell { .. }
        | Object::Mutex { .. }
        | Object::Cond { .. }
        | Object::Handle { .. }
        | Object::Routine { .. } => None,
    }
}

/// The first choice in the index of a target.
#[cycle(in_expression)]
fn in_target(target: &ScopedTarget) -> Option<u32>
    ensures { result ≡ spec.in_place (scoped_target target.now) }
{
    match &target.index {
        None => None,
        Some(index) => in_expression(index),
    }
}

/// The first choice in these expressions.
#[cycle(in_expression)]
fn in_expressions(items: &[ScopedExpr]) -> Option<u32>
    ensures { result ≡ spec.in_expressions (scoped_expressions_of (map scoped_expression items.now)) }
{
    for item in items {
        match in_expression(item) {
            None => {}
            Some(line) => return Some(line),
        }
    }
    None
}

/// The first choice in an expression.
#[cycle(in_expression)]
fn in_expression(e: &ScopedExpr) -> Option<u32>
    ensures { result ≡ spec.in_expression (scoped_expression e.now) }
{
    match e {
        ScopedExpr::Constant { .. } | ScopedExpr::Null { .. } | ScopedExpr::Text { .. } => None,
        ScopedExpr::Object { target, .. } => in_target(target),
        ScopedExpr::Address { target, .. } => in_target(target),
        ScopedExpr::Step { target, .. } => in_target(target),
        ScopedExpr::Paren { inner, .. } => in_expression(inner),
        ScopedExpr::Unary { of, .. } => in_expression(of),
        ScopedExpr::Cast { of, .. } => in_expression(of),
        ScopedExpr::Binary { left, right, .. } => {
            first_of(in_expression(left), in_expression(right))
        }
        ScopedExpr::Choose { test, yes, no, .. } => {
            let either = first_of(in_expression(yes), in_expression(no));
            first_of(in_expression(test), either)
        }
        ScopedExpr::Assign { target, value, .. } => {
            let place = in_target(target);
            first_of(place, in_expression(value))
        }
        ScopedExpr::Call {
            line,
            callee,
            args,
            ..
        } => {
            let called = in_callee(*callee, *line);
            first_of(called, in_expressions(args))
        }
    }
}

/// The first choice in an expression that may be missing.
fn in_option(e: &Option<ScopedExpr>) -> Option<u32>
    ensures { result ≡ spec.in_option (option_map scoped_expression e.now) }
{
    match e {
        None => None,
        Some(e) => in_expression(e),
    }
}

/// The line of an object that is declared without an initializer, where its value is a choice.
fn in_bare_object(object: Object, line: u32) -> Option<u32>
    ensures { result ≡ spec.in_bare_object object line }
{
    match object {
        Object::Local { .. } => Some(line),
        Object::Cell { .. }
        | Object::Mutex { .. }
        | Object::Cond { .. }
        | Object::Handle { .. }
        | Object::Routine { .. }
        | Object::Known { .. } => None,
    }
}

/// The first choice in what an object begins with.
fn in_object(object: Object, first: &ScopedFirst, line: u32) -> Option<u32>
    ensures { result ≡ spec.in_object object (scoped_initializer first.now) line }
{
    match first {
        ScopedFirst::Nothing => in_bare_object(object, line),
        ScopedFirst::Value { value } => in_expression(value),
        ScopedFirst::Listed { values } => in_expressions(values),
    }
}

/// The first choice in a declared object.
fn in_declarator(declarator: &ScopedDeclarator) -> Option<u32>
    ensures { result ≡ spec.in_declarator (scoped_declarator declarator.now) }
{
    in_object(declarator.object, &declarator.first, declarator.line)
}

/// The first choice in these declarators.
fn in_declarators(items: &[ScopedDeclarator]) -> Option<u32>
    ensures { result ≡ spec.in_declarators (map scoped_declarator items.now) }
{
    for item in items {
        match in_declarator(item) {
            None => {}
            Some(line) => return Some(line),
        }
    }
    None
}

/// The first choice in a declaration.
fn in_declaration(objects: &ScopedObjects) -> Option<u32>
    ensures { result ≡ spec.in_declarators (scoped_declaration objects.now).declarators }
{
    in_declarators(objects.declarators.items())
}

/// The first choice in a branch.
#[cycle(in_statement)]
fn in_branch(branch: &Option<Box<ScopedStmt>>) -> Option<u32>
    ensures { result ≡ spec.in_branch (scoped_branch_of branch.now) }
{
    match branch {
        None => None,
        Some(s) => in_statement(s),
    }
}

/// The first choice in these statements.
#[cycle(in_statement)]
fn in_statements(items: &[ScopedStmt]) -> Option<u32>
    ensures { result ≡ spec.in_statements (scoped_statements_of (map scoped_statement items.now)) }
{
    for item in items {
        match in_statement(item) {
            None => {}
            Some(line) => return Some(line),
        }
    }
    None
}

/// The first choice in a statement.
#[cycle(in_statement)]
fn in_statement(s: &ScopedStmt) -> Option<u32>
    ensures { result ≡ spec.in_statement (scoped_statement s.now) }
{
    match s {
        ScopedStmt::Empty | ScopedStmt::Break { .. } | ScopedStmt::Continue { .. } => None,
        ScopedStmt::Eval { value } => in_expression(value),
        ScopedStmt::Block { parts } => in_statements(parts),
        ScopedStmt::Declare { of } => in_declaration(of),
        ScopedStmt::If { test, yes, no, .. } => {
            let either = first_of(in_statement(yes), in_branch(no));
            first_of(in_expression(test), either)
        }
        ScopedStmt::While { test, body, .. } => first_of(in_expression(test), in_statement(body)),
        ScopedStmt::Do { body, test, .. } => first_of(in_statement(body), in_expression(test)),
        ScopedStmt::For {
            first,
            test,
            step,
            body,
            ..
        } => {
            let turn = first_of(in_option(step), in_statement(body));
            first_of(in_statement(first), first_of(in_option(test), turn))
        }
        ScopedStmt::Return { value, .. } => in_option(value),
        ScopedStmt::Label { of, .. } => in_statement(of),
    }
}

/// The first choice in the bodies of these functions.
fn in_functions(items: &[ScopedFunction]) -> Option<u32>
    ensures { result ≡ spec.in_functions (map scoped_definition items.now) }
{
    for item in items {
        match in_statement(&item.body) {
            None => {}
            Some(line) => return Some(line),
        }
    }
    None
}

/// The line of the first place of a program, in the order of its text, at which it has a choice: a call of
/// `pthread_create` or of a function that gives an input, or an integer object of a function that is declared without an
/// initializer; none where it has no such place. A function counts also where nothing calls it. Linear in the tree.
pub fn first_choice(program: &Scoped) -> Option<u32>
    ensures { result ≡ spec.first_choice (scoped_program program.now) }
{
    in_functions(program.functions.items())
}
