ghost use Rattle.std.specs.Prelude.{◌≡◌, ◌<◌, ◌^◌, map, option_map};
ghost use Rattle.lz_tree.specs.Trees.{expression, index_of, expressions_of, branch_of, initializer, init_declarator, declaration, statement, statements_of, external_declaration, translation_unit};
ghost use Rattle.lz_tree.specs.Height as heights;

use crate::expression::{Expr, Target};
use crate::program::{External, Program};
use crate::statement::{Declarator, First, Objects, Stmt};

#[cycle(expression_height)]
fn target_height(target: &Target) -> u32
    requires { heights.index_height (index_of target.now.index) < 2 ^ 32 }
    ensures { result ≡ heights.index_height (index_of target.now.index) }
{
    match &target.index {
        None => 0,
        Some(index) => expression_height(index),
    }
}

#[cycle(expression_height)]
fn highest(items: &[Expr]) -> u32
    requires { heights.highest (expressions_of (map expression items.now)) < 2 ^ 32 }
    ensures { result ≡ heights.highest (expressions_of (map expression items.now)) }
{
    let mut top = 0;
    for item in items {
        top = expression_height(item).max(top);
    }
    top
}

#[cycle(expression_height)]
fn expression_height(e: &Expr) -> u32
    requires { heights.expression_height (expression e.now) < 2 ^ 32 }
    ensures { result ≡ heights.expression_height (expression e.now) }
{
    match e {
        Expr::Constant { .. } | Expr::Null { .. } | Expr::Text { .. } => 1,
        Expr::Object { target } | Expr::Address { target, .. } | Expr::Step { target, .. } => {
            target_height(target) + 1
        }
        Expr::Paren { inner, .. } => expression_height(inner) + 1,
        Expr::Unary { of, .. } | Expr::Cast { of, .. } => expression_height(of) + 1,
        Expr::Binary { left, right, .. } => {
            expression_height(left).max(expression_height(right)) + 1
        }
        Expr::Choose { test, yes, no, .. } => {
            let either = expression_height(yes).max(expression_height(no));
            expression_height(test).max(either) + 1
        }
        Expr::Assign { target, value, .. } => target_height(target).max(expression_height(value))
            + 1,
        Expr::Call { args, .. } => highest(args) + 1,
    }
}

fn optional_height(e: &Option<Expr>) -> u32
    requires { heights.optional_height (option_map expression e.now) < 2 ^ 32 }
    ensures { result ≡ heights.optional_height (option_map expression e.now) }
{
    match e {
        None => 0,
        Some(e) => expression_height(e),
    }
}

fn initializer_height(first: &First) -> u32
    requires { heights.initializer_height (initializer first.now) < 2 ^ 32 }
    ensures { result ≡ heights.initializer_height (initializer first.now) }
{
    match first {
        First::Nothing | First::Mutex | First::Cond => 0,
        First::Value { value } => expression_height(value),
        First::Listed { values, .. } => highest(values) + 1,
    }
}

fn declarator_height(declarator: &Declarator) -> u32
    requires { heights.declarator_height (init_declarator declarator.now) < 2 ^ 32 }
    ensures { result ≡ heights.declarator_height (init_declarator declarator.now) }
{
    optional_height(&declarator.length).max(initializer_height(&declarator.first))
}

fn declaration_height(objects: &Objects) -> u32
    requires { heights.declaration_height (declaration objects.now) < 2 ^ 32 }
    ensures { result ≡ heights.declaration_height (declaration objects.now) }
{
    let items = objects.declarators.items();
    let mut top = 0;
    for item in items {
        top = declarator_height(item).max(top);
    }
    top
}

#[cycle(statement_height)]
fn branch_height(branch: &Option<Box<Stmt>>) -> u32
    requires { heights.branch_height (branch_of branch.now) < 2 ^ 32 }
    ensures { result ≡ heights.branch_height (branch_of branch.now) }
{
    match branch {
        None => 0,
        Some(s) => statement_height(s),
    }
}

#[cycle(statement_height)]
fn parts_height(items: &[Stmt]) -> u32
    requires { heights.parts_height (statements_of (map statement items.now)) < 2 ^ 32 }
    ensures { result ≡ heights.parts_height (statements_of (map statement items.now)) }
{
    let mut top = 0;
    for item in items {
        top = statement_height(item).max(top);
    }
    top
}

#[cycle(statement_height)]
fn statement_height(s: &Stmt) -> u32
    requires { heights.statement_height (statement s.now) < 2 ^ 32 }
    ensures { result ≡ heights.statement_height (statement s.now) }
{
    match s {
        Stmt::Empty | Stmt::Break { .. } | Stmt::Continue { .. } => 1,
        Stmt::Eval { value } => expression_height(value) + 1,
        Stmt::Block { parts } => parts_height(parts) + 1,
        Stmt::Declare { of } => declaration_height(of) + 1,
        Stmt::If { test, yes, no, .. } => {
            let either = statement_height(yes).max(branch_height(no));
            expression_height(test).max(either) + 1
        }
        Stmt::While { test, body, .. } => expression_height(test).max(statement_height(body)) + 1,
        Stmt::Do { body, test, .. } => statement_height(body).max(expression_height(test)) + 1,
        Stmt::For {
            first,
            test,
            step,
            body,
            ..
        } => {
            let turn = optional_height(step).max(statement_height(body));
            statement_height(first).max(optional_height(test).max(turn)) + 1
        }
        Stmt::Return { value, .. } => optional_height(value) + 1,
        Stmt::Label { of, .. } => statement_height(of) + 1,
    }
}

fn external_height(external: &External) -> u32
    requires { heights.external_height (external_declaration external.now) < 2 ^ 32 }
    ensures { result ≡ heights.external_height (external_declaration external.now) }
{
    match external {
        External::Objects { of, .. } => declaration_height(of),
        External::Prototype { .. } => 0,
        External::Function { body, .. } => statement_height(body),
    }
}

/// The height of the highest node of a program, or 0 where it has none. A node without subnodes has the height
/// 1, any other 1 more than its highest subnode. Takes no memory.
pub fn height(program: &Program) -> u32
    requires { heights.height (translation_unit program.now) < 2 ^ 32 }
    ensures { result ≡ heights.height (translation_unit program.now) }
{
    let items = program.externals.items();
    let mut top = 0;
    for item in items {
        top = external_height(item).max(top);
    }
    top
}
