ghost use Rattle.std.specs.Prelude.{◌≡◌, ℕ, suc, ◌+◌, ◌-◌, ◌<◌, ◌≤◌, max, IfOk, IfErr, false, map, option_map, ◌∷◌};
ghost use Rattle.lz_expr.specs.Reading.{and_then, pure, starts};
ghost use Rattle.lz_tree.specs.Trees.{expression, expressions_of, binary, call};
ghost use Rattle.lz_tree.specs.Height.{expression_height, highest, index_height};
ghost use Rattle.lz_tree.specs.Trees.{index_of};
ghost use Rattle.lz_expr.specs.Grammar as spec;
ghost use Rattle.lz_expr.specs.Grammar.{Reads};

use crate::opening::Opening;
use crate::refusal::Refusal;
use crate::token::{
    assigning, begins, begins_assigning, begins_step, is_mark, leaf, line_at, mark, name, opens,
    opens_parts, operator, sign, step,
};
use crate::typename::{begins_type, cast_type};
use lz_tree::{Binary, Expr, Exprs, Punct, Target, Token};
use std::alloc::{AllocError, Global};

/// The class of unary expressions. The binary levels follow it from tight to loose.
pub const UNARY: u8 = 0;

/// The class of `? :`.
pub const CHOOSE: u8 = 11;

/// The class of assignments, the loosest.
pub const ASSIGN: u8 = 12;

/// An expression with its height, and the tokens behind it.
type Read<'a> = (Expr, u32, &'a [Token]);

/// An object or element, the height of its index, and the tokens behind it. The index has at most the height
/// `below`.
#[tactic(auto, unfolding(crate::specs::Grammar::target))]
#[cycle(expression)]
fn target<'a>(
    alloc: Global,
    tokens: &'a [Token],
    below: u32,
) -> Result<(Target, u32, &'a [Token]), Refusal>
    ensures read { Reads (λ x. (spec.object_of x.0, x.2.now)) result (spec.target (spec.expr below) below tokens.now) }
    ensures high { IfOk result (λ x. (x.1 ≡ index_height (index_of x.0.index)) × (x.1 ≤ below)) }
{
    let (line, number, rest) = name(tokens)?;
    if below > 0 && begins(rest, Punct::OpenBracket) {
        indexed(alloc, line, number, rest, below)
    } else {
        Ok((
            Target {
                line,
                name: number,
                index: None,
            },
            0,
            rest,
        ))
    }
}

/// The element with the index that comes next.
#[tactic(auto, unfolding(crate::specs::Grammar::indexed))]
#[cycle(expression)]
fn indexed<'a>(
    alloc: Global,
    line: u32,
    name: u32,
    tokens: &'a [Token],
    below: u32,
) -> Result<(Target, u32, &'a [Token]), Refusal>
    ensures read { Reads (λ x. (spec.object_of x.0, x.2.now)) result (spec.indexed (spec.expr below) below (line, name) tokens.now) }
    ensures high { IfOk result (λ x. (x.1 ≡ index_height (index_of x.0.index)) × (x.1 ≤ below)) }
{
    let (_, rest) = mark(tokens, Punct::OpenBracket)?;
    let (index, high, rest) = read_class(alloc, rest, below, ASSIGN)?;
    let (_, rest) = mark(rest, Punct::CloseBracket)?;
    let index = Some(Box::new(alloc, index)?);
    Ok((Target { line, name, index }, high, rest))
}

/// `,` and the argument behind it.
#[tactic(auto, unfolding(crate::specs::Grammar::next_argument))]
#[cycle(expression)]
fn next_argument<'a>(alloc: Global, tokens: &'a [Token], below: u32) -> Result<Read<'a>, Refusal>
    ensures read { Reads (λ x. (expression x.0, x.2.now)) result (spec.next_argument (spec.expr below) below tokens.now) }
    ensures high { IfOk result (λ x. (x.1 ≡ expression_height (expression x.0)) × (x.1 ≤ below)) }
{
    let (_, rest) = mark(tokens, Punct::Comma)?;
    read_class(alloc, rest, below, ASSIGN)
}

/// The arguments behind the first one, up to the closing parenthesis, with the height of the highest of all.
#[tactic(auto, unfolding(crate::specs::Grammar::more_arguments))]
#[cycle(expression)]
fn more_arguments<'a>(
    alloc: Global,
    first: Expr,
    first_height: u32,
    tokens: &'a [Token],
    below: u32,
) -> Result<(Exprs, u32, &'a [Token]), Refusal>
    requires tall { first_height ≡ expression_height (expression first) }
    requires low { first_height ≤ below }
    ensures read { Reads (λ x. (map expression x.0.items, x.2.now)) result (and_then (spec.more_arguments (spec.expr below) below tokens.now) (λ more. pure (expression first ∷ more))) }
    ensures high { IfOk result (λ x. (x.1 ≡ highest (expressions_of (map expression x.0.items))) × (x.1 ≤ below)) }
{
    let mut high = first_height;
    let mut args = Vec::new(alloc);
    args.push(first)?;
    let mut rest = tokens;
    'turns: for _turn in 0..tokens.len() {
        if begins(rest, Punct::CloseParen) {
            break;
        }
        let (arg, arg_height, after) = next_argument(alloc, rest, below)?;
        args.push(arg)?;
        high = high.max(arg_height);
        rest = after;
    }
    let (_, rest) = mark(rest, Punct::CloseParen)?;
    Ok((args, high, rest))
}

/// Whether an argument may come next: there is room for one, and a token other than `)`.
fn begins_argument(tokens: &[Token], below: u32) -> bool
    ensures { result ≡ starts (spec.begins_argument below) tokens.now }
{
    match tokens {
        [token, ..] => below > 0 && !is_mark(*token, Punct::CloseParen),
        [] => false,
    }
}

/// The arguments of a call and the closing parenthesis, with the height of the highest (C99 6.5.2.2).
#[tactic(auto, unfolding(crate::specs::Grammar::arguments, crate::specs::Grammar::some_arguments, crate::specs::Grammar::no_arguments))]
#[cycle(expression)]
fn arguments<'a>(
    alloc: Global,
    tokens: &'a [Token],
    below: u32,
) -> Result<(Exprs, u32, &'a [Token]), Refusal>
    ensures read { Reads (λ x. (map expression x.0.items, x.2.now)) result (spec.arguments (spec.expr below) below tokens.now) }
    ensures high { IfOk result (λ x. (x.1 ≡ highest (expressions_of (map expression x.0.items))) × (x.1 ≤ below)) }
{
    if begins_argument(tokens, below) {
        let (first, high, rest) = read_class(alloc, tokens, below, ASSIGN)?;
        more_arguments(alloc, first, high, rest, below)
    } else {
        let (_, rest) = mark(tokens, Punct::CloseParen)?;
        Ok((Vec::new(alloc), 0, rest))
    }
}

/// A call of its arguments.
fn call_of(line: u32, name: u32, args: Exprs) -> Expr
    ensures { expression result ≡ call line name (expressions_of (map expression args.items)) }
{
    Expr::Call { line, name, args }
}

/// What begins with a name: an object, an element, a call, or one of the first two with `++` or `--` behind it.
#[tactic(auto, unfolding(crate::specs::Grammar::named, crate::specs::Grammar::called_or_not, crate::specs::Grammar::call_of, crate::specs::Grammar::step_behind))]
#[cycle(expression)]
fn named<'a>(alloc: Global, tokens: &'a [Token], below: u32) -> Result<Read<'a>, Refusal>
    requires { below < 4294967295 }
    ensures read { Reads (λ x. (expression x.0, x.2.now)) result (spec.named (spec.expr below) below tokens.now) }
    ensures high { IfOk result (λ x. (x.1 ≡ expression_height (expression x.0)) × (x.1 ≤ suc below)) }
{
    let (target, high, rest) = target(alloc, tokens, below)?;
    if target.index.is_none() && begins(rest, Punct::OpenParen) {
        let Target {
            line,
            name,
            index: _,
        } = target;
        let (_, rest) = mark(rest, Punct::OpenParen)?;
        let (args, high, rest) = arguments(alloc, rest, below)?;
        return Ok((call_of(line, name, args), high + 1, rest));
    }
    if begins_step(rest) {
        let (_, up, rest) = step(rest)?;
        let line = target.line;
        let before = false;
        return Ok((
            Expr::Step {
                line,
                target,
                up,
                before,
            },
            high + 1,
            rest,
        ));
    }
    Ok((Expr::Object { target }, high + 1, rest))
}

/// `++` or `--`, and the object or element behind it (C99 6.5.3.1).
#[tactic(auto, unfolding(crate::specs::Grammar::step_before))]
#[cycle(expression)]
fn step_before<'a>(alloc: Global, tokens: &'a [Token], below: u32) -> Result<Read<'a>, Refusal>
    requires { below < 4294967295 }
    ensures read { Reads (λ x. (expression x.0, x.2.now)) result (spec.step_before (spec.expr below) below tokens.now) }
    ensures high { IfOk result (λ x. (x.1 ≡ expression_height (expression x.0)) × (x.1 ≤ suc below)) }
{
    let (line, up, rest) = step(tokens)?;
    let (target, high, rest) = target(alloc, rest, below)?;
    let before = true;
    Ok((
        Expr::Step {
            line,
            target,
            up,
            before,
        },
        high + 1,
        rest,
    ))
}

/// `&`, and the object or element behind it (C99 6.5.3.2).
#[tactic(auto, unfolding(crate::specs::Grammar::addressed))]
#[cycle(expression)]
fn addressed<'a>(alloc: Global, tokens: &'a [Token], below: u32) -> Result<Read<'a>, Refusal>
    requires { below < 4294967295 }
    ensures read { Reads (λ x. (expression x.0, x.2.now)) result (spec.addressed (spec.expr below) below tokens.now) }
    ensures high { IfOk result (λ x. (x.1 ≡ expression_height (expression x.0)) × (x.1 ≤ suc below)) }
{
    let (line, rest) = mark(tokens, Punct::And)?;
    let (target, high, rest) = target(alloc, rest, below)?;
    Ok((Expr::Address { line, target }, high + 1, rest))
}

/// A unary operator and its operand (C99 6.5.3.3).
#[tactic(auto, unfolding(crate::specs::Grammar::signed))]
#[cycle(expression)]
fn signed<'a>(alloc: Global, tokens: &'a [Token], below: u32) -> Result<Read<'a>, Refusal>
    requires { below < 4294967295 }
    ensures read { Reads (λ x. (expression x.0, x.2.now)) result (spec.signed (spec.expr below) below tokens.now) }
    ensures high { IfOk result (λ x. (x.1 ≡ expression_height (expression x.0)) × (x.1 ≤ suc below)) }
{
    let (line, op, rest) = sign(tokens)?;
    let (of, high, rest) = read_class(alloc, rest, below, UNARY)?;
    let of = Box::new(alloc, of)?;
    Ok((Expr::Unary { line, op, of }, high + 1, rest))
}

/// What stands behind `(`: a cast, or an expression in parentheses (C99 6.5.4, 6.5.1).
#[tactic(auto, unfolding(crate::specs::Grammar::parenthesized, crate::specs::Grammar::cast_from, crate::specs::Grammar::paren_from))]
#[cycle(expression)]
fn parenthesized<'a>(alloc: Global, tokens: &'a [Token], below: u32) -> Result<Read<'a>, Refusal>
    requires { below < 4294967295 }
    ensures read { Reads (λ x. (expression x.0, x.2.now)) result (spec.parenthesized (spec.expr below) below tokens.now) }
    ensures high { IfOk result (λ x. (x.1 ≡ expression_height (expression x.0)) × (x.1 ≤ suc below)) }
{
    let (line, rest) = mark(tokens, Punct::OpenParen)?;
    if begins_type(rest) {
        let (to, rest) = cast_type(rest)?;
        let (_, rest) = mark(rest, Punct::CloseParen)?;
        let (operand, high, rest) = read_class(alloc, rest, below, UNARY)?;
        let of = Box::new(alloc, operand)?;
        Ok((Expr::Cast { line, to, of }, high + 1, rest))
    } else {
        let (inner, high, rest) = read_class(alloc, rest, below, ASSIGN)?;
        let (_, rest) = mark(rest, Punct::CloseParen)?;
        let inner = Box::new(alloc, inner)?;
        Ok((Expr::Paren { line, inner }, high + 1, rest))
    }
}

/// A unary expression, whose parts have at most the height `below` (C99 6.5.3).
#[tactic(auto, unfolding(crate::specs::Grammar::prefix))]
#[cycle(expression)]
fn prefix<'a>(alloc: Global, tokens: &'a [Token], below: u32) -> Result<Read<'a>, Refusal>
    requires { below < 4294967295 }
    ensures read { Reads (λ x. (expression x.0, x.2.now)) result (spec.prefix (spec.expr below) below tokens.now) }
    ensures high { IfOk result (λ x. (x.1 ≡ expression_height (expression x.0)) × (x.1 ≤ suc below)) }
{
    if opens_parts(tokens, Opening::Paren, below) {
        parenthesized(alloc, tokens, below)
    } else if opens_parts(tokens, Opening::Sign, below) {
        signed(alloc, tokens, below)
    } else if opens(tokens, Opening::Address) {
        addressed(alloc, tokens, below)
    } else if opens(tokens, Opening::Step) {
        step_before(alloc, tokens, below)
    } else if opens(tokens, Opening::Name) {
        named(alloc, tokens, below)
    } else {
        let (of, rest) = leaf(tokens)?;
        Ok((of, 1, rest))
    }
}

/// A binary expression of its operands.
fn joined(alloc: Global, line: u32, op: Binary, left: Expr, right: Expr) -> Result<Expr, AllocError>
    ensures { IfOk result (λ e. expression e ≡ binary line op (expression left) (expression right)) }
{
    let left = Box::new(alloc, left)?;
    let right = Box::new(alloc, right)?;
    Ok(Expr::Binary {
        line,
        op,
        left,
        right,
    })
}

/// A row of operators of the class and their operands, grouped to the left, while the height allows one more.
#[cycle(expression)]
fn operations<'a>(
    alloc: Global,
    tokens: &'a [Token],
    below: u32,
    class: u8,
) -> Result<Read<'a>, Refusal>
    requires room { below < 4294967295 }
    requires binary { 0 < class }
    requires small { class ≤ 10 }
    ensures read { Reads (λ x. (expression x.0, x.2.now)) result (spec.operations (spec.expr below) below (class - 1) (spec.classes (spec.expr below) below (class - 1)) tokens.now) }
    ensures high { IfOk result (λ x. (x.1 ≡ expression_height (expression x.0)) × (x.1 ≤ suc below)) }
{
    let line = line_at(tokens);
    let (mut left, mut high, mut rest) = classes(alloc, tokens, below, class - 1)?;
    'row: while high <= below {
        let Some((op, after)) = operator(rest, class) else {
            break;
        };
        let (right, right_height, after) = read_class(alloc, after, below, class - 1)?;
        high = 1 + high.max(right_height);
        left = joined(alloc, line, op, left, right)?;
        rest = after;
    }
    Ok((left, high, rest))
}

/// A test, and `? :` behind it where it stands there (C99 6.5.15).
#[tactic(auto, unfolding(crate::specs::Grammar::conditional, crate::specs::Grammar::chosen))]
#[cycle(expression)]
fn conditional<'a>(alloc: Global, tokens: &'a [Token], below: u32) -> Result<Read<'a>, Refusal>
    requires { below < 4294967295 }
    ensures read { Reads (λ x. (expression x.0, x.2.now)) result (spec.conditional (spec.expr below) below (spec.classes (spec.expr below) below 10) tokens.now) }
    ensures high { IfOk result (λ x. (x.1 ≡ expression_height (expression x.0)) × (x.1 ≤ suc below)) }
{
    let line = line_at(tokens);
    let (test, high, rest) = classes(alloc, tokens, below, CHOOSE - 1)?;
    if high <= below && begins(rest, Punct::Question) {
        let (_, rest) = mark(rest, Punct::Question)?;
        let (yes, yes_height, rest) = read_class(alloc, rest, below, ASSIGN)?;
        let (_, rest) = mark(rest, Punct::Colon)?;
        let (no, no_height, rest) = read_class(alloc, rest, below, CHOOSE)?;
        let test = Box::new(alloc, test)?;
        let yes = Box::new(alloc, yes)?;
        let no = Box::new(alloc, no)?;
        let high = 1 + high.max(yes_height.max(no_height));
        Ok((
            Expr::Choose {
                line,
                test,
                yes,
                no,
            },
            high,
            rest,
        ))
    } else {
        Ok((test, high, rest))
    }
}

/// The object or element that an expression is; otherwise the expression.
fn into_target(of: Expr) -> Result<Target, Expr>
    ensures object { IfOk result (λ target. expression of ≡ spec.object_of target) }
    ensures other { IfErr result (λ same. (same ≡ of) × (spec.is_object (expression of) ≡ false)) }
{
    match of {
        Expr::Object { target } => Ok(target),
        other => Err(other),
    }
}

/// An assignment, or what no assignment operator stands behind (C99 6.5.16).
#[tactic(auto, unfolding(crate::specs::Grammar::assignment, crate::specs::Grammar::value_of))]
#[cycle(expression)]
fn assignment<'a>(alloc: Global, tokens: &'a [Token], below: u32) -> Result<Read<'a>, Refusal>
    requires { below < 4294967295 }
    ensures read { Reads (λ x. (expression x.0, x.2.now)) result (spec.assignment (spec.expr below) below (spec.classes (spec.expr below) below 11) tokens.now) }
    ensures high { IfOk result (λ x. (x.1 ≡ expression_height (expression x.0)) × (x.1 ≤ suc below)) }
{
    let line = line_at(tokens);
    let (of, high, rest) = classes(alloc, tokens, below, ASSIGN - 1)?;
    if below == 0 || !begins_assigning(rest) {
        return Ok((of, high, rest));
    }
    match into_target(of) {
        Err(of) => Ok((of, high, rest)),
        Ok(target) => {
            let (op, rest) = assigning(rest)?;
            let (value, value_height, rest) = read_class(alloc, rest, below, ASSIGN)?;
            let value = Box::new(alloc, value)?;
            let high = high.max(1 + value_height);
            Ok((
                Expr::Assign {
                    line,
                    op,
                    target,
                    value,
                },
                high,
                rest,
            ))
        }
    }
}

/// An expression of the class, whose parts have at most the height `below`.
#[tactic(auto, unfolding(crate::specs::Grammar::classes))]
#[cycle(expression)]
fn classes<'a>(
    alloc: Global,
    tokens: &'a [Token],
    below: u32,
    class: u8,
) -> Result<Read<'a>, Refusal>
    requires room { below < 4294967295 }
    requires small { class ≤ 12 }
    ensures read { Reads (λ x. (expression x.0, x.2.now)) result (spec.classes (spec.expr below) below class tokens.now) }
    ensures high { IfOk result (λ x. (x.1 ≡ expression_height (expression x.0)) × (x.1 ≤ suc below)) }
{
    if class == UNARY {
        prefix(alloc, tokens, below)
    } else if class == CHOOSE {
        conditional(alloc, tokens, below)
    } else if class == ASSIGN {
        assignment(alloc, tokens, below)
    } else {
        operations(alloc, tokens, below, class)
    }
}

/// An expression of the class and of at most the height, with its height.
#[tactic(auto, unfolding(crate::specs::Grammar::expr))]
#[cycle(expression)]
pub fn read_class<'a>(
    alloc: Global,
    tokens: &'a [Token],
    height: u32,
    class: u8,
) -> Result<Read<'a>, Refusal>
    requires { class ≤ 12 }
    ensures read { Reads (λ x. (expression x.0, x.2.now)) result (spec.expr height class tokens.now) }
    ensures high { IfOk result (λ x. (x.1 ≡ expression_height (expression x.0)) × (x.1 ≤ height)) }
{
    if height == 0 {
        return Err(Refusal::Refused { left: tokens.len() });
    }
    classes(alloc, tokens, height - 1, class)
}
