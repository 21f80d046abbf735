ghost use Rattle.std.specs.Prelude.{◌≡◌, ◌<◌, ◌&&◌, not};
ghost use Rattle.std.specs.List.{list_all};
ghost use Rattle.lz_tree.specs.Trees.{external_declaration, statement};
ghost use Rattle.lz_tree.specs.Languages.{is_mark};
ghost use Rattle.lz_tree.specs.declared.token.Punct.TheVariants as marks;
ghost use Rattle.lz_expr.specs.Reading.{starts};
ghost use Rattle.lz_expr.specs.Grammar.{Reads};
ghost use Rattle.lz_parse.specs.Grammar as spec;
ghost use Rattle.lz_parse.specs.Views.{heading_of};

use crate::heading::{Heading, begins_lead, read_heading};
use lz_expr::{Refusal, is_mark, mark};
use lz_grammar::{
    begins_type, read_block, read_declarator_from, read_more_declarators, read_params,
};
use lz_tree::{External, Lead, Objects, Param, Params, Punct, Stmt, Token};
use std::alloc::Global;

/// Whether an external declaration comes first.
#[tactic(auto, unfolding(crate::specs::Grammar::begins_external))]
pub fn begins_external(tokens: &[Token]) -> bool
    ensures { result ≡ starts spec.begins_external tokens.now }
{
    begins_lead(tokens) || begins_type(tokens)
}

/// Whether `static` stands before the type.
fn is_hidden(lead: Lead) -> bool
    ensures { result ≡ spec.is_hidden lead }
{
    match lead {
        Lead::Hidden => true,
        _ => false,
    }
}

/// Whether `extern` stands before the type.
fn is_outside(lead: Lead) -> bool
    ensures { result ≡ spec.is_outside lead }
{
    match lead {
        Lead::Outside => true,
        _ => false,
    }
}

/// Whether each parameter has a name.
fn all_named(params: &[Param]) -> bool
    ensures { result ≡ spec.all_named params.now }
{
    params.iter().all(|param| param.name.is_some())
}

/// Whether a body may stand behind the parameters: not behind `extern`, nor where a parameter has no name.
fn may_define(lead: Lead, params: &[Param]) -> bool
    ensures { result ≡ (not (spec.is_outside lead) && spec.all_named params.now) }
{
    !is_outside(lead) && all_named(params)
}

/// The rest of a declaration of objects whose first name was read, and what stands behind it (C99 6.9.2).
#[tactic(auto, unfolding(crate::specs::Grammar::objects_from))]
fn read_objects<'a>(
    alloc: Global,
    heading: Heading,
    tokens: &'a [Token],
    height: u32,
) -> Result<(External, &'a [Token]), Refusal>
    ensures { Reads (λ x. (external_declaration x.0, x.1.now)) result (spec.objects_from height (heading_of heading).1 tokens.now) }
{
    let (first, rest) = read_declarator_from(
        alloc,
        heading.name_line,
        heading.name,
        tokens,
        height,
    )?;
    let (declarators, rest) = read_more_declarators(alloc, first, rest, height)?;
    let of = Objects {
        line: heading.base_line,
        base: heading.base,
        declarators,
    };
    let hidden = is_hidden(heading.lead);
    Ok((External::Objects { hidden, of }, rest))
}

/// The body of a function, and what stands behind it.
fn read_body<'a>(
    alloc: Global,
    tokens: &'a [Token],
    height: u32,
) -> Result<(Stmt, &'a [Token]), Refusal>
    requires { 0 < height }
    ensures { Reads (λ x. (statement x.0, x.1.now)) result (spec.body height tokens.now) }
{
    read_block(alloc, tokens, height - 1)
}

/// A function whose parameters were read (C99 6.9.1).
#[tactic(auto, unfolding(crate::specs::Grammar::function_from))]
fn read_function<'a>(
    alloc: Global,
    heading: Heading,
    params: Params,
    void_word: bool,
    tokens: &'a [Token],
    height: u32,
) -> Result<(External, &'a [Token]), Refusal>
    requires { 0 < height }
    ensures { Reads (λ x. (external_declaration x.0, x.1.now)) result (spec.function_from height (heading_of heading) (params, void_word) tokens.now) }
{
    let (body, rest) = read_body(alloc, tokens, height)?;
    let function = External::Function {
        line: heading.line,
        hidden: is_hidden(heading.lead),
        gives: heading.base,
        name: heading.name,
        params,
        void_word,
        body,
    };
    Ok((function, rest))
}

/// A prototype whose parameters were read (C99 6.7.5.3).
#[tactic(auto, unfolding(crate::specs::Grammar::prototype_from))]
fn read_prototype(
    heading: Heading,
    params: Params,
    void_word: bool,
    tokens: &[Token],
) -> Result<(External, &[Token]), Refusal>
    ensures { Reads (λ x. (external_declaration x.0, x.1.now)) result (spec.prototype_from (heading_of heading) (params, void_word) tokens.now) }
{
    let (_, rest) = mark(tokens, Punct::Semicolon)?;
    let prototype = External::Prototype {
        line: heading.line,
        lead: heading.lead,
        gives: heading.base,
        name: heading.name,
        params,
        void_word,
    };
    Ok((prototype, rest))
}

/// Whether a body comes first, and may stand there.
fn begins_body(tokens: &[Token], lead: Lead, params: &[Param]) -> bool
    ensures { result ≡ starts (λ c. is_mark marks.OpenBrace c && (not (spec.is_outside lead) && spec.all_named params.now)) tokens.now }
{
    match tokens {
        [token, ..] => is_mark(*token, Punct::OpenBrace) && may_define(lead, params),
        [] => false,
    }
}

/// A function or a prototype whose name was read, and what stands behind it.
#[tactic(auto, unfolding(crate::specs::Grammar::called_from, crate::specs::Grammar::body_or_end))]
fn read_called<'a>(
    alloc: Global,
    heading: Heading,
    tokens: &'a [Token],
    height: u32,
) -> Result<(External, &'a [Token]), Refusal>
    requires { 0 < height }
    ensures { Reads (λ x. (external_declaration x.0, x.1.now)) result (spec.called_from height (heading_of heading) tokens.now) }
{
    let (_, rest) = mark(tokens, Punct::OpenParen)?;
    let (params, void_word, rest) = read_params(alloc, rest)?;
    if begins_body(rest, heading.lead, params.items()) {
        read_function(alloc, heading, params, void_word, rest, height)
    } else {
        read_prototype(heading, params, void_word, rest)
    }
}

/// Whether the rest of a declaration of objects may come first: another token than `(`, and not behind `extern`.
fn begins_objects(tokens: &[Token], lead: Lead) -> bool
    ensures { result ≡ starts (λ c. not (is_mark marks.OpenParen c) && not (spec.is_outside lead)) tokens.now }
{
    match tokens {
        [token, ..] => !is_mark(*token, Punct::OpenParen) && !is_outside(lead),
        [] => false,
    }
}

/// An external declaration of at most the height, and what stands behind it (C99 6.9).
#[tactic(auto, unfolding(crate::specs::Grammar::external, crate::specs::Grammar::behind_heading))]
pub fn read_external<'a>(
    alloc: Global,
    tokens: &'a [Token],
    height: u32,
) -> Result<(External, &'a [Token]), Refusal>
    requires { 0 < height }
    ensures { Reads (λ x. (external_declaration x.0, x.1.now)) result (spec.external height tokens.now) }
{
    let (heading, rest) = read_heading(tokens)?;
    if begins_objects(rest, heading.lead) {
        read_objects(alloc, heading, rest, height)
    } else {
        read_called(alloc, heading, rest, height)
    }
}
