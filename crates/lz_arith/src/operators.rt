//! The word operators of the checked language as circuits.
ghost use Rattle.std.specs.Prelude.{◌≡◌, ℕ, ◌+◌, ◌*◌, ◌<◌, ◌≤◌, true, ◌%◌, ◌&&◌, ◌||◌, IfOk, OnOk, OnErr, IsErr, length, if◌then◌else◌, not, ◌==◌, int_lt, false};
ghost use Rattle.lz_cnf.specs.Models.{negated, variable_bound};
ghost use Rattle.lz_base.specs.Words.{value_bound, truth, is_true, signed, unary_value, binary_value, converted};
ghost use Rattle.lz_gates.specs.Circuits.{Assignment, Satisfies, value, IsLit, AreLits, Makes};
ghost use Rattle.lz_arith.specs.Bits.{word, AreBits, is_negative};
ghost use Rattle.lz_arith.specs.Sizes.{width, word_width, unary_variables, unary_clauses, binary_variables, binary_clauses, choice_variables, choice_clauses, test_variables, test_clauses};

use crate::add::{add_words, minus_word, subtract_words};
use crate::bitwise::{Bitwise, bitwise_words, or_gate};
use crate::choose::choose_words;
use crate::compare::{differ, less};
use crate::divide::{quotient_word, remainder_word};
use crate::lists::{Bits, copied, inverted, one_before, repeated};
use crate::nonzero::truth_test;
use crate::product::multiply;
use crate::shift::{shift_down, shift_up};
use lz_base::{Binary, IntType, Memory, Unary};
use lz_cnf::Lit;
use lz_gates::Builder;
use std::alloc::Global;

/// The word of a truth value: the literal, and 31 that are false.
fn truth_word(alloc: Global, builder: &Builder, lit: Lit) -> Result<Bits, Memory>
    requires lit { IsLit builder.now lit }
    ensures bits { IfOk result (AreBits builder.now word_width) }
    ensures made { IfOk result (λ r. Makes builder.now builder.now 0 0 (λ a. word a r ≡ truth (value a lit))) }
{
    let off = builder.falsity();
    let above = repeated(alloc, off, 31)?;
    let bits = one_before(alloc, lit, above.items())?;
    Ok(bits)
}

/// `!`: whether the word is 0.
fn not_word(alloc: Global, builder: &mut Builder, bits: &[Lit]) -> Result<Bits, Memory>
    requires bits { AreBits builder.old word_width bits.now }
    requires room { builder.old.variables + unary_variables Unary.Not < variable_bound }
    ensures bits { IfOk result (AreBits builder.new word_width) }
    ensures made { IfOk result (λ r. Makes builder.old builder.new (unary_variables Unary.Not) (unary_clauses Unary.Not) (λ a. word a r ≡ truth (word a bits.now == 0))) }
{
    let test = truth_test(alloc, builder, bits)?;
    let result = truth_word(alloc, builder, test.negated())?;
    Ok(result)
}

/// The circuit of a unary operator.
fn unary_word(
    alloc: Global,
    builder: &mut Builder,
    op: Unary,
    t: IntType,
    bits: &[Lit],
) -> Result<Bits, Memory>
    requires bits { AreBits builder.old word_width bits.now }
    requires room { builder.old.variables + unary_variables op < variable_bound }
    ensures bits { IfOk result (AreBits builder.new word_width) }
    ensures made { IfOk result (λ r. Makes builder.old builder.new (unary_variables op) (unary_clauses op) (λ a. word a r ≡ unary_value op (word a bits.now) t)) }
{
    let _ = t;
    match op {
        Unary::Plus => {
            let same = copied(alloc, bits)?;
            Ok(same)
        }
        Unary::Minus => minus_word(alloc, builder, bits),
        Unary::Invert => {
            let turned = inverted(alloc, bits)?;
            Ok(turned)
        }
        Unary::Not => not_word(alloc, builder, bits),
    }
}

/// `+`.
fn sum_word(
    alloc: Global,
    builder: &mut Builder,
    left: &[Lit],
    right: &[Lit],
) -> Result<Bits, Memory>
    requires left { AreBits builder.old word_width left.now }
    requires right { AreBits builder.old word_width right.now }
    requires room { builder.old.variables + binary_variables Binary.Add < variable_bound }
    ensures bits { IfOk result (AreBits builder.new word_width) }
    ensures made { IfOk result (λ r. Makes builder.old builder.new (binary_variables Binary.Add) (binary_clauses Binary.Add)
        (λ a. word a r ≡ (word a left.now + word a right.now) % value_bound)) }
{
    let off = builder.falsity();
    let sum = add_words(alloc, builder, left, right, off)?;
    Ok(sum)
}

/// Whether the left word is below the right one, or, turned, whether it is not.
fn order_word(
    alloc: Global,
    builder: &mut Builder,
    t: IntType,
    left: &[Lit],
    right: &[Lit],
    turned: bool,
) -> Result<Bits, Memory>
    requires left { AreBits builder.old word_width left.now }
    requires right { AreBits builder.old word_width right.now }
    requires room { builder.old.variables + 2 * word_width < variable_bound }
    ensures bits { IfOk result (AreBits builder.new word_width) }
    ensures made { IfOk result (λ r. Makes builder.old builder.new (2 * word_width) (10 * word_width)
        (λ a. word a r ≡ truth (if turned then not (int_lt (signed t (word a left.now)) (signed t (word a right.now))) else int_lt (signed t (word a left.now)) (signed t (word a right.now))))) }
{
    let lit = less(alloc, builder, t, left, right)?;
    let own = turned_literal(lit, turned);
    let bits = truth_word(alloc, builder, own)?;
    Ok(bits)
}

/// Whether the words are equal, or, turned, whether they are not.
fn equality_word(
    alloc: Global,
    builder: &mut Builder,
    left: &[Lit],
    right: &[Lit],
    turned: bool,
) -> Result<Bits, Memory>
    requires left { AreBits builder.old word_width left.now }
    requires right { AreBits builder.old word_width right.now }
    requires room { builder.old.variables + binary_variables Binary.Eq < variable_bound }
    ensures bits { IfOk result (AreBits builder.new word_width) }
    ensures made { IfOk result (λ r. Makes builder.old builder.new (binary_variables Binary.Eq) (binary_clauses Binary.Eq)
        (λ a. word a r ≡ truth (if turned then not (word a left.now == word a right.now) else (word a left.now == word a right.now)))) }
{
    let lit = differ(alloc, builder, left, right)?;
    let own = turned_literal(lit, !turned);
    let bits = truth_word(alloc, builder, own)?;
    Ok(bits)
}

/// The literal, in the other sign where it is turned.
fn turned_literal(lit: Lit, turned: bool) -> Lit
    ensures { result ≡ (if turned then negated lit else lit) }
{
    if turned { lit.negated() } else { lit }
}

/// Whether both words are true.
fn both_word(
    alloc: Global,
    builder: &mut Builder,
    left: &[Lit],
    right: &[Lit],
) -> Result<Bits, Memory>
    requires left { AreBits builder.old word_width left.now }
    requires right { AreBits builder.old word_width right.now }
    requires room { builder.old.variables + binary_variables Binary.Both < variable_bound }
    ensures bits { IfOk result (AreBits builder.new word_width) }
    ensures made { IfOk result (λ r. Makes builder.old builder.new (binary_variables Binary.Both) (binary_clauses Binary.Both)
        (λ a. word a r ≡ truth (is_true (word a left.now) && is_true (word a right.now)))) }
{
    let first = truth_test(alloc, builder, left)?;
    let second = truth_test(alloc, builder, right)?;
    let lit = builder.and_gate(first, second)?;
    let bits = truth_word(alloc, builder, lit)?;
    Ok(bits)
}

/// Whether a word is true.
fn either_word(
    alloc: Global,
    builder: &mut Builder,
    left: &[Lit],
    right: &[Lit],
) -> Result<Bits, Memory>
    requires left { AreBits builder.old word_width left.now }
    requires right { AreBits builder.old word_width right.now }
    requires room { builder.old.variables + binary_variables Binary.Either < variable_bound }
    ensures bits { IfOk result (AreBits builder.new word_width) }
    ensures made { IfOk result (λ r. Makes builder.old builder.new (binary_variables Binary.Either) (binary_clauses Binary.Either)
        (λ a. word a r ≡ truth (is_true (word a left.now) || is_true (word a right.now)))) }
{
    let first = truth_test(alloc, builder, left)?;
    let second = truth_test(alloc, builder, right)?;
    let lit = or_gate(builder, first, second)?;
    let bits = truth_word(alloc, builder, lit)?;
    Ok(bits)
}

/// `<<`: the right word modulo 32 is the number of its lowest five bits.
fn left_shift_word(
    alloc: Global,
    builder: &mut Builder,
    t: IntType,
    left: &[Lit],
    right: &[Lit],
) -> Result<Bits, Memory>
    requires left { AreBits builder.old word_width left.now }
    requires right { AreBits builder.old word_width right.now }
    requires room { builder.old.variables + binary_variables Binary.Shl < variable_bound }
    ensures bits { IfOk result (AreBits builder.new word_width) }
    ensures made { IfOk result (λ r. Makes builder.old builder.new (binary_variables Binary.Shl) (binary_clauses Binary.Shl)
        (λ a. word a r ≡ binary_value Binary.Shl (word a left.now) (word a right.now) t)) }
{
    let _ = t;
    let amount = &right[..5];
    let bits = shift_up(alloc, builder, left, amount)?;
    Ok(bits)
}

/// What fills the places that come free above in a shift to the right: the top bit of a word with sign.
fn fill_of(builder: &Builder, t: IntType, bits: &[Lit]) -> Lit
    requires bits { AreBits builder.now word_width bits.now }
    ensures lit { IsLit builder.now result }
    ensures says { (a : Assignment) → Satisfies a builder.now.clauses → value a result ≡ is_negative t (word a bits.now) }
{
    match t {
        IntType::Int => bits[31],
        IntType::Unsigned => builder.falsity(),
    }
}

/// `>>`, rounded down.
fn right_shift_word(
    alloc: Global,
    builder: &mut Builder,
    t: IntType,
    left: &[Lit],
    right: &[Lit],
) -> Result<Bits, Memory>
    requires left { AreBits builder.old word_width left.now }
    requires right { AreBits builder.old word_width right.now }
    requires room { builder.old.variables + binary_variables Binary.Shr < variable_bound }
    ensures bits { IfOk result (AreBits builder.new word_width) }
    ensures made { IfOk result (λ r. Makes builder.old builder.new (binary_variables Binary.Shr) (binary_clauses Binary.Shr)
        (λ a. word a r ≡ binary_value Binary.Shr (word a left.now) (word a right.now) t)) }
{
    let fill = fill_of(builder, t, left);
    let places = &right[..5];
    let bits = shift_down(alloc, builder, fill, left, places)?;
    Ok(bits)
}

/// The circuit of a binary operator.
fn binary_word(
    alloc: Global,
    builder: &mut Builder,
    op: Binary,
    t: IntType,
    left: &[Lit],
    right: &[Lit],
) -> Result<Bits, Memory>
    requires left { AreBits builder.old word_width left.now }
    requires right { AreBits builder.old word_width right.now }
    requires room { builder.old.variables + binary_variables op < variable_bound }
    ensures bits { IfOk result (AreBits builder.new word_width) }
    ensures made { IfOk result (λ r. Makes builder.old builder.new (binary_variables op) (binary_clauses op) (λ a. word a r ≡ binary_value op (word a left.now) (word a right.now) t)) }
{
    match op {
        Binary::Mul => multiply(alloc, builder, left, right),
        Binary::Div => quotient_word(alloc, builder, t, left, right),
        Binary::Rem => remainder_word(alloc, builder, t, left, right),
        Binary::Add => sum_word(alloc, builder, left, right),
        Binary::Sub => subtract_words(alloc, builder, left, right),
        Binary::Shl => left_shift_word(alloc, builder, t, left, right),
        Binary::Shr => right_shift_word(alloc, builder, t, left, right),
        Binary::Lt => order_word(alloc, builder, t, left, right, false),
        Binary::Gt => order_word(alloc, builder, t, right, left, false),
        Binary::Le => order_word(alloc, builder, t, right, left, true),
        Binary::Ge => order_word(alloc, builder, t, left, right, true),
        Binary::Eq => equality_word(alloc, builder, left, right, false),
        Binary::Ne => equality_word(alloc, builder, left, right, true),
        Binary::BitAnd => bitwise_words(alloc, builder, Bitwise::And, left, right),
        Binary::BitXor => bitwise_words(alloc, builder, Bitwise::Xor, left, right),
        Binary::BitOr => bitwise_words(alloc, builder, Bitwise::Or, left, right),
        Binary::Both => both_word(alloc, builder, left, right),
        Binary::Either => either_word(alloc, builder, left, right),
    }
}

/// The outcome of a circuit. Where it is want of memory, the builder answers that from now on.
fn settled(builder: &mut Builder, outcome: Result<Bits, Memory>) -> Result<Bits, Memory>
    ensures same { result ≡ outcome }
    ensures ok { OnOk outcome (builder.new ≡ builder.old) }
    ensures err { OnErr outcome (builder.new.spent ≡ true) }
{
    if outcome.is_err() {
        builder.give_up();
    }
    outcome
}

/// The literals of the value of a unary operator at a word of the kind `t`.
pub fn unary_bits(
    alloc: Global,
    builder: &mut Builder,
    op: Unary,
    t: IntType,
    a: &Bits,
) -> Result<Bits, Memory>
    requires bits { AreBits builder.old (width t) a.now }
    requires room { builder.old.variables + unary_variables op < variable_bound }
    ensures bits { IfOk result (AreBits builder.new (width t)) }
    ensures made { IfOk result (λ r. Makes builder.old builder.new (unary_variables op) (unary_clauses op) (λ m. word m r ≡ unary_value op (word m a.now) t)) }
    ensures working { OnOk result (builder.new.spent ≡ false) }
    ensures err { OnErr result (builder.new.spent ≡ true) }
    ensures stays_spent { builder.old.spent ≡ true → IsErr result }
{
    if builder.is_spent() {
        return Err(Memory);
    }
    let outcome = unary_word(alloc, builder, op, t, a.items());
    settled(builder, outcome)
}

/// The literals of the value of a binary operator at two words of the kind `t`.
pub fn binary_bits(
    alloc: Global,
    builder: &mut Builder,
    op: Binary,
    t: IntType,
    a: &Bits,
    b: &Bits,
) -> Result<Bits, Memory>
    requires left { AreBits builder.old (width t) a.now }
    requires right { AreBits builder.old (width t) b.now }
    requires room { builder.old.variables + binary_variables op < variable_bound }
    ensures bits { IfOk result (AreBits builder.new (width t)) }
    ensures made { IfOk result (λ r. Makes builder.old builder.new (binary_variables op) (binary_clauses op) (λ m. word m r ≡ binary_value op (word m a.now) (word m b.now) t)) }
    ensures working { OnOk result (builder.new.spent ≡ false) }
    ensures err { OnErr result (builder.new.spent ≡ true) }
    ensures stays_spent { builder.old.spent ≡ true → IsErr result }
{
    if builder.is_spent() {
        return Err(Memory);
    }
    let outcome = binary_word(alloc, builder, op, t, a.items(), b.items());
    settled(builder, outcome)
}

/// The literals of a word after a conversion between two kinds. It takes no gate.
pub fn convert_bits(
    alloc: Global,
    builder: &mut Builder,
    from: IntType,
    to: IntType,
    a: &Bits,
) -> Result<Bits, Memory>
    requires bits { AreBits builder.old (width from) a.now }
    ensures bits { IfOk result (AreBits builder.new (width to)) }
    ensures made { IfOk result (λ r. Makes builder.old builder.new 0 0 (λ m. word m r ≡ converted (word m a.now) from to)) }
    ensures working { OnOk result (builder.new.spent ≡ false) }
    ensures err { OnErr result (builder.new.spent ≡ true) }
    ensures stays_spent { builder.old.spent ≡ true → IsErr result }
{
    let _ = (from, to);
    if builder.is_spent() {
        return Err(Memory);
    }
    let outcome = copied(alloc, a.items());
    settled(builder, outcome)
}

/// The literals of one of two words of one width, chosen by a literal.
pub fn choose_bits(
    alloc: Global,
    builder: &mut Builder,
    test: Lit,
    yes: &Bits,
    no: &Bits,
) -> Result<Bits, Memory>
    requires test { IsLit builder.old test }
    requires yes { AreLits builder.old yes.now }
    requires no { AreBits builder.old (length yes.now) no.now }
    requires room { builder.old.variables + choice_variables (length yes.now) < variable_bound }
    ensures bits { IfOk result (AreBits builder.new (length yes.now)) }
    ensures made { IfOk result (λ r. Makes builder.old builder.new (choice_variables (length yes.now)) (choice_clauses (length yes.now))
        (λ m. word m r ≡ (if value m test then word m yes.now else word m no.now))) }
    ensures working { OnOk result (builder.new.spent ≡ false) }
    ensures err { OnErr result (builder.new.spent ≡ true) }
    ensures stays_spent { builder.old.spent ≡ true → IsErr result }
{
    if builder.is_spent() {
        return Err(Memory);
    }
    let outcome = choose_words(alloc, builder, test, yes.items(), no.items());
    settled(builder, outcome)
}

/// The literal that says whether a word is not 0.
pub fn truth_bit(alloc: Global, builder: &mut Builder, a: &Bits) -> Result<Lit, Memory>
    requires bits { AreLits builder.old a.now }
    requires room { builder.old.variables + test_variables < variable_bound }
    ensures lit { IfOk result (IsLit builder.new) }
    ensures made { IfOk result (λ lit. Makes builder.old builder.new test_variables (test_clauses (length a.now)) (λ m. value m lit ≡ is_true (word m a.now))) }
    ensures working { OnOk result (builder.new.spent ≡ false) }
    ensures err { OnErr result (builder.new.spent ≡ true) }
    ensures stays_spent { builder.old.spent ≡ true → IsErr result }
{
    if builder.is_spent() {
        return Err(Memory);
    }
    match truth_test(alloc, builder, a.items()) {
        Ok(lit) => Ok(lit),
        Err(error) => {
            builder.give_up();
            Err(error)
        }
    }
}
