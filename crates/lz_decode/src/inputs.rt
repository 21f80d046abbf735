//! The inputs that a model tells.

ghost use Rattle.std.specs.Prelude.{◌≡◌, ◌<◌, ◌+◌, ◌*◌};
ghost use Rattle.lz_base.specs.Words.{value_bound};
ghost use Rattle.lz_gates.specs.Circuits as circuits;
ghost use Rattle.lz_gates.specs.Values.{assigned};
ghost use Rattle.lz_arith.specs.Bits.{bit, word};
ghost use Rattle.lz_blast.specs.Formulas.{told_input};

use lz_base::Value;
use lz_blast::Blasted;
use lz_cnf::{Assignment, Lit};

/// What the model says of a variable: false past its end.
fn value_of(model: &[bool], variable: u32) -> bool
    ensures { result ≡ assigned model.now variable }
{
    match model.get(variable as usize) {
        Some(value) => *value,
        None => false,
    }
}

/// The value of a literal, as a number.
#[tactic(auto, unfolding(lz_gates::specs::Circuits::value))]
fn bit_of(model: &[bool], lit: Lit) -> Value
    ensures { result ≡ bit (circuits.value (assigned model.now) lit) }
{
    let value = value_of(model, lit.variable());
    let is_true = if lit.0 % 2 == 1 { !value } else { value };
    Value::from(is_true)
}

/// The number that a word's literals tell, the lowest bit first.
#[tactic(auto, unfolding(lz_arith::specs::Bits::word))]
fn number_of(model: &[bool], bits: &[Lit]) -> Value
    requires { word (assigned model.now) bits.now < value_bound }
    ensures { result ≡ word (assigned model.now) bits.now }
{
    match bits {
        [] => 0,
        [lit, rest @ ..] => bit_of(model, *lit) + 2 * number_of(model, rest),
    }
}

/// The input of this number that the model tells: 0 where the formula has no literals of it.
#[tactic(auto, unfolding(lz_arith::specs::Bits::word))]
pub fn read_input(blasted: &Blasted, model: &Assignment, number: u32) -> Value
    requires { told_input model.now blasted.now.inputs number < value_bound }
    ensures { result ≡ told_input model.now blasted.now.inputs number }
{
    match blasted.inputs.items().get(number as usize) {
        Some(bits) => number_of(model.items(), bits.items()),
        None => 0,
    }
}
