ghost use Rattle.std.specs.Prelude.{◌≡◌, ℕ, ◌<◌, length};
ghost use Rattle.std.specs.List.{All, Contains};
ghost use Rattle.lz_cnf.specs.Models.{negated, variable_of};
ghost use Rattle.lz_prop.specs.Scan.{IsBeside, IsLeftFound, IsOtherFound, IsLater, IsLast};

use lz_cnf::Lit;

/// Whether a literal is another one than this and not false.
fn is_beside(truths: &[u8], lit: Lit, other: Lit) -> bool
    requires { (negated other).0 < length truths.now }
    ensures { IsBeside truths.now lit other result }
{
    if other.0 == lit.0 {
        return false;
    }
    if truths[other.negated().0 as usize] == 1 {
        return false;
    }
    true
}

/// The first literal of a clause that is not false.
pub fn find_left(clause: &[Lit], truths: &[u8]) -> Option<Lit>
    requires { All (λ lit. (negated lit).0 < length truths.now) clause.now }
    ensures { IsLeftFound truths.now clause.now result }
{
    for lit in clause {
        if truths[lit.negated().0 as usize] != 1 {
            return Some(*lit);
        }
    }
    None
}

/// The first literal of a clause that is not false and another one than this.
pub fn find_other(clause: &[Lit], truths: &[u8], lit: Lit) -> Option<Lit>
    requires { All (λ lit. (negated lit).0 < length truths.now) clause.now }
    ensures { IsOtherFound truths.now clause.now lit result }
{
    for other in clause {
        if is_beside(truths, lit, *other) {
            return Some(*other);
        }
    }
    None
}

/// Of two literals that which was set at the greater level. `lit` itself comes before all.
fn later(levels: &[u32], lit: Lit, last: Lit, other: Lit) -> Lit
    requires last { variable_of last < length levels.now }
    requires other { variable_of other < length levels.now }
    ensures { IsLater levels.now lit last other result }
{
    if other.0 == lit.0 {
        return last;
    }
    if last.0 == lit.0 {
        return other;
    }
    if levels[last.0 as usize / 2] < levels[other.0 as usize / 2] {
        return other;
    }
    last
}

/// The literal of a clause that was set at the greatest level, `lit` left out; or `lit`, if the clause holds no other one.
pub fn last_set(clause: &[Lit], levels: &[u32], lit: Lit) -> Lit
    requires within { All (λ lit. variable_of lit < length levels.now) clause.now }
    requires has { Contains clause.now lit }
    ensures { IsLast levels.now clause.now clause.now lit result }
{
    let mut last = lit;
    for other in clause {
        last = later(levels, lit, last, *other);
    }
    last
}
