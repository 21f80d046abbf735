ghost use Rattle.std.specs.Prelude.{◌≡◌, ◌++◌, OnOk};
ghost use Rattle.lz_tree.specs.Trees.{expression};
ghost use Rattle.lz_scopes.specs.ValueTypes.{when};
ghost use Rattle.lz_scopes.specs.RuleLists.{rule_list};
ghost use Rattle.lz_types.specs.Faults as faults_of;

use lz_base::Memory;
use lz_scopes::{Fault, Rule};
use lz_tree::Expr;

/// Notes a rule that is broken at a line, if any.
pub fn push_rule(faults: &mut Vec<Fault>, line: u32, rule: Option<Rule>) -> Result<(), Memory>
    ensures { OnOk result (faults.new.items ≡ faults.old.items ++ faults_of.at line (rule_list rule)) }
{
    match rule {
        None => Ok(()),
        Some(rule) => {
            faults.push(Fault { line, rule })?;
            Ok(())
        }
    }
}

/// Notes a rule that is broken where the test holds.
pub fn push_when(faults: &mut Vec<Fault>, line: u32, test: bool, rule: Rule) -> Result<(), Memory>
    ensures { OnOk result (faults.new.items ≡ faults.old.items ++ faults_of.at line (when test rule)) }
{
    if test {
        faults.push(Fault { line, rule })?;
    }
    Ok(())
}

/// The line of an expression.
pub fn line_of(e: &Expr) -> u32
    ensures { result ≡ faults_of.line_of (expression e.now) }
{
    match e {
        Expr::Object { target } => target.line,
        Expr::Constant { line, .. } | Expr::Null { line } | Expr::Text { line } => *line,
        Expr::Address { line, .. } | Expr::Paren { line, .. } | Expr::Unary { line, .. } => *line,
        Expr::Cast { line, .. } | Expr::Binary { line, .. } | Expr::Choose { line, .. } => *line,
        Expr::Assign { line, .. } | Expr::Step { line, .. } | Expr::Call { line, .. } => *line,
    }
}
