use lz_cnf::Cnf;
use lz_log::Log;

/// What shows that a verdict is right, beside the report.
#[derive(Debug, Drop)]
pub enum Evidence {
    /// The report alone.
    Nothing,
    /// The log refutes the formula, which has a model exactly where the program is violated.
    Proof { formula: Cnf, log: Log },
}
