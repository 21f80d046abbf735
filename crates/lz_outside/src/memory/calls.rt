ghost use Rattle.std.specs.Prelude.{◌↔◌, IsTrue, Contains};

use lz_base::Sequence;

/// Numbers of calls, counted from 0.
pub type Calls = Sequence<u64>;

/// Whether the call of this number is listed.
pub fn is_listed(fails: &Calls, call: u64) -> bool
    ensures { IsTrue result ↔ Contains fails.now call }
{
    for listed in fails.items() {
        if *listed == call {
            return true;
        }
    }
    false
}
