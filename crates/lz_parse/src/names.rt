ghost use Rattle.std.specs.Prelude.{◌≡◌, IfOk};

use lz_base::{Memory, Name, Sequence};
use lz_tree::Names;
use std::alloc::Global;

/// A copy of the names.
pub fn copied(alloc: Global, names: &[Name]) -> Result<Names, Memory>
    ensures { IfOk result (λ copy. copy ≡ names.now) }
{
    let mut copy = Sequence::new(alloc);
    for name in names {
        let same = Name::new(alloc, name.text())?;
        copy.push(same)?;
    }
    Ok(copy)
}
