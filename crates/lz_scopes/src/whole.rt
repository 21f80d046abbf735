ghost use Rattle.std.specs.Prelude.{◌≡◌, ℕ, ◌==◌, map, nat_eq, Some, None, if◌then◌else◌, IfOk, OnOk, OnErr};
ghost use Rattle.indexmap.specs.IndexMap.{get};
ghost use Rattle.lz_scopes.specs.Files.{name_from};
ghost use Rattle.lz_scopes.specs.KnownNames as known_names;
ghost use Rattle.lz_scopes.specs.Names.{or};
ghost use Rattle.lz_scopes.specs.Scopes as scopes;

use crate::declaring::sum_of;
use crate::reserved::known;
use indexmap::IndexMap;
use lz_base::{Memory, Name, Sequence};
use lz_tree::{KnownName, Param, TypeName};
use std::alloc::Global;

/// What each name is as a known one.
pub fn known_ones(alloc: Global, names: &[Name]) -> Result<Vec<Option<KnownName>>, Memory>
    ensures { IfOk result (λ all. all.items ≡ map known_names.known names.now) }
{
    let mut all = Vec::new(alloc);
    for name in names {
        all.push(known(name.text()))?;
    }
    Ok(all)
}

/// The number of the first name of these bytes.
pub fn number_of(names: &[Name], bytes: &str) -> Result<Option<u32>, Memory>
    ensures { IfOk result (λ number. number ≡ name_from 0 names.now bytes.now) }
{
    let mut number = 0;
    for name in names {
        if name.text() == bytes {
            return Ok(Some(number));
        }
        number = sum_of(number, 1)?;
    }
    Ok(None)
}

/// The types of parameters.
pub fn bases(alloc: Global, params: &[Param]) -> Result<Sequence<TypeName>, Memory>
    ensures { IfOk result (λ types. types ≡ scopes.bases params.now) }
{
    let mut types = Sequence::new(alloc);
    for p in params {
        types.push(p.base)?;
    }
    Ok(types)
}

/// Notes the number of a function by its name, where none of the name was noted before.
pub fn note_first(defined: &mut IndexMap<u32, u32>, name: u32, number: u32) -> Result<(), Memory>
    ensures ok { OnOk result ((k : ℕ) → get nat_eq defined.new k ≡ or (get nat_eq defined.old k) (if k == name then Some number else None)) }
    ensures err { OnErr result ((k : ℕ) → get nat_eq defined.new k ≡ get nat_eq defined.old k) }
{
    if defined.get(&name).is_some() {
        return Ok(());
    }
    defined.insert(name, number)?;
    Ok(())
}
