use lz_base::Sequence;
use lz_tree::TypeName;

/// A function with a body, as it is declared (C99 6.9.1).
#[derive(Drop)]
pub struct Signature {
    pub name: u32,
    pub gives: TypeName,
    pub params: Sequence<TypeName>,
}
