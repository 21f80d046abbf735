//! The height of a tree of lz_tree.

use lz_base::Sequence;
use lz_tree::{Expr, External, Externals, Program, Stmt, TypeName, height};
use std::test::Fail;

/// `int main(void) return NULL;`: the `return` is a node over the `NULL`, and the function is none.
#[test]
fn heights(rt: HostRuntime) -> Result<(), Fail> {
    let body = Stmt::Return {
        line: 1,
        value: Some(Expr::Null { line: 1 }),
    };
    let mut externals: Externals = Sequence::new(rt.alloc());
    let main = External::Function {
        line: 1,
        hidden: false,
        gives: TypeName::Int,
        name: 0,
        params: Sequence::new(rt.alloc()),
        void_word: true,
        body,
    };
    externals.push(main).ok().ok_or("memory")?;
    let names = Sequence::new(rt.alloc());
    let program = Program { externals, names };
    assert_eq!(rt; height(&program), 2);
    Ok(())
}
