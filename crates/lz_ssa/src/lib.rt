//! Static single assignment of straight programs: each word that an expression or a memory has becomes a
//! node, an element of a list becomes a chain of choices, and guards, assumptions and checks become one
//! node that is not 0 exactly where the program fails.
#![tactic(auto)]

mod decode;
mod draft;
mod evaluate;
mod expression;
mod laws;
mod make;
mod node;
mod statement;
mod write;

pub use evaluate::eval;
pub use laws::nodes_rest_on_inputs;
pub use make::nodes;
pub use node::{Node, NodeList, Nodes};
