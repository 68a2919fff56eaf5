//! Reading of lines without their grammar: what a reader answers, how readers are put together, and the limit on the
//! bytes of a line. The laws of readers stand in `proofs/`.
#![tactic(auto)]

pub mod answer;
pub mod keyword;
pub mod lexical;
pub mod limit;
pub mod literal;
pub mod punctuation;
pub mod scanner;
pub mod side;
pub mod stop;
