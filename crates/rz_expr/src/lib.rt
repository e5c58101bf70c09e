//! Expressions: their grammar, and their values in an environment. `read_expr`, `read_whole` and `eval` give exactly
//! their definitions, and tokens are one expression at most.
//! It rests on `rz_core`, `rz_lex` and `rz_words`, which says what a word may be, and is handed on.
//! A new operator changes the grammar and the values, here and in docs/LANGUAGE.md.
//!
//! Choices, and why:
//! - What leads back to itself by a `Box`, an expression, is seen by contracts as a mirror of the same shape (`Term`
//!   of an `Expr`), and so is all that holds one, as a field or an item: contracts name no private field.
//! - What an expression sees is three things: values of names and arrays, the bits of the resource, and the facts.
//!   Places of labels, in rows too, counts of rows and numbers of rows have keys of one type. `Env` answers one
//!   question of names, the whole value of a key, and two more, of bits and of facts. What is a value in one sight is
//!   the value in each that shows more (`values_stay`), so an environment needs no law of its own.
//! - `Env` is a trait without default bodies: one would be proved once for all implementations, and couldn't use what
//!   one of them alone has, so an exact clause would have no proof.
#![tactic(auto)]

mod constant;
mod env;
mod expr;
mod keyword;
mod laws;
mod mention;
mod operators;
mod read;
mod value;

pub use constant::{ConstantEnv, constant_of, is_constant, read_constant};
pub use env::{Env, Key, predefined, value_outside};
pub use expr::{BinaryOp, Expr, UnaryOp};
pub use keyword::{is_keyword, keyword_in};
pub use laws::{expressions_are_decided, faults_stay, one_expression, values_stay};
pub use mention::{Mention, MentionTest, first_mention};
pub use read::{ReadExpr, read_expr, read_whole};
pub use rz_words::{
    ATTRIBUTES, Attribute, AttributeWord, FactWord, Function, Keyword, Role, TextWord,
    attribute_word, attribute_words_are_spelled, bit_of, clearing_word, keyword_named, keyword_of,
    keywords_are_spelled, role_of, setting_word, spelling,
};
pub use value::{EvalFault, Unvalued, eval, signed, value_in};
