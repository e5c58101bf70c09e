//! What the preprocessor is given and gives: definitions of the words, the program, or why there is none.

use rz_core::{Fault, FileNames, Listing, Word, Words};
use rz_lex::Tokens;
use rz_pre_source::TokenStore;

/// A definition of the words: `-d name=text` or `-u name`.
#[derive(Debug, Drop)]
pub struct Def {
    /// The name.
    pub name: Word,
    /// What it stands for, or nothing where it is undefined.
    pub text: Option<Tokens>,
}

/// A list of definitions.
pub type Defs = Listing<Def>;

/// What the named files mean.
#[derive(Debug, Drop)]
pub struct Program {
    /// The names under which files were opened, in the order in which they were.
    pub files: FileNames,
    /// The tokens, with the macros replaced.
    pub tokens: TokenStore,
    /// The names, in lower case, that are macros at the end.
    pub macros: Words,
}

/// Why there is no program: a rule that is broken.
#[derive(Debug, Drop)]
pub struct Failure {
    /// The first fault in the order of the lines.
    pub fault: Fault,
    /// The names under which files were opened until then, in the order in which they were.
    pub files: FileNames,
}
