//! The words `rez` and `derez`, which are numbers in statements, as `specs/ToolWords` says.

ghost use Rattle.std.specs.Prelude.{◌≡◌, map};
ghost use Rattle.rz_tools_work.specs.ToolWords.{number_in, numbered, tool_in};

use rz_expr::{Keyword, is_keyword};
use rz_lex::{Shape, Token, Tokens};
use rz_pre::Tool;

/// Each word `rez` or `derez`, in whatever case, as a number on the same line: 1 where it names the tool that
/// reads the source, and 0 where it names the other one. Every other token stays. It takes no memory.
/// (MPW Rez.)
pub fn number_tool_words(tool: Tool, tokens: Tokens) -> Tokens
    ensures { result ≡ map (numbered tool) tokens }
{
    let mut tokens = tokens.into_vec();
    for token in tokens.iter_mut() {
        number_tool_word(tool, token);
    }
    Tokens::from_vec(tokens)
}

/// The same for one token.
fn number_tool_word(tool: Tool, token: &mut Token)
    ensures { token.new ≡ numbered tool token.old }
{
    if let Some(number) = number_in(tool, token) {
        token.shape = Shape::Number(number);
    }
}

/// The number that a token stands for.
fn number_in(tool: Tool, token: &Token) -> Option<u32>
    ensures { result ≡ number_in tool token.now.shape }
{
    let named = tool_in(token)?;
    Some(u32::from(named == tool))
}

/// The tool that a token names.
fn tool_in(token: &Token) -> Option<Tool>
    ensures { result ≡ tool_in token.now.shape }
{
    if is_keyword(token, Keyword::Rez) {
        Some(Tool::Rez)
    } else if is_keyword(token, Keyword::DeRez) {
        Some(Tool::DeRez)
    } else {
        None
    }
}
