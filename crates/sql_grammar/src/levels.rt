ghost use Rattle.std.specs.Prelude.{◌≡◌, ◌+◌, ◌≤◌, [], List, ℕ, length, sum, IfOk, OnOk};
ghost use Rattle.sql_grammar.specs.Refused as refused;
ghost use Rattle.sql_grammar.specs.Reads.{tokens_in};

use cell_core::Memory;
use sql_tree::{Keyword, Placed, Symbol, Token};
use std::alloc::Global;

/// The most levels at a token.
const MOST_LEVELS: usize = 512;

/// Whether some token has more than 512 open levels: parentheses, and the NOT and `-` directly
/// before these or before the token.
pub fn is_too_deep(alloc: Global, tokens: &[Placed]) -> Result<bool, Memory>
    ensures { IfOk result (λ deep. deep ≡ refused.is_too_deep [] 0 (tokens_in tokens.now)) }
{
    let mut outer = Vec::new(alloc);
    let mut levels = 0;
    let mut run = 0;
    let mut rest = tokens;
    'tokens: while let [placed, more @ ..] = rest {
        if MOST_LEVELS < levels + run {
            return Ok(true);
        }
        levels = step(&mut outer, levels, run, &placed.token)?;
        run = next_run(run, &placed.token);
        rest = more;
    }
    Ok(false)
}

/// Opens or closes a parenthesis, and returns the levels of those that are open after the token.
fn step(outer: &mut Vec<usize>, levels: usize, run: usize, token: &Token) -> Result<usize, Memory>
    requires levels { levels ≡ sum outer.old.items }
    requires small { levels + run ≤ 512 }
    ensures levels { IfOk result (λ levels. levels ≡ sum outer.new.items) }
    ensures small { IfOk result (λ levels. levels ≤ 513) }
    ensures outer { OnOk result (refused.open_behind outer.old.items run token.now ≡ outer.new.items) }
{
    match token {
        Token::Symbol(Symbol::Open) => {
            outer.push(run + 1)?;
            Ok(levels + run + 1)
        }
        Token::Symbol(Symbol::Close) => match outer.pop() {
            Some(last) => Ok(levels - last),
            None => Ok(0),
        },
        _ => Ok(levels),
    }
}

/// How many NOT and `-` come directly before the next token.
fn next_run(run: usize, token: &Token) -> usize
    requires { run ≤ 512 }
    ensures { result ≡ refused.next_run run token.now }
{
    match token {
        Token::Key(Keyword::Not) => run + 1,
        Token::Symbol(Symbol::Minus) => run + 1,
        _ => 0,
    }
}
