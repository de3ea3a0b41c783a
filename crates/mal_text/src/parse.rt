ghost use Rattle.std.specs.Prelude.{◌≡◌, ◌∷◌, ◌++◌, [], Some, None, IfOk, IfErr, IsErrOf};
ghost use Rattle.mal_text.specs.Plans.{StandsFor, unknown_op};
ghost use Rattle.mal_text.specs.Reads.{Derives, ReadsAs, IsRefused};
ghost use Rattle.mal_text.specs.Blocks.{write_block};
ghost use Rattle.mal_tokens.specs.Tokens.{AreTokens};
ghost use Rattle.mal_text.specs.declared.block.Block.{Block as BlockSeen};
ghost use Rattle.mal_text.specs.Reader as reader;

use crate::block::{Block, Line};
use crate::blocks::block;
use crate::cursor::MalCursor;
use crate::error::{BlockError, MalError};
use crate::plans::plan;
use cell_core::{Memory, Word, word_of};
use mal_check::{PlanError, check_plan};
use mal_meaning::Plan;
use mal_tokens::{MalTokensError, operator, tokens};
use std::alloc::Global;

/// The plan that a text reads as, or why it is refused. The reasons in order: it is no block; a
/// function is no operator's, and the first such one is named as it is written; the plan has a
/// fault.
///
/// A name that no instruction assigns stands for the variable with the number of instructions, and
/// so is a fault where it is used. Where the number of an instruction doesn't fit 32 bits, the call
/// fails with `Memory`.
#[tactic(auto, using(crate::proofs::MalLaws::no_plan))]
pub fn parse_mal(alloc: Global, text: &str) -> Result<Plan, MalError>
    ensures read { IfOk result (λ plan. ReadsAs text.now plan) }
    ensures refused { IfErr result (λ e. IsRefused text.now e) }
{
    let block = match read_block(alloc, text) {
        Ok(block) => block,
        Err(BlockError::NoBlock) => return Err(MalError::NoBlock),
        Err(BlockError::Memory) => return Err(MalError::Memory),
    };
    let plan = match plan(alloc, &block) {
        Ok(plan) => plan,
        Err(BlockError::NoBlock) => return Err(MalError::NoBlock),
        Err(BlockError::Memory) => return Err(MalError::Memory),
    };
    if let Some(word) = unknown(alloc, block.lines.as_slice())? {
        return Err(MalError::UnknownOp(word));
    }
    match check_plan(alloc, &plan) {
        Ok(()) => Ok(plan),
        Err(PlanError::Memory) => Err(MalError::Memory),
        Err(fault) => Err(MalError::Plan(fault)),
    }
}

/// The block that a text is, as it is written.
fn read_block(alloc: Global, text: &str) -> Result<Block, BlockError>
    ensures found { IfOk result (λ block. AreTokens text.now (write_block block)) }
    ensures none { IsErrOf result BlockError.NoBlock → (block : BlockSeen) → AreTokens text.now (write_block block) → ⊥ }
{
    let tokens = match tokens(alloc, text) {
        Ok(tokens) => tokens,
        Err(MalTokensError::Syntax) => return Err(BlockError::NoBlock),
        Err(MalTokensError::Memory) => return Err(BlockError::Memory),
    };
    let mut rest = MalCursor::new(tokens.as_slice());
    let found = block(alloc, &mut rest)?;
    Ok(found)
}

/// The first function that isn't an operator's, as it is written.
fn unknown(alloc: Global, lines: &[Line]) -> Result<Option<Word>, Memory>
    ensures { IfOk result (λ word. word ≡ unknown_op lines.now) }
{
    let mut rest = lines;
    'lines: while let [line, more @ ..] = rest {
        if operator(line.of_module.text(), line.function.text()).is_none() {
            return Ok(Some(called(alloc, line)?));
        }
        rest = more;
    }
    Ok(None)
}

/// The function of a line, as it is written.
fn called(alloc: Global, line: &Line) -> Result<Word, Memory>
    ensures { IfOk result (λ word. word ≡ line.now.of_module ++ 46 ∷ line.now.function) }
{
    let mut bytes = Vec::new(alloc);
    bytes.extend_from_slice(line.of_module.text().as_bytes())?;
    bytes.push(b'.')?;
    bytes.extend_from_slice(line.function.text().as_bytes())?;
    match std::str::from_utf8(&bytes) {
        Ok(text) => word_of(alloc, text),
        Err(_) => unreachable!(),
    }
}
