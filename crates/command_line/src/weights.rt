//! The weights of operators, read from the text of their list.
ghost use Rattle.std.specs.Prelude.{◌≡◌, ◌==◌, IfOk, map};
ghost use Rattle.std.specs.List.{find, slice_split};
ghost use Rattle.command_line.specs.Matches.{texts_in};
ghost use Rattle.command_line.specs.Weights as told;

use crate::numbers::number_between;
use cell_core::{Memory, Op, Sequence};
use mal_tokens::{OPERATORS, function_word};
use std::alloc::{AllocError, Global};

/// An operator with its given weight.
#[derive(Clone, Copy)]
struct Given {
    operator: Op,
    weight: u64,
}

/// The weights that a text names, if it is a list that names each operator at most once.
pub(crate) fn weights_in(alloc: Global, text: &str) -> Result<Option<Sequence<u64>>, Memory>
    ensures { IfOk result (λ weights. weights ≡ told.weights_in text.now) }
{
    let parts = parts_of(alloc, text)?;
    match all_given(alloc, parts.as_slice())? {
        Some(given) if are_distinct(given.as_slice()) => {
            let weights = weights_of(alloc, given.as_slice())?;
            Ok(Some(weights))
        }
        _ => Ok(None),
    }
}

/// The same weight for each operator.
pub(crate) fn even_weights(alloc: Global) -> Result<Sequence<u64>, Memory>
    ensures { IfOk result (λ weights. weights ≡ told.even_weights) }
{
    let weights = vec![in alloc; 1; OPERATORS.len()]?;
    Ok(Sequence::from_vec(weights))
}

/// The parts of a text between its commas.
fn parts_of<'a>(alloc: Global, text: &'a str) -> Result<Vec<&'a str>, AllocError>
    ensures { IfOk result (λ parts. texts_in parts.items ≡ slice_split (λ b. b == 44) text.entry.now) }
{
    text.split(',').collect(alloc)
}

/// The given weights of the parts of a list, if each part has one.
fn all_given(alloc: Global, parts: &[&str]) -> Result<Option<Sequence<Given>>, Memory>
    ensures { IfOk result (λ given. given ≡ told.all_given (texts_in parts.now)) }
{
    let mut all = Sequence::new(alloc);
    let mut rest = parts;
    'parts: while let [part, more @ ..] = rest {
        let Some(given) = given_in(part) else {
            return Ok(None);
        };
        all.push(given)?;
        rest = more;
    }
    Ok(Some(all))
}

/// The given weight of `name=n`.
fn given_in(part: &str) -> Option<Given>
    ensures { result ≡ told.given_in part.now }
{
    match part.split_once('=') {
        Some((name, value)) => given_to(name, value),
        None => None,
    }
}

/// The operator with this name, with the weight that `value` is.
fn given_to(name: &str, value: &str) -> Option<Given>
    ensures { result ≡ told.given_to name.now value.now }
{
    let Some(operator) = operator_named(name) else {
        return None;
    };
    match number_between(value, 1, 1_000) {
        Some(weight) => Some(Given { operator, weight }),
        None => None,
    }
}

/// The operator whose function has this name.
#[tactic(auto, unfolding(crate::specs::Weights::operator_named))]
fn operator_named(name: &str) -> Option<Op>
    ensures { result ≡ told.operator_named name.now }
{
    first_named(&OPERATORS, name)
}

/// The first operator whose function has this name.
fn first_named(operators: &[Op], name: &str) -> Option<Op>
    ensures { result ≡ find (told.is_named name.now) operators.now }
{
    let mut rest = operators;
    'operators: while let [operator, more @ ..] = rest {
        if is_named(name, *operator) {
            return Some(*operator);
        }
        rest = more;
    }
    None
}

/// Whether the operator's function has this name.
fn is_named(name: &str, operator: Op) -> bool
    ensures { result ≡ told.is_named name.now operator }
{
    name == function_word(operator)
}

/// Whether no operator has two weights among these.
fn are_distinct(given: &[Given]) -> bool
    ensures { result ≡ told.are_distinct given.now }
{
    let mut rest = given;
    'given: while let [one, more @ ..] = rest {
        if is_given(one.operator, more) {
            return false;
        }
        rest = more;
    }
    true
}

/// Whether the operator has a weight among these.
fn is_given(operator: Op, given: &[Given]) -> bool
    ensures { result ≡ told.is_given operator given.now }
{
    given.iter().any(|one| one.operator == operator)
}

/// The weights of all operators, in the order of their table.
#[tactic(auto, unfolding(crate::specs::Weights::weights_of))]
fn weights_of(alloc: Global, given: &[Given]) -> Result<Sequence<u64>, Memory>
    ensures { IfOk result (λ weights. weights ≡ told.weights_of given.now) }
{
    weigh(alloc, &OPERATORS, given)
}

/// The weight of each operator.
fn weigh(alloc: Global, operators: &[Op], given: &[Given]) -> Result<Sequence<u64>, Memory>
    ensures { IfOk result (λ weights. weights ≡ map (told.weight_for given.now) operators.now) }
{
    let mut weights = Vec::with_capacity(alloc, operators.len())?;
    'operators: for operator in operators {
        weights.push(weight_for(given, *operator))?;
    }
    Ok(Sequence::from_vec(weights))
}

/// The weight of an operator; 1 where none is given.
fn weight_for(given: &[Given], operator: Op) -> u64
    ensures { result ≡ told.weight_for given.now operator }
{
    let mut rest = given;
    'given: while let [one, more @ ..] = rest {
        if one.operator == operator {
            return one.weight;
        }
        rest = more;
    }
    1
}
