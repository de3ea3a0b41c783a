//! Keys of ORDER BY that sort by no item.
ghost use Rattle.std.specs.Prelude.{◌≡◌, map, decimal, IfOk};
ghost use Rattle.sql_tree.specs.Tree.{item_tree};
ghost use Rattle.sql_definitions.specs.Check.{bad_key as bad_key_of};
ghost use Rattle.sql_check.specs.First.{first, key_refusal, bad_keys_of};

use cell_core::{Memory, Word, word_of};
use itoa::Buffer;
use sql_definitions::{Called, Refusal, Resolved, find_column, key_place};
use sql_tree::{ColRef, Item, Place, SortKey, printed_name};
use std::alloc::Global;

/// A number in decimal.
fn printed_number(alloc: Global, number: u64) -> Result<Word, Memory>
    ensures { IfOk result (λ word. word ≡ decimal number) }
{
    let mut buffer = Buffer::new();
    word_of(alloc, buffer.format(number))
}

/// The refusal of a key whose column has so many places.
fn refused_key(alloc: Global, reference: &ColRef, found: Resolved) -> Result<Refusal, Memory>
    ensures { IfOk result (λ refusal. refusal ≡ key_refusal reference.now found) }
{
    let name = printed_name(alloc, &reference.column)?;
    match found {
        Resolved::Nowhere | Resolved::At(_, _) => Ok(Refusal::NoColumn(name)),
        Resolved::Twice => Ok(Refusal::Ambiguous(name)),
    }
}

/// The refusal of a key that sorts by no item.
fn bad_key(
    alloc: Global,
    sources: &[Called<'_>],
    items: &[Item],
    place: &Place,
) -> Result<Option<Refusal>, Memory>
    ensures { IfOk result (λ refusal. refusal ≡ first (bad_key_of sources.now (map item_tree items.now) place.now)) }
{
    if key_place(sources, items, place).is_some() {
        return Ok(None);
    }
    match place {
        Place::Position(number) => Ok(Some(Refusal::NoColumn(printed_number(alloc, *number)?))),
        Place::Named(reference) => {
            let found = find_column(sources, reference.table.as_ref(), &reference.column);
            let refusal = refused_key(alloc, reference, found)?;
            Ok(Some(refusal))
        }
    }
}

/// The first refusal of keys.
#[tactic(auto, using(crate::proofs::FirstLemmas::first_in_both))]
pub(crate) fn bad_keys(
    alloc: Global,
    sources: &[Called<'_>],
    items: &[Item],
    keys: &[SortKey],
) -> Result<Option<Refusal>, Memory>
    ensures { IfOk result (λ refusal. refusal ≡ first (bad_keys_of sources.now (map item_tree items.now) keys.now)) }
{
    let mut rest = keys;
    'keys: while let [key, more @ ..] = rest {
        if let Some(refusal) = bad_key(alloc, sources, items, &key.at)? {
            return Ok(Some(refusal));
        }
        rest = more;
    }
    Ok(None)
}
