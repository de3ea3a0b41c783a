//! The shape of an offer, and its number.
ghost use Rattle.std.specs.Prelude.{◌≡◌, ◌<◌, ◌≤◌, ◌^◌, IfOk, IfSome, OnErr, OnOk, false, if◌then◌else◌, length, map, slice_index, true};
ghost use Rattle.std.specs.Option.{option_map_or};
ghost use Rattle.pool_policy.specs.Keyed.{shape_in as shape_told, shape_number_of};
ghost use Rattle.pool_policy.specs.Pool.{has_credits};
ghost use Rattle.pool_policy.specs.Admits.{number_from};
ghost use Rattle.pool_entries.specs.Shapes.{credit_with, shapes_with};
ghost use Rattle.pool_entries.specs.Usable.{HaveRisingIds};

use crate::by_id::place_by_id;
use cell_core::Memory;
use evict_admit::Ledger;
use lineage_key::{Key, KeyArg, Shape, shape_of};
use pool_policy::{Admit, PoolEntry, PoolOptions};
use std::alloc::Global;

/// The number of an argument's shape.
fn number_of(entries: &[PoolEntry], arg: &KeyArg) -> u32
    requires { HaveRisingIds entries.now }
    ensures { result ≡ shape_number_of entries.now arg.now }
{
    match arg.id() {
        None => 0,
        Some(id) => match place_by_id(entries, id) {
            None => 0,
            Some(place) => entries[place].shape,
        },
    }
}

/// The number of the shape of the argument at a place.
fn number_at(entries: &[PoolEntry], args: &[KeyArg], place: usize) -> u32
    requires { HaveRisingIds entries.now }
    ensures { result ≡ slice_index (map (shape_number_of entries.now) args.now) place }
{
    match args.get(place) {
        None => 0,
        Some(arg) => number_of(entries, arg),
    }
}

/// The shape of a key.
fn shape_in(alloc: Global, entries: &[PoolEntry], key: &Key) -> Result<Shape, Memory>
    requires { HaveRisingIds entries.now }
    ensures { IfOk result (λ shape. shape ≡ shape_told entries.now key.now) }
{
    let args = key.args.as_slice();
    let numbers = [
        number_at(entries, args, 0),
        number_at(entries, args, 1),
        number_at(entries, args, 2),
        number_at(entries, args, 3),
        number_at(entries, args, 4),
    ];
    shape_of(alloc, key, numbers)
}

/// The number of a shape among those that have one.
fn find_number(shapes: &[Shape], shape: &Shape) -> Option<u32>
    requires { length shapes.now < 2 ^ 30 }
    ensures number { result ≡ number_from 1 shape.now shapes.now }
    ensures range { IfSome result (λ n. (0 < n) × (n ≤ length shapes.now)) }
{
    let mut rest = shapes;
    let mut number = 1;
    'shapes: while let [first, more @ ..] = rest {
        if *first == *shape {
            return Some(number);
        }
        rest = more;
        number += 1;
    }
    None
}

/// The number of a shape. A shape without a number gets a new one, and a credit to start with.
fn number_shape(shapes: &mut Vec<Shape>, ledger: &mut Ledger, shape: Shape) -> Result<u32, Memory>
    requires few { length shapes.old.items < 2 ^ 30 }
    requires same { length shapes.old.items ≡ length ledger.old.each }
    ensures shapes { OnOk result (shapes.new.items ≡ shapes_with shape shapes.old.items) }
    ensures each { OnOk result (ledger.new.each ≡ credit_with shape shapes.old.items ledger.old.start ledger.old.each) }
    ensures number { IfOk result (λ n. n ≡ option_map_or (λ n. n) (number_from 1 shape shapes.new.items) 0) }
    ensures range { IfOk result (λ n. (0 < n) × (n ≤ length ledger.new.each)) }
    ensures start { ledger.new.start ≡ ledger.old.start }
    ensures err_shapes { OnErr result (shapes.new.items ≡ shapes.old.items) }
    ensures err_each { OnErr result (ledger.new.each ≡ ledger.old.each) }
{
    match find_number(shapes.as_slice(), &shape) {
        Some(number) => Ok(number),
        None => {
            ledger.reserve(1)?;
            shapes.push(shape)?;
            Ok(ledger.add())
        }
    }
}

/// The number of the shape of a key, where shapes have credits; else 0. Where memory runs out, all
/// is as it was.
pub fn give_number(
    shapes: &mut Vec<Shape>,
    ledger: &mut Ledger,
    options: &PoolOptions,
    entries: &[PoolEntry],
    key: &Key,
) -> Result<u32, Memory>
    requires few { length shapes.old.items < 2 ^ 30 }
    requires same { length shapes.old.items ≡ length ledger.old.each }
    requires rising { HaveRisingIds entries.now }
    requires plain { has_credits options.now ≡ false → length ledger.old.each ≡ 0 }
    ensures shapes { OnOk result (shapes.new.items ≡ (if has_credits options.now then shapes_with (shape_told entries.now key.now) shapes.old.items else shapes.old.items)) }
    ensures each { OnOk result (ledger.new.each ≡ (if has_credits options.now then credit_with (shape_told entries.now key.now) shapes.old.items ledger.old.start ledger.old.each else ledger.old.each)) }
    ensures number { IfOk result (λ n. n ≡ option_map_or (λ n. n) (number_from 1 (shape_told entries.now key.now) shapes.new.items) 0) }
    ensures last { IfOk result (λ n. n ≤ length ledger.new.each) }
    ensures first { IfOk result (λ n. 0 < length ledger.new.each → 0 < n) }
    ensures marked { IfOk result (λ n. has_credits options.now ≡ true → 0 < n) }
    ensures none { IfOk result (λ n. has_credits options.now ≡ false → n ≡ 0) }
    ensures start { ledger.new.start ≡ ledger.old.start }
    ensures err_shapes { OnErr result (shapes.new.items ≡ shapes.old.items) }
    ensures err_each { OnErr result (ledger.new.each ≡ ledger.old.each) }
{
    match options.admit {
        Admit::All => Ok(0),
        Admit::Credit => {
            let shape = shape_in(*shapes.allocator(), entries, key)?;
            number_shape(shapes, ledger, shape)
        }
    }
}
