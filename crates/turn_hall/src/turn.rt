//! A turn, which must be spent.
ghost use Rattle.std.specs.Prelude.{◌≡◌};
ghost use Rattle.std.specs.Borrow.{sem};
ghost use Rattle.turn_hall.specs.Turns.{turn_value, LendsValue};

use std::marker::PhantomData;

/// The right to change the value of a hall. It borrows the hall, and can't be dropped: only
/// `Hall::leave` and `Hall::give_up` take it.
pub struct Turn<'a, V> {
    value: V,
    hall: PhantomData<&'a ()>,
}

impl<'a, V> Turn<'a, V> {
    /// The value of the hall.
    pub fn value(&mut self) -> &mut V
        ensures* writes_back { sem 𝓛 (LendsValue V.row self.entry result) }
        ensures shows { result.now ≡ turn_value self.old }
    {
        &mut self.value
    }

    pub(crate) fn new(value: V) -> Turn<'a, V>
        ensures { turn_value result ≡ value }
    {
        Turn {
            value,
            hall: PhantomData,
        }
    }

    pub(crate) fn into_value(self) -> V
        ensures { result ≡ turn_value self.entry }
    {
        let Turn { value, hall: _ } = self;
        value
    }
}
