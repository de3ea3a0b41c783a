//! BATs that many values share, and the values that operators take and return.
ghost use Rattle.std.specs.Prelude.{◌≡◌, ◌<◌, ◌^◌, IfOk};
ghost use Rattle.cell_core.specs.Pairs.{pair_count};
ghost use Rattle.bat_core.specs.Objects.{value_of};

use crate::bat::Bat;
use cell_core::{Cell, Memory};
use std::alloc::Global;
use std::marker::Model;
use std::sync::Arc;

/// A BAT in an `Arc`, which contracts see as the BAT's list of pairs.
#[derive(Drop)]
pub struct Shared {
    bat: Arc<Bat>,
}

impl Model for Shared {
    ghost use Rattle.cell_core.specs.Pairs.{Pairs};
    ghost use Rattle.std.specs.Arc.{arc_value};

    ghost Value = { Pairs };

    ghost view = { λ s. arc_value s.bat };
}

impl Shared {
    /// The BAT, to be shared from now on.
    pub fn new(alloc: Global, bat: Bat) -> Result<Shared, Memory>
        ensures { IfOk result (λ shared. shared ≡ bat) }
    {
        let bat = Arc::new(alloc, bat)?;
        Ok(Shared { bat })
    }

    /// The BAT that is shared.
    pub fn bat(&self) -> &Bat
        ensures { result.now ≡ self.now }
    {
        &self.bat
    }

    /// The same BAT, which both share.
    pub fn share(&self) -> Result<Shared, Memory>
        ensures { IfOk result (λ shared. shared ≡ self.now) }
    {
        let bat = Arc::try_clone(&self.bat)?;
        Ok(Shared { bat })
    }
}

/// What an operator takes or returns.
#[derive(Drop)]
pub enum Obj {
    /// A binary association table.
    Bat(Shared),
    /// A scalar.
    One(Cell),
}

impl Obj {
    /// An equal value, which shares the BAT or the text.
    pub fn share(&self) -> Result<Obj, Memory>
        ensures { IfOk result (λ obj. obj ≡ self.now) }
    {
        Ok(match self {
            Obj::Bat(shared) => Obj::Bat(shared.share()?),
            Obj::One(cell) => Obj::One(cell.share()?),
        })
    }

    /// How many pairs the value has; a scalar has none.
    pub fn pair_count(&self) -> u64
        ensures count { result ≡ pair_count (value_of self.now) }
        ensures small { result < 2 ^ 60 }
    {
        match self {
            Obj::Bat(shared) => shared.bat().len(),
            Obj::One(_) => 0,
        }
    }
}
