ghost use Rattle.std.specs.Prelude.{◌≡◌, ◌∷◌, ◌<◌, length, IfOk};

use cell_core::Memory;
use std::alloc::Global;
use std::marker::Model;

/// The most bytes in the value itself: the digits of every 64-bit number fit.
const SHORT: usize = 20;

/// Decimal digits. Contracts see them as their bytes. Most numbers are short, and a script has many:
/// short ones take no memory.
#[derive(Drop)]
pub struct Digits {
    kept: DigitBytes,
}

/// Where the bytes of digits lie.
enum DigitBytes {
    /// In the first of these bytes, of which the number counts.
    Short([u8; SHORT], u8),
    /// In memory of their own: a vector in the value would make every token larger.
    Long(Box<Vec<u8>>),
}

// By a call of its own, so that proofs needn't go through its forms where one is dropped.
impl Drop for DigitBytes {
    fn drop(self) {
        match self {
            DigitBytes::Short(_, _) | DigitBytes::Long(_) => {}
        }
    }
}

impl Model for Digits {
    ghost use Rattle.std.specs.Prelude.{List, ℕ};

    ghost Value = { List ℕ };

    ghost use Rattle.sql_tree.specs.Kept.{kept_bytes, IsWithin};

    ghost view = { λ d. kept_bytes d.kept };

    ghost invariant = { λ d. IsWithin d.kept };
}

impl Digits {
    /// The bytes.
    pub fn bytes(&self) -> &[u8]
        ensures { result.now ≡ self.now }
    {
        match &self.kept {
            DigitBytes::Short(bytes, length) => &bytes[..usize::from(*length)],
            DigitBytes::Long(bytes) => bytes.as_slice(),
        }
    }
}

/// The digits of a byte and those after it.
pub fn digits_of(alloc: Global, first: u8, more: &[u8]) -> Result<Digits, Memory>
    ensures { IfOk result (λ digits. digits ≡ first ∷ more.now) }
{
    if more.len() < SHORT {
        return Ok(short(first, more));
    }
    let mut bytes = Vec::new(alloc);
    bytes.push(first)?;
    bytes.extend_from_slice(more)?;
    Ok(Digits {
        kept: DigitBytes::Long(Box::new(alloc, bytes)?),
    })
}

/// The same where they fit the value itself.
fn short(first: u8, more: &[u8]) -> Digits
    requires { length more.now < 20 }
    ensures { result ≡ first ∷ more.now }
{
    let mut bytes = [0; SHORT];
    let length = more.len() + 1;
    bytes[0] = first;
    bytes[1..length].copy_from_slice(more);
    Digits {
        kept: DigitBytes::Short(bytes, length as u8),
    }
}
