ghost use Rattle.std.specs.Prelude.{◌≡◌, IfOk, IsUtf8};

use crate::memory::Memory;
use std::alloc::Global;
use std::hash::{Hash, Hasher};
use std::marker::Model;
use std::sync::ArcStr;

/// A text that many values share. Contracts see it as its bytes, which are UTF-8.
#[derive(Debug, Drop)]
pub struct Word {
    bytes: ArcStr,
}

impl Model for Word {
    ghost use Rattle.std.specs.Prelude.{List, ℕ};
    ghost use Rattle.std.specs.Arc.{arc_str_bytes};

    ghost Value = { List ℕ };

    ghost view = { λ w. arc_str_bytes w.bytes };
}

impl Word {
    /// The word's text.
    pub fn text(&self) -> &str
        ensures text { result.now ≡ self.now }
        ensures utf8 { IsUtf8 self.now }
    {
        self.bytes.as_str()
    }

    /// An equal word, which shares the text.
    pub fn share(&self) -> Result<Word, Memory>
        ensures { IfOk result (λ word. word ≡ self.now) }
    {
        let bytes = self.bytes.clone()?;
        Ok(Word { bytes })
    }
}

impl PartialEq for Word {
    ghost use Rattle.std.specs.Prelude.{nat_eq};
    ghost use Rattle.std.specs.Cmp.Lexicographic.{pointwise, nat_list_eq_equiv};
    ghost use Rattle.std.specs.Cmp;

    ghost eq = { pointwise nat_eq };

    ghost laws = { Cmp.partial_equiv_from_equiv nat_list_eq_equiv };

    fn eq(&self, other: &Word) -> bool {
        self.text() == other.text()
    }
}

impl Eq for Word {
    ghost use Rattle.std.specs.Cmp.Lexicographic.{nat_list_eq_equiv};

    ghost laws = { nat_list_eq_equiv };
}

impl Hash for Word {
    ghost use Rattle.std.specs.Hash as fed;
    ghost use Rattle.std.specs.Cmp.Rules.{hashing};
    ghost use Rattle.std.proofs.Common.{rules};

    ghost hash_input = { fed.str };

    ghost respects_eq = { Prim.search (hashing, rules) };

    fn hash<H: Hasher>(&self, state: &mut H) {
        self.text().hash(state);
    }
}

/// The word with these bytes.
pub fn word_of(alloc: Global, text: &str) -> Result<Word, Memory>
    ensures { IfOk result (λ word. word ≡ text.now) }
{
    let bytes = ArcStr::from_str(alloc, text)?;
    Ok(Word { bytes })
}
