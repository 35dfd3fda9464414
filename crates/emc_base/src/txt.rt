ghost use Rattle.std.specs.Prelude.{◌≡◌, IfOk, string_bytes, IsUtf8};

use crate::memory::Memory;
use std::alloc::Global;
use std::marker::Model;

/// A text, which contracts see as the list of its UTF-8 bytes.
#[derive(Clone, Debug, Drop)]
pub struct Txt {
    text: String,
}

impl Model for Txt {
    ghost use Rattle.std.specs.Prelude.{List, ℕ, string_bytes};
    ghost use Rattle.std.specs.Coded.{coded_list, coded_ℕ};

    ghost Value = { List ℕ };

    ghost coded = { coded_list coded_ℕ };

    ghost view = { λ t. string_bytes t.text };
}

impl Txt {
    /// A copy of the text. `Memory` comes where there is none for it.
    pub fn of(alloc: Global, s: &str) -> Result<Txt, Memory>
        ensures { IfOk result (λ text. text ≡ s.now) }
    {
        let text = String::from_str(alloc, s)?;
        Ok(Txt { text })
    }

    /// The text of a string, which is moved and not copied.
    pub fn from_string(text: String) -> Txt
        ensures { result ≡ string_bytes text }
    {
        Txt { text }
    }

    /// The same text as a string, which is moved and not copied.
    pub fn into_string(self) -> String
        ensures { string_bytes result ≡ self }
    {
        self.text
    }

    /// Lends the text.
    pub fn as_str(&self) -> &str
        ensures text { result.now ≡ self.now }
        ensures utf8 { IsUtf8 self.now }
    {
        self.text.as_str()
    }

    /// An equal text. `Memory` comes where there is none for it.
    pub fn copy(&self, alloc: Global) -> Result<Txt, Memory>
        ensures { IfOk result (λ text. text ≡ self.now) }
    {
        Txt::of(alloc, self.as_str())
    }
}
