//! Names of people, and titles of projects.

ghost use Rattle.std.specs.Prelude.{◌≡◌, true, false, Err, OnOk, IfOk, IsTrue};
ghost use Rattle.std.specs.List.{list_all};
ghost use Rattle.std.proofs.Common.{rules};
ghost use Rattle.std.specs.Cmp.Lexicographic.{nat_list_eq_equiv};
ghost use Rattle.std.specs.Str.{bytes_eq};
ghost use Rattle.portal_rules.specs.Words.{is_name, is_name_byte};

use std::alloc::{AllocError, Global};
use std::marker::Model;

/// The reason why bytes are not a name.
#[derive(Debug, Drop, Clone, Copy, PartialEq, Eq)]
pub enum NameFault {
    /// They are not 1 to 160 bytes of UTF-8 without a control byte.
    BadName,
    /// There was not enough memory.
    Memory,
}

/// A name or a title: 1 to 160 bytes of UTF-8, none of them below 0x20 or equal to 0x7F.
#[derive(Debug, Drop)]
pub struct Name {
    text: String,
}

impl Model for Name {
    ghost use Rattle.std.specs.Prelude.{List, ℕ, IsTrue, string_bytes};
    ghost use Rattle.portal_rules.specs.Words.{is_name};

    ghost Value = { List ℕ };

    ghost view = { λ k. string_bytes k.text };

    ghost invariant = { λ k. IsTrue (is_name (string_bytes k.text)) };
}

/// Returns whether a name or a title may contain this byte.
fn is_name_byte_of(byte: u8) -> bool
    ensures { result ≡ is_name_byte byte }
{
    byte >= 0x20 && byte != 0x7F
}

/// Returns whether a name or a title may contain each of these bytes.
fn are_name_bytes(bytes: &[u8]) -> bool
    ensures { result ≡ list_all is_name_byte bytes.now }
{
    bytes.iter().all(|byte| is_name_byte_of(*byte))
}

impl Name {
    /// Parses a name or a title.
    #[tactic(auto, using(crate::proofs::Texts::no_text, crate::proofs::Texts::a_text))]
    pub fn parse(alloc: Global, bytes: &[u8]) -> Result<Name, NameFault>
        ensures ok { IfOk result (λ name. name ≡ bytes.now) }
        ensures form { OnOk result (IsTrue (is_name bytes.now)) }
        ensures bad { result ≡ Err NameFault.BadName → is_name bytes.now ≡ false }
        // Bytes without the form always give `BadName`, never `Memory`.
        ensures formless { is_name bytes.now ≡ false → result ≡ Err NameFault.BadName }
    {
        if bytes.len() < 1 || bytes.len() > 160 || !are_name_bytes(bytes) {
            return Err(NameFault::BadName);
        }
        let Ok(text) = str::from_utf8(bytes) else {
            return Err(NameFault::BadName);
        };
        match String::from_str(alloc, text) {
            Ok(text) => Ok(Name { text }),
            Err(_) => Err(NameFault::Memory),
        }
    }

    /// Returns the name's bytes.
    pub fn as_bytes(&self) -> &[u8]
        ensures bytes { result.now ≡ self.now }
        ensures form { IsTrue (is_name self.now) }
    {
        self.text.as_bytes()
    }

    /// Returns the name's text.
    pub fn as_str(&self) -> &str
        ensures { result.now ≡ self.now }
    {
        self.text.as_str()
    }

    /// Copies the name. Fails if memory runs out.
    pub fn copy(&self, alloc: Global) -> Result<Name, AllocError>
        ensures { IfOk result (λ name. name ≡ self.now) }
    {
        Ok(Name {
            text: String::from_str(alloc, self.text.as_str())?,
        })
    }
}

impl PartialEq for Name {
    ghost eq = { bytes_eq };

    ghost laws = { Prim.search rules };

    fn eq(&self, other: &Name) -> bool {
        self.as_bytes() == other.as_bytes()
    }
}

impl Eq for Name {
    ghost laws = { nat_list_eq_equiv };
}
