//! The secret code that identifies a caller.

ghost use Rattle.std.specs.Prelude.{◌≡◌, true, false, Err, OnOk, IfOk, IsTrue};
ghost use Rattle.std.specs.List.{list_all};
ghost use Rattle.std.proofs.Common.{rules};
ghost use Rattle.std.specs.Cmp.Lexicographic.{nat_list_eq_equiv};
ghost use Rattle.std.specs.Str.{bytes_eq};
ghost use Rattle.portal_rules.specs.Words.{is_code, is_code_byte};

use std::alloc::{AllocError, Global};
use std::marker::Model;

/// The reason why bytes are not a code.
#[derive(Debug, Drop, Clone, Copy, PartialEq, Eq)]
pub enum CodeFault {
    /// They are not 8 to 40 ASCII letters, digits and `-`.
    BadCode,
    /// There was not enough memory.
    Memory,
}

/// The code of a caller: 8 to 40 ASCII letters, digits and `-`.
#[derive(Debug, Drop)]
pub struct Code {
    text: String,
}

impl Model for Code {
    ghost use Rattle.std.specs.Prelude.{List, ℕ, IsTrue, string_bytes};
    ghost use Rattle.portal_rules.specs.Words.{is_code};

    ghost Value = { List ℕ };

    ghost view = { λ k. string_bytes k.text };

    ghost invariant = { λ k. IsTrue (is_code (string_bytes k.text)) };
}

/// Returns whether a code may contain this byte.
fn is_code_byte_of(byte: u8) -> bool
    ensures { result ≡ is_code_byte byte }
{
    byte.is_ascii_alphanumeric() || byte == b'-'
}

/// Returns whether a code may contain each of these bytes.
fn are_code_bytes(bytes: &[u8]) -> bool
    ensures { result ≡ list_all is_code_byte bytes.now }
{
    bytes.iter().all(|byte| is_code_byte_of(*byte))
}

impl Code {
    /// Parses a code.
    #[tactic(auto, using(crate::proofs::Texts::code_text))]
    pub fn parse(alloc: Global, bytes: &[u8]) -> Result<Code, CodeFault>
        ensures ok { IfOk result (λ code. code ≡ bytes.now) }
        ensures form { OnOk result (IsTrue (is_code bytes.now)) }
        ensures bad { result ≡ Err CodeFault.BadCode → is_code bytes.now ≡ false }
        // Bytes without the form always give `BadCode`, never `Memory`.
        ensures formless { is_code bytes.now ≡ false → result ≡ Err CodeFault.BadCode }
    {
        if bytes.len() < 8 || bytes.len() > 40 || !are_code_bytes(bytes) {
            return Err(CodeFault::BadCode);
        }
        let Ok(text) = str::from_utf8(bytes) else {
            return Err(CodeFault::BadCode);
        };
        match String::from_str(alloc, text) {
            Ok(text) => Ok(Code { text }),
            Err(_) => Err(CodeFault::Memory),
        }
    }

    /// Returns the code's bytes.
    pub fn as_bytes(&self) -> &[u8]
        ensures bytes { result.now ≡ self.now }
        ensures form { IsTrue (is_code self.now) }
    {
        self.text.as_bytes()
    }

    /// Returns the code's text.
    pub fn as_str(&self) -> &str
        ensures { result.now ≡ self.now }
    {
        self.text.as_str()
    }

    /// Copies the code. Fails if memory runs out.
    pub fn copy(&self, alloc: Global) -> Result<Code, AllocError>
        ensures { IfOk result (λ code. code ≡ self.now) }
    {
        Ok(Code {
            text: String::from_str(alloc, self.text.as_str())?,
        })
    }
}

impl PartialEq for Code {
    ghost eq = { bytes_eq };

    ghost laws = { Prim.search rules };

    fn eq(&self, other: &Code) -> bool {
        self.as_bytes() == other.as_bytes()
    }
}

impl Eq for Code {
    ghost laws = { nat_list_eq_equiv };
}
