//! The key of a student, a lecturer or a project.

ghost use Rattle.std.specs.Prelude.{◌≡◌, true, false, IfSome, IfNone, Some, Err, OnOk, IfOk};
ghost use Rattle.std.specs.Prelude.{IsTrue, refl};
ghost use Rattle.std.specs.List.{list_all};
ghost use Rattle.std.proofs.Common.{rules};
ghost use Rattle.std.specs.Ordering.{nat_cmp};
ghost use Rattle.std.specs.Cmp.Lexicographic.{slice_cmp, nat_list_cmp_total, nat_list_eq_equiv};
ghost use Rattle.std.specs.Cmp.Lexicographic.{texts_po, texts_ties};
ghost use Rattle.std.specs.Cmp.Rules.{hashing};
ghost use Rattle.std.specs.Hash as fed;
ghost use Rattle.std.specs.Str.{bytes_eq, is_utf8};
ghost use Rattle.spa_rows.specs.Lines.{is_key, is_key_byte};

use std::alloc::{AllocError, Global};
use std::cmp::Ordering;
use std::hash::{Hash, Hasher};
use std::marker::Model;

/// The reason why bytes are not a key.
#[derive(Debug, Drop, Clone, Copy, PartialEq, Eq)]
pub enum KeyFault {
    /// The bytes are not 1 to 16 ASCII letters, digits, `-`, `_` or `.`.
    BadKey,
    /// Memory ran out.
    Memory,
}

/// The key of a student, a lecturer or a project: 1 to 16 ASCII letters, digits, `-`, `_` or `.`.
#[derive(Debug, Drop)]
pub struct Key {
    text: String,
}

impl Model for Key {
    ghost use Rattle.std.specs.Prelude.{List, ℕ, IsTrue, string_bytes};
    ghost use Rattle.spa_rows.specs.Lines.{is_key};

    ghost Value = { List ℕ };

    ghost view = { λ k. string_bytes k.text };

    ghost invariant = { λ k. IsTrue (is_key (string_bytes k.text)) };
}

/// Returns whether a key may contain this byte.
fn is_key_byte_of(byte: u8) -> bool
    ensures { result ≡ is_key_byte byte }
{
    byte.is_ascii_alphanumeric() || byte == b'-' || byte == b'_' || byte == b'.'
}

/// Returns whether a key may contain each of these bytes.
fn are_key_bytes(bytes: &[u8]) -> bool
    ensures { result ≡ list_all is_key_byte bytes.now }
{
    bytes.iter().all(|byte| is_key_byte_of(*byte))
}

/// Returns whether the bytes have the form of a key.
pub(crate) fn is_key_text(bytes: &[u8]) -> bool
    ensures { result ≡ is_key bytes.now }
{
    !bytes.is_empty() && bytes.len() <= 16 && are_key_bytes(bytes)
}

impl Key {
    /// Parses a key from its bytes.
    #[tactic(auto, using(crate::proofs::Texts::key_text))]
    pub fn parse(alloc: Global, bytes: &[u8]) -> Result<Key, KeyFault>
        ensures ok { IfOk result (λ key. key ≡ bytes.now) }
        ensures form { OnOk result (IsTrue (is_key bytes.now)) }
        ensures bad { result ≡ Err KeyFault.BadKey → is_key bytes.now ≡ false }
        // Malformed bytes always give `BadKey`, never `Memory`.
        ensures formless { is_key bytes.now ≡ false → result ≡ Err KeyFault.BadKey }
    {
        if !is_key_text(bytes) {
            return Err(KeyFault::BadKey);
        }
        let Ok(text) = str::from_utf8(bytes) else {
            return Err(KeyFault::BadKey);
        };
        match String::from_str(alloc, text) {
            Ok(text) => Ok(Key { text }),
            Err(_) => Err(KeyFault::Memory),
        }
    }

    /// Returns the bytes of the key.
    pub fn as_bytes(&self) -> &[u8]
        ensures bytes { result.now ≡ self.now }
        ensures form { IsTrue (is_key self.now) }
    {
        self.text.as_bytes()
    }

    /// Returns the text of the key.
    pub fn as_str(&self) -> &str
        ensures { result.now ≡ self.now }
    {
        self.text.as_str()
    }

    /// Returns a copy of the key.
    pub fn copy(&self, alloc: Global) -> Result<Key, AllocError>
        ensures { IfOk result (λ key. key ≡ self.now) }
    {
        Ok(Key {
            text: String::from_str(alloc, self.text.as_str())?,
        })
    }
}

impl PartialEq for Key {
    ghost eq = { bytes_eq };

    ghost laws = { Prim.search rules };

    fn eq(&self, other: &Key) -> bool {
        self.as_bytes() == other.as_bytes()
    }
}

impl Eq for Key {
    ghost laws = { nat_list_eq_equiv };
}

impl PartialOrd for Key {
    ghost partial_cmp = { λ a b. Some (slice_cmp nat_cmp a b) };

    ghost laws = { texts_po };

    fn partial_cmp(&self, other: &Key) -> Option<Ordering> {
        Some(self.cmp(other))
    }
}

impl Ord for Key {
    ghost cmp = { slice_cmp nat_cmp };

    ghost total = { nat_list_cmp_total };

    ghost matches_partial_cmp = { λ a b. refl };

    ghost matches_eq = { texts_ties };

    fn cmp(&self, other: &Key) -> Ordering {
        self.as_bytes().cmp(other.as_bytes())
    }
}

impl Hash for Key {
    ghost hash_input = { fed.str };

    ghost respects_eq = { Prim.search (hashing, rules) };

    fn hash<H: Hasher>(&self, state: &mut H) {
        self.as_str().hash(state);
    }
}
