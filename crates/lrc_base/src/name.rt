ghost use Rattle.std.specs.Prelude.{◌≡◌, ℕ, ◌<◌, ◌≤◌, ◌↔◌, List, length, IsTrue, MatchOption};
ghost use Rattle.lrc_base.specs.Name.{IsName};

use crate::limits::NAME_LIMIT;
use std::marker::Model;

/// A name: 1 to 64 bytes, none of them 0. Contracts see it as the list of its bytes.
#[derive(Debug)]
pub struct NameText {
    padded: [u8; NAME_LIMIT],
    /// How many of them are the name.
    len: u8,
}

impl Model for NameText {
    ghost use Rattle.std.specs.Prelude.{ℕ, List};

    ghost Value = { List ℕ };

    ghost use Rattle.lrc_base.specs.Name.{shown, stored, IsStored, stored-shown};

    ghost view = { λ n. shown n };

    ghost invariant = { λ n. IsStored n };

    ghost inverse = { stored };

    ghost inverse_ok = { stored-shown };
}

impl Clone for NameText {
    fn clone(&self) -> Result<NameText, std::alloc::AllocError> {
        Ok(*self)
    }
}

impl Copy for NameText {}

impl PartialEq for NameText {
    ghost use Rattle.std.specs.Prelude.{ℕ, ◌==◌};
    ghost use Rattle.std.specs.Str.{bytes_eq};
    ghost use Rattle.std.proofs.Common.{rules};
    ghost use Rattle.std.specs.Cmp.Rules.{comparing};

    ghost eq = { bytes_eq };

    ghost laws = { Prim.search (comparing, rules) };

    fn eq(&self, other: &NameText) -> bool {
        self.bytes() == other.bytes()
    }
}

impl Eq for NameText {
    ghost use Rattle.std.proofs.Common.{rules};
    ghost use Rattle.std.specs.Cmp.Rules.{comparing};

    ghost laws = { Prim.search (comparing, rules) };
}

impl NameText {
    /// The name of these bytes; None where there are 0 or more than 64 of them, or one of them is 0.
    pub fn of(bytes: &[u8]) -> Option<NameText>
        ensures { MatchOption result (¬ IsName bytes.now) (λ name. (name ≡ bytes.now) × IsName bytes.now) }
    {
        if bytes.is_empty() || bytes.len() > NAME_LIMIT || bytes.contains(&0) {
            return None;
        }
        let mut padded = [0; NAME_LIMIT];
        for (i, byte) in bytes.iter().enumerate() {
            padded[i] = *byte;
        }
        Some(NameText {
            padded,
            len: bytes.len() as u8,
        })
    }

    /// The bytes of the name.
    pub fn bytes(&self) -> &[u8]
        ensures value { result.now ≡ self.now }
        ensures name { IsName self.now }
    {
        &self.padded[..usize::from(self.len)]
    }
}
