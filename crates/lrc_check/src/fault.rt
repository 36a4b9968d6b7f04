ghost use Rattle.std.specs.Prelude.{◌≡◌, None, Some};

use crate::target::Target;
use crate::words::start_word;
use lrc_base::{Memory, NameText};

/// What is wrong with a grammar.
#[derive(Debug, Clone, Copy, PartialEq, Eq)]
pub enum GrammarKind {
    /// A name stands a second time.
    Twice = 1,
    /// Nothing has the name.
    Unknown = 2,
    /// An occurrence to be defined has no equation.
    MissingEquation = 3,
    /// A target has a second equation.
    DoubleEquation = 4,
    /// What is read or defined is not read or defined by equations in normal form.
    NotNormal = 5,
    /// A value is of another kind than is needed.
    WrongKind = 6,
    /// The start sort has an inherited attribute.
    StartInherits = 7,
    /// Want of memory.
    Memory = 8,
}

/// A fault of a grammar: where it stands, and the name at fault.
#[derive(Debug, Clone, Copy)]
pub struct GrammarFault {
    pub kind: GrammarKind,
    /// The sort or production, or the word `start`.
    pub place: NameText,
    /// The symbol `c` of an attribute `c.a` that is at fault for its `a`.
    pub owner: Option<NameText>,
    pub name: NameText,
}

impl GrammarFault {
    /// A fault of a name alone.
    pub fn new(kind: GrammarKind, place: NameText, name: NameText) -> GrammarFault
        ensures { result ≡ record { kind = kind; place = place; owner = None; name = name } }
    {
        GrammarFault {
            kind,
            place,
            owner: None,
            name,
        }
    }

    /// A fault of an attribute of a symbol.
    pub fn of(kind: GrammarKind, place: NameText, owner: NameText, name: NameText) -> GrammarFault
        ensures { result ≡ record { kind = kind; place = place; owner = Some owner; name = name } }
    {
        GrammarFault {
            kind,
            place,
            owner: Some(owner),
            name,
        }
    }

    /// A fault of the target of an equation.
    pub fn at(kind: GrammarKind, place: NameText, target: &Target) -> GrammarFault
        ensures { result ≡ record { kind = kind; place = place; owner = target.now.owner; name = target.now.name } }
    {
        GrammarFault {
            kind,
            place,
            owner: target.owner,
            name: target.name,
        }
    }
}

impl From<Memory> for GrammarFault {
    ghost use Rattle.std.specs.Prelude.{◌≡◌};
    ghost use Rattle.lrc_check.specs.Verdict.{no_memory};

    ghost from_gives = { λ _ fault. fault ≡ no_memory };

    fn from(_memory: Memory) -> GrammarFault {
        GrammarFault::new(GrammarKind::Memory, start_word(), start_word())
    }
}
