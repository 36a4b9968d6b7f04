ghost use Rattle.std.specs.Prelude.{◌≡◌};
ghost use Rattle.lrc_fault_meaning.specs.Faults.{same_target};

use lrc_base::NameText;
use lrc_naming::same_owner;
use std::marker::Model;

/// The target of an equation: an attribute of a symbol, or of the left side where no symbol is told,
/// or a local or nonterminal attribute.
#[derive(Debug, Drop)]
pub struct Target {
    pub owner: Option<NameText>,
    pub name: NameText,
}

impl Model for Target {
    ghost use Rattle.lrc_fault_meaning.specs.Faults as faults;

    ghost Value = { faults.Target };

    ghost view = { λ t. record { owner = t.owner; name = t.name } };
}

impl Target {
    /// Whether the target has this symbol and this name.
    pub fn is(&self, owner: Option<NameText>, name: NameText) -> bool
        ensures { result ≡ same_target self.now (record { owner = owner; name = name }) }
    {
        same_owner(self.owner, owner) && self.name == name
    }
}
