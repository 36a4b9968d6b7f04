ghost use Rattle.std.specs.Prelude.{◌≡◌, ◌<◌, ◌^◌, length};
ghost use Rattle.lrc_meaning.specs.Naming.{production_number};

use lrc_base::{NameText, Production};

/// The number of the first production of this name.
pub fn production_number(prods: &[Production], name: NameText) -> Option<u32>
    requires { length prods.now < 2 ^ 32 }
    ensures { result ≡ production_number prods.now name }
{
    let place = production_place(prods, name)?;
    Some(place as u32)
}

fn production_place(prods: &[Production], name: NameText) -> Option<usize>
    ensures { result ≡ production_number prods.now name }
{
    prods.iter().position(|prod| prod.name == name)
}
