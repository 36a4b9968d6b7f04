ghost use Rattle.std.specs.Prelude.{◌≡◌, ◌<◌, ◌^◌, length};
ghost use Rattle.lrc_meaning.specs.Naming.{written_number};

use lrc_base::{NameText, RawProd};

/// The number of the first production that is written with this name.
pub fn written_number(prods: &[RawProd], name: NameText) -> Option<u32>
    requires { length prods.now < 2 ^ 32 }
    ensures { result ≡ written_number prods.now name }
{
    let place = written_place(prods, name)?;
    Some(place as u32)
}

fn written_place(prods: &[RawProd], name: NameText) -> Option<usize>
    ensures { result ≡ written_number prods.now name }
{
    prods.iter().position(|prod| prod.name == name)
}
