ghost use Rattle.std.specs.Prelude.{◌≡◌, IsTrue};
ghost use Rattle.lrc_gen.specs.Names.{is_name};

use lrc_base::NameText;

/// The name of these bytes.
pub fn name(bytes: &[u8]) -> NameText
    requires { IsTrue (is_name bytes.now) }
    ensures { result ≡ bytes.now }
{
    match NameText::of(bytes) {
        Some(name) => name,
        None => unreachable!(),
    }
}
