ghost use Rattle.std.specs.Prelude.{◌≡◌, codes};

use lrc_base::NameText;

/// The word `start`, which stands for the place of the start sort.
pub fn start_word() -> NameText
    ensures { result ≡ codes "start" }
{
    match NameText::of(b"start") {
        Some(word) => word,
        None => unreachable!(),
    }
}

/// The word `text`, by which a pattern is named.
pub fn text_word() -> NameText
    ensures { result ≡ codes "text" }
{
    match NameText::of(b"text") {
        Some(word) => word,
        None => unreachable!(),
    }
}
