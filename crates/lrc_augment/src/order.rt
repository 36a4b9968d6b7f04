use lrc_base::NameText;

/// An order line as it is written: of a sort, one attribute before another.
#[derive(Debug, Clone, Copy)]
pub struct RawOrder {
    pub sort: NameText,
    pub first: NameText,
    pub then: NameText,
}
