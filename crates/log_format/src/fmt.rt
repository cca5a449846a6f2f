//! A format: its parts.
use px_expr::Expr;
use px_link::ItemList;
use px_sample::Text;

/// A part of a format (Configuration Manual, section 8.2.6).
pub enum Part {
    /// A text as it is.
    Literal(Text),
    /// `%[..]`: the sample of an expression, as bytes.
    Sample(Expr),
}

impl Drop for Part {
    fn drop(self) {
        match self {
            Part::Literal(_) => {}
            Part::Sample(_) => {}
        }
    }
}

/// Parts, in their order.
pub type PartList = ItemList<Part>;

/// A format: its parts, which are joined.
pub struct Fmt {
    pub parts: PartList,
}

impl Drop for Fmt {
    fn drop(self) {
        let Fmt { parts: _ } = self;
    }
}
