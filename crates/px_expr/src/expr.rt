//! An expression: a fetch and its converters.
use px_conv::Conv;
use px_link::ItemList;
use px_sample::Fetch;

/// Converters, in their order.
pub type ConvList = ItemList<Conv>;

/// A fetch and the converters of its sample (Configuration Manual, section 7.1).
pub struct Expr {
    pub fetch: Fetch,
    pub convs: ConvList,
}

impl Drop for Expr {
    fn drop(self) {
        let Expr { fetch: _, convs: _ } = self;
    }
}
