//! What replies of rules are made of.
use log_format::Fmt;
use px_expr::Text;
use px_link::ItemList;

/// Where a `redirect` leads.
pub enum RedirectTo {
    /// The text is the location.
    Location(Fmt),
    /// The text, nothing where it is `/`, and path and query of the target.
    Prefix(Fmt),
    /// The text, `://`, the first Host value, and path and query of the target.
    Scheme(Fmt),
}

impl Drop for RedirectTo {
    fn drop(self) {
        match self {
            RedirectTo::Location(_) => {}
            RedirectTo::Prefix(_) => {}
            RedirectTo::Scheme(_) => {}
        }
    }
}

/// The body of a `return`.
pub enum Payload {
    /// `string`.
    Literal(Text),
    /// `lf-string`.
    Format(Fmt),
}

impl Drop for Payload {
    fn drop(self) {
        match self {
            Payload::Literal(_) => {}
            Payload::Format(_) => {}
        }
    }
}

/// `hdr`: one more field of a `return`.
pub struct Hdr {
    pub name: Text,
    pub value: Fmt,
}

impl Drop for Hdr {
    fn drop(self) {
        let Hdr { name: _, value: _ } = self;
    }
}

/// The fields of a `return`, in their order.
pub type HdrList = ItemList<Hdr>;
