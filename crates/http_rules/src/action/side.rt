//! Which message rules run on.
/// A request, or what answers a request of this method.
#[derive(Clone, Copy)]
pub enum Side<'a> {
    Request,
    Answer(&'a [u8]),
}
