//! What a builder keeps of a refused build.
/// A text that was refused, and whether its pattern was to ignore case.
pub struct KeptText {
    pub text: Vec<u8>,
    pub icase: bool,
}

impl Drop for KeptText {
    fn drop(self) {
        let KeptText { text: _, icase: _ } = self;
    }
}
