//! Who answers over connected links.

use px_link::Application;

/// An application, and how many bytes the head of its answer may have.
pub(crate) struct Responder {
    pub application: Application,
    pub limit: u32,
}

impl Drop for Responder {
    fn drop(self) {
        let Responder {
            application: _,
            limit: _,
        } = self;
    }
}
