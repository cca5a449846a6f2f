//! Sessions of files at output windows of several sizes, with all bytes at once and with one or seven bytes a turn.

pub(crate) mod windows;

pub use windows::windows_made;
