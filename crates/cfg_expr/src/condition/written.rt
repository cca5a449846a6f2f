//! Tests as their words say them, before a direction is chosen, and the lines that name them.

use crate::Written;
use acl_eval::{Match, ValueList};
use px_link::ItemList;
use px_sample::Text;

/// A test as its words say it.
#[derive(Drop)]
pub struct WrittenTest {
    pub written: Written,
    pub how: Match,
    pub icase: bool,
    pub values: ValueList,
}

/// An `acl` line: its name and its test.
pub struct AclLine {
    pub name: Text,
    pub test: WrittenTest,
}

impl Drop for AclLine {
    fn drop(self) {
        let AclLine { name: _, test: _ } = self;
    }
}

/// The `acl` lines so far. Several lines may have one name.
pub type AclList = ItemList<AclLine>;
