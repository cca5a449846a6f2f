//! What a condition is made of (Configuration Manual, sections 7.1 and 7.2).
use px_expr::{Expr, Pat, Text};
use px_link::ItemList;

/// `if` or `unless`, and groups of terms that `or` joins.
pub struct Cond {
    /// The whole is negated.
    pub unless: bool,
    pub groups: GroupList,
}

impl Drop for Cond {
    fn drop(self) {
        let Cond {
            unless: _,
            groups: _,
        } = self;
    }
}

/// Groups that are joined by or.
pub type GroupList = ItemList<TermList>;

/// Terms that are joined by and.
pub type TermList = ItemList<Term>;

/// A term: the tests of a name's lines, or of braces.
pub struct Term {
    /// `!` stands in front.
    pub not: bool,
    pub tests: TestList,
}

impl Drop for Term {
    fn drop(self) {
        let Term { not: _, tests: _ } = self;
    }
}

/// Tests that are joined by or.
pub type TestList = ItemList<Test>;

/// An expression whose samples are tried against values.
pub struct Test {
    pub expr: Expr,
    pub how: Match,
    /// `-i`: the case of ASCII letters is ignored. A pattern has its own, with which it was built.
    pub icase: bool,
    /// None of them for `found` and `bool`.
    pub values: ValueList,
}

impl Drop for Test {
    fn drop(self) {
        let Test {
            expr: _,
            how: _,
            icase: _,
            values: _,
        } = self;
    }
}

/// How a sample is compared with a value.
#[derive(Clone, Copy, Debug)]
pub enum Match {
    /// There is a sample.
    Found,
    /// It is true.
    Bool,
    /// It is a number of a range.
    Int,
    /// Its number of bytes is of a range.
    Len,
    /// It equals a text.
    Str,
    /// It begins with one.
    Beg,
    /// It ends with one.
    End,
    /// It contains one.
    Sub,
    /// A pattern matches somewhere in it.
    Reg,
}

/// Values that a sample is tried against.
pub type ValueList = ItemList<TestValue>;

/// What a sample is compared with.
pub enum TestValue {
    /// Numbers from `low` to `high`, open where there is none; none where `low` is above `high`.
    Range { low: Option<i64>, high: Option<i64> },
    Literal(Text),
    Pattern(Pat),
}

impl Drop for TestValue {
    fn drop(self) {
        match self {
            TestValue::Range { low: _, high: _ } => {}
            TestValue::Literal(_) => {}
            TestValue::Pattern(_) => {}
        }
    }
}
