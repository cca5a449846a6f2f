//! The lives of variables.
/// How long a variable lives (Configuration Manual, section 2.8).
#[derive(Clone, Copy, Debug)]
pub enum Scope {
    /// For the session.
    Sess,
    /// For the exchange.
    Txn,
    /// Until the request rules end.
    Req,
    /// From the beginning to the end of the response rules.
    Res,
}
