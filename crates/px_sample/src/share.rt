//! How much of the memory for variables each scope has.
ghost use Rattle.std.specs.Prelude.{◌≡◌};
ghost use Rattle.px_sample.specs.Shares.{no_shares, share_of, with_share, slots_before, bytes_before};

use crate::Scope;

/// How many variables a scope has, and how many bytes their names and values have together.
#[derive(Clone, Copy)]
pub struct Share {
    pub slots: u16,
    pub bytes: u16,
}

/// Where the variables of a scope begin: after how many variables, and after how many bytes.
#[derive(Clone, Copy)]
pub struct Start {
    pub slot: usize,
    pub byte: usize,
}

/// The shares of all scopes, in the order in which their variables lie.
#[derive(Clone, Copy)]
pub struct Shares {
    pub sess: Share,
    pub txn: Share,
    pub req: Share,
    pub res: Share,
}

impl Shares {
    /// Those of scopes without variables.
    pub fn none() -> Shares
        ensures { result ≡ no_shares }
    {
        let share = Share { slots: 0, bytes: 0 };
        Shares {
            sess: share,
            txn: share,
            req: share,
            res: share,
        }
    }

    /// The share of a scope.
    pub fn of(&self, scope: Scope) -> Share
        ensures { result ≡ share_of self.now scope }
    {
        match scope {
            Scope::Sess => self.sess,
            Scope::Txn => self.txn,
            Scope::Req => self.req,
            Scope::Res => self.res,
        }
    }

    /// Gives a scope another share.
    pub fn set(&mut self, scope: Scope, share: Share)
        ensures { self.new ≡ with_share self.old scope share }
    {
        match scope {
            Scope::Sess => self.sess = share,
            Scope::Txn => self.txn = share,
            Scope::Req => self.req = share,
            Scope::Res => self.res = share,
        }
    }

    /// Where the variables of a scope begin.
    pub fn start(&self, scope: Scope) -> Start
        ensures slot { result.slot ≡ slots_before self.now scope }
        ensures byte { result.byte ≡ bytes_before self.now scope }
    {
        match scope {
            Scope::Sess => Start { slot: 0, byte: 0 },
            Scope::Txn => Start {
                slot: self.sess.slots as usize,
                byte: self.sess.bytes as usize,
            },
            Scope::Req => Start {
                slot: self.sess.slots as usize + self.txn.slots as usize,
                byte: self.sess.bytes as usize + self.txn.bytes as usize,
            },
            Scope::Res => Start {
                slot: self.sess.slots as usize + self.txn.slots as usize + self.req.slots as usize,
                byte: self.sess.bytes as usize + self.txn.bytes as usize + self.req.bytes as usize,
            },
        }
    }
}
