//! The variables of four scopes: a set that would make a scope hold too much changes nothing.
ghost use Rattle.std.specs.Prelude.{◌≡◌, ◌≢◌, length, Some, IfOk};
ghost use Rattle.px_sample.specs.Sample.{value_in, within};
ghost use Rattle.px_sample.specs.Shape.{IsShape};
ghost use Rattle.px_sample.specs.Slot.{value_of};
ghost use Rattle.px_sample.specs.Variables.{no_variables, variable, set_variable, unset_variable, clear_scope};

use crate::form::Form;
use crate::kept::{self, Kept};
use crate::{Buf, Sample, Scope};
use htx_model::OutOfMemory;
use std::alloc::Global;
use std::marker::Model;

/// The variables of four scopes, in memory that is taken once. A scope holds names and values of at most 4096
/// bytes together; a number counts 8, a truth value 1.
pub struct Vars {
    kept: Kept,
}

impl Drop for Vars {
    fn drop(self) {
        let Vars { kept: _ } = self;
    }
}

impl Model for Vars {
    ghost use Rattle.px_sample.specs.Variables.{Variables};
    ghost use Rattle.px_sample.specs.Held.{variables_of, IsHeld};

    ghost Value = { Variables };

    ghost view = { λ vars. variables_of vars.kept };

    ghost invariant = { λ vars. IsHeld vars.kept };
}

impl Vars {
    /// No variable. This call alone takes memory.
    pub fn new(alloc: Global) -> Result<Vars, OutOfMemory>
        ensures { IfOk result (λ vars. vars ≡ no_variables) }
    {
        Ok(Vars {
            kept: kept::empty(alloc)?,
        })
    }

    /// Sets a variable to the sample, whose bytes stand in `buf`. An absent one changes nothing, nor does one
    /// with which the scope would hold more than 4096 bytes.
    pub fn set(&mut self, scope: Scope, name: &[u8], value: Sample, buf: &Buf)
        ensures { self.new ≡ set_variable self.old scope name.now (value_in value buf.now.bytes) }
    {
        match value {
            Sample::Absent => {}
            Sample::Truth(truth) => self.put(scope, name, Form::Truth, &[u8::from(truth)]),
            Sample::Number(number) => self.put(scope, name, Form::Number, &number.to_le_bytes()),
            Sample::InBuf => self.put(scope, name, Form::Bytes, buf.bytes()),
        }
    }

    fn put(&mut self, scope: Scope, name: &[u8], form: Form, value: &[u8])
        requires { IsShape form (length value.now) }
        ensures { self.new ≡ set_variable self.old scope name.now (Some (value_of form value.now)) }
    {
        kept::set(&mut self.kept, scope, name, form, value);
    }

    /// Takes a variable out, if it is set.
    pub fn unset(&mut self, scope: Scope, name: &[u8])
        ensures { self.new ≡ unset_variable self.old scope name.now }
    {
        kept::unset(&mut self.kept, scope, name);
    }

    /// The value of a variable; bytes are written over what the buffer holds, and any other answer leaves it as it
    /// was. Absent where the name isn't set, or where its bytes are more than the buffer holds.
    pub fn get(&self, scope: Scope, name: &[u8], into: &mut Buf) -> Sample
        ensures value { value_in result into.new.bytes ≡ within into.old.cap (variable self.now scope name.now) }
        ensures unchanged { result ≢ Sample.InBuf → into.new ≡ into.old }
        ensures cap { into.new.cap ≡ into.old.cap }
    {
        kept::get(&self.kept, scope, name, into)
    }

    /// Takes out all variables of a scope, where its life begins or ends.
    pub fn clear(&mut self, scope: Scope)
        ensures { self.new ≡ clear_scope self.old scope }
    {
        kept::clear(&mut self.kept, scope);
    }
}
