//! Actions on variables.
ghost use Rattle.std.specs.Prelude.{◌≡◌, false, IsOk, IfOk};
ghost use Rattle.px_expr.specs.Expr as exprs;
ghost use Rattle.http_rules.specs.Action.Given.{Env};
ghost use Rattle.http_rules.specs.Action.Steps.{set_var_step, unset_var_step};
ghost use Rattle.http_rules.specs.Action.Outcome.{IsScratch, IsAt, Came};
ghost use Rattle.http_rules.specs.declared.action.side.Side.{Side as On};
ghost use Rattle.htx_model.specs.Block.{Block};
ghost use Rattle.std.specs.Prelude.{List};

use crate::action::place::{Place, Setting};
use crate::action::scratch::Scratch;
use crate::action::side::Side;
use crate::action::stepped::Stepped;
use crate::action::texts::sample_of;
use htx_arena::Arena;
use px_expr::Expr;
use px_sample::{OutOfMemory, Scope, Vars};

/// What `set-var` is told: the variable, and the expression whose sample it takes.
#[derive(Clone, Copy)]
pub(crate) struct Assignment<'a> {
    pub(crate) scope: Scope,
    pub(crate) name: &'a [u8],
    pub(crate) expr: &'a Expr,
}

/// `set-var`.
pub(crate) fn set_var<'a>(
    assignment: Assignment<'_>,
    side: Side<'a>,
    msg: &'a Arena,
    vars: &mut Vars,
    scratch: &mut Scratch,
) -> Result<Stepped, OutOfMemory>
    requires { IsScratch msg.now.size scratch.old }
    ensures came { IfOk result (λ step. (env : Env) → IsAt side.entry env msg.now.blocks vars.old
        → Came side.entry env (set_var_step msg.now.size assignment.entry.scope assignment.entry.name.now assignment.entry.expr.now env) step msg.now.blocks vars.new) }
    ensures succeeds { exprs.holds_pattern assignment.entry.expr.now ≡ false → IsOk result }
    ensures scratch { IsScratch msg.now.size scratch.new }
{
    let Assignment { scope, name, expr } = assignment;
    let setting = Setting { side, vars };
    let made = sample_of(expr, Place { msg, setting }, scratch)?;
    vars.set(scope, name, made, &scratch.buf);
    Ok(Stepped::Done)
}

/// `unset-var`.
pub(crate) fn unset_var(scope: Scope, name: &[u8], vars: &mut Vars) -> Stepped
    ensures { (side : On) (env : Env) (blocks : List Block) → IsAt side env blocks vars.old
        → Came side env (unset_var_step scope name.now env) result blocks vars.new }
{
    vars.unset(scope, name);
    Stepped::Done
}
