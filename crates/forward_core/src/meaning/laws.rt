//! What holds of the meaning of each configuration.
ghost use Rattle.std.specs.Prelude.{List};
ghost use Rattle.body_filter.specs.declared.filter_spec.FilterSpec.{FilterSpec};
ghost use Rattle.session_model.specs.Meaning.{HoldsOn};
ghost use Rattle.forward_core.specs.Meaning.Product.{filters_of};

use body_filter::laws::goes_on;

/// What filters make of the body bytes so far holds however the body goes on.
pub fn filters_hold_on()
    ensures { (filters : List FilterSpec) → HoldsOn (filters_of filters) }
{
    goes_on();
}
