//! Laws over the definitions.
ghost use Rattle.px_sample.specs.Laws.{SetGives, SetKeeps, UnsetTakes, UnsetKeeps};

/// A set and an unset change the value of one variable, and of no other.
pub fn one_variable_changes()
    ensures set_gives { SetGives }
    ensures set_keeps { SetKeeps }
    ensures unset_takes { UnsetTakes }
    ensures unset_keeps { UnsetKeeps }
{}
