//! What a session means by a value.
ghost use Rattle.session_model.specs.Meaning.{Meaning};

/// A value that gives a session its meaning, as a configuration does.
pub trait Means {
    ghost meaning: { Self → Meaning };
}
