//! What may be wrong with a name of a program.
ghost use Rattle.std.specs.Prelude.{◌≡◌};

/// What is wrong with a name of the program.
#[derive(Clone, Copy)]
pub enum Offence {
    /// It is no visible variable, or no visible function where it is called.
    Unknown,
    /// It is declared where it is visible already.
    Twice,
    /// A scalar has an index.
    NotArray,
    /// An array stands without an index.
    NotScalar,
    /// A call has another number of arguments than its function has parameters.
    Arguments,
    /// What can only be read is assigned.
    ReadOnly,
}

impl Offence {
    ghost use Rattle.dp_refusal.specs.Refusal.{offence_name};

    /// Its name in messages.
    pub fn name(self) -> &'static str
        ensures { result.now ≡ offence_name self }
    {
        match self {
            Offence::Unknown => "unknown",
            Offence::Twice => "twice",
            Offence::NotArray => "not-array",
            Offence::NotScalar => "not-scalar",
            Offence::Arguments => "arguments",
            Offence::ReadOnly => "read-only",
        }
    }
}
