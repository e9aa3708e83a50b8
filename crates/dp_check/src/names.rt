//! The names that are visible at a place of the text, and what each means there.

ghost use Rattle.std.specs.Prelude.{◌≡◌, None, ◌++◌, ◌∷◌, [], length, take, OnOk, IfOk};

use dp_base::VarId;
use indexmap::IndexMap;
use std::alloc::{AllocError, Global};
use std::marker::Model;

/// What a visible name stands for.
#[derive(Clone, Copy)]
pub enum Meaning {
    Scalar(VarId),
    Array(VarId),
    /// The array of the input's words.
    Input,
    /// The number of the input's words.
    InputLen,
    Function { number: u32, params: usize },
}

/// The visible names in the order of their declarations. A block's names stand last, so they are given up at its end by
/// their number.
pub struct Names<'a> {
    meanings: IndexMap<&'a [u8], Meaning>,
}

impl Drop for Names<'_> {
    fn drop(self) {
        let Names { meanings: _ } = self;
    }
}

impl<'a> Model for Names<'a> {
    ghost use Rattle.std.specs.Prelude.{List, map};
    ghost use Rattle.dp_check.specs.Names.{Named};

    ghost Value = { List Named };

    ghost view = { λ names. map (λ e. record { name = e.0.now; meaning = e.1 }) names.meanings.entries };
}

ghost use Rattle.dp_check.specs.Names.{Named, named, predeclared};

impl<'a> Names<'a> {
    /// The names that stand before every text.
    pub fn predeclared(alloc: Global) -> Result<Names<'a>, AllocError>
        ensures { IfOk result (λ names. names ≡ predeclared) }
    {
        let mut names = Names {
            meanings: IndexMap::new(alloc),
        };
        names.declare(b"input", Meaning::Input)?;
        names.declare(b"input_len", Meaning::InputLen)?;
        Ok(names)
    }

    pub fn len(&self) -> usize
        ensures { result ≡ length self.now }
    {
        self.meanings.len()
    }

    pub fn meaning(&self, name: &[u8]) -> Option<Meaning>
        ensures { result ≡ named self.now name.now }
    {
        self.meanings.get(&name).copied()
    }

    pub fn declare(&mut self, name: &'a [u8], meaning: Meaning) -> Result<(), AllocError>
        requires { named self.old name.now ≡ None }
        ensures { OnOk result (self.new ≡ self.old ++ record { name = name.now; meaning = meaning } ∷ []) }
    {
        self.meanings.insert(name, meaning)?;
        Ok(())
    }

    /// Gives up all but the first `count` names.
    pub fn keep(&mut self, count: usize)
        ensures { self.new ≡ take count self.old }
    {
        self.meanings.truncate(count);
    }
}
