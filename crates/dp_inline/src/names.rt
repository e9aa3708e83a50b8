//! The variables of an expanded call.

ghost use Rattle.std.specs.Prelude.{◌≡◌, ◌∷◌, [], OnOk};
ghost use Rattle.dp_calls.specs.Renaming.{named_in, target_of};

use dp_base::{NoMemory, Row, VarId};
use std::alloc::Global;
use std::marker::Model;

/// A local or parameter of the text, and the variable that stands for it.
#[derive(Clone, Copy)]
pub struct Named {
    pub source: u32,
    pub target: u32,
}

/// What stands for the locals and parameters so far, the latest one last.
#[derive(Drop)]
pub struct Names {
    rows: Row<Named>,
}

impl Model for Names {
    ghost use Rattle.std.specs.Prelude.{List};
    ghost use Rattle.dp_calls.specs.Renaming.{Renamed};
    ghost use Rattle.dp_inline.specs.Named.{renamed_names};

    ghost Value = { List Renamed };

    ghost view = { λ names. renamed_names names.rows };
}

impl Names {
    pub fn new(alloc: Global) -> Names
        ensures { result ≡ [] }
    {
        Names {
            rows: Row::new(alloc),
        }
    }

    /// The variable that stands for this one, if there is one yet.
    pub fn find(&self, source: u32) -> Option<u32>
        ensures { result ≡ named_in self.now source }
    {
        let rows = self.rows.as_slice();
        let mut left = rows.len();
        while left > 0 {
            left -= 1;
            let named = rows[left];
            if named.source == source {
                return Some(named.target);
            }
        }
        None
    }

    /// The variable that stands for this one, or itself at file scope.
    pub fn target(&self, var: VarId) -> VarId
        ensures { result ≡ target_of self.now var }
    {
        match self.find(var.0) {
            Some(target) => VarId(target),
            None => var,
        }
    }

    /// From here on the one variable stands for the other.
    pub fn push(&mut self, source: u32, target: u32) -> Result<(), NoMemory>
        ensures { OnOk result (self.new ≡ record { source = source; target = target } ∷ self.old) }
    {
        self.rows.push(Named { source, target })?;
        Ok(())
    }
}
