//! A place in the text: what is visible there, and the numbers that come next.

ghost use Rattle.std.specs.Prelude.{◌≡◌, ◌≤◌, ◌+◌, ◌^◌, None, IfOk, OnErr, OnOk};
ghost use Rattle.dp_check.specs.Names.{named};

use crate::names::{Meaning, Names};
use dp_base::{NoMemory, SiteId, VarId};
use dp_tree::Name;

/// A place in the text.
#[derive(Drop)]
pub struct Place<'a> {
    /// The names that are visible.
    pub names: Names<'a>,
    /// The number of the next local variable or parameter.
    pub variable: u32,
    /// The number of the next site.
    pub site: u32,
}

/// The numbers that come next.
#[derive(Clone, Copy)]
pub struct Numbers {
    pub variable: u32,
    pub site: u32,
}

/// The number after this one.
pub fn next(number: u32) -> Result<u32, NoMemory>
    ensures value { IfOk result (λ n. n ≡ number + 1) }
    ensures full { OnErr result (2 ^ 32 ≤ number + 1) }
{
    number.checked_add(1).ok_or(NoMemory)
}

impl<'a> Place<'a> {
    ghost use Rattle.dp_check.specs.Place.{sited, with_name, with_scalar, with_variable};
    ghost use Rattle.dp_check.specs.Resolved.{next_site, next_variable};

    /// The next site's number is used.
    pub fn take_site(&mut self) -> Result<SiteId, NoMemory>
        ensures site { IfOk result (λ site. site ≡ next_site self.old) }
        ensures place { OnOk result (self.new ≡ sited self.old) }
        ensures full { OnErr result (2 ^ 32 ≤ self.old.site + 1) }
    {
        let site = SiteId(self.site);
        self.site = next(self.site)?;
        Ok(site)
    }

    /// The next variable's number is used.
    pub fn take_variable(&mut self) -> Result<VarId, NoMemory>
        ensures variable { IfOk result (λ var. var ≡ next_variable self.old) }
        ensures place { OnOk result (self.new ≡ with_variable self.old) }
        ensures full { OnErr result (2 ^ 32 ≤ self.old.variable + 1) }
    {
        let var = VarId(self.variable);
        self.variable = next(self.variable)?;
        Ok(var)
    }

    pub fn numbers(&self) -> Numbers
        ensures { result ≡ record { variable = self.now.variable; site = self.now.site } }
    {
        Numbers {
            variable: self.variable,
            site: self.site,
        }
    }

    /// Goes to these numbers, and keeps its names.
    pub fn renumber(&mut self, numbers: Numbers)
        ensures { self.new ≡ record self.old { variable = numbers.variable; site = numbers.site } }
    {
        self.variable = numbers.variable;
        self.site = numbers.site;
    }

    /// One more name is visible.
    pub fn declare(&mut self, name: &'a Name, meaning: Meaning) -> Result<(), NoMemory>
        requires { named self.old.names name.now.text ≡ None }
        ensures { OnOk result (self.new ≡ with_name self.old name.now meaning) }
    {
        self.names.declare(name.text.as_slice(), meaning)?;
        Ok(())
    }

    /// A scalar takes the next number.
    pub fn declare_scalar(&mut self, name: &'a Name) -> Result<VarId, NoMemory>
        requires { named self.old.names name.now.text ≡ None }
        ensures variable { IfOk result (λ var. var ≡ next_variable self.old) }
        ensures place { OnOk result (self.new ≡ with_scalar self.old name.now) }
    {
        let var = VarId(self.variable);
        self.declare(name, Meaning::Scalar(var))?;
        self.variable = next(self.variable)?;
        Ok(var)
    }
}
