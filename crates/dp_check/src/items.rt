//! The items of a text: file-scope variables and functions.

ghost use Rattle.std.specs.Prelude.{◌≡◌, ◌++◌, OnOk};
ghost use Rattle.dp_check.specs.Offence.{Declares, offence, first_offence};
ghost use Rattle.dp_check.specs.Place.{after_params, place_passed, with_scalar};
ghost use Rattle.dp_check.specs.Tables.{function_parts};
ghost use Rattle.dp_check.specs.Tokens.{token};
ghost use Rattle.dp_check.specs.Answer.{GivesChecked, answer, param_answer, params_answer, body_answer};

use crate::names::Meaning;
use crate::place::{Place, next};
use crate::statement::block;
use crate::{CheckFail, uses};
use dp_base::{Row, VarId};
use dp_tree::{Function, Name, RawItem, RawStmt};
use std::alloc::Global;

/// Where an item stands. Its place has the numbers for the locals of the next function.
#[derive(Drop)]
pub struct Head<'a> {
    pub place: Place<'a>,
    /// How many file-scope variables stand before it.
    pub globals: u32,
    /// How many functions stand before it.
    pub functions: u32,
}

#[tactic(auto, unfolding(crate::specs::Answer::param_answer))]
fn parameter<'a>(place: &mut Place<'a>, name: &'a Name) -> Result<VarId, CheckFail>
    ensures value { GivesChecked (param_answer place.old name.now) result }
    ensures place { OnOk result (place.new ≡ with_scalar place.old name.now) }
{
    uses::undeclared(&place.names, name)?;
    Ok(place.declare_scalar(name)?)
}

/// The variables of a function's parameters.
fn parameters<'a>(
    alloc: Global,
    place: &mut Place<'a>,
    all: &'a [Name],
) -> Result<Row<VarId>, CheckFail>
    ensures value { GivesChecked (params_answer place.old all.now) result }
    ensures place { OnOk result (place.new ≡ after_params place.old all.now) }
{
    let mut done = Row::new(alloc);
    for name in all {
        done.push(parameter(place, name)?)?;
    }
    Ok(done)
}

/// A function with these parameters and this body. At its end its names are given up.
#[tactic(auto, using(crate::proofs::ItemLemmas::body_answers))]
fn function<'a>(
    alloc: Global,
    place: &mut Place<'a>,
    params: &'a [Name],
    body: &'a [RawStmt],
) -> Result<Function, CheckFail>
    ensures value { GivesChecked (body_answer place.old params.now body.now) result }
    ensures place { OnOk result (place.new ≡ place_passed place.old (function_parts params.now body.now)) }
{
    let count = place.names.len();
    let params = parameters(alloc, place, params)?;
    let body = block(alloc, place, body)?;
    place.names.keep(count);
    Ok(Function { params, body })
}

impl<'a> Head<'a> {
    ghost use Rattle.dp_check.specs.Items.{with_global, with_array, with_function, function_answer, after_item, after_items, item_tokens, item_functions};
    ghost use Rattle.dp_check.specs.Items.{items_answer};

    fn scalar(&mut self, name: &'a Name) -> Result<(), CheckFail>
        ensures value { GivesChecked (answer (offence (token self.old.place.names Declares name.now)) tt) result }
        ensures head { OnOk result (self.new ≡ with_global self.old name.now) }
    {
        uses::undeclared(&self.place.names, name)?;
        let globals = next(self.globals)?;
        let meaning = Meaning::Scalar(VarId(self.globals));
        self.place.declare(name, meaning)?;
        self.globals = globals;
        Ok(())
    }

    fn array(&mut self, name: &'a Name) -> Result<(), CheckFail>
        ensures value { GivesChecked (answer (offence (token self.old.place.names Declares name.now)) tt) result }
        ensures head { OnOk result (self.new ≡ with_array self.old name.now) }
    {
        uses::undeclared(&self.place.names, name)?;
        let globals = next(self.globals)?;
        let meaning = Meaning::Array(VarId(self.globals));
        self.place.declare(name, meaning)?;
        self.globals = globals;
        Ok(())
    }

    #[tactic(auto, using(crate::proofs::ItemLemmas::function_answers))]
    fn function(
        &mut self,
        alloc: Global,
        name: &'a Name,
        params: &'a [Name],
        body: &'a [RawStmt],
    ) -> Result<Function, CheckFail>
        ensures value { GivesChecked (function_answer self.old name.now params.now body.now) result }
        ensures head { OnOk result (self.new ≡ with_function self.old name.now params.now body.now) }
    {
        uses::undeclared(&self.place.names, name)?;
        let done = function(alloc, &mut self.place, params, body)?;
        let functions = next(self.functions)?;
        let meaning = Meaning::Function {
            number: self.functions,
            params: params.len(),
        };
        self.place.declare(name, meaning)?;
        self.functions = functions;
        Ok(done)
    }

    /// An item. A function is put behind those that are done.
    fn item(
        &mut self,
        alloc: Global,
        item: &'a RawItem,
        done: &mut Row<Function>,
    ) -> Result<(), CheckFail>
        ensures value { GivesChecked (answer (first_offence (item_tokens self.old item.now)) tt) result }
        ensures functions { OnOk result (done.new ≡ done.old ++ item_functions self.old item.now) }
        ensures head { OnOk result (self.new ≡ after_item self.old item.now) }
    {
        match item {
            RawItem::Scalar { name, .. } => self.scalar(name),
            RawItem::Array { name, .. } => self.array(name),
            RawItem::Function { name, params, body } => {
                let one = self.function(alloc, name, params.as_slice(), body.as_slice())?;
                Ok(done.push(one)?)
            }
        }
    }

    /// The functions among the items.
    pub fn items(&mut self, alloc: Global, all: &'a [RawItem]) -> Result<Row<Function>, CheckFail>
        ensures value { GivesChecked (items_answer self.old all.now) result }
        ensures head { OnOk result (self.new ≡ after_items self.old all.now) }
    {
        let mut done = Row::new(alloc);
        for item in all {
            self.item(alloc, item, &mut done)?;
        }
        Ok(done)
    }
}
