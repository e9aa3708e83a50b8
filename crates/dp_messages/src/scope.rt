//! The names of a program that are visible at a place of its tokens.
use crate::tokens::{Placed, text_at, text_before, text_behind};
use dp_base::{NoMemory, Row};
use std::alloc::Global;

/// What a name stands for.
#[derive(Clone, Copy, PartialEq, Eq)]
pub enum Sort {
    Scalar,
    Array,
    Function,
}

/// A name that was declared.
#[derive(Clone, Copy)]
pub struct Seen<'t> {
    pub name: &'t [u8],
    pub sort: Sort,
    /// The place of its token in the list, or none where it is predeclared.
    pub at: Option<usize>,
    /// How many parameters a function has.
    params: usize,
    /// In how many braces it is visible.
    depth: usize,
}

impl Seen<'_> {
    pub fn is_function(self) -> bool {
        self.sort == Sort::Function
    }

    pub fn params(self) -> usize {
        self.params
    }
}

/// What is visible, while the tokens are gone through.
#[derive(Drop)]
pub struct Scope<'t> {
    visible: Row<Seen<'t>>,
    /// A variable that is visible from the next `;` on.
    coming: Option<Seen<'t>>,
    /// A function that is visible behind its body.
    function: Option<Seen<'t>>,
    depth: usize,
}

impl<'t> Scope<'t> {
    /// What is visible in front of a program.
    pub fn new(alloc: Global) -> Result<Scope<'t>, NoMemory> {
        let mut visible = Row::new(alloc);
        visible.push(predeclared(b"input", Sort::Array))?;
        visible.push(predeclared(b"input_len", Sort::Scalar))?;
        Ok(Scope {
            visible,
            coming: None,
            function: None,
            depth: 0,
        })
    }

    /// The names that are visible.
    pub fn visible(&self) -> &[Seen<'t>] {
        self.visible.as_slice()
    }

    /// The one with this name, if there is one.
    pub fn find(&self, name: &[u8]) -> Option<Seen<'t>> {
        for seen in self.visible.as_slice() {
            if seen.name == name {
                return Some(*seen);
            }
        }
        None
    }

    /// Goes past the token at a place of the list.
    pub fn pass(&mut self, tokens: &[Placed<'t>], at: usize) -> Result<(), NoMemory> {
        match text_at(tokens, at) {
            b"{" => self.depth = self.depth.saturating_add(1),
            b"}" => self.close()?,
            b";" => self.declare_coming()?,
            _ => self.pass_name(tokens, at)?,
        }
        Ok(())
    }

    fn pass_name(&mut self, tokens: &[Placed<'t>], at: usize) -> Result<(), NoMemory> {
        if !declares(tokens, at) {
            return Ok(());
        }
        let seen = Seen {
            name: text_at(tokens, at),
            sort: sort_at(tokens, at),
            at: Some(at),
            params: params_behind(tokens, at),
            depth: self.depth,
        };
        if seen.is_function() {
            self.function = Some(seen);
            Ok(())
        } else if is_parameter(tokens, at) {
            self.visible.push(inner(seen))
        } else {
            let in_head = matches!(text_before(tokens, at, 3), b"for");
            self.coming = Some(if in_head { inner(seen) } else { seen });
            Ok(())
        }
    }

    fn declare_coming(&mut self) -> Result<(), NoMemory> {
        if let Some(seen) = self.coming {
            self.coming = None;
            self.visible.push(seen)?;
        }
        Ok(())
    }

    /// Leaves a block, and the function whose body it is.
    fn close(&mut self) -> Result<(), NoMemory> {
        let mut kept: usize = 0;
        for seen in self.visible.as_slice() {
            if seen.depth < self.depth || self.depth == 0 {
                kept = kept.saturating_add(1);
            }
        }
        self.visible.truncate(kept);
        self.depth = self.depth.saturating_sub(1);
        if self.depth > 0 {
            return Ok(());
        }
        if let Some(seen) = self.function {
            self.function = None;
            self.visible.push(seen)?;
        }
        Ok(())
    }
}

fn predeclared(name: &'static [u8], sort: Sort) -> Seen<'static> {
    Seen {
        name,
        sort,
        at: None,
        params: 0,
        depth: 0,
    }
}

/// The same name, visible in one more brace.
fn inner(seen: Seen<'_>) -> Seen<'_> {
    Seen {
        depth: seen.depth.saturating_add(1),
        ..seen
    }
}

/// Whether the token at a place of the list is a name that is declared there.
pub fn declares(tokens: &[Placed<'_>], at: usize) -> bool {
    matches!(text_before(tokens, at, 1), b"int" | b"void") && is_name(text_at(tokens, at))
}

/// Whether the text is a name, where it is a token behind `int` or `void`.
fn is_name(text: &[u8]) -> bool {
    !matches!(text, b"main" | b")")
}

fn sort_at(tokens: &[Placed<'_>], at: usize) -> Sort {
    if matches!(text_before(tokens, at, 1), b"void") {
        Sort::Function
    } else if matches!(text_behind(tokens, at, 1), b"[") {
        Sort::Array
    } else {
        Sort::Scalar
    }
}

fn is_parameter(tokens: &[Placed<'_>], at: usize) -> bool {
    let behind = matches!(text_behind(tokens, at, 1), b"," | b")");
    behind && matches!(text_before(tokens, at, 1), b"int")
}

/// How many parameters stand behind a function's name.
fn params_behind(tokens: &[Placed<'_>], at: usize) -> usize {
    let mut count: usize = 0;
    for placed in tokens.iter().skip(at) {
        match placed.token.text {
            b"int" => count = count.saturating_add(1),
            b")" => return count,
            _ => {}
        }
    }
    count
}
