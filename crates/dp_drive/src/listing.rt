//! What is written of a program alone.
ghost use Rattle.std.specs.Prelude.{◌≡◌, ◌<◌, ◌-◌, ◌^◌, ℕ, List, IfOk};
ghost use Rattle.dp_edge.specs.Writing.{FaultsAfter};
ghost use Rattle.dp_words.specs.Words.{Asked, Asks};
ghost use Rattle.dp_drive.specs.steps.Carried.{Carried, Finishes};
ghost use Rattle.dp_drive.specs.steps.Listed.{ListsProgram, listing_text};

use crate::writing::{fail_read, refuse};
use dp_base::{NoMemory, Row};
use dp_edge::{Shelf, Sink, WriteFail, write};
use dp_load::{Loaded, load_program};
use dp_refusal::Role;
use dp_report::site_text;
use dp_tree::Program;
use dp_tree_text::write_tree;
use std::alloc::Global;

/// What a program is written as.
#[derive(Clone, Copy)]
pub enum Listing {
    /// The list of its sites.
    Sites,
    /// The whole of it, as a tree.
    Tree,
}

/// The exit status of a program's text.
pub fn answer_program<S: Shelf, K: Sink>(
    alloc: Global,
    name: &str,
    listing: Listing,
    shelf: &mut S,
    sink: &mut K,
) -> Result<u8, WriteFail>
    requires shelf { S.faults shelf.old < 2 ^ 64 - 1 }
    requires sink { K.faults sink.old < 2 ^ 64 - 1 }
    ensures contents { S.contents shelf.new ≡ S.contents shelf.old }
    ensures faults { FaultsAfter result (K.faults sink.old) (K.faults sink.new) }
    ensures carried { (words : List (List ℕ)) (asked : Asked) → ListsProgram listing asked name.now → Asks words asked →
        Carried words (S.contents shelf.old) (S.faults shelf.old) (S.faults shelf.new)
        (S.failed_names shelf.old) (S.failed_names shelf.new) (K.written sink.old) (K.written sink.new) result }
{
    match load_program(alloc, shelf, name)? {
        Loaded::Text(program) => list_program(alloc, &program, listing, sink),
        Loaded::Refused(refusal) => refuse(alloc, refusal, sink),
        Loaded::Failed => fail_read(alloc, Role::Program, sink),
    }
}

/// Writes the program's text.
fn list_program<K: Sink>(
    alloc: Global,
    program: &Program,
    listing: Listing,
    sink: &mut K,
) -> Result<u8, WriteFail>
    requires { K.faults sink.old < 2 ^ 64 - 1 }
    ensures faults { FaultsAfter result (K.faults sink.old) (K.faults sink.new) }
    ensures finishes { Finishes 0 (listing_text listing program.now) (K.written sink.old) (K.written sink.new) result }
{
    let text = text_of(alloc, program, listing)?;
    write(text.as_slice(), sink)?;
    Ok(0)
}

fn text_of(alloc: Global, program: &Program, listing: Listing) -> Result<Row<u8>, NoMemory>
    ensures { IfOk result (λ text. text ≡ listing_text listing program.now) }
{
    match listing {
        Listing::Sites => site_text(alloc, program),
        Listing::Tree => write_tree(alloc, program),
    }
}
