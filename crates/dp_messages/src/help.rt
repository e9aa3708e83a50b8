//! Words that aren't taken, and how words are used.
use crate::near::distance;
use crate::page::Page;
use dp_base::NoMemory;
use dp_words::{VERBS, complaint};
use std::alloc::Global;

/// The width of the verbs' column.
const COLUMN: usize = 9;

/// Tells why the words aren't taken, or how words are used where there are none or help is asked for.
pub fn tell_words(alloc: Global, page: &mut Page, words: &[String]) -> Result<(), NoMemory> {
    let Some(verb) = words.first() else {
        put_help(page);
        return Ok(());
    };
    if let Some(text) = complaint(alloc, words)? {
        page.put(text.as_str());
        return Ok(());
    }
    let verb = verb.as_str();
    if is_verb(verb) {
        page.put(
            "error: '--plan' cannot be used with '--profile': a text of plans needs no profile\n",
        );
        return Ok(());
    }
    if !asks_for_help(verb) {
        put_unknown(page, verb);
    }
    put_help(page);
    Ok(())
}

fn is_verb(word: &str) -> bool {
    VERBS.iter().any(|verb| verb.0 == word)
}

fn asks_for_help(word: &str) -> bool {
    matches!(word, "-h" | "--help" | "help")
}

/// Puts that a word is no verb, and the verb that comes nearest to it.
fn put_unknown(page: &mut Page, word: &str) {
    page.put("error: no verb is called ");
    page.quote(word.as_bytes());
    page.put("\n");
    for (verb, _) in &VERBS {
        if distance(word.as_bytes(), verb.as_bytes()).is_some() {
            page.put("      = hint: there is ");
            page.quote(verb.as_bytes());
            page.put("\n");
        }
    }
    page.put("\n");
}

/// Puts the list of the verbs.
fn put_help(page: &mut Page) {
    page.put(
        "dswp runs the marked loops of a sequential program as pipelines on several threads, and never changes an answer.\n",
    );
    page.put("\nUsage: dswp VERB WORDS..\n\nVerbs:\n");
    for (verb, sentence) in &VERBS {
        page.put("  ");
        page.put(verb);
        for _ in verb.len()..COLUMN {
            page.put(" ");
        }
        page.put(sentence);
        page.put("\n");
    }
    page.put("\n`dswp VERB --help` tells what a verb takes.\n");
}
