//! A rule that plans break: what it asks, the site that breaks it, and the line of the plans that lists the site.
use crate::page::Page;
use crate::source::{
    Line, Source, Spot, line_at, numbered_line, piece, put_head, put_spot, written_on,
};
use dp_tree::{Program, SiteKind};

/// What each rule asks, from the first to the ninth, and what to change.
const RULES: [(&str, &str); 9] = [
    (
        "each site of the marked loop has to be listed",
        "list it on a `seq` or a `par` line",
    ),
    ("no site may be listed twice", "leave one of the two out"),
    (
        "each listed site has to be one of the marked loop",
        "leave it out: `check` lists the sites of each loop",
    ),
    (
        "the loop's condition has to be in the first stage",
        "list it on the first line",
    ),
    (
        "the first stage has to be sequential",
        "make its line `seq`",
    ),
    (
        "no two neighbouring stages may be replicated",
        "make one of the two lines `seq`, or join them",
    ),
    (
        "the condition of an inner loop has to be in a stage not later than any site inside it",
        "list it on the line of the first of those sites, or on one before",
    ),
    (
        "the condition of an `if` in a later stage than a site inside it has to be assumed",
        "add a line `assume SITE V`, or list the condition on an earlier line",
    ),
    (
        "an assumed site has to be the condition of an `if` of the marked loop, and to be assumed once",
        "leave the `assume` line out",
    ),
];

/// Tells of a rule, from 1, that the plans break at a site.
pub fn tell_rule(
    page: &mut Page,
    plans: Source<'_>,
    source: Source<'_>,
    program: &Program,
    rule: u32,
    site: u32,
) {
    let (asks, advice) = rule_of(rule);
    let first = listing(plans.text, site, 0, rule == 9);
    let spot = match first {
        Some(spot) => spot,
        None => region_spot(plans.text, program, site),
    };
    put_head(page, plans, spot, "error");
    page.put("rule ");
    page.put_number(u64::from(rule));
    page.put(" is broken at site ");
    page.put_number(u64::from(site));
    page.put(": ");
    page.put(asks);
    page.put("\n");
    put_spot(
        page,
        plans,
        spot,
        if first.is_none() {
            "this loop's lines don't list it"
        } else {
            ""
        },
    );
    if rule == 2 {
        put_second(page, plans, site, spot);
    }
    put_site(page, source, program, site);
    page.hint(advice);
}

fn rule_of(rule: u32) -> (&'static str, &'static str) {
    match RULES.get((rule as usize).saturating_sub(1)) {
        Some((asks, advice)) => (asks, advice),
        None => ("", ""),
    }
}

/// Puts the second line that lists a site.
fn put_second(page: &mut Page, plans: Source<'_>, site: u32, first: Spot) {
    let behind = first.from.saturating_add(first.len);
    if let Some(second) = listing(plans.text, site, behind, false) {
        put_head(page, plans, second, "note");
        page.put("it is listed here again\n");
        put_spot(page, plans, second, "");
    }
}

/// Puts the line of the program on which a site stands.
fn put_site(page: &mut Page, source: Source<'_>, program: &Program, site: u32) {
    let Some(info) = program.sites.get((site as usize).saturating_sub(1)) else {
        return;
    };
    let spot = written_on(
        source.text,
        numbered_line(source.text, u64::from(info.line)),
    );
    put_head(page, source, spot, "note");
    page.put("site ");
    page.put_number(u64::from(site));
    page.put(kind_of(info.kind));
    page.put("\n");
    put_spot(page, source, spot, "");
}

fn kind_of(kind: SiteKind) -> &'static str {
    match kind {
        SiteKind::Assign => " is an assignment on this line",
        SiteKind::Print => " is a print on this line",
        SiteKind::If => " is the condition of an `if` on this line",
        SiteKind::While => " is the condition of a loop on this line",
        SiteKind::Break => " is an early exit on this line",
    }
}

/// Where a line from a place on lists a site: a `seq` or `par` line, or an `assume` line.
fn listing(text: &[u8], site: u32, from: usize, assumed: bool) -> Option<Spot> {
    let mut word: usize = 0;
    let mut stage = false;
    for (at, byte) in text.iter().enumerate() {
        if *byte == b' ' || *byte == b'\n' {
            let said = piece(text, word, at);
            if matches!(said, b"seq") || matches!(said, b"par") {
                stage = !assumed;
            } else if matches!(said, b"assume") {
                stage = assumed;
            } else if stage && word >= from && number_of(said) == Some(site) {
                return Some(Spot {
                    from: word,
                    len: said.len(),
                });
            }
            let behind_site = assumed && number_of(said).is_some();
            stage = stage && *byte == b' ' && !behind_site;
            word = at.saturating_add(1);
        }
    }
    None
}

fn number_of(word: &[u8]) -> Option<u32> {
    match str::from_utf8(word) {
        Ok(text) => text.parse::<u32>().ok(),
        Err(_) => None,
    }
}

/// The `region` line of the marked loop that has the site.
fn region_spot(text: &[u8], program: &Program, site: u32) -> Spot {
    let region = match program.sites.get((site as usize).saturating_sub(1)) {
        Some(info) => info.region,
        None => 0,
    };
    let mut left = region;
    for (at, byte) in text.iter().enumerate() {
        let begins = *byte == b'r' && matches!(piece(text, at, at.saturating_add(7)), b"region ");
        if begins {
            left = left.saturating_sub(1);
            if left == 0 {
                return written_on(text, line_at(text, at));
            }
        }
    }
    let first: Line = line_at(text, 0);
    written_on(text, first)
}
