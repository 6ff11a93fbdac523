// Who owns which paragraph, and which page of which chapter: two arrays of line numbers, initially zero (01, "Forms for specific
// places"). A line claims its places; of those that a later one claims the least owner tells with whom it shares.
#![tactic(auto)]

ghost use Rattle.std.specs.Prelude.{◌≡◌, [], length, get_or};
ghost use Rattle.basics.specs.Tables.{table};
ghost use Rattle.places.specs.Limits.{paragraphs, flip_entries};
ghost use Rattle.owners.specs.Owners.{claims_paragraph, claims_page, only, or_else, owners_of, claimed_by, claimed_both, lesser, least_of, owned_by, least_owner};

use lines::{Entry, Line};
use places::{CHAPTER_PAGES, CHAPTER_SIZE, Console, FLIP_ENTRIES, PARAGRAPH_SIZE, PARAGRAPHS};
use std::array;

// The numbers of the lines that own each paragraph, and each page of each chapter; 0 where nobody does.
#[derive(Clone, Copy)]
pub struct Owners {
    pub paragraphs: [u32; PARAGRAPHS],
    pub pages: [u32; FLIP_ENTRIES],
}

// Before any line.
pub fn no_owners() -> Owners
    ensures { result ≡ owners_of [] }
{
    let paragraphs = [0; PARAGRAPHS];
    let pages = [0; FLIP_ENTRIES];
    Owners { paragraphs, pages }
}

// Whether an entry claims a paragraph; whether it claims page y of chapter x, n = 16x + y.
fn claims_paragraph(p: u8, e: Entry) -> bool
    ensures { result ≡ claims_paragraph p e }
{
    let at = Console((PARAGRAPH_SIZE * usize::from(p)) as u16);
    lines::layer_of(e) == 0 && lines::holds(e, at)
}

fn claims_page(n: u8, e: Entry) -> bool
    ensures { result ≡ claims_page n e }
{
    let i = usize::from(n);
    let from = usize::from(lines::first_of(e).0);
    lines::layer_of(e) == i % CHAPTER_PAGES + 1 && from / CHAPTER_SIZE == i / CHAPTER_PAGES
}

// A number where a test passes; the first of two that is not 0; and the lesser of two, where 0 stands for none.
fn only(test: bool, number: u32) -> u32
    ensures { result ≡ only test number }
{
    if test { number } else { 0 }
}

fn or_else(m: u32, n: u32) -> u32
    ensures { result ≡ or_else m n }
{
    if m == 0 { n } else { m }
}

fn lesser(m: u32, n: u32) -> u32
    ensures { result ≡ lesser m n }
{
    if m == 0 {
        return n;
    }
    if n == 0 {
        return m;
    }
    m.min(n)
}

// The paragraphs, and the pages, after an entry has claimed its own under a number.
pub fn claim_paragraphs(owners: &[u32; PARAGRAPHS], e: Entry, number: u32) -> [u32; PARAGRAPHS]
    ensures { result ≡ table paragraphs (claimed_by claims_paragraph owners.now e number) }
{
    array::from_fn(|p| or_else(owners[p], only(claims_paragraph(p as u8, e), number)))
}

fn claim_pages(owners: &[u32; FLIP_ENTRIES], e: Entry, number: u32) -> [u32; FLIP_ENTRIES]
    ensures { result ≡ table flip_entries (claimed_by claims_page owners.now e number) }
{
    array::from_fn(|n| or_else(owners[n], only(claims_page(n as u8, e), number)))
}

// The owners after one more line.
#[tactic(auto, unfolding(crate::specs::Owners::claimed_both))]
pub fn claim(owners: Owners, l: Line) -> Owners
    ensures { result ≡ claimed_both owners l }
{
    let paragraphs = claim_paragraphs(&owners.paragraphs, l.entry, l.source);
    let pages = claim_pages(&owners.pages, l.entry, l.source);
    Owners { paragraphs, pages }
}

// The owners of the paragraphs, and of the pages, that an entry claims; 0 for the others.
fn met_paragraphs(owners: &[u32; PARAGRAPHS], e: Entry) -> [u32; PARAGRAPHS]
    ensures { result ≡ table paragraphs (owned_by claims_paragraph owners.now e) }
{
    array::from_fn(|p| only(claims_paragraph(p as u8, e), owners[p]))
}

fn met_pages(owners: &[u32; FLIP_ENTRIES], e: Entry) -> [u32; FLIP_ENTRIES]
    ensures { result ≡ table flip_entries (owned_by claims_page owners.now e) }
{
    array::from_fn(|n| only(claims_page(n as u8, e), owners[n]))
}

// The least of several numbers, 0 standing for none.
fn least(numbers: &[u32]) -> u32
    ensures { result ≡ least_of (length numbers.now) (λ i. get_or numbers.now i 0) }
{
    let mut r = 0;
    for n in numbers {
        r = lesser(*n, r);
    }
    r
}

// The least owner of all places that an entry claims.
pub fn least_owner(owners: Owners, e: Entry) -> u32
    ensures { result ≡ least_owner owners e }
{
    let paragraphs = met_paragraphs(&owners.paragraphs, e);
    let pages = met_pages(&owners.pages, e);
    lesser(least(&paragraphs), least(&pages))
}
