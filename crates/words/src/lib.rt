// The lines that are printed of the rules: that one holds, or the first place where it is broken, in the words of docs/RULES.md.
#![tactic(auto)]

ghost use Rattle.std.specs.Prelude.{◌≡◌, [], ◌++◌, ◌/◌, ◌%◌, ◌<◌, get_or, map};
ghost use Rattle.print.specs.Text.{decimal_of};
ghost use Rattle.print.specs.Pages.{typed_all_on};
ghost use Rattle.words.specs.Words.{field_names, forms, a_number, the_stealth_history, form_of, words_of, holds_line, broken_line};
ghost use Rattle.words.specs.Forms.{form_from, form_or_none};

use print::Page;

// The bytes of the longest line.
pub const LONGEST: usize = 32;

// The sizes by which a place's number is taken apart.
const PHYSICALS: u64 = 16;

const ADDRESSES: u64 = 64;

const WAYS: u64 = 2;

const STEALTH_SET: u64 = 7;

const LINE_END: u8 = b'\n';

const FIELDS: usize = 20;

const FIELD_NAMES: [&str; FIELDS] = [
    "owner",
    "kind",
    "cacheable",
    "entry",
    "physical",
    "free",
    "current",
    "call",
    "callA",
    "callB",
    "active",
    "mode",
    "lineAddress",
    "linePage",
    "history",
    "slotAddress",
    "slotPage",
    "memory",
    "line",
    "policy",
];

// What the places of a part are; a number is of a field.
#[derive(Clone, Copy)]
enum Form {
    Guest,
    Page,
    Physical,
    Entry,
    Way,
    Slot,
    StealthWay,
    StealthHistory,
    Number(u8),
}

// There is no rule 0.
const ROWS: usize = 12;

// What the places of each part of a rule are: docs/RULES.md, row by row.
const FORMS: [&[Form]; ROWS] = [
    &[],
    &[Form::Guest],
    &[Form::Page],
    &[Form::Physical, Form::Page],
    &[Form::Entry],
    &[Form::Guest],
    &[Form::Page],
    &[Form::Way],
    &[Form::Slot],
    &[Form::StealthWay, Form::StealthHistory],
    &[
        Form::Number(0),
        Form::Number(1),
        Form::Number(2),
        Form::Number(3),
        Form::Number(4),
        Form::Number(5),
        Form::Number(6),
        Form::Number(7),
        Form::Number(8),
        Form::Number(9),
        Form::Number(10),
        Form::Number(11),
        Form::Number(12),
        Form::Number(13),
        Form::Number(14),
        Form::Number(15),
        Form::Number(16),
        Form::Number(17),
        Form::Number(18),
        Form::Number(19),
        Form::Guest,
        Form::Way,
        Form::Slot,
    ],
    &[Form::Way],
];

fn row(rule: u8) -> &'static [Form]
    ensures { map form_from result.now ≡ get_or forms rule [] }
{
    FORMS.get(rule as usize).copied().unwrap_or(&[])
}

fn form_of(rule: u8, part: u8) -> Option<Form>
    ensures { form_or_none result ≡ form_of rule part }
{
    row(rule).get(part as usize).copied()
}

// Empty where there is no such field.
fn name(field: u8) -> &'static str
    ensures { result.now ≡ get_or field_names field [] }
{
    FIELD_NAMES.get(field as usize).copied().unwrap_or("")
}

// ---- the words for a place

// A word and a number.
#[tactic(auto, using(print::proofs::Pages::typing))]
fn counted(page: &mut Page, word: &str, n: u64)
    ensures { page.new ≡ typed_all_on page.old (word.now ++ decimal_of n) }
{
    page.text(word);
    page.number(n);
}

// Two words, each with its part of a number that counts by rows.
#[tactic(auto, using(print::proofs::Pages::typing))]
fn split(page: &mut Page, word: &str, other: &str, n: u64, by: u64)
    requires { 0 < by }
    ensures { page.new ≡ typed_all_on page.old (word.now ++ decimal_of (n / by) ++ other.now ++ decimal_of (n % by)) }
{
    counted(page, word, n / by);
    counted(page, other, n % by);
}

#[tactic(auto, using(print::proofs::Pages::typing), unfolding(crate::specs::Words::words_of))]
fn history_words(page: &mut Page)
    ensures { page.new ≡ typed_all_on page.old (words_of the_stealth_history 0) }
{
    counted(page, "set ", STEALTH_SET);
    page.text(" history");
}

// A field's name, and the place in the field.
#[tactic(auto, using(print::proofs::Pages::typing), unfolding(crate::specs::Words::words_of))]
fn number_words(page: &mut Page, field: u8, place: u64)
    ensures { page.new ≡ typed_all_on page.old (words_of (a_number field) place) }
{
    page.text(name(field));
    counted(page, " ", place);
}

#[tactic(auto, using(print::proofs::Pages::typing), unfolding(crate::specs::Words::words_of))]
fn place_words(page: &mut Page, f: Option<Form>, place: u16)
    ensures { page.new ≡ typed_all_on page.old (words_of (form_or_none f) place) }
{
    let n = place as u64;
    match f {
        Some(Form::Guest) => counted(page, "guest ", n),
        Some(Form::Page) => counted(page, "page ", n),
        Some(Form::Physical) => split(page, "guest ", " physical ", n, PHYSICALS),
        Some(Form::Entry) => split(page, "page ", " address ", n, ADDRESSES),
        Some(Form::Way) => split(page, "set ", " way ", n, WAYS),
        Some(Form::Slot) => counted(page, "slot ", n),
        Some(Form::StealthWay) => {
            counted(page, "set ", STEALTH_SET);
            counted(page, " way ", n);
        }
        Some(Form::StealthHistory) => history_words(page),
        Some(Form::Number(field)) => number_words(page, field, n),
        None => {}
    }
}

// ---- the lines

#[tactic(auto, using(print::proofs::Pages::typing))]
pub fn holds_line(page: &mut Page, rule: u8)
    ensures { page.new ≡ typed_all_on page.old (holds_line rule) }
{
    page.number(rule as u64);
    page.text(" holds");
    page.byte(LINE_END);
}

// The first broken place is that of this number in this part.
#[tactic(auto, using(print::proofs::Pages::typing))]
pub fn broken_line(page: &mut Page, rule: u8, part: u8, place: u16)
    ensures { page.new ≡ typed_all_on page.old (broken_line rule part place) }
{
    page.number(rule as u64);
    page.text(" broken ");
    place_words(page, form_of(rule, part), place);
    page.byte(LINE_END);
}
