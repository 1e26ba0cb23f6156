// Names for the scopes, as octets: whether they are a section of names, where it ends, and which name is sent. Nothing is copied: a name is
// shown as the part of the lent octets in which it stands. The scope reader (`scope_end`) calls the name reader (`scope_names_end`), which
// goes back to it for the next scope; they take one turn a scope, so that a walk is never deeper than twice the 255 that a count can say.
#![tactic(auto)]

ghost use Rattle.std.specs.Prelude.{[], ◌≡◌, ◌↔◌, IsTrue, Bool, true, ℕ, ◌+◌, ◌<◌, ◌≤◌, length, get_or, option_copied, Some};
ghost use Rattle.lists.specs.Pick.{pick};
ghost use Rattle.format.specs.Format.{times};
ghost use Rattle.format.specs.Place.{Ends, Leads};
ghost use Rattle.names.specs.Names.{Name, NameEnds, HasTag, Tells, Sized, list_format, scopes_format, names_format, names_b, name_at, in_language, first_by, names_in, list_in, sent_for, shown, shown_if, default_of, chosen_of, Begins, IsList};

use message::Language;

fn sizes_ok(flags: u8, tag: usize, text: usize) -> bool
    ensures { IsTrue result ↔ Sized flags tag text }
{
    matches!((flags, tag, text), (0 | 128, 1..=8, 1..=32))
}

// ---- where names end

// Where the name that starts at a place ends.
fn name_end(s: &[u8], at: usize) -> Option<usize>
    requires { at ≤ length s.now }
    ensures { NameEnds s.now at result }
{
    let left = s.len() - at;
    if left < 2 {
        return None;
    }
    let n = usize::from(s[at + 1]);
    if left < n + 3 {
        return None;
    }
    let k = usize::from(s[at + (n + 2)]);
    if left < n + 3 + k {
        return None;
    }
    if sizes_ok(s[at], n, k) {
        return Some(at + (n + 3 + k));
    }
    None
}

// Where n values in a row end, the first of which starts at a place: each starts where the one before it ends.
fn row_end<F: Fn(usize) -> Option<usize>>(at: usize, n: usize, end: F) -> Option<usize>
    requires first { F.pre end at }
    requires next { (here next : ℕ) → F.pre end here → F.post end here (Some next) → F.pre end next }
    ensures { Leads (F.post end) n at result }
{
    let mut here = at;
    for _ in 0..n {
        here = end(here)?;
    }
    Some(here)
}

// Where a list ends: a count, at most four, and that many names.
fn list_end(s: &[u8], at: usize) -> Option<usize>
    requires { at ≤ length s.now }
    ensures { Ends list_format s.now at 1 result }
{
    if s.len() <= at {
        return None;
    }
    let k = usize::from(s[at]);
    if 4 < k {
        return None;
    }
    row_end(at + 1, k, |here| name_end(s, here))
}

// Where n lists in a row end.
fn lists_end(s: &[u8], at: usize, n: usize) -> Option<usize>
    requires { at ≤ length s.now }
    ensures { Ends (times n list_format) s.now at n result }
{
    row_end(at, n, |here| list_end(s, here))
}

// The scope reader: where the names of k scopes, of n lists each, end.
// Stays: document 02 has the two readers call one another (docs/DECISIONS.md), so that they are no loop.
#[cycle(scope_end_scope_names_end)]
fn scope_end(s: &[u8], at: usize, k: usize, n: usize) -> Option<usize>
    requires { (at ≤ length s.now) × (0 < n) }
    ensures { Ends (scopes_format k n) s.now at 0 result }
{
    if k == 0 {
        return Some(at);
    }
    scope_names_end(s, at, k, n)
}

// The name reader: the lists of the first of k scopes, and then back for the next scope.
#[cycle(scope_end_scope_names_end)]
fn scope_names_end(s: &[u8], at: usize, k: usize, n: usize) -> Option<usize>
    requires { ((at ≤ length s.now) × (0 < n)) × (0 < k) }
    ensures { Ends (scopes_format k n) s.now at 0 result }
{
    let next = lists_end(s, at, n)?;
    scope_end(s, next, k - 1, n)
}

// Where the section of names that starts at a place ends: its count is that of the scopes. Counts are as they are written, sound or not.
pub fn section_end(s: &[u8], at: usize, scopes: u8, tenants: u8) -> Option<usize>
    requires { at ≤ length s.now }
    ensures { Ends (names_format scopes tenants) s.now at 1 result }
{
    if s.len() <= at || s[at] != scopes {
        return None;
    }
    scope_end(s, at + 1, usize::from(scopes), usize::from(tenants) + 1)
}

// Whether octets are a section of names and nothing more.
pub fn good(s: &[u8], scopes: u8, tenants: u8) -> bool
    ensures { result ≡ names_b scopes tenants s.now }
{
    section_end(s, 0, scopes, tenants) == Some(s.len())
}

// ---- the name that is sent

// Whether the tag of the name at a place is the language: lengths first, so that a language of nine octets or more is none's.
fn in_language(s: &[u8], at: usize, language: Language) -> bool
    requires { HasTag s.now at (length s.now) }
    ensures { result ≡ in_language language (name_at s.now at) }
{
    let n = usize::from(s[at + 1]);
    n == language.len && s[at + 2..at + 2 + n] == language.octets[..n]
}

// The first name of a list that is wanted, as the part of the list in which it stands. `wanted` is asked of the place of a name.
fn first_name<F: Fn(usize) -> bool>(list: &[u8], wanted: F) -> Option<&[u8]>
    requires list { IsList list.now (names_in list.now) }
    requires wanted { (at : ℕ) → HasTag list.now at (length list.now) → F.pre wanted at }
    ensures { (t : Name → Bool) → Tells (F.post wanted) list.now t → option_copied result ≡ shown_if (first_by t (names_in list.now)) }
{
    let mut here: usize = 1;
    for _ in 0..list[0] {
        let next = name_end(list, here)?;
        if wanted(here) {
            return Some(&list[here..next]);
        }
        here = next;
    }
    None
}

// The first name of a list that is in the language, if one is asked for.
fn first_match(list: &[u8], language: Language) -> Option<&[u8]>
    requires { IsList list.now (names_in list.now) }
    ensures { option_copied result ≡ shown_if (pick language.asked (first_by (in_language language) (names_in list.now)) []) }
{
    if !language.asked {
        return None;
    }
    first_name(list, |at| in_language(list, at, language))
}

fn default_name(campus: &[u8]) -> Option<&[u8]>
    requires { IsList campus.now (names_in campus.now) }
    ensures { option_copied result ≡ shown_if (default_of (names_in campus.now)) }
{
    first_name(campus, |at| campus[at] == 128).or_else(|| first_name(campus, |_| true))
}

// The name that is sent for a scope: a part of the house's own list, or of the campus list.
pub fn chosen<'a>(own: &'a [u8], campus: &'a [u8], language: Language) -> &'a [u8]
    requires { IsList own.now (names_in own.now) × IsList campus.now (names_in campus.now) }
    ensures { result.now ≡ shown (chosen_of language (names_in own.now) (names_in campus.now)) }
{
    first_match(own, language)
        .or_else(|| first_match(campus, language))
        .or_else(|| default_name(campus))
        .unwrap_or(&[])
}

// ---- the lists of a section

// Where list j of the scope at a place begins.
fn list_start(names: &[u8], tenants: u8, place: usize, j: usize) -> usize
    requires { (names_b (get_or names.now 0 0) tenants names.now ≡ true) × ((place < get_or names.now 0 0) × (j ≤ tenants)) }
    ensures { Begins list_format names.now result (list_in tenants names.now place j) }
{
    let n = usize::from(tenants) + 1;
    let scope = row_end(1, place, |at| lists_end(names, at, n)).unwrap();
    row_end(scope, j, |at| list_end(names, at)).unwrap()
}

// List j of the scope at a place, as a part of the section: 0 is the campus list, j that of the house with number j.
fn list_part(names: &[u8], tenants: u8, place: usize, j: usize) -> &[u8]
    requires { (names_b (get_or names.now 0 0) tenants names.now ≡ true) × ((place < get_or names.now 0 0) × (j ≤ tenants)) }
    ensures { IsList result.now (list_in tenants names.now place j) }
{
    let here = list_start(names, tenants, place, j);
    let next = list_end(names, here).unwrap();
    &names[here..next]
}

// The name to be sent to a tenant for the scope at a place, as a part of the section of names; empty where there is none.
pub fn for_scope(
    names: &[u8],
    tenants: u8,
    tenant: usize,
    place: usize,
    language: Language,
) -> &[u8]
    requires { (names_b (get_or names.now 0 0) tenants names.now ≡ true) × ((place < get_or names.now 0 0) × (tenant < tenants)) }
    ensures { result.now ≡ shown (sent_for tenants names.now tenant place language) }
{
    let own = list_part(names, tenants, place, tenant + 1);
    let campus = list_part(names, tenants, place, 0);
    chosen(own, campus, language)
}
