// Choice of language: the row of a key that a locale takes, in one pass over the file. A key's rank is its place among those that a locale asks for, the
// best first: 0 lang_COUNTRY@MODIFIER, 1 lang_COUNTRY, 2 lang@MODIFIER, 3 lang, 4 the plain key; 5: it is none of them. Encodings do not count.
#![tactic(auto)]

ghost use Rattle.std.specs.Prelude.{◌≡◌, true, [], ◌∷◌, length, take};
ghost use Rattle.base.specs.Lists as lists;
ghost use Rattle.characters.specs.Class.{key_byte};
ghost use Rattle.line.specs.Form.{plain_form, locale_form};
ghost use Rattle.line.specs.Locale.{parts};
ghost use Rattle.line.specs.Name.{read_name};
ghost use Rattle.rows.specs.Rows.{read_rows};
ghost use Rattle.rows.specs.Find.{none_bad, found_of};
ghost use Rattle.choice.specs.Locale as spec;
ghost use Rattle.choice.specs.Step as step;

use line::Parts;
use rows::{Lines, Row};

// Whether a locale without country, encoding and modifier means the plain key.
fn is_plain_lang(s: &[u8]) -> bool
    ensures { result ≡ lists.any (lists.same s.now) spec.plain_locales }
{
    s.is_empty() || s == b"C".as_slice() || s == b"POSIX".as_slice()
}

// Whether a locale of these parts means the plain key.
fn is_plain(locale: &[u8], p: Parts) -> bool
    requires { (locale_form locale.now ≡ true) × (p ≡ parts locale.now) }
    ensures { result ≡ spec.plain_locale locale.now }
{
    if p.country == 0 {
        if p.modifier == 0 {
            let lang = p.lang;
            return is_plain_lang(&locale[..lang]);
        }
    }
    false
}

// How a part of a postfix serves where one is asked for: 0 it is the same, 1 there is none, 4 it is another.
fn rank_part(asked: &[u8], has: &[u8]) -> usize
    ensures { result ≡ step.rank_part asked.now has.now }
{
    if asked == has {
        return 0;
    }
    if has.is_empty() {
        return 1;
    }
    4
}

// The rank of a key by its postfix behind the `[`, for a locale of these parts. a and b end the countries, d and e the encodings; z is the `]`.
fn rank_postfix(s: &[u8], locale: &[u8], p: Parts) -> usize
    requires { step.Closed s.now × (locale_form locale.now ≡ true) × (p ≡ parts locale.now) }
    ensures { result ≡ step.rank_in (step.all_keys [] locale.now) (91 ∷ spec.stripped s.now) }
{
    let q = line::read_parts(s);
    let lang = q.lang;
    let asked = p.lang;
    if &locale[..asked] == &s[..lang] {
        let a = asked + p.country;
        let b = lang + q.country;
        let c = rank_part(&locale[asked..a], &s[lang..b]);
        let d = a + p.encoding;
        let e = b + q.encoding;
        let z = s.len() - 1;
        let m = rank_part(&locale[d..], &s[e..z]);
        let r = 2 * c + m;
        if r < 4 {
            return r;
        }
        return 5;
    }
    5
}

// The rank of the key of a line that begins with the plain key, for a locale of these parts.
fn rank(l: &[u8], key: &[u8], locale: &[u8], p: Parts) -> usize
    requires { (lists.all key_byte key.now ≡ true) × (locale_form locale.now ≡ true) × (p ≡ parts locale.now)
        × (lists.same key.now (take (length key.now) l.now) ≡ true) }
    ensures { result ≡ step.rank_of (step.all_keys key.now locale.now) l.now (read_name l.now) }
{
    let Ok(n) = line::read_name(l) else {
        return 5;
    };
    if n.key != key.len() {
        return 5;
    }
    if n.name == n.key {
        return 4;
    }
    rank_postfix(&l[n.key + 1..n.name], locale, p)
}

// The first row of the best rank, in a file without bad lines. A row behind it counts only where it is better.
fn find_best(file: &[u8], group: &[u8], key: &[u8], locale: &[u8], p: Parts) -> Option<Row>
    requires { (none_bad file.now ≡ true) × (lists.all key_byte key.now ≡ true) × (locale_form locale.now ≡ true) × (p ≡ parts locale.now) }
    ensures { result ≡ found_of (spec.first_key (read_rows file.now) group.now (step.all_keys key.now locale.now)) }
{
    let mut inside = group.is_empty();
    let mut best: usize = 5;
    let mut found = None;
    for row in Lines::new(file) {
        let l = row.bytes;
        inside = rows::is_inside(l, group, inside);
        if inside {
            if rows::begins(l, key) {
                let r = rank(l, key, locale, p);
                if r < best {
                    best = r;
                    found = Some(Row {
                        line: row.number,
                        start: row.start,
                        end: row.end,
                        value: row.start + rows::value_start(l),
                    });
                }
            }
        }
        if best == 0 {
            return found;
        }
    }
    found
}

// The row of the first present candidate, last the plain key, in a file without bad lines.
pub fn choose_row(file: &[u8], group: &[u8], key: &[u8], locale: &[u8]) -> Option<Row>
    requires { (none_bad file.now ≡ true) × (plain_form key.now ≡ true) × (locale_form locale.now ≡ true) }
    ensures { result ≡ found_of (spec.chosen (read_rows file.now) group.now key.now locale.now) }
{
    let p = line::read_parts(locale);
    if is_plain(locale, p) {
        return rows::find_key(file, group, key);
    }
    find_best(file, group, key, locale, p)
}
