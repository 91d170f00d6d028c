// The forms of group, key and locale arguments.
ghost use Rattle.std.specs.Prelude.{◌≡◌};
ghost use Rattle.base.specs.Lists.{all};
ghost use Rattle.characters.specs.Class.{member};
ghost use Rattle.line.specs.Form as spec;

use characters::Class;

// Whether all bytes are of a class.
fn all_in(s: &[u8], k: Class) -> bool
    ensures { result ≡ all (member k) s.now }
{
    characters::classes::span_end(s, 0, k) == s.len()
}

// A group argument: one byte or more of a group's name.
pub fn is_group(g: &[u8]) -> bool
    ensures { result ≡ spec.group_form g.now }
{
    !g.is_empty() && all_in(g, Class::Group)
}

// A plain key argument.
pub fn is_plain(k: &[u8]) -> bool
    ensures { result ≡ spec.plain_form k.now }
{
    !k.is_empty() && all_in(k, Class::Key)
}

// A key argument, perhaps with a postfix.
pub fn is_key(k: &[u8]) -> bool
    ensures { result ≡ spec.key_form k.now }
{
    crate::read_name(k).is_ok_and(|n| n.name == k.len())
}

// A locale argument: empty, or a locale.
pub fn is_locale(s: &[u8]) -> bool
    ensures { result ≡ spec.locale_form s.now }
{
    s.is_empty() || crate::locale_at(s).is_ok_and(|n| n == s.len())
}
