// The words of an unescaped Exec.
ghost use Rattle.std.specs.Prelude.{◌≡◌, ◌+◌, ◌<◌, length, drop};
ghost use Rattle.base.specs.Lists.{span};
ghost use Rattle.command.specs.Words as spec;

// Where the next space stands, from a place on, or the end.
fn space_at(s: &[u8], from: usize) -> usize
    ensures { result ≡ from + span spec.not_space (drop from s.now) }
{
    characters::classes::past(s, from, |b| b != b' ')
}

// Where the word that begins at a place ends: at the next space that stands in no quotes.
pub fn word_end(s: &[u8], from: usize) -> usize
    requires { from < length s.now }
    ensures { result ≡ from + spec.word_length (drop from s.now) }
{
    if s[from] == b'"' {
        let closing = characters::classes::bare_end(s, from + 1, b'"');
        return space_at(s, closing);
    }
    space_at(s, from)
}
