// Text in raw values: escapes and value lists.
#![tactic(auto)]

pub mod escape; // escape.rt: text from raw bytes and back
pub mod list; // list.rt: the elements of a value list

ghost use Rattle.std.specs.Prelude.{◌≡◌};
ghost use Rattle.text.specs.Escape.{read_text, write_text};
ghost use Rattle.text.specs.Element.{read_elements};
ghost use Rattle.text.specs.Output.{written_length, held};
ghost use Rattle.text.specs.Step as step;

use characters::{Content, utf8};
use fault::Fault;

// Which escapes are known: those of text, or those of a list's element.
#[derive(Clone, Copy)]
pub enum Escapes {
    Text,
    List,
}

// The first byte of a text, and how many raw bytes it takes.
#[derive(Clone, Copy)]
pub struct Decoded {
    pub byte: u8,
    pub width: usize,
}

// The room left after n bytes; none where it is too short.
#[tactic(auto, unfolding(crate::specs::Step::spend))]
pub fn spend(left: Option<usize>, n: usize) -> Option<usize>
    ensures { result ≡ step.spend left n }
{
    left?.checked_sub(n)
}

// The text of a raw value, and how many bytes of the output it takes: 9, then 11.
pub fn read_text(raw: &[u8], out: &mut [u8]) -> Result<usize, Fault>
    ensures answer { result ≡ written_length (read_text raw.now) out.old }
    ensures output { out.new ≡ held (read_text raw.now) out.old }
{
    let n = escape::text_length(raw, Escapes::Text)?;
    if out.len() < n {
        return Err(Fault::NoRoom);
    }
    Ok(escape::unescape(raw, Escapes::Text, out))
}

// The raw value of a text, and how many bytes of the output it takes: 10, then 11.
pub fn write_text(text: &[u8], out: &mut [u8]) -> Result<usize, Fault>
    ensures answer { result ≡ written_length (write_text text.now) out.old }
    ensures output { out.new ≡ held (write_text text.now) out.old }
{
    match utf8::scan(text, Content::Text) {
        Some(_) => Err(Fault::UnfitText),
        None => {
            let size = escape::raw_length(text);
            if out.len() < size {
                return Err(Fault::NoRoom);
            }
            Ok(escape::write_raw(text, out))
        }
    }
}

// The elements of a raw value as records of kind 2, and how many bytes of the output they take: 9, then 11.
pub fn read_list(raw: &[u8], out: &mut [u8]) -> Result<usize, Fault>
    ensures answer { result ≡ written_length (read_elements raw.now) out.old }
    ensures output { out.new ≡ held (read_elements raw.now) out.old }
{
    match list::room_after(raw, out.len())? {
        None => Err(Fault::NoRoom),
        Some(_) => Ok(list::write(raw, out)),
    }
}
