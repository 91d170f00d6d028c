// The refusals of 01's table, each with its place. The variants stand in the order of their numbers.
#![tactic(auto)]

ghost use Rattle.std.specs.Prelude.{◌≡◌};
ghost use Rattle.fault.specs.Table.{number_of, place_of, byte_of};

#[derive(Clone, Copy)]
pub enum Fault {
    // A file over 32,768 bytes.
    TooLong,
    // A bad line, and the byte in it after which no ending makes it good.
    BadLine { line: usize, byte: usize },
    // An entry before any header, or a first header that is another; line 0 where there is no header at all.
    FirstGroup { line: usize },
    // A group that was there before.
    RepeatedGroup { line: usize },
    // A key with the same postfix that was there before in its group.
    RepeatedKey { line: usize },
    // A postfixed key without its plain key; line 0 in a set.
    NoPlainKey { line: usize },
    // A group, key or locale that is not of the form.
    BadArgument,
    // No such group, key or run.
    Missing,
    // An unknown or unfinished escape, at its backslash in the raw value.
    BadEscape { at: usize },
    // Text to set, list item or location that is unfit.
    UnfitText,
    // An output that is too small, or an edited file over its buffer or 32,768 bytes.
    NoRoom,
    // Nothing to undo or redo, no such record, or fewer edits than are to be forgotten.
    NothingLeft,
    // Standing and the new record over the journal's buffer or 65,536 bytes.
    JournalFull,
    // Lengths beyond their buffers, or a damaged journal or list.
    Damaged,
    // Exec badly written, at an offset in the unescaped value.
    BadExec { at: usize },
    // A wrong field code, at its `%` in the unescaped value.
    BadCode { at: usize },
    // A plain key whose postfixed keys remain.
    PostfixesRemain,
    // An entry that is not complete; line 0 for a missing key.
    Incomplete { line: usize },
}

// A refusal as the caller is told of it: its number and place in 01's table, and the byte in a bad line.
#[derive(Clone, Copy)]
pub struct Told {
    pub number: u32,
    pub place: usize,
    pub byte: usize,
}

// What the caller is told of a refusal.
pub fn tell(f: Fault) -> Told
    ensures { (result.number ≡ number_of f) × (result.place ≡ place_of f) × (result.byte ≡ byte_of f) }
{
    match f {
        Fault::TooLong => Told {
            number: 1,
            place: 0,
            byte: 0,
        },
        Fault::BadLine { line, byte } => Told {
            number: 2,
            place: line,
            byte: byte,
        },
        Fault::FirstGroup { line } => Told {
            number: 3,
            place: line,
            byte: 0,
        },
        Fault::RepeatedGroup { line } => Told {
            number: 4,
            place: line,
            byte: 0,
        },
        Fault::RepeatedKey { line } => Told {
            number: 5,
            place: line,
            byte: 0,
        },
        Fault::NoPlainKey { line } => Told {
            number: 6,
            place: line,
            byte: 0,
        },
        Fault::BadArgument => Told {
            number: 7,
            place: 0,
            byte: 0,
        },
        Fault::Missing => Told {
            number: 8,
            place: 0,
            byte: 0,
        },
        Fault::BadEscape { at } => Told {
            number: 9,
            place: at,
            byte: 0,
        },
        Fault::UnfitText => Told {
            number: 10,
            place: 0,
            byte: 0,
        },
        Fault::NoRoom => Told {
            number: 11,
            place: 0,
            byte: 0,
        },
        Fault::NothingLeft => Told {
            number: 12,
            place: 0,
            byte: 0,
        },
        Fault::JournalFull => Told {
            number: 13,
            place: 0,
            byte: 0,
        },
        Fault::Damaged => Told {
            number: 14,
            place: 0,
            byte: 0,
        },
        Fault::BadExec { at } => Told {
            number: 15,
            place: at,
            byte: 0,
        },
        Fault::BadCode { at } => Told {
            number: 16,
            place: at,
            byte: 0,
        },
        Fault::PostfixesRemain => Told {
            number: 17,
            place: 0,
            byte: 0,
        },
        Fault::Incomplete { line } => Told {
            number: 18,
            place: line,
            byte: 0,
        },
    }
}
