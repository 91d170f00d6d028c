// The C interface: one exported function for each public call. include/kveldrim.h documents it.
#![tactic(auto)]

mod edits; // edits.rt: the calls that edit

ghost use Rattle.std.specs.Prelude.{◌≡◌};
ghost use Rattle.text.specs.Escape.{read_text, write_text};
ghost use Rattle.text.specs.Element.{read_elements};
ghost use Rattle.text.specs.Output.{written_length, held};
ghost use Rattle.exec.specs.Expand.{expand};
ghost use Rattle.actions.specs.Actions.{actions, expand_action};
ghost use Rattle.entry.specs.Lookup as lookup;
ghost use Rattle.entry.specs.Choose.{choose};
ghost use Rattle.entry.specs.Complete.{complete};
ghost use Rattle.wellformed.specs.Check as check;
ghost use Rattle.abi.specs.Abi.{abi, Returned, ReturnedNumber, ReturnedEnds};

const ABI: u32 = 5;

#[unsafe(no_mangle)]
pub extern "C" fn kveldrim_abi() -> u32
    ensures { result ≡ abi }
{
    ABI
}

#[unsafe(no_mangle)]
pub extern "C" fn kveldrim_check(file: &[u8], place: &mut u64, byte: &mut u64) -> u32
    ensures { Returned (check.check file.now) result place.new byte.new }
{
    abi::tell_checked(wellformed::check(file), place, byte)
}

#[unsafe(no_mangle)]
pub extern "C" fn kveldrim_complete(file: &[u8], place: &mut u64, byte: &mut u64) -> u32
    ensures { Returned (complete file.now) result place.new byte.new }
{
    abi::tell_checked(entry::is_complete(file), place, byte)
}

#[unsafe(no_mangle)]
pub extern "C" fn kveldrim_lookup(
    file: &[u8],
    group: &[u8],
    key: &[u8],
    place: &mut u64,
    byte: &mut u64,
    from: &mut u64,
    to: &mut u64,
) -> u32
    ensures { ReturnedEnds (lookup.lookup file.now group.now key.now)
        result place.new byte.new from.old from.new to.old to.new }
{
    abi::tell_ends(entry::lookup_ends(file, group, key), place, byte, from, to)
}

#[unsafe(no_mangle)]
pub extern "C" fn kveldrim_choose(
    file: &[u8],
    group: &[u8],
    key: &[u8],
    locale: &[u8],
    place: &mut u64,
    byte: &mut u64,
    from: &mut u64,
    to: &mut u64,
) -> u32
    ensures { ReturnedEnds (choose file.now group.now key.now locale.now)
        result place.new byte.new from.old from.new to.old to.new }
{
    abi::tell_ends(
        entry::choose_ends(file, group, key, locale),
        place,
        byte,
        from,
        to,
    )
}

#[unsafe(no_mangle)]
pub extern "C" fn kveldrim_read_text(
    raw: &[u8],
    out: &mut [u8],
    place: &mut u64,
    written: &mut u64,
) -> u32
    ensures told { ReturnedNumber (written_length (read_text raw.now) out.old)
        result place.new 0 written.old written.new }
    ensures output { out.new ≡ held (read_text raw.now) out.old }
{
    let mut byte = 0;
    abi::tell_written(text::read_text(raw, out), place, &mut byte, written)
}

#[unsafe(no_mangle)]
pub extern "C" fn kveldrim_write_text(
    text: &[u8],
    out: &mut [u8],
    place: &mut u64,
    written: &mut u64,
) -> u32
    ensures told { ReturnedNumber (written_length (write_text text.now) out.old)
        result place.new 0 written.old written.new }
    ensures output { out.new ≡ held (write_text text.now) out.old }
{
    let mut byte = 0;
    abi::tell_written(text::write_text(text, out), place, &mut byte, written)
}

#[unsafe(no_mangle)]
pub extern "C" fn kveldrim_read_list(
    raw: &[u8],
    out: &mut [u8],
    place: &mut u64,
    written: &mut u64,
) -> u32
    ensures told { ReturnedNumber (written_length (read_elements raw.now) out.old)
        result place.new 0 written.old written.new }
    ensures output { out.new ≡ held (read_elements raw.now) out.old }
{
    let mut byte = 0;
    abi::tell_written(text::read_list(raw, out), place, &mut byte, written)
}

#[unsafe(no_mangle)]
pub extern "C" fn kveldrim_expand(
    file: &[u8],
    locale: &[u8],
    location: &[u8],
    list: &[u8],
    run: u64,
    out: &mut [u8],
    place: &mut u64,
    byte: &mut u64,
    written: &mut u64,
) -> u32
    ensures told { ReturnedNumber (written_length (expand file.now locale.now location.now list.now run) out.old)
        result place.new byte.new written.old written.new }
    ensures output { out.new ≡ held (expand file.now locale.now location.now list.now run) out.old }
{
    let n = run as usize;
    abi::tell_written(
        exec::expand(file, locale, location, list, n, out),
        place,
        byte,
        written,
    )
}

#[unsafe(no_mangle)]
pub extern "C" fn kveldrim_actions(
    file: &[u8],
    locale: &[u8],
    out: &mut [u8],
    place: &mut u64,
    byte: &mut u64,
    written: &mut u64,
) -> u32
    ensures told { ReturnedNumber (written_length (actions file.now locale.now) out.old)
        result place.new byte.new written.old written.new }
    ensures output { out.new ≡ held (actions file.now locale.now) out.old }
{
    abi::tell_written(actions::actions(file, locale, out), place, byte, written)
}

#[unsafe(no_mangle)]
pub extern "C" fn kveldrim_expand_action(
    file: &[u8],
    action: &[u8],
    locale: &[u8],
    location: &[u8],
    list: &[u8],
    run: u64,
    out: &mut [u8],
    place: &mut u64,
    byte: &mut u64,
    written: &mut u64,
) -> u32
    ensures told { ReturnedNumber (written_length (expand_action file.now action.now locale.now location.now list.now run) out.old)
        result place.new byte.new written.old written.new }
    ensures output { out.new ≡ held (expand_action file.now action.now locale.now location.now list.now run) out.old }
{
    let n = run as usize;
    abi::tell_written(
        actions::expand_action(file, action, locale, location, list, n, out),
        place,
        byte,
        written,
    )
}
