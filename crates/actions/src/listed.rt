// Which actions are listed. An identifier in key form has no escapes, so it is compared where it stands in the raw list.
ghost use Rattle.std.specs.Prelude.{◌≡◌, true, ◌&&◌, ◌≤◌, length};
ghost use Rattle.base.specs.Lists.{same, part, any};
ghost use Rattle.rows.specs.Rows.{read_rows};
ghost use Rattle.rows.specs.Find.{none_bad};
ghost use Rattle.actions.specs.Actions.{actions_value, is_action};
ghost use Rattle.actions.specs.Step.{elements, group_if, is_listed_at};

// The raw value of the list Actions; empty without one.
pub fn value(file: &[u8]) -> &[u8]
    requires { none_bad file.now ≡ true }
    ensures { result.now ≡ actions_value (read_rows file.now) }
{
    let Some(row) = rows::find_key(file, b"Desktop Entry", b"Actions") else {
        return &file[..0];
    };
    &file[row.value..row.end]
}

// Whether bytes are an element of a raw list.
fn is_element(raw: &[u8], id: &[u8]) -> bool
    ensures { result ≡ any (same id.now) (elements raw.now) }
{
    let mut i: usize = 0;
    while i < raw.len() {
        let e = characters::classes::bare_end(raw, i, b';');
        if id == &raw[i..e] {
            return true;
        }
        i = e + 1;
    }
    false
}

// The name of an action's group, as its header has it; empty for an identifier that is no action's.
fn group_of<'a, 'b>(file: &'a [u8], id: &'b [u8]) -> &'a [u8]
    requires { none_bad file.now ≡ true }
    ensures { result.now ≡ group_if (is_action (read_rows file.now) id.now) id.now }
{
    if !line::form::is_plain(id) {
        return &file[..0];
    }
    let Some(row) = rows::find_group(file, b"Desktop Action ", id) else {
        return &file[..0];
    };
    let group = &file[row.start + 1..row.end - 1];
    if rows::find_key(file, group, b"Name").is_some() {
        return group;
    }
    &file[..0]
}

// The group of the element from i to e of a raw list, if it is listed there: an action's that is not an element before; else empty.
pub fn group_at<'a, 'b>(file: &'a [u8], raw: &'b [u8], i: usize, e: usize) -> &'a [u8]
    requires { (none_bad file.now ≡ true) × (i ≤ e) × (e ≤ length raw.now) }
    ensures { result.now ≡ group_if (is_listed_at (read_rows file.now) raw.now i e) (part i e raw.now) }
{
    let group = group_of(file, &raw[i..e]);
    if group.len() == 0 {
        return group;
    }
    if is_element(&raw[..i], &raw[i..e]) {
        return &file[..0];
    }
    group
}

// The group of an action, if it is listed; else empty.
pub fn group_asked<'a, 'b, 'c>(file: &'a [u8], raw: &'b [u8], action: &'c [u8]) -> &'a [u8]
    requires { none_bad file.now ≡ true }
    ensures { result.now ≡ group_if (any (same action.now) (elements raw.now) && is_action (read_rows file.now) action.now) action.now }
{
    if is_element(raw, action) {
        return group_of(file, action);
    }
    &file[..0]
}
