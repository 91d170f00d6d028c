// What an expansion is asked: its list of items and its location.
ghost use Rattle.std.specs.Prelude.{◌≡◌, true};
ghost use Rattle.base.specs.Bounds.{list_most};
ghost use Rattle.base.specs.Choice.{there};
ghost use Rattle.base.specs.Lists.{all};
ghost use Rattle.record.specs.Record.{read_list};
ghost use Rattle.exec.specs.Expand as spec;
ghost use Rattle.run.specs.Step.{items_in};

use record::{Front, HEAD};

// Whether no byte is zero.
fn no_zero(s: &[u8]) -> bool
    ensures { result ≡ spec.no_zero s.now }
{
    !s.contains(&0)
}

// A list item that is fit.
#[tactic(auto, unfolding(crate::specs::Expand::fit_item))]
fn is_fit_item(s: &[u8]) -> bool
    ensures { result ≡ spec.fit_item s.now }
{
    !s.is_empty() && no_zero(s)
}

// A location that is fit.
#[tactic(auto, unfolding(crate::specs::Expand::fit_location))]
pub fn is_fit_location(s: &[u8]) -> bool
    ensures { result ≡ spec.fit_location s.now }
{
    s.len() <= base::LOCATION_MOST && no_zero(s)
}

// Whether all items of a list are fit.
pub fn are_fit(list: &[u8]) -> bool
    requires { there (read_list 2 list_most list.now) ≡ true }
    ensures { result ≡ all spec.fit_item (items_in list.now) }
{
    let mut from: usize = 0;
    while from < list.len() {
        let Some(Front { end, .. }) = record::read(list, from) else {
            return false;
        };
        let body = from + HEAD;
        if is_fit_item(&list[body..end]) {
            from = end;
        } else {
            return false;
        }
    }
    true
}
