// Merge keys, and merge values that add nothing.
ghost use Rattle.std.specs.Prelude.{◌≡◌};
ghost use Rattle.events.specs.View.{view_of};
ghost use Rattle.fingerprints.specs.Views.{merge_key, merge_over, null_value};

use events::ev::Ev;
use records::record::ScalarStyle;
use records::tags::SfTag;
use scalars::typed::Scalar;

fn is_merge_key(scalar: Scalar) -> bool
    ensures { result ≡ merge_over scalar.entry.value.now scalar.entry.tag scalar.entry.style }
{
    scalar.value == b"<<".as_slice()
        && matches!(
            (scalar.tag, scalar.style),
            (SfTag::Merge, _) | (SfTag::None, ScalarStyle::Plain)
        )
}

/// Whether an event is a merge key: the text `<<` under the merge tag, or plain with no tag.
pub fn is_merge_key_event(ev: Ev) -> bool
    ensures { result ≡ merge_key (view_of ev.entry) }
{
    Scalar::of(ev).is_some_and(is_merge_key)
}

/// Whether an event is a null: tagged so, or plain with a null text under a tag that leaves it to be read.
pub fn is_null_event(ev: Ev) -> bool
    ensures { result ≡ null_value (view_of ev.entry) }
{
    Scalar::of(ev).is_some_and(Scalar::is_null)
}
