// What scalars and recursive aliases count as when keys are compared.
ghost use Rattle.std.specs.Prelude.{◌≡◌, ◌&&◌, option_copied};
ghost use Rattle.scalars.specs.Typed.{plain};
ghost use Rattle.scalars.specs.Computed.{null_text};
ghost use Rattle.nodes.specs.Prints.{untagged};
ghost use Rattle.nodes.specs.Alike.{same_leaf};
ghost use Rattle.fingerprints.specs.Stands.{canon_of, stands_for};
ghost use Rattle.fingerprints.specs.Bytes.{tag_over, leaf_over};

use crate::tag::{CanonicalKeyTag, WrittenTag};
use records::record::ScalarStyle;
use records::tags::SfTag;
use scalars::nulls::scalar_is_nullish;
use scalars::typed::Scalar;

/// An alias to a node that is still open, an integer by its value, or another scalar by its bytes and its tag.
// Sign and magnitude, as an integer is read by a rule of the project; both are always there, so neither makes the other
// valid.
#[derive(Clone, Copy, PartialEq, Eq, Debug)]
pub enum KeyLeaf<'t> {
    RecursiveAlias {
        anchor: u32,
    },
    Integer {
        negative: bool,
        magnitude: u64,
    },
    Scalar {
        value: &'t [u8],
        tag: CanonicalKeyTag<'t>,
    },
}

fn is_implicit_null(scalar: Scalar) -> bool
    ensures { result ≡ (untagged scalar.entry.tag && (plain scalar.entry.style && null_text scalar.entry.value.now)) }
{
    matches!(
        (scalar.tag, scalar.style),
        (SfTag::None, ScalarStyle::Plain)
    ) && scalar_is_nullish(scalar.value)
}

fn scalar_tag<'t>(scalar: Scalar, raw: Option<&'t [u8]>) -> CanonicalKeyTag<'t>
    ensures { canon_of result ≡ tag_over scalar.entry.value.now scalar.entry.tag (option_copied raw.entry) scalar.entry.style }
{
    if is_implicit_null(scalar) {
        CanonicalKeyTag::Semantic(SfTag::Null)
    } else {
        let tag = scalar.tag;
        WrittenTag { tag, raw }.canonical_scalar_key_tag()
    }
}

/// What a scalar counts as, its tag written as `raw` where it is: an integer by its value, another by its bytes and tag.
pub fn scalar_leaf<'t>(scalar: Scalar<'t>, raw: Option<&'t [u8]>) -> KeyLeaf<'t>
    ensures { stands_for result ≡ leaf_over scalar.entry.value.now scalar.entry.tag (option_copied raw.entry) scalar.entry.style }
{
    match scalar.integer() {
        Some((negative, magnitude)) => KeyLeaf::Integer {
            negative,
            magnitude,
        },
        None => KeyLeaf::Scalar {
            value: scalar.value,
            tag: scalar_tag(scalar, raw),
        },
    }
}

/// Whether two scalars or recursive aliases count as the same.
// A function over `==`, since callers go by the theory's `same_leaf`, which knows no bytes.
pub fn same_leaves(a: KeyLeaf, b: KeyLeaf) -> bool
    ensures { result ≡ same_leaf (stands_for a.entry) (stands_for b.entry) }
{
    a == b
}
