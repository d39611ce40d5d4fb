// What tags count as when keys are compared.
ghost use Rattle.std.specs.Prelude.{◌≡◌, option_copied};
ghost use Rattle.nodes.specs.Prints.{known_or, scalar_tag, container_tag, local_map, mapping_tag};
ghost use Rattle.nodes.specs.Alike.{same_canon};
ghost use Rattle.fingerprints.specs.Stands.{canon_of};

use records::tags::SfTag;

/// A tag that the reader knows, or another one as it is written.
#[derive(Clone, Copy, PartialEq, Eq, Debug)]
pub enum CanonicalKeyTag<'t> {
    Semantic(SfTag),
    Custom(&'t [u8]),
}

/// A tag, and how it is written where it is.
#[derive(Clone, Copy, PartialEq, Eq, Debug)]
pub struct WrittenTag<'t> {
    pub tag: SfTag,
    pub raw: Option<&'t [u8]>,
}

impl<'t> WrittenTag<'t> {
    fn written_or(self, tag: SfTag) -> CanonicalKeyTag<'t>
        ensures { canon_of result ≡ known_or tag (option_copied self.entry.raw) }
    {
        self.raw
            .map_or(CanonicalKeyTag::Semantic(tag), CanonicalKeyTag::Custom)
    }

    fn is_local_map(self) -> bool
        ensures { result ≡ local_map self.entry.tag (option_copied self.entry.raw) }
    {
        self.tag == SfTag::Map && self.raw == Some(b"!map".as_slice())
    }

    /// The tag of a scalar: what may be read as text is text, and an unknown tag counts as it is written.
    pub fn canonical_scalar_key_tag(self) -> CanonicalKeyTag<'t>
        ensures { canon_of result ≡ scalar_tag self.entry.tag (option_copied self.entry.raw) }
    {
        match self.tag {
            SfTag::Other => self.written_or(SfTag::String),
            tag if tag.can_parse_into_string() => CanonicalKeyTag::Semantic(SfTag::String),
            tag => CanonicalKeyTag::Semantic(tag),
        }
    }

    /// The tag of a container, which is `implicit` where it has none.
    pub fn canonical_container_key_tag(self, implicit: SfTag) -> CanonicalKeyTag<'t>
        ensures { canon_of result ≡ container_tag implicit self.entry.tag (option_copied self.entry.raw) }
    {
        match self.tag {
            SfTag::None | SfTag::NonSpecific => CanonicalKeyTag::Semantic(implicit),
            SfTag::Other => self.written_or(SfTag::Other),
            tag => CanonicalKeyTag::Semantic(tag),
        }
    }

    /// The tag of a mapping: one that is written `!map` stays so.
    pub fn canonical_mapping_key_tag(self) -> CanonicalKeyTag<'t>
        ensures { canon_of result ≡ mapping_tag self.entry.tag (option_copied self.entry.raw) }
    {
        if self.is_local_map() {
            CanonicalKeyTag::Custom(b"!map")
        } else {
            self.canonical_container_key_tag(SfTag::Map)
        }
    }
}

/// Whether two tags count as the same.
// A function over `==`, since callers go by the theory's `same_canon`, which knows no bytes.
pub fn same_tags(a: CanonicalKeyTag, b: CanonicalKeyTag) -> bool
    ensures { result ≡ same_canon (canon_of a.entry) (canon_of b.entry) }
{
    a == b
}
