// Tags, as far as the reader tells them apart.
ghost use Rattle.std.specs.Prelude.{◌≡◌, true, ◌↔◌};
ghost use Rattle.records.specs.Tags.{core, forced, stringy, same_tag};

/// A resolved tag. `None`: no tag. `NonSpecific`: the tag `!`. `Other`: any tag that is not listed.
#[derive(Clone, Copy, PartialEq, Eq, Debug)]
pub enum SfTag {
    None,
    Int,
    Float,
    Bool,
    Null,
    Seq,
    Map,
    TimeStamp,
    Binary,
    String,
    Merge,
    Value,
    NonSpecific,
    Include,
    Degrees,
    Radians,
    Other,
}

impl SfTag {
    /// Whether the tag is one of YAML's core schema.
    pub fn is_core(self) -> bool
        ensures { result ≡ core self }
    {
        matches!(
            self,
            SfTag::Int
                | SfTag::Float
                | SfTag::Bool
                | SfTag::Null
                | SfTag::Seq
                | SfTag::Map
                | SfTag::String
        )
    }

    /// Whether the tag keeps a scalar's text from being read as anything but text.
    pub fn forces_string(self) -> bool
        ensures { result ≡ forced self }
    {
        matches!(self, SfTag::String | SfTag::NonSpecific)
    }

    /// Whether a scalar with this tag may be read as text.
    pub fn can_parse_into_string(self) -> bool
        ensures { result ≡ stringy self }
    {
        matches!(
            self,
            SfTag::None
                | SfTag::String
                | SfTag::Merge
                | SfTag::Value
                | SfTag::Other
                | SfTag::Include
                | SfTag::NonSpecific
        )
    }
}

/// `==` on tags holds of the same tag and of no other.
pub fn equal_tags_are_the_same()
    ensures value { (a : SfTag) (b : SfTag) → ⟦<SfTag as PartialEq>⟧.eq a b ≡ same_tag a b }
    ensures identical { (a : SfTag) (b : SfTag) → (same_tag a b ≡ true) ↔ (a ≡ b) }
{}
