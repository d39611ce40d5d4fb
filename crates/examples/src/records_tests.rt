// Tags and refusals.
use records::refusal::{Layer, Reason};
use records::tags::SfTag;

#[test]
fn tags_that_let_a_scalar_be_text(rt: HostRuntime) {
    let stringy = [
        SfTag::None,
        SfTag::String,
        SfTag::Merge,
        SfTag::Value,
        SfTag::Other,
        SfTag::Include,
        SfTag::NonSpecific,
    ];
    for tag in stringy {
        assert!(rt; tag.can_parse_into_string());
    }
    let typed = [
        SfTag::Binary,
        SfTag::Int,
        SfTag::Null,
        SfTag::Map,
        SfTag::TimeStamp,
        SfTag::Degrees,
    ];
    for tag in typed {
        assert!(rt; !tag.can_parse_into_string());
    }
}

#[test]
fn core_tags_and_string_tags(rt: HostRuntime) {
    assert!(rt; SfTag::Bool.is_core() && SfTag::String.is_core());
    assert!(rt; !SfTag::None.is_core() && !SfTag::Binary.is_core());
    assert!(rt; SfTag::NonSpecific.forces_string() && !SfTag::None.forces_string());
}

#[test]
fn refusals_have_numbers_and_layers(rt: HostRuntime) {
    let reasons = [
        (Reason::WorkTooShort, 4, Layer::Call),
        (Reason::PlaceOutsideText, 7, Layer::Source),
        (Reason::TooDeep, 15, Layer::Capture),
        (
            Reason::DuplicateMappingKey { key: None },
            19,
            Layer::Collect,
        ),
        (Reason::NoOutermostNode, 21, Layer::Call),
    ];
    for (reason, number, layer) in reasons {
        assert!(rt; reason.number() == number && reason.layer() == layer);
    }
}
