use format_traits::{EnumVariantEncoding, FieldOrdering, MapEncoding, SavePoint, StructFieldMode};

#[test]
fn a_save_point_keeps_its_number(rt: HostRuntime) {
    assert_eq!(rt; SavePoint::new(3).0, 3);
}

#[test]
fn the_defaults_are_those_of_a_format_of_texts(rt: HostRuntime) {
    assert!(rt; FieldOrdering::default() == FieldOrdering::Declaration);
    assert!(rt; StructFieldMode::default() == StructFieldMode::Named);
    assert!(rt; MapEncoding::default() == MapEncoding::Struct);
    assert!(rt; EnumVariantEncoding::default() == EnumVariantEncoding::Tagged);
}
