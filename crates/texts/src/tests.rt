use super::number;

#[test]
fn digits_alone_are_read(rt: HostRuntime) {
    assert_eq!(rt; number::<u32>("4294967295"), Some(4_294_967_295));
    assert_eq!(rt; number::<u32>("4294967296"), None);
    assert_eq!(rt; number::<u32>("007"), Some(7));
    assert_eq!(rt; number::<u8>("256"), None);
    assert_eq!(rt; number::<u64>("18446744073709551615"), Some(u64::MAX));
    for text in ["", "+5", "-5", " 5", "5 ", "0x5", "5a", "٥"] {
        assert_eq!(rt; number::<u32>(text), None);
    }
}
