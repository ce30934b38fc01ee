//! Each public call once.
use pssm_spelling::*;
use std::test::Fail;

#[test]
fn reads_names_and_numbers(rt: HostRuntime) -> Result<(), Fail> {
    let (name, rest) = name_at(b"door_1.Open").ok_or("a name")?;
    assert_eq!(rt; name, b"door_1".as_slice());
    assert_eq!(rt; strip(rest, b"."), Some(b"Open".as_slice()));
    assert_eq!(rt;
        number_at(b"4294967295 t"),
        Some((4_294_967_295, b" t".as_slice()))
    );
    assert_eq!(rt; number_at(b"07"), None);
    assert_eq!(rt; index_at(b"65535"), Some((65_535, b"".as_slice())));
    assert_eq!(rt; index_at(b"65536"), None);
    assert_eq!(rt;
        number_of("18446744073709551615", 0, u64::MAX),
        Some(u64::MAX)
    );
    assert_eq!(rt; number_of("17", 1, 16), None);
    assert_eq!(rt; magnitude(b"18446744073709551616"), u64::MAX);
    Ok(())
}

#[test]
fn writes_numbers(rt: HostRuntime) -> Result<(), Fail> {
    let alloc = rt.alloc();
    let mut text = Vec::new(alloc);
    put_number(alloc, &mut text, 65_536)?;
    put_signed(alloc, &mut text, i64::MIN)?;
    assert_eq!(rt; text.as_slice(), b"65536-9223372036854775808".as_slice());
    Ok(())
}
