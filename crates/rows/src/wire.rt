use bd_wire::{Cursor, Out};

/// Numbers of each width, two bytes, a text with its length, and zeros.
const BYTES: [u8; 24] = [
    1, 2, 3, 4, 5, 6, 7, 8, 9, 10, 11, 12, 13, 14, 15, 97, 98, 0, 1, 99, 0, 0, 0, 0,
];

#[test]
fn values_are_written(rt: HostRuntime) {
    let mut array = [7u8; 24];
    let mut out = Out::new(&mut array);
    out.put_u8(0x01);
    out.put_u16(0x0203);
    out.put_u32(0x0405_0607);
    out.put_u64(0x0809_0a0b_0c0d_0e0f);
    out.put_bytes(b"ab");
    out.put_text16(b"c");
    out.put_zeros();
    assert_eq!(rt; array, BYTES);
}

// Whether the numbers are read.
fn has_numbers(cursor: &mut Cursor) -> bool {
    cursor.u8() == Ok(0x01)
        && cursor.u16() == Ok(0x0203)
        && cursor.u32() == Ok(0x0405_0607)
        && cursor.u64() == Ok(0x0809_0a0b_0c0d_0e0f)
}

// Whether the bytes and the text are read.
fn has_texts(cursor: &mut Cursor) -> bool {
    cursor.bytes(2) == Ok(b"ab".as_slice()) && cursor.text16() == Ok(b"c".as_slice())
}

#[test]
fn values_are_read(rt: HostRuntime) {
    let mut cursor = Cursor::new(&BYTES);
    assert!(rt; has_numbers(&mut cursor));
    assert!(rt; has_texts(&mut cursor));
    assert!(rt; cursor.rest_is_zero());
}
