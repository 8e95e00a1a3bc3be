//! Numbers and runs in bytes.

use tq_field::{Short, get_run, get_u16, get_u32, get_u64, put_u16, put_u32, put_u64};

const BYTES: [u8; 9] = [0, 1, 2, 3, 4, 5, 6, 7, 255];

#[test]
fn get_u16_table(rt: HostRuntime) {
    assert!(rt; get_u16(&BYTES, 0) == Ok(0x0001));
    assert!(rt; get_u16(&BYTES, 7) == Ok(0x07FF));
    assert!(rt; get_u16(&BYTES, 8) == Err(Short(8)));
    assert!(rt; get_u16(&BYTES, usize::MAX) == Err(Short(usize::MAX)));
}

#[test]
fn get_u32_table(rt: HostRuntime) {
    assert!(rt; get_u32(&BYTES, 0) == Ok(0x0001_0203));
    assert!(rt; get_u32(&BYTES, 5) == Ok(0x0506_07FF));
    assert!(rt; get_u32(&BYTES, 6) == Err(Short(6)));
    assert!(rt; get_u32(&BYTES, usize::MAX) == Err(Short(usize::MAX)));
}

#[test]
fn get_u64_table(rt: HostRuntime) {
    assert!(rt; get_u64(&BYTES, 0) == Ok(0x0001_0203_0405_0607));
    assert!(rt; get_u64(&BYTES, 1) == Ok(0x0102_0304_0506_07FF));
    assert!(rt; get_u64(&BYTES, 2) == Err(Short(2)));
    assert!(rt; get_u64(&BYTES, usize::MAX) == Err(Short(usize::MAX)));
}

#[test]
fn get_run_table(rt: HostRuntime) {
    assert!(rt; matches!(get_run(&BYTES, 2, 3), Ok([2, 3, 4])));
    assert!(rt; matches!(get_run(&BYTES, 9, 0), Ok([])));
    assert!(rt; get_run(&BYTES, 9, 1).is_err());
    assert!(rt; get_run(&BYTES, 10, 0).is_err());
    assert!(rt; get_run(&BYTES, usize::MAX, usize::MAX).is_err());
}

#[test]
fn put_u16_table(rt: HostRuntime) {
    let mut bytes = [9u8; 4];
    assert!(rt; put_u16(&mut bytes, 3, 0x0102) == Err(Short(3)));
    assert!(rt; put_u16(&mut bytes, usize::MAX, 0x0102) == Err(Short(usize::MAX)));
    assert!(rt; bytes == [9, 9, 9, 9]);
    assert!(rt; put_u16(&mut bytes, 1, 0x0102) == Ok(()));
    assert!(rt; bytes == [9, 1, 2, 9]);
}

#[test]
fn put_u32_table(rt: HostRuntime) {
    let mut bytes = [9u8; 6];
    assert!(rt; put_u32(&mut bytes, 3, 0x0102_03FF) == Err(Short(3)));
    assert!(rt; put_u32(&mut bytes, usize::MAX, 0x0102_03FF) == Err(Short(usize::MAX)));
    assert!(rt; bytes == [9, 9, 9, 9, 9, 9]);
    assert!(rt; put_u32(&mut bytes, 1, 0x0102_03FF) == Ok(()));
    assert!(rt; bytes == [9, 1, 2, 3, 255, 9]);
}

#[test]
fn put_u64_table(rt: HostRuntime) {
    let mut bytes = [9u8; 10];
    assert!(rt; put_u64(&mut bytes, 3, 0x0102_0304_0506_07FF) == Err(Short(3)));
    assert!(rt; put_u64(&mut bytes, usize::MAX, 0) == Err(Short(usize::MAX)));
    assert!(rt; bytes == [9, 9, 9, 9, 9, 9, 9, 9, 9, 9]);
    assert!(rt; put_u64(&mut bytes, 1, 0x0102_0304_0506_07FF) == Ok(()));
    assert!(rt; bytes == [9, 1, 2, 3, 4, 5, 6, 7, 255, 9]);
}
