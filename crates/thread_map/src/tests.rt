use crate::map_each;
use std::sync::atomic::{AtomicU64, Ordering};
use std::test::Fail;

#[test]
fn each_value_is_mapped_once_and_stays_at_its_place(rt: HostRuntime) -> Result<(), Fail> {
    let calls = AtomicU64::new(0);
    let mapped = map_each(
        &rt,
        &|value: u64| {
            calls.fetch_add(1, Ordering::SeqCst);
            value.wrapping_mul(value)
        },
        vec![in rt.alloc(); 2, 3, 5, 7, 11]?,
    );
    assert_eq!(rt; mapped.as_slice(), [4u64, 9, 25, 49, 121].as_slice());
    assert_eq!(rt; calls.load(Ordering::SeqCst), 5);
    Ok(())
}

#[test]
fn an_empty_vector_starts_no_thread(rt: HostRuntime) -> Result<(), Fail> {
    let mapped = map_each(&rt, &|value: u64| value, Vec::new(rt.alloc()));
    assert!(rt; mapped.is_empty());
    Ok(())
}
