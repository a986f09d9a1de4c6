//! The order of three scripts.

use crate::serial_order;
use domains::By;
use lists::List;
use std::test::Fail;

#[test]
fn an_actor_that_has_done_all_is_passed_over(rt: HostRuntime) -> Result<(), Fail> {
    let mut scripts = Vec::new(rt.alloc());
    scripts.push(List::from_vec(vec![in rt.alloc(); 'a', 'b']?))?;
    scripts.push(List::new(rt.alloc()))?;
    scripts.push(List::from_vec(vec![in rt.alloc(); 'c', 'd', 'e']?))?;
    let order = serial_order(rt.alloc(), &scripts)?;
    let due = [
        By { actor: 1, call: 1 },
        By { actor: 3, call: 1 },
        By { actor: 1, call: 2 },
        By { actor: 3, call: 2 },
        By { actor: 3, call: 3 },
    ];
    assert_eq!(rt; order.as_slice(), due.as_slice());
    Ok(())
}
