//! A number that stays below the key.
use crate::{Tie, TiedLock};
use std::test::Fail;

struct Below;

impl Tie<u64, u64> for Below {
    ghost use Rattle.std.specs.Prelude.{◌<◌};

    ghost ties = { λ key value. value < key };
}

#[test]
fn taken_and_given(rt: HostRuntime) -> Result<(), Fail> {
    let Ok(lock) = TiedLock::<u64, u64, Below>::new(rt.alloc(), 3, &10) else {
        return Err("no memory".into());
    };
    let (lease, value) = lock.take(&rt);
    lock.give(lease, value / 2);
    let (lease, half) = lock.take(&rt);
    lock.give(lease, half);
    assert_eq!(rt; (value, half, lock.into_value()), (3, 1, Ok(1)));
    Ok(())
}
