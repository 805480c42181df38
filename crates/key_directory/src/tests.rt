ghost use Rattle.std.specs.Prelude.{◌≡◌, ◌-◌, ◌^◌, ◌<◌, length};
ghost use Rattle.key_directory.specs.Words.{capacity_of, IsPosition};

use crate::{
    BelowCapacity, Directory, EveryKey, KeyList, KeyPass, KeyTest, KeysFull, threads_may_share,
};
use std::process::Abort;
use std::test::Fail;

// Claims the key in region 0, and expects this answer.
fn expect_claim<K: KeyTest>(
    rt: &impl Abort,
    directory: &Directory<K>,
    pass: &mut KeyPass<K>,
    key: u64,
    answer: Result<u32, KeysFull>,
)
    requires directory { pass.old.directory ≡ directory.now }
    requires region { 0 < length directory.now.capacities }
    requires key { key < 2 ^ 64 - 1 }
    requires passes { K.passes (capacity_of directory.now.capacities 0) key }
    ensures { (pass.new.directory ≡ pass.old.directory) × (pass.new.callers ≡ pass.old.callers) × (pass.new.room ≡ pass.old.room) }
{
    let got = directory.claim(pass, 0, key);
    assert_eq!(rt; got, answer, "the claim of {key}");
}

fn expect_key(rt: &impl Abort, keys: &KeyList, region: u32, position: u32, key: Option<u64>)
    requires { IsPosition keys.now.capacities region position }
{
    let got = keys.key_at(region, position);
    assert_eq!(rt; got, key, "the key at {position} of region {region}");
}

#[test]
fn a_key_has_one_position_for_good(rt: HostRuntime) -> Result<(), Fail> {
    let (directory, mut pass) = Directory::<EveryKey>::open(rt.alloc(), &[4], 1)?;
    expect_claim(&rt, &directory, &mut pass, 6, Ok(2));
    expect_claim(&rt, &directory, &mut pass, 2, Ok(3));
    expect_claim(&rt, &directory, &mut pass, 3, Ok(0));
    expect_claim(&rt, &directory, &mut pass, 6, Ok(2));
    expect_claim(&rt, &directory, &mut pass, 1, Ok(1));
    expect_claim(&rt, &directory, &mut pass, 9, Err(KeysFull { capacity: 4 }));
    let keys = directory.close(pass);
    expect_key(&rt, &keys, 0, 0, Some(3));
    expect_key(&rt, &keys, 0, 1, Some(1));
    expect_key(&rt, &keys, 0, 2, Some(6));
    expect_key(&rt, &keys, 0, 3, Some(2));
    Ok(())
}

#[test]
fn a_region_without_positions_is_full(rt: HostRuntime) -> Result<(), Fail> {
    let (directory, mut pass) = Directory::<EveryKey>::open(rt.alloc(), &[0, 1], 1)?;
    expect_claim(&rt, &directory, &mut pass, 7, Err(KeysFull { capacity: 0 }));
    let keys = directory.close(pass);
    expect_key(&rt, &keys, 1, 0, None);
    Ok(())
}

#[test]
fn keys_below_the_capacity_have_their_own_number(rt: HostRuntime) -> Result<(), Fail> {
    let (directory, mut pass) = Directory::<BelowCapacity>::open(rt.alloc(), &[3], 1)?;
    expect_claim(&rt, &directory, &mut pass, 2, Ok(2));
    expect_claim(&rt, &directory, &mut pass, 0, Ok(0));
    expect_claim(&rt, &directory, &mut pass, 2, Ok(2));
    let keys = directory.close(pass);
    expect_key(&rt, &keys, 0, 0, Some(0));
    expect_key(&rt, &keys, 0, 1, None);
    expect_key(&rt, &keys, 0, 2, Some(2));
    Ok(())
}

#[test]
fn two_passes_claim_one_key_at_one_position(rt: HostRuntime) -> Result<(), Fail> {
    let (directory, mut first) = Directory::<EveryKey>::open(rt.alloc(), &[2], 3)?;
    threads_may_share(&directory, &first);
    assert!(rt; first.is_sole(&directory));
    let mut second = first.split(rt.alloc(), &directory, 2)?;
    assert_eq!(rt; (first.callers_held(), first.room()), (1, 3));
    assert_eq!(rt; (second.callers_held(), second.room()), (2, 2));
    assert!(rt; !first.is_sole(&directory) && !second.is_sole(&directory));
    expect_claim(&rt, &directory, &mut second, 4, Ok(0));
    expect_claim(&rt, &directory, &mut first, 4, Ok(0));
    expect_claim(&rt, &directory, &mut first, 8, Ok(1));
    first.join(&directory, second);
    first.claims_stand_law();
    assert_eq!(rt; (first.callers_held(), first.room()), (3, 3));
    assert!(rt; first.is_sole(&directory));
    let keys = directory.close(first);
    expect_key(&rt, &keys, 0, 0, Some(4));
    expect_key(&rt, &keys, 0, 1, Some(8));
    Ok(())
}
