//! Conditions with their plans, and the rows of a small table that their ranges hold.

use crate::table::{first_wrong, key_left};
use std::test::Fail;

/// Each line: a forced index, the needed columns, the index, whether it covers, the rows in its
/// ranges, and the condition.
const PRIMARY: &[u8] = b"-30c111111=u<>1
-30c111111=NOT k=7
-30c111111=k=7 OR u=1
-30c111111=k IS NOT NULL
-30c001000=id=3
-30c001000=3=id
-30c000111=id>3
-30c001111=id>=3
-30c110000=id<3
-30c111000=id<=3
-30c011100=id BETWEEN 2 AND 4
-30c011100=id>=2 AND id<5
-30c000000=id BETWEEN 4 AND 2";

/// Each line: a forced index, the needed columns, the index, whether it covers, the rows in its
/// ranges, and the condition.
const MORE_OF_PRIMARY: &[u8] = b"-30c100010=id IN (5,1,5)
-30c010001=id=2 OR id=6
-30c100011=id>4 OR id<2
-30c000010=id IN (1,5) AND id>2
-30c000000=id=99999999999
-30c111111=id<99999999999
-30c000000=id>99999999999
-30c111111=id>-99999999999
-30c000000=id=NULL
-30c000000=id IS NULL
-30c000000=id=2 AND id=3
-30c000100=id=4 AND k=7 AND u=2";

/// Each line: a forced index, the needed columns, the index, whether it covers, the rows in its
/// ranges, and the condition.
const NUMBERS: &[u8] = b"-31c000110=k=7
-71-000110=k=7
-31c000010=k=7 AND id>4
-31c000111=k>0
-31c001111=k>=0
-31c010000=k<0
-31c011000=k<=0
-31c100000=k IS NULL
-31c000000=k<NULL
-31c000000=k BETWEEN NULL AND 7
-31c000000=k=7 AND k<NULL
-31c001110=k IN (7,NULL,0,7)";

/// Each line: a forced index, the needed columns, the index, whether it covers, the rows in its
/// ranges, and the condition.
const TEXTS: &[u8] = b"-31c011111=k<99999999999
-31c000000=k<=-99999999999
-31c100001=k IS NULL OR k>100
-31c011111=k<=0 OR k>0
-31c000001=k=2147483647
-72c001100=s='ab'
-72c001100=s='AB   '
-72c001110=s>'a'
-72c011110=s>='a'
-72c010001=s<'ab'
-72c000001=s='  '
-72c000000=s='abcdefgh'
-72c000100=s='ab' AND k=7
-72c001000=k<7 AND s='ab'";

/// Each line: a forced index, the needed columns, the index, whether it covers, the rows in its
/// ranges, and the condition.
const FORCED: &[u8] = b"-33c000110=u=2 AND k=7
-33c011000=u=1
-33c000000=u<0
-33c111111=u>=-1
030c111111=k=7
070c111000=id<4 AND s='ab'
131c111111=id=3
171-011000=u=2 AND k<1
232c111111=k=7
373-000110=u=2 AND id=4
131c000000=k<0 AND k=7
232c100000=s IS NULL";

#[test]
fn of_the_primary_key(rt: HostRuntime) -> Result<(), Fail> {
    assert_eq!(rt; first_wrong(rt.alloc(), PRIMARY)?, None);
    Ok(())
}

#[test]
fn more_of_the_primary_key(rt: HostRuntime) -> Result<(), Fail> {
    assert_eq!(rt; first_wrong(rt.alloc(), MORE_OF_PRIMARY)?, None);
    Ok(())
}

#[test]
fn of_a_number(rt: HostRuntime) -> Result<(), Fail> {
    assert_eq!(rt; first_wrong(rt.alloc(), NUMBERS)?, None);
    Ok(())
}

#[test]
fn of_numbers_and_texts(rt: HostRuntime) -> Result<(), Fail> {
    assert_eq!(rt; first_wrong(rt.alloc(), TEXTS)?, None);
    Ok(())
}

#[test]
fn of_two_columns_and_forced(rt: HostRuntime) -> Result<(), Fail> {
    assert_eq!(rt; first_wrong(rt.alloc(), FORCED)?, None);
    Ok(())
}

#[test]
fn the_key_that_is_left(rt: HostRuntime) -> Result<(), Fail> {
    assert_eq!(rt; key_left(rt.alloc(), b"k=7 AND id=4 AND id=5")?, Some(4));
    assert_eq!(rt; key_left(rt.alloc(), b"id=99999999999")?, None);
    assert_eq!(rt; key_left(rt.alloc(), b"id=4 OR id=5")?, None);
    assert_eq!(rt; key_left(rt.alloc(), b"id IN (4)")?, None);
    Ok(())
}
