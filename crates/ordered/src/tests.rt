ghost use Rattle.std.proofs.Common.{sym};
ghost use Rattle.std.specs.Ordering.{nat_cmp};
ghost use Rattle.ordered.specs.Orders.{numbers_total};

use crate::{ByteKey, Entry, Full, Key, Row, Table, find, insert, remove};
use std::cmp::Ordering;
use std::process::Abort;
use std::test::Fail;

#[derive(Clone, Copy, Debug, PartialEq, Eq)]
struct Owner {
    slot: u16,
    name: u8,
}

impl Entry for Owner {
    type Key = u16;

    ghost keyed = { λ o. o.slot };

    fn key(&self) -> &u16 {
        &self.slot
    }
}

const NONE: Owner = Owner { slot: 0, name: 0 };

fn owned(slot: u16, name: u8) -> Owner {
    Owner { slot, name }
}

fn fill(rt: &impl Abort, table: &mut [Owner], count: &mut usize) {
    assert_eq!(rt; insert(table, count, owned(3, b'c')), Ok(None));
    assert_eq!(rt; insert(table, count, owned(1, b'a')), Ok(None));
    assert_eq!(rt; insert(table, count, owned(2, b'b')), Ok(None));
}

#[test]
fn keeps_entries_in_order(rt: HostRuntime) -> Result<(), Fail> {
    let mut table = [NONE; 4];
    let mut count = 0;
    fill(&rt, &mut table, &mut count);
    assert_eq!(rt; count, 3);
    assert_eq!(rt; table[0].name, b'a');
    assert_eq!(rt; table[1].name, b'b');
    assert_eq!(rt; table[2].name, b'c');
    assert_eq!(rt; find(&table[0..3], &2), Ok(1));
    assert_eq!(rt; find(&table[0..3], &4), Err(3));
    Ok(())
}

#[test]
fn replaces_and_refuses(rt: HostRuntime) -> Result<(), Fail> {
    let mut table = [NONE; 3];
    let mut count = 0;
    fill(&rt, &mut table, &mut count);
    let replaced = insert(&mut table, &mut count, owned(2, b'B'));
    assert_eq!(rt; replaced, Ok(Some(owned(2, b'b'))));
    assert_eq!(rt; insert(&mut table, &mut count, owned(4, b'd')), Err(Full));
    assert_eq!(rt; count, 3);
    assert_eq!(rt; table[1].name, b'B');
    assert_eq!(rt; table[2].name, b'c');
    Ok(())
}

#[test]
fn removes(rt: HostRuntime) {
    let mut table = [NONE; 3];
    let mut count = 0;
    fill(&rt, &mut table, &mut count);
    assert_eq!(rt; remove(&mut table, &mut count, &4), None);
    assert_eq!(rt; remove(&mut table, &mut count, &1), Some(owned(1, b'a')));
    assert_eq!(rt; remove(&mut table, &mut count, &3), Some(owned(3, b'c')));
    assert_eq!(rt; count, 1);
    assert_eq!(rt; table[0].name, b'b');
}

#[test]
fn orders_bytes_with_a_prefix_first(rt: HostRuntime) -> Result<(), Fail> {
    let long = [b'k'; 65];
    assert!(rt; ByteKey::new(&long).is_none());
    let most = ByteKey::new(&long[0..64]).ok_or(())?;
    assert_eq!(rt; most.bytes().len(), 64);
    let one = ByteKey::new(b"k").ok_or(())?;
    let next = ByteKey::new(b"l").ok_or(())?;
    assert_eq!(rt; one.compare(&most), Ordering::Less);
    assert_eq!(rt; most.compare(&next), Ordering::Less);
    assert_eq!(rt; one.compare(&one), Ordering::Equal);
    Ok(())
}

#[test]
fn a_row_keeps_what_came_in_order(rt: HostRuntime) -> Result<(), Fail> {
    let mut row: Row<u8, 2> = Row::new(b'-');
    assert_eq!(rt; row.push(b'b'), Ok(()));
    let one = row;
    assert_eq!(rt; row.push(b'a'), Ok(()));
    assert_eq!(rt; row.push(b'c'), Err(Full));
    assert_eq!(rt; row.as_slice(), b"ba".as_slice());
    assert_eq!(rt; one.as_slice(), b"b".as_slice());
    Ok(())
}

#[test]
fn a_table_owns_its_entries(rt: HostRuntime) -> Result<(), Fail> {
    let mut table: Table<Owner, 2> = Table::new(NONE);
    let empty = table;
    assert_eq!(rt; table.insert(owned(3, b'c')), Ok(None));
    assert_eq!(rt; table.insert(owned(1, b'a')), Ok(None));
    assert_eq!(rt; table.insert(owned(3, b'C')), Ok(Some(owned(3, b'c'))));
    assert_eq!(rt; table.insert(owned(2, b'b')), Err(Full));
    assert_eq!(rt; table.find(&3), Ok(1));
    assert_eq!(rt; table.find(&2), Err(1));
    assert_eq!(rt; table.remove(&1), Some(owned(1, b'a')));
    assert_eq!(rt; table.as_slice(), [owned(3, b'C')].as_slice());
    assert_eq!(rt; empty.as_slice().len(), 0);
    Ok(())
}

// A number without `Ord`, as a key of an order of its own: the higher number comes first.
#[derive(Clone, Copy, Debug, PartialEq, Eq)]
struct Down(u16);

impl Key for Down {
    ghost ranks = { λ a b. nat_cmp b.0 a.0 };

    ghost total = { record {
      same = λ x y e. λ i. record { 0 = sym (numbers_total.same y.0 x.0 e) i };
      itself = λ x. numbers_total.itself x.0;
      turned = λ x y. numbers_total.turned y.0 x.0;
      chained = λ x y z p q. numbers_total.chained z.0 y.0 x.0 q p;
    } };

    fn compare(&self, other: &Down) -> Ordering {
        other.0.cmp(&self.0)
    }
}

impl Entry for Down {
    type Key = Down;

    ghost keyed = { λ d. d };

    fn key(&self) -> &Down {
        self
    }
}

#[test]
fn keys_go_by_an_order_of_their_own(rt: HostRuntime) {
    let mut table: Table<Down, 3> = Table::new(Down(0));
    assert_eq!(rt; table.insert(Down(1)), Ok(None));
    assert_eq!(rt; table.insert(Down(3)), Ok(None));
    assert_eq!(rt; table.insert(Down(2)), Ok(None));
    assert_eq!(rt; table.insert(Down(4)), Err(Full));
    assert_eq!(rt; table.as_slice(), [Down(3), Down(2), Down(1)].as_slice());
    assert_eq!(rt; table.find(&Down(3)), Ok(0));
    assert_eq!(rt; table.find(&Down(4)), Err(0));
    assert_eq!(rt; table.find(&Down(0)), Err(3));
    assert_eq!(rt; table.remove(&Down(2)), Some(Down(2)));
    assert_eq!(rt; table.as_slice(), [Down(3), Down(1)].as_slice());
}
