// A row beside its bytes.
use super::random::Random;
use model::Name;
use rows::{StopRow, WatermarkRow};
use std::test::Fail;

// Minute 1 has a sum of 5, and the mark is 60.
const STATE: [u8; 32] = [
    0x3c, 0, 0, 0, 0, 0, 5, 0, 0, 0, 0, 0, 0, 0, 0, 0, 0, 0, 0, 0, 0, 0, 0, 0, 0, 0, 0, 0, 0, 0, 0,
    0,
];

// Two productions were made, the first was acknowledged, and the record 7, 1, 30 was taken.
fn worked() -> StopRow {
    let mut row = StopRow::first();
    row.replace_state(STATE);
    let _ = row.produce(60, 9);
    let _ = row.produce(120, 0x0102);
    row.clear_oldest();
    let _ = row.remember(
        0,
        Name {
            sender: 7,
            serial: 1,
            time: 30,
        },
    );
    row
}

#[test]
fn a_worked_row(rt: HostRuntime) {
    let bytes = worked().encode();
    let mut expected = [0u8; 512];
    let head = [2, 0, 0, 0, 1, 1, 0, 0];
    let pending = [1, 0, 0, 0, 0x78, 0, 0, 0, 0x02, 0x01, 0, 0];
    let name = [7, 0, 1, 0, 0, 0, 0x1e, 0, 0, 0];
    expected[0..8].copy_from_slice(&head);
    expected[8..40].copy_from_slice(&STATE);
    expected[40..52].copy_from_slice(&pending);
    expected[88..98].copy_from_slice(&name);
    assert!(rt; bytes == expected);
}

#[test]
fn names_at_the_floor_stay(rt: HostRuntime) {
    let row = worked();
    assert_eq!(rt; row.staying(30), 1);
    assert_eq!(rt; row.staying(31), 0);
    assert_eq!(rt; StopRow::staying_in(&row.encode(), 30), Some(1));
}

#[test]
fn no_row_has_these_bytes(rt: HostRuntime) {
    let mut bytes = worked().encode();
    assert!(rt; StopRow::decode(&bytes).is_some());
    // a fifth pending production
    bytes[4] = 5;
    assert!(rt; StopRow::decode(&bytes).is_none());
    bytes[4] = 1;
    // an amount of more than two bytes
    bytes[50] = 1;
    assert!(rt; StopRow::decode(&bytes).is_none());
    bytes[50] = 0;
    // something behind the last name
    bytes[98] = 1;
    assert!(rt; StopRow::decode(&bytes).is_none());
    bytes[98] = 0;
    bytes[511] = 1;
    assert!(rt; StopRow::decode(&bytes).is_none());
    bytes[511] = 0;
    assert!(rt; StopRow::decode(&bytes).is_some());
}

fn drawn(random: &mut Random) -> StopRow {
    let mut row = StopRow::first();
    for _ in 0..random.next() % 9 {
        let _ = row.produce(random.next(), (random.next() % 65536) as u16);
        if random.next() % 2 == 0 {
            row.clear_oldest();
        }
    }
    for _ in 0..random.next() % 60 {
        let _ = row.remember(
            random.next() / 16,
            Name {
                sender: (random.next() % 65536) as u16,
                serial: random.next(),
                time: random.next(),
            },
        );
    }
    row
}

#[test]
fn random_rows_come_back(rt: HostRuntime) -> Result<(), Fail> {
    let mut random = Random::new(1);
    for _ in 0..200 {
        let row = drawn(&mut random);
        let bytes = row.encode();
        let Some(back) = StopRow::decode(&bytes) else {
            return Err(Fail::new("a row that was encoded is decoded"));
        };
        assert_eq!(rt; back.next(), row.next());
        assert_eq!(rt; back.pending().len(), row.pending().len());
        assert_eq!(rt; back.names().len(), row.names().len());
        assert!(rt; back.encode() == bytes);
    }
    Ok(())
}

#[test]
fn a_watermark(rt: HostRuntime) -> Result<(), Fail> {
    let row = WatermarkRow {
        watermark: 0x01020304,
    };
    let mut bytes = row.encode();
    assert!(rt; bytes[0] == 4 && bytes[1] == 3 && bytes[2] == 2 && bytes[3] == 1);
    let back = WatermarkRow::decode(&bytes).ok_or("a watermark that was encoded")?;
    assert_eq!(rt; back.watermark, 0x01020304);
    bytes[300] = 1;
    assert!(rt; WatermarkRow::decode(&bytes).is_none());
    Ok(())
}
