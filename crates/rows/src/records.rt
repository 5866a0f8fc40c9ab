use bd_limits::{MAX_FILE, MAX_MODE};
use bd_records::{Record, read_record, write_record};
use bd_wire::Out;
use std::test::Fail;

#[test]
#[tactic(auto, using(bd_wire::proofs::WritingLemmas::writing))]
fn records_are_written(rt: HostRuntime) -> Result<(), Fail> {
    let mut array = [7u8; 21];
    let mut out = Out::new(&mut array);
    write_record(&Record::Dir(0), &mut out);
    write_record(&Record::File(0, 0), &mut out);
    write_record(&Record::File(MAX_FILE, 0), &mut out);
    write_record(&Record::File(0, 0o644), &mut out);
    write_record(&Record::Dir(MAX_MODE), &mut out);
    let want = [
        0x44, 0x46, 0, 0, 0, 0, 0x46, 0x40, 0, 0, 0, 0x46, 0, 0, 0, 0, 0x01, 0xa4, 0x44, 0x0f, 0xff,
    ];
    assert_eq!(rt; array, want);
    Ok(())
}

/// Bytes, and the record that they are.
const READ: &[(&[u8], Option<Record>)] = &[
    (&[0x44], Some(Record::Dir(0))),
    (&[0x46, 0, 0, 0, 0], Some(Record::File(0, 0))),
    (&[0x46, 0x40, 0, 0, 0], Some(Record::File(MAX_FILE, 0))),
    (&[], None),
    (&[0x45], None),
    (&[0x44, 0], None),
    (&[0x46, 0, 0, 0], None),
    (&[0x46, 0x40, 0, 0, 1], None),
    (&[0x46, 0, 0, 0, 0, 0], None),
    (
        &[0x46, 0, 0, 0, 0, 0x01, 0xa4],
        Some(Record::File(0, 0o644)),
    ),
    (&[0x44, 0x0f, 0xff], Some(Record::Dir(MAX_MODE))),
    (&[0x44, 0, 1], Some(Record::Dir(1))),
    (&[0x44, 0, 0], None),
    (&[0x44, 0x10, 0], None),
    (&[0x46, 0, 0, 0, 0, 0, 0], None),
    (&[0x46, 0, 0, 0, 0, 0, 1, 0], None),
];

#[test]
fn records_are_read(rt: HostRuntime) {
    for (bytes, record) in READ {
        assert!(rt; read_record(*bytes) == *record, "record {bytes:?}");
    }
}
