use csv::ByteRecord;
use dn_records::{Field, Line, RecordReader, RecordWriter, Records};
use std::alloc::{AllocError, Global};
use std::process::Abort;
use std::test::Fail;

// A packet file's corners: the columns are a text and its records, with their fields joined by bars.
static TEXTS: [(&[u8], &[&[&[u8]]]); 6] = [
    (b"", &[]),
    (b"\n\r\n", &[]),
    (
        b"moment,target\n0,pipe\n",
        &[&[b"moment", b"target"], &[b"0", b"pipe"]],
    ),
    (b"a\n\n1,2,3\rb", &[&[b"a"], &[b"1", b"2", b"3"], &[b"b"]]),
    (b"\xef\xbb\xbf\"0\",\"x\"\"y\",", &[&[b"0", b"x\"y", b""]]),
    (b"a,\"b\nc,d\n", &[&[b"a", b"b\nc,d\n"]]),
];

fn check_fields(rt: &impl Abort, row: &ByteRecord, fields: &[&[u8]]) {
    assert!(rt; row.len() == fields.len());
    for i in 0..fields.len() {
        assert!(rt; row.get(i) == Some(fields[i]), "field {i}");
    }
}

// The reader gives these records, and then none.
fn check_records(
    rt: &impl Abort,
    reader: &mut RecordReader<'_>,
    row: &mut ByteRecord,
    records: &[&[&[u8]]],
) -> Result<(), AllocError> {
    for record in records {
        assert!(rt; reader.read(row)?);
        check_fields(rt, row, record);
    }
    assert!(rt; !reader.read(row)?);
    assert!(rt; !reader.read(row)?);
    Ok(())
}

fn check_text(
    rt: &impl Abort,
    alloc: Global,
    text: &[u8],
    records: &[&[&[u8]]],
) -> Result<(), AllocError> {
    let mut reader = RecordReader::new(alloc, text);
    let mut row = ByteRecord::new(alloc);
    check_records(rt, &mut reader, &mut row, records)
}

#[test]
fn records_are_read_one_by_one(rt: HostRuntime) -> Result<(), Fail> {
    for (text, records) in TEXTS.iter() {
        check_text(&rt, rt.alloc(), text, records)?;
    }
    Ok(())
}

// At most so many fields of each of these records are read, and then no record is left.
fn check_fronts(
    rt: &impl Abort,
    alloc: Global,
    text: &[u8],
    records: &[&[&[u8]]],
    most: usize,
) -> Result<(), AllocError> {
    let mut left = Records::new(alloc, text);
    let mut row = ByteRecord::new(alloc);
    for record in records {
        assert!(rt; left.read(most, &mut row)?);
        check_fields(rt, &row, &record[..record.len().min(most)]);
    }
    assert!(rt; !left.read(most, &mut row)?);
    Ok(())
}

#[test]
fn fronts_are_read_one_by_one(rt: HostRuntime) -> Result<(), Fail> {
    for (text, records) in TEXTS.iter() {
        for most in 0..4usize {
            check_fronts(&rt, rt.alloc(), text, records, most)?;
        }
    }
    Ok(())
}

// What stands before a million commas and behind them, up to the next record, and how many of three fields are read.
static WIDE: [(&[u8], &[u8], usize); 4] = [
    (b"a", b"\nb", 3),
    (b"\"a,\"\"\"", b"\r\nb", 3),
    (b"\r\n", b"\"c\"\rb\n", 3),
    (b"\xef\xbb\xbf\"a", b"\"\nb", 1),
];

#[test]
fn the_rest_of_a_wide_record_is_passed_over(rt: HostRuntime) -> Result<(), Fail> {
    let alloc = rt.alloc();
    let mut row = ByteRecord::new(alloc);
    for (front, back, count) in WIDE.iter() {
        let mut text = Vec::new(alloc);
        text.extend_from_slice(front)?;
        for _ in 0..1_000_000 {
            text.push(b',')?;
        }
        text.extend_from_slice(back)?;
        let mut left = Records::new(alloc, text.as_slice());
        assert!(rt; left.read(3, &mut row)?);
        assert!(rt; row.len() == *count);
        assert!(rt; left.read(3, &mut row)?);
        check_fields(&rt, &row, &[b"b"]);
    }
    Ok(())
}

// Four records with each kind of field, and one without any.
fn write_each(writer: &mut RecordWriter) -> Result<(), AllocError> {
    writer.reserve(200)?;
    writer.write(&[
        Field::Text("out"),
        Field::Number(0),
        Field::Empty,
        Field::Number(u128::MAX),
    ])?;
    writer.write(&[
        Field::Address(0x0a000001),
        Field::Address(0),
        Field::Address(u32::MAX),
    ])?;
    writer.write(&[
        Field::Text("a,b"),
        Field::Text("\"c\""),
        Field::Text("d\ne\rf"),
        Field::Text(""),
    ])?;
    writer.write(&[Field::Empty])?;
    writer.write(&[])
}

#[test]
fn each_kind_of_field_is_written(rt: HostRuntime) -> Result<(), Fail> {
    let mut writer = RecordWriter::new(rt.alloc());
    write_each(&mut writer)?;
    let text = writer.into_text();
    let want =
        b"out,0,,340282366920938463463374607431768211455\n10.0.0.1,0.0.0.0,255.255.255.255\n\"a,b\",\"\"\"c\"\"\",\"d\ne\rf\",\n\"\"\n\"\"\n";
    assert!(rt; text.as_slice() == want.as_slice());
    Ok(())
}

// Where the room is there, writing takes no memory: the text grows past no capacity.
#[test]
fn a_text_fills_its_room(rt: HostRuntime) -> Result<(), Fail> {
    let mut writer = RecordWriter::new(rt.alloc());
    writer.reserve(9)?;
    for row in [1, 2, 3] {
        writer.write(&[Field::Number(row), Field::Empty])?;
    }
    let text = writer.into_text();
    assert!(rt; text.as_slice() == b"1,\n2,\n3,\n".as_slice());
    assert!(rt; text.capacity() == 9);
    Ok(())
}

// A line is made from its end, and stands behind the record before it.
#[test]
fn a_line_is_made_from_its_end(rt: HostRuntime) -> Result<(), Fail> {
    let mut line = Line::new();
    line.put_number(18_446_744_073_709_551_615);
    line.put_number(0);
    line.put_address(0xff000a01);
    line.put_bytes(b"lost,pipe");
    let mut writer = RecordWriter::new(rt.alloc());
    writer.write(&[Field::Text("event")])?;
    writer.write_line(&line)?;
    let text = writer.into_text();
    assert!(rt;
        text.as_slice() == b"event\nlost,pipe,255.0.10.1,0,18446744073709551615\n".as_slice()
    );
    Ok(())
}
