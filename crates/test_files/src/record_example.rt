use csv::ByteRecord;
use dn_records::{
    Field, FromReader, FromWriter, RecordReader, RecordWriter, read_whole, write_whole,
};
use std::alloc::{AllocError, Global};
use std::test::Fail;

/// Writes a record with the count of its fields for each record that is read.
fn count_fields(
    records: &mut RecordReader<'_>,
    row: &mut ByteRecord,
    lines: &mut RecordWriter,
) -> Result<(), AllocError> {
    while records.read(row)? {
        lines.write(&[Field::Number(row.len() as u128), Field::Text("fields")])?;
    }
    Ok(())
}

fn counts(alloc: Global, text: &[u8]) -> Result<Vec<u8>, AllocError> {
    let mut records = RecordReader::new(alloc, text);
    let mut row = ByteRecord::new(alloc);
    let mut lines = RecordWriter::new(alloc);
    let outcome = count_fields(&mut records, &mut row, &mut lines);
    drop(records);
    drop(row);
    outcome.map(|()| lines.into_text())
}

#[test]
fn fields_are_counted(rt: HostRuntime) -> Result<(), Fail> {
    let alloc = rt.alloc();
    let input = b"a,b\n\n1,2,3\n".as_slice();
    let text = read_whole(alloc, &mut FromReader::new(input), 1_048_576)?;
    let lines = counts(alloc, &text)?;
    let mut output = Vec::new(alloc);
    write_whole(&mut FromWriter::new(&mut output), &lines)?;
    assert!(rt; output.as_slice() == b"2,fields\n3,fields\n".as_slice());
    Ok(())
}
