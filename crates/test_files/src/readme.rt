//! Samples of the READMEs, each run: their lines stand between marks, and tools/gate/samples.py compares them with the pages.
use csv::ByteRecord;
use dn_files::{PacketReader, read_config, read_packets};
use dn_records::{
    Field, FromReader, FromWriter, RecordReader, RecordWriter, read_whole, write_whole,
};
use std::test::Fail;

#[test]
fn a_configuration_and_its_packets(rt: HostRuntime) -> Result<(), Fail> {
    let alloc = rt.alloc();
    let config = b"pipe 1 config\n\nqueue 2 config pipe 1\n".as_slice();
    let packets = b"moment,target,number,src,dst,proto,sport,dport,len,word\n\
        0,pipe,1,10.0.0.1,10.0.0.2,17,1000,2000,1000,0\n\
        1,\"pipe\",1,10.0.0.1,10.0.0.2,17,1000,2000,1000,0\n"
        .as_slice();
    // In the README of dn_files, 1:
    let commands = read_config(alloc, &mut FromReader::new(config))?;
    let rows = read_packets(alloc, &mut FromReader::new(packets))?;
    // Up to here.
    assert!(rt; commands.len() == 2 && rows.len() == 2);
    let part = packets;
    // In the README of dn_files, 2:
    let mut reader = PacketReader::new(alloc);
    reader.feed(part)?;
    let first = reader.next();
    let last = reader.finish()?;
    // Up to here.
    assert!(rt; first.is_some() && last.len() == 1);
    Ok(())
}

#[test]
fn a_record_is_read_and_written(rt: HostRuntime) -> Result<(), Fail> {
    let alloc = rt.alloc();
    let input = b"a,b\n".as_slice();
    let mut output = Vec::new(alloc);
    // In the README of dn_records, 1:
    let text = read_whole(alloc, &mut FromReader::new(input), 1_048_576)?;
    let mut records = RecordReader::new(alloc, &text);
    let mut row = ByteRecord::new(alloc);
    let is_there = records.read(&mut row)?;
    let mut lines = RecordWriter::new(alloc);
    lines.write(&[Field::Number(row.len() as u128), Field::Text("fields")])?;
    write_whole(&mut FromWriter::new(&mut output), &lines.into_text())?;
    // Up to here.
    assert!(rt; is_there && output.as_slice() == b"2,fields\n".as_slice());
    Ok(())
}
