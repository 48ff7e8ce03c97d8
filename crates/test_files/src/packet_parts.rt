use dn_files::{PacketReader, ReplayFault, Row, rows_of_text};
use dn_types::{Number, Target};
use std::alloc::Global;
use std::process::Abort;
use std::test::Fail;

const HEADER: &str = "moment,target,number,src,dst,proto,sport,dport,len,word\n";

// Packet files below their header, with the count of their rows or their fault, as the page on packet files tells.
static FILES: [(&str, Result<usize, ReplayFault>); 12] = [
    ("", Ok(0)),
    (
        "0,pipe,1,10.0.0.1,10.0.0.2,17,1000,2000,1000,0\n965,queue,60,255.0.0.1,10.0.0.2,6,1,65535,881,4294967295\n",
        Ok(2),
    ),
    (
        "4611686018427387904,pipe,65535,0.0.0.0,255.255.255.255,0,0,0,1,4294967295",
        Ok(1),
    ),
    (
        "0,pipe,1,10.0.0.1,10.0.0.2,17,1000,2000,1000,0\r\n1,queue,9,10.0.0.1,10.0.0.2,17,1000,2000,1000,0\r\n",
        Ok(2),
    ),
    (
        "0,\"pipe\",1,10.0.0.1,10.0.0.2,17,1000,2000,1000,0\n1,\"queue\",9,10.0.0.1,10.0.0.2,17,1000,2000,1000,0\n",
        Ok(2),
    ),
    (
        "0,pipe,1,10.0.0.1,10.0.0.2,17,1000,2000,1000,0\n\n\n1,pipe,1,10.0.0.1,10.0.0.2,17,1000,2000,1000,0\n",
        Ok(2),
    ),
    (
        "0,pipe,1,10.0.0.1,10.0.0.2,17,1000,2000,1000,0\n\u{feff}1,pipe,1,10.0.0.1,10.0.0.2,17,1000,2000,1000,0\n",
        Err(ReplayFault::BadRow { row: 2, field: 1 }),
    ),
    (
        "0,pipe,1,10.0.0.1,10.0.0.2,17,1000,2000,1000,0\n0,pipe,1,10.0.0.1,10.0",
        Err(ReplayFault::BadRow { row: 2, field: 0 }),
    ),
    (
        "0,pipe,1,10.0.0.1,10.0.0.2,17,1000,2000,1000,0\n00,pipe,1,10.0.0.1,10.0.0.2,17,1000,2000,1000,0\n",
        Err(ReplayFault::BadRow { row: 2, field: 1 }),
    ),
    (
        "4611686018427387905,pipe,1,10.0.0.1,10.0.0.2,17,1000,2000,1000,0\n",
        Err(ReplayFault::BadRow { row: 1, field: 1 }),
    ),
    (
        "0,pipe,1,10.0.0.1,10.0.0.256,17,1000,2000,1000,0\n",
        Err(ReplayFault::BadRow { row: 1, field: 5 }),
    ),
    (
        "0,pipe,1,10.0.0.1,10.0.0.2,17,1000,2000,1000,4294967296\n",
        Err(ReplayFault::BadRow { row: 1, field: 10 }),
    ),
];

// Two rows in each form in which csv may write them: lines that end in a line feed or in a carriage return and a line
// feed, a byte order mark before them, and fields in quotes.
static FORMS: [&str; 6] = [
    "moment,target,number,src,dst,proto,sport,dport,len,word\n7,pipe,1,10.0.0.1,10.0.0.2,17,1000,2000,1000,0\n8,queue,9,1.2.3.4,10.0.0.2,6,1,65535,881,4294967295\n",
    "moment,target,number,src,dst,proto,sport,dport,len,word\r\n7,pipe,1,10.0.0.1,10.0.0.2,17,1000,2000,1000,0\r\n8,queue,9,1.2.3.4,10.0.0.2,6,1,65535,881,4294967295\r\n",
    "\u{feff}moment,target,number,src,dst,proto,sport,dport,len,word\n7,pipe,1,10.0.0.1,10.0.0.2,17,1000,2000,1000,0\n8,queue,9,1.2.3.4,10.0.0.2,6,1,65535,881,4294967295\r\n",
    "\u{feff}moment,target,number,src,dst,proto,sport,dport,len,word\r\n7,pipe,1,10.0.0.1,10.0.0.2,17,1000,2000,1000,0\r\n8,queue,9,1.2.3.4,10.0.0.2,6,1,65535,881,4294967295\n",
    "moment,target,number,src,dst,proto,sport,dport,len,word\n7,\"pipe\",1,\"10.0.0.1\",10.0.0.2,\"17\",1000,2000,1000,\"0\"\n8,queue,9,1.2.3.4,10.0.0.2,6,1,65535,881,4294967295\n",
    "\u{feff}\"moment\",\"target\",\"number\",\"src\",\"dst\",\"proto\",\"sport\",\"dport\",\"len\",\"word\"\r\n\"7\",\"pipe\",\"1\",\"10.0.0.1\",\"10.0.0.2\",\"17\",\"1000\",\"2000\",\"1000\",\"0\"\r\n\"8\",\"queue\",\"9\",\"1.2.3.4\",\"10.0.0.2\",\"6\",\"1\",\"65535\",\"881\",\"4294967295\"\r\n",
];

// The lengths of the parts into which each file is cut.
static SIZES: [usize; 6] = [1, 2, 3, 7, 64, 65_536];

// Appends the rows that a reader has next.
fn take_rows(reader: &mut PacketReader, rows: &mut Vec<Row>) -> Result<(), ReplayFault> {
    while let Some(row) = reader.next() {
        // The prover has to meet the module of this type here.
        let _target = row.target;
        if rows.push(row).is_err() {
            return Err(ReplayFault::OutOfMemory);
        }
    }
    Ok(())
}

// The rows of a text that comes in parts of this length.
fn rows_in_parts(alloc: Global, text: &[u8], size: usize) -> Result<Vec<Row>, ReplayFault> {
    let mut reader = PacketReader::new(alloc);
    let mut rows = Vec::new(alloc);
    for part in text.chunks(size.max(1)) {
        if reader.feed(part).is_err() {
            return Err(ReplayFault::OutOfMemory);
        }
        take_rows(&mut reader, &mut rows)?;
    }
    let last = reader.finish()?;
    if rows.extend_from_slice(last.as_slice()).is_err() {
        return Err(ReplayFault::OutOfMemory);
    }
    Ok(rows)
}

fn check_parts(rt: &impl Abort, alloc: Global, text: &[u8], answer: &Result<usize, ReplayFault>) {
    let whole = rows_of_text(alloc, text);
    assert!(rt; whole.as_ref().map(|rows| rows.len()) == answer.as_ref().map(|count| *count));
    for size in SIZES.iter() {
        assert!(rt;
            rows_in_parts(alloc, text, *size) == whole,
            "parts of {size}"
        );
    }
}

#[test]
fn a_file_in_parts_has_the_rows_of_the_whole(rt: HostRuntime) -> Result<(), Fail> {
    let alloc = rt.alloc();
    for (below, answer) in FILES.iter() {
        let text = format!(in alloc; "{HEADER}{below}")?;
        check_parts(&rt, alloc, text.as_bytes(), answer);
    }
    check_parts(&rt, alloc, b"", &Ok(0));
    check_parts(
        &rt,
        alloc,
        b"moment,target\n",
        &Err(ReplayFault::BadRow { row: 0, field: 0 }),
    );
    Ok(())
}

// The two rows of each form.
fn is_first(row: &Row) -> bool {
    let tuple = &row.packet.tuple;
    row.moment.get() == 7
        && row.target == Target::Pipe(Number::new(1).unwrap())
        && tuple.src == 0x0a00_0001
        && tuple.dst == 0x0a00_0002
        && (tuple.proto, tuple.sport, tuple.dport) == (17, 1_000, 2_000)
        && (row.packet.len.get(), row.packet.word) == (1_000, 0)
}

fn is_second(row: &Row) -> bool {
    let tuple = &row.packet.tuple;
    row.moment.get() == 8
        && row.target == Target::Queue(Number::new(9).unwrap())
        && tuple.src == 0x0102_0304
        && tuple.dst == 0x0a00_0002
        && (tuple.proto, tuple.sport, tuple.dport) == (6, 1, 65_535)
        && (row.packet.len.get(), row.packet.word) == (881, 4_294_967_295)
}

fn are_the_two(rows: &[Row]) -> bool {
    match rows {
        [first, second] => is_first(first) && is_second(second),
        _ => false,
    }
}

// The rows that are taken as they come, and how many are left at the end.
fn rows_before_the_end(alloc: Global, text: &[u8]) -> Result<(Vec<Row>, usize), ReplayFault> {
    let mut reader = PacketReader::new(alloc);
    let mut rows = Vec::new(alloc);
    if reader.feed(text).is_err() {
        return Err(ReplayFault::OutOfMemory);
    }
    take_rows(&mut reader, &mut rows)?;
    let last = reader.finish()?;
    Ok((rows, last.len()))
}

#[test]
fn rows_in_any_form_are_taken_as_they_come(rt: HostRuntime) -> Result<(), Fail> {
    let alloc = rt.alloc();
    for text in FORMS.iter() {
        let (rows, left) = rows_before_the_end(alloc, text.as_bytes())?;
        assert!(rt; are_the_two(rows.as_slice()) && left == 0, "{text}");
        check_parts(&rt, alloc, text.as_bytes(), &Ok(2));
    }
    Ok(())
}
