use dn_replay::{
    FromReader, FromWriter, HashKey, Manner, NoGate, PACKET_LIMIT, Verdict, audit_file_with_key,
    audit_with_key, read_config, read_packets, replay_callers_with_key, replay_files,
    write_history, write_report,
};
use dn_types::Rule;
use std::test::Fail;

#[test]
fn the_example_of_the_readme(rt: HostRuntime) -> Result<(), Fail> {
    let alloc = rt.alloc();
    let key = HashKey(7);
    let config = b"pipe 1 config bw 8Mbit/s\n".as_slice();
    let packets = b"moment,target,number,src,dst,proto,sport,dport,len,word\n\
        0,pipe,1,10.0.0.1,10.0.0.2,17,1000,2000,1000,0\n"
        .as_slice();
    let mut file = Vec::new(alloc);
    let mut output = Vec::new(alloc);
    // In the README of dn_replay, 1:
    let mut out = FromWriter::new(&mut output);
    let manner = Manner {
        key,
        records: true,
        limit: PACKET_LIMIT,
    };
    let (history, outcome) = replay_files(
        alloc,
        manner,
        &mut FromReader::new(config),
        &mut FromReader::new(packets),
        &mut out,
    )?;
    write_report(alloc, 1, &history, &mut out)?;
    // Up to here.
    // In the README of dn_replay, 1, and of dn_history, 1:
    write_history(alloc, &history, &mut FromWriter::new(&mut file))?;
    // Up to here.
    assert!(rt; !outcome.untargeted);
    // In the README of dn_replay, 1, and of dn_history, 4:
    let verdict = audit_with_key(alloc, key, Rule::Ordered, &history)?;
    // Up to here.
    assert!(rt; verdict == Verdict::Lawful);
    // In the README of dn_replay, 1, and of dn_history, 4:
    let same = audit_file_with_key(alloc, key, &mut FromReader::new(file.as_slice()), &mut out)?;
    // Up to here.
    assert!(rt; same == verdict);
    // In the README of dn_replay, 1:
    let rows = read_packets(alloc, &mut FromReader::new(packets))?;
    let commands = read_config(alloc, &mut FromReader::new(config))?;
    // Up to here.
    assert!(rt; history.len() == commands.len() + rows.len() + 1);
    // In the README of dn_replay, 1:
    let shared = replay_callers_with_key(
        &rt,
        alloc,
        key,
        3,
        &mut FromReader::new(config),
        &mut FromReader::new(packets),
        &mut out,
        &NoGate,
    )?;
    // Up to here.
    assert!(rt; shared.len() == history.len());
    let report = "event,row,flow,packet,at,start,due\nout,1,0,0,0,0,1000000\n";
    let written = format!(in alloc; "{report}{report}lawful 3\n{report}")?;
    assert!(rt; output.as_slice() == written.as_bytes());
    assert!(rt; file.starts_with(b"dummynet-history,3\n") && file.ends_with(b"\nend,3\n"));
    Ok(())
}
