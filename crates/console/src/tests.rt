// Files that offices might hand in, and what is printed of each.
use crate::reply::Reply;
use crate::reply::owners::OwnersReply;
use std::process::Abort;
use std::test::Fail;

/// The answer to a file is a text.
fn expect(rt: &impl Abort, reply: &mut Reply, file: &[u8], text: &[u8]) {
    reply.answer(file);
    assert!(rt; reply.bytes() == text);
}

#[test]
fn words_and_lines(rt: HostRuntime) -> Result<(), Fail> {
    let cases: [(&[u8], &[u8]); 24] = [
        (b"", b"E m market 8 0 0\n\n"),
        (b"\n", b"E m word 1 1 0\n\n"),
        (b"M 4 3\n", b"E m market 5 2 0\n\n"),
        (b"M 4 3", b"E m market 5 2 0\n\n"),
        (b"M", b"E m line 3 1 0\nM\n"),
        (b"M 4 3 1", b"E m line 3 1 0\nM 4 3 1\n"),
        (b"M 201 3", b"E m line 4 1 1\nM 201 3\n"),
        (b"M 200 41", b"E m line 4 1 2\nM 200 41\n"),
        (b"M 0 0", b"E m line 4 1 1\nM 0 0\n"),
        (b"M 4 03", b"E m word 2 1 2\nM 4 03\n"),
        (b"M 4x 3", b"E m word 2 1 1\nM 4x 3\n"),
        (b"M4 3", b"E m word 2 1 1\nM4 3\n"),
        (b"M 4  3", b"E m word 2 1 2\nM 4  3\n"),
        (b"M 4 3 ", b"E m word 2 1 3\nM 4 3 \n"),
        (b"M 00 3", b"E m word 2 1 1\nM 00 3\n"),
        (b"M 65535 3", b"E m line 4 1 1\nM 65535 3\n"),
        (b"M 65536 3", b"E m word 2 1 1\nM 65536 3\n"),
        (b"M 123456 3", b"E m word 2 1 1\nM 123456 3\n"),
        (b"M 4 3\n\nS 1", b"E m word 1 2 0\n\n"),
        (b"C 4 3", b"E m word 1 1 0\nC 4 3\n"),
        (
            b"M 4 3\nC 3 1 0 0 1 4x",
            b"E m word 2 2 6\nC 3 1 0 0 1 4x\n",
        ),
        (b"\x00", b"E m word 1 1 0\n\x00\n"),
        (b"M 4 3\r\n", b"E m word 2 1 2\nM 4 3\r\n"),
        (b"\xff", b"E m word 1 1 0\n\xff\n"),
    ];
    let mut reply = Reply::with_room(rt.alloc())?;
    for (file, text) in cases {
        expect(&rt, &mut reply, file, text);
    }
    Ok(())
}

#[test]
fn contents_and_sections(rt: HostRuntime) -> Result<(), Fail> {
    let cases: [(&[u8], &[u8]); 34] = [
        (b"M 1 1\nC 1 1 0 0 0 0\nS 1 1\nQ 1", b"ok 1 1\n"),
        (b"M 1 1\nC 1 1 0 0 0 0\nS 1 1\nQ 1\n", b"ok 1 1\n"),
        (
            b"M 2 1\nC 1 0 1 1 1 1\nS 1 200\nP 1 1 2\nH 1 0 0 1\nT 1 2\nR 2",
            b"ok 2 1\n",
        ),
        (b"M 1 1\nC 1 1 0 0 0", b"E m line 3 2 0\nC 1 1 0 0 0\n"),
        (
            b"M 1 1\nC 2 1 0 0 0 0",
            b"E m market 5 2 1\nC 2 1 0 0 0 0\n",
        ),
        (
            b"M 1 1\nC 1 2 0 0 0 0",
            b"E m market 5 2 2\nC 1 2 0 0 0 0\n",
        ),
        (
            b"M 1 1\nC 1 1 1 0 0 0",
            b"E m market 5 2 3\nC 1 1 1 0 0 0\n",
        ),
        (
            b"M 1 1\nC 1 0 0 0 0 0",
            b"E m market 5 2 3\nC 1 0 0 0 0 0\n",
        ),
        (
            b"M 1 1\nC 1 1 0 301 0 0",
            b"E m market 5 2 4\nC 1 1 0 301 0 0\n",
        ),
        (b"M 1 1\nC 1 1 0 300 0 0", b"E m market 5 3 0\n\n"),
        (
            b"M 1 1\nC 1 1 0 0 2 0",
            b"E m market 5 2 5\nC 1 1 0 0 2 0\n",
        ),
        (
            b"M 1 1\nC 1 1 0 0 0 2",
            b"E m market 5 2 6\nC 1 1 0 0 0 2\n",
        ),
        (b"M 1 1\nC 1 1 0 0 0 0\nS 1 1", b"E m market 5 4 0\n\n"),
        (
            b"M 1 1\nC 1 1 0 0 0 0\nS 1 1\nQ 1\nZ 0x",
            b"E m market 5 5 0\nZ 0x\n",
        ),
        (
            b"M 1 1\nC 1 1 0 0 0 0\nS 1 1\nQ 1\n\n",
            b"E m market 5 5 0\n\n",
        ),
        (
            b"M 1 1\nC 1 1 0 0 0 0\nQ 1\nS 1 1",
            b"E m word 1 3 0\nQ 1\n",
        ),
        (
            b"M 1 1\nC 1 1 0 0 0 0\nS 1 201",
            b"E m line 4 3 2\nS 1 201\n",
        ),
        (
            b"M 1 1\nC 1 1 0 0 0 0\nS 2 201",
            b"E m line 4 3 1\nS 2 201\n",
        ),
        (
            b"M 1 1\nC 1 1 0 0 0 0\nS 1 1\nQ 1 1",
            b"E m line 3 4 0\nQ 1 1\n",
        ),
        (
            b"M 1 1\nC 1 1 0 0 0 0\nS 1 1\nQ 2",
            b"E m line 4 4 1\nQ 2\n",
        ),
        (
            b"M 1 1\nC 1 1 0 1 0 0\nS 1 1\nQ 1\nH 1 301 0 1",
            b"E m line 4 5 2\nH 1 301 0 1\n",
        ),
        (
            b"M 1 1\nC 1 1 0 1 0 0\nS 1 1\nQ 1\nH 1 0 2 1",
            b"E m line 4 5 3\nH 1 0 2 1\n",
        ),
        (
            b"M 1 1\nC 1 1 0 1 0 0\nS 1 1\nQ 1\nH 1 0 0 0",
            b"E m line 4 5 4\nH 1 0 0 0\n",
        ),
        (
            b"M 1 1\nC 1 1 0 0 1 0\nS 1 1\nQ 1\nT 1 2",
            b"E m line 4 5 2\nT 1 2\n",
        ),
        (
            b"M 1 1\nC 1 1 0 0 0 1\nS 1 1\nQ 1\nR",
            b"E m line 3 5 0\nR\n",
        ),
        (
            b"M 1 1\nC 1 1 0 0 0 1\nS 1 1\nQ 1\nR 1 1 1",
            b"E m line 3 5 0\nR 1 1 1\n",
        ),
        (b"M 1 1\nC 1 1 0 0 0 0\nS 1\nQ 0", b"E m line 3 3 0\nS 1\n"),
        (
            b"M 1 1\nC 1 1 0 0 0 0\nS 1 1 \nQ 0",
            b"E m word 2 3 3\nS 1 1 \n",
        ),
        (b"M 1 1\nC 1 1 0 0 0 0\nS 2 x", b"E m word 2 3 2\nS 2 x\n"),
        (
            b"M 2 1\nC 1 0 1 0 0 0\nS 1 1\nP 1 1",
            b"E m line 3 4 0\nP 1 1\n",
        ),
        (
            b"M 2 1\nC 1 0 1 0 0 0\nS 1 1\nP 2 3 1",
            b"E m line 4 4 1\nP 2 3 1\n",
        ),
        (
            b"M 2 1\nC 1 0 1 0 0 0\nS 1 1\nP 1 1 3",
            b"E m line 4 4 3\nP 1 1 3\n",
        ),
        (
            b"M 1 1\nC 1 1 0 1 0 0\nS 1 1\nQ 1\nH 1 0 0",
            b"E m line 3 5 0\nH 1 0 0\n",
        ),
        (
            b"M 1 1\nC 1 1 0 0 1 0\nS 1 1\nQ 1\nT 1 1 1",
            b"E m line 3 5 0\nT 1 1 1\n",
        ),
    ];
    let mut reply = Reply::with_room(rt.alloc())?;
    for (file, text) in cases {
        expect(&rt, &mut reply, file, text);
    }
    Ok(())
}

#[test]
fn names(rt: HostRuntime) -> Result<(), Fail> {
    let cases: [(&[u8], &[u8]); 15] = [
        (
            b"M 2 2\nC 2 1 0 0 0 0\nS 1 1\nS 1 2",
            b"E m market 6 4 1\nS 1 2\n",
        ),
        (
            b"M 2 1\nC 1 1 0 0 0 0\nS 1 1\nQ 2 2",
            b"E m market 6 4 2\nQ 2 2\n",
        ),
        (
            b"M 3 1\nC 1 1 0 0 0 0\nS 1 1\nQ 1 1 4",
            b"E m line 4 4 3\nQ 1 1 4\n",
        ),
        (
            b"M 2 2\nC 2 0 2 0 0 0\nS 1 1\nS 2 2\nP 1 1 1",
            b"E m market 6 5 3\nP 1 1 1\n",
        ),
        (
            b"M 2 2\nC 2 0 2 0 0 0\nS 1 1\nS 2 2\nP 1 1 2\nP 1 2 2",
            b"E m market 6 6 1\nP 1 2 2\n",
        ),
        (
            b"M 2 2\nC 2 0 2 0 2 0\nS 1 1\nS 2 2\nP 1 1 2\nP 2 2 1\nT 1 1\nT 1 2",
            b"E m market 6 8 1\nT 1 2\n",
        ),
        (
            b"M 2 2\nC 2 1 0 0 2 0\nS 2 1\nS 1 2\nQ 2 1\nT 2 1\nT 1 1",
            b"ok 2 2\n",
        ),
        (
            b"M 1 2\nC 2 1 0 1 0 0\nS 1 1\nS 2 2\nQ 1\nH 1 0 1 1",
            b"E m market 7 6 2\nH 1 0 1 1\n",
        ),
        (
            b"M 1 2\nC 2 1 0 1 0 0\nS 1 1\nS 2 2\nQ 1\nH 1 1 0 1",
            b"E m market 7 6 2\nH 1 1 0 1\n",
        ),
        (
            b"M 1 2\nC 2 1 0 2 0 0\nS 1 1\nS 2 2\nQ 1\nH 1 0 0 1\nH 2 1 0 1",
            b"E m market 7 7 2\nH 2 1 0 1\n",
        ),
        (
            b"M 1 2\nC 2 1 0 2 0 0\nS 1 1\nS 2 2\nQ 1\nH 1 0 0 1\nH 1 0 0 1",
            b"E m market 6 7 1\nH 1 0 0 1\n",
        ),
        (
            b"M 1 2\nC 2 1 0 3 0 0\nS 1 1\nS 2 2\nQ 1\nH 1 0 0 1\nH 1 1 2 1\nH 1 2 0 1",
            b"ok 1 2\n",
        ),
        (
            b"M 2 2\nC 2 1 0 0 0 2\nS 1 1\nS 2 2\nQ 1 2\nR 1 2 2",
            b"E m market 6 6 3\nR 1 2 2\n",
        ),
        (
            b"M 2 2\nC 2 1 0 0 0 2\nS 1 1\nS 2 2\nQ 1 2\nR 1 2 1\nR 1",
            b"E m market 6 7 1\nR 1\n",
        ),
        (
            b"M 2 2\nC 2 1 0 0 0 2\nS 1 1\nS 2 2\nQ 1 2\nR 2 2 1\nR 1",
            b"ok 2 2\n",
        ),
    ];
    let mut reply = Reply::with_room(rt.alloc())?;
    for (file, text) in cases {
        expect(&rt, &mut reply, file, text);
    }
    Ok(())
}

#[test]
fn sizes(rt: HostRuntime) -> Result<(), Fail> {
    let mut reply = Reply::with_room(rt.alloc())?;
    let mut file = Vec::new(rt.alloc());
    file.extend_from_slice(b"M 1 1\n")?;
    file.resize(65_535, b'\n')?;
    assert!(rt; file.len() == 65_535);
    expect(&rt, &mut reply, file.as_slice(), b"E m word 1 2 0\n\n");
    file.push(b'\n')?;
    expect(&rt, &mut reply, file.as_slice(), b"E m market 8 0 0\n\n");
    Ok(())
}

#[test]
fn owners_while_everybody_waits(rt: HostRuntime) -> Result<(), Fail> {
    let cases: [(&[u8], &[u8]); 10] = [
        (b"M 1 1\nC 1 1 0 0 0 0\nS 1 1\nQ 1", b"ok 1 1\nowner 1 1\n"),
        (
            b"M 1 1\nC 1 1 0 0 0 0\nS 1 1\nQ 1\n",
            b"ok 1 1\nowner 1 1\n",
        ),
        (
            b"M 2 1\nC 1 0 1 1 1 1\nS 1 200\nP 1 1 2\nH 1 0 0 1\nT 1 2\nR 2",
            b"ok 2 1\nowner 1 2\n",
        ),
        (
            b"M 2 2\nC 2 1 0 0 2 0\nS 2 1\nS 1 2\nQ 2 1\nT 2 1\nT 1 1",
            b"ok 2 2\nowner 1 1\nowner 2 1\n",
        ),
        (
            b"M 1 2\nC 2 1 0 3 0 0\nS 1 1\nS 2 2\nQ 1\nH 1 0 0 1\nH 1 1 2 1\nH 1 2 0 1",
            b"ok 1 2\nowner 1 1\nowner 2 1\n",
        ),
        (
            b"M 2 2\nC 2 1 0 0 0 2\nS 1 1\nS 2 2\nQ 1 2\nR 2 2 1\nR 1",
            b"ok 2 2\nowner 1 1\nowner 2 1\n",
        ),
        (
            b"M 4 3\nC 3 1 0 0 1 4\nS 1 1\nS 2 1\nS 3 2\nQ 1 2 3 4\nT 2 3\nR 1 2 1\nR 2 1 3\nR 3 1 2\nR 4 1",
            b"ok 4 3\nowner 1 1\nowner 2 3\nowner 3 1\n",
        ),
        (
            b"M 3 2\nC 2 0 2 0 0 0\nS 1 1\nS 2 1\nP 2 2 1 3\nP 1 3 1 2",
            b"ok 3 2\nowner 1 3\nowner 2 2\n",
        ),
        (
            b"M 4 3\nC 3 1 0 2 0 0\nS 1 2\nS 2 1\nS 3 1\nQ 2 1 4 3\nH 1 0 0 1\nH 3 0 0 4",
            b"ok 4 3\nowner 1 1\nowner 2 2\nowner 3 4\n",
        ),
        (
            b"M 4 3\nC 3 1 0 2 2 0\nS 1 2\nS 2 1\nS 3 1\nQ 2 1 4 3\nH 1 0 0 1\nH 3 0 0 4\nT 2 3\nT 3 3",
            b"ok 4 3\nowner 1 1\nowner 2 3\nowner 3 3\n",
        ),
    ];
    let mut reply = OwnersReply::with_room(rt.alloc())?;
    for (file, text) in cases {
        reply.answer(file);
        assert!(rt; reply.bytes() == text);
    }
    Ok(())
}
